//! Results of the checks that come before a rule.
use crate::event::Cause;
use crate::reply::Refusal;

/// The result of an event's checks: a refusal, an abort, the cause of an earlier abort, or a pass to the event's rule.
#[derive(Clone, Copy, Debug, PartialEq, Eq)]
pub enum Check {
    Refused(Refusal),
    /// AbortNow is set: the transaction aborts now, by the cause `Cascade`.
    Doomed,
    /// The transaction has aborted before, by this cause.
    StillAborted(Cause),
    Passed,
}
