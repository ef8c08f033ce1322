//! Which row of the table of replies a step has.
use crate::reply_rules as rules;
use crate::reply_rules::ReplyRule;
use hek_rules::{Cause, Event, Refusal, Reply, State};
use hek_why::{Met, Reason, Step};

/// The row of a step's reply. `reasons` are the step's own: the last one decides which row an abort or a refusal has.
pub fn reply_rule(step: &Step<'_>, reasons: &[Reason]) -> &'static ReplyRule {
    match step.reply {
        Reply::Aborted(cause) => abort_rule(*cause, reasons.last()),
        Reply::Refused(refusal) => refusal_rule(*refusal, reasons.last()),
        Reply::StampedBegin(_) | Reply::StampedEnd(_) => stamp_rule(step),
        reply => plain_rule(&step.event, reply),
    }
}

fn abort_rule(cause: Cause, reason: Option<&Reason>) -> &'static ReplyRule {
    match reason {
        Some(Reason::AbortedBefore(_)) => rules::ABORTED_AGAIN,
        Some(Reason::Stopped { met, .. }) => stop_rule(cause, *met),
        _ => cause_rule(cause),
    }
}

/// The row of an abort by something that a walk, or an insert, met.
fn stop_rule(cause: Cause, met: Met) -> &'static ReplyRule {
    match (cause, met) {
        (Cause::Conflict, Met::Creator(_)) => rules::CLAIMED,
        (Cause::Conflict, Met::MadeAt(_)) => rules::MADE_LATER,
        (Cause::NoMoreWaits, Met::Creator(_)) => rules::FINISHED_CREATOR,
        _ => cause_rule(cause),
    }
}

fn cause_rule(cause: Cause) -> &'static ReplyRule {
    match cause {
        Cause::Conflict => rules::WRITE_CONFLICT,
        Cause::NoMoreReads => rules::NO_MORE_READS,
        Cause::ReadersFull => rules::READERS_FULL,
        Cause::NoMoreWaits => rules::FIRST_READER,
        Cause::Deadlock => rules::DEADLOCK,
        Cause::Cascade => rules::CASCADE,
        Cause::Asked => rules::ASKED,
    }
}

fn refusal_rule(refusal: Refusal, reason: Option<&Reason>) -> &'static ReplyRule {
    match (refusal, reason) {
        (Refusal::UnknownTxn, _) => rules::UNKNOWN_TXN,
        (Refusal::NotBegun, _) => rules::NOT_BEGUN,
        (Refusal::BegunTwice, _) => rules::BEGUN_TWICE,
        (Refusal::Ended, _) => rules::ENDED,
        (Refusal::WrongPhase, Some(Reason::Holds { .. })) => rules::SOMETHING_LEFT,
        (Refusal::WrongPhase, _) => rules::WRONG_PHASE,
        (Refusal::ClockFull, _) => rules::CLOCK_FULL,
    }
}

/// The row of a stamp: a committed transaction writes its end time, an aborted one takes its name out.
fn stamp_rule(step: &Step<'_>) -> &'static ReplyRule {
    let is_begin = matches!(step.reply, Reply::StampedBegin(_));
    match (is_aborted(step), is_begin) {
        (false, true) => rules::STAMPED_BEGIN,
        (false, false) => rules::STAMPED_END,
        (true, true) => rules::UNMADE_BEGIN,
        (true, false) => rules::CLEARED_END,
    }
}

/// Whether the transaction of a step had aborted before it.
fn is_aborted(step: &Step<'_>) -> bool {
    match step.event.txn() {
        Some(t) if step.before.is_declared(t) => {
            matches!(step.before.state(t), State::Aborted(_))
        }
        _ => false,
    }
}

/// The row of a reply that is no abort, refusal or stamp.
fn plain_rule(event: &Event, reply: &Reply) -> &'static ReplyRule {
    match reply {
        Reply::Began(_) => rules::BEGAN,
        Reply::Found(_) => rules::FOUND,
        Reply::Rows(_) => rules::ROWS,
        Reply::Exists => rules::EXISTS,
        Reply::Ready => rules::READY,
        Reply::Waiting(_) => rules::WAITING,
        Reply::Precommitted(_) => rules::PRECOMMITTED,
        Reply::Committed => rules::COMMITTED,
        Reply::WaitingCommits(_) => rules::WAITING_COMMITS,
        Reply::Failed => rules::FAILED,
        Reply::Left(_) => rules::LEFT,
        Reply::Over => rules::OVER,
        Reply::NoCycle => rules::NO_CYCLE,
        Reply::Victim(..) => rules::VICTIM,
        Reply::Done => done_rule(event),
        Reply::Absent => absent_rule(event),
        _ => release_rule(event, reply),
    }
}

fn done_rule(event: &Event) -> &'static ReplyRule {
    match event {
        Event::Insert(..) => rules::INSERTED,
        Event::Update(..) => rules::UPDATED,
        _ => rules::DELETED,
    }
}

fn absent_rule(event: &Event) -> &'static ReplyRule {
    match event {
        Event::Update(..) => rules::UPDATE_NONE,
        Event::Delete(..) => rules::DELETE_NONE,
        _ => rules::READ_NONE,
    }
}

fn release_rule(event: &Event, reply: &Reply) -> &'static ReplyRule {
    match reply {
        Reply::ReleasedRead(_, Some(_)) => rules::RELEASED_LAST_READ,
        Reply::ReleasedRead(_, None) => rules::RELEASED_READ,
        Reply::ReleasedBucket(_) => rules::RELEASED_BUCKET,
        Reply::ReleasedWaiter(_) => rules::RELEASED_WAITER,
        _ => nothing_rule(event),
    }
}

fn nothing_rule(event: &Event) -> &'static ReplyRule {
    match event {
        Event::Stamp(_) => rules::NOTHING_TO_STAMP,
        _ => rules::NOTHING_TO_RELEASE,
    }
}
