//! The reasons of a reply, as values.
use crate::items::Items;
use hek_rules::{Cause, Refusal, Sight, State, Time, TxnId, VersionId};
use hek_word::{BeginWord, EndWord};

/// What a transaction met at the version where it was stopped.
#[derive(Clone, Copy, Debug, PartialEq, Eq)]
pub enum Met {
    /// The writer of the version.
    Writer(TxnId),
    /// The transaction that made the version.
    Creator(TxnId),
    /// The time at which the version ended.
    EndedAt(Time),
    /// The time at which the version was made.
    MadeAt(Time),
    /// The readers of the version: how many there are, 0 to 255.
    Readers(u8),
}

/// The phase that an event wants its transaction to be in.
#[derive(Clone, Copy, Debug, PartialEq, Eq)]
pub enum Phase {
    NotBegun,
    /// Active, and not finished.
    Open,
    /// Active, and finished.
    Finished,
    Preparing,
    /// Active or preparing.
    Live,
    /// Preparing, committed or aborted.
    Releasing,
    /// Committed or aborted.
    Over,
}

/// One reason of a reply.
#[derive(Debug, Drop)]
pub enum Reason {
    /// The transaction waits: it writes this version, and these transactions read-lock it (section 4 of the paper:
    /// record locks).
    ReadLocked {
        version: VersionId,
        readers: Items<TxnId>,
    },
    /// The transaction waits: it is in the WaitingTxnList of the holder (section 4 of the paper: wait-for
    /// dependencies). The bucket is the first that the holder locks and in which the transaction made a version; None
    /// once the holder has given that bucket back.
    Listed {
        holder: TxnId,
        bucket: Option<u64>,
    },
    /// The transaction's commit depends on this one's (section 2 of the paper: commit dependencies).
    Depends(TxnId),
    /// The walk came to this version, and the transaction saw this of it (section 2 of the paper: version visibility).
    /// A reply about a key goes by the last version of it that was seen.
    Looked {
        version: VersionId,
        sight: Sight,
    },
    /// The transaction was stopped at this version, by this cause, and met this there.
    Stopped {
        version: VersionId,
        cause: Cause,
        met: Met,
    },
    /// The transaction depended on this one, which has aborted.
    DoomedBy(TxnId),
    /// The transaction had aborted before this event, by this cause.
    AbortedBefore(Cause),
    /// The waiter, a member of the cycle, waits for the next member: because of this version, which the waiter writes
    /// and the next member read-locks, or, if there is none, because it is in the next member's WaitingTxnList.
    WaitsFor {
        waiter: TxnId,
        next: TxnId,
        version: Option<VersionId>,
    },
    /// The event is for a transaction in this phase, and its transaction is in another state.
    Refused {
        refusal: Refusal,
        phase: Phase,
        state: State,
        finished: bool,
    },
    /// How many read locks, buckets, waiters and written words the transaction has left to give back or to stamp.
    Holds {
        reads: usize,
        buckets: usize,
        waiters: usize,
        writes: usize,
    },
    /// The Begin word of a version before and after the event.
    Begin {
        version: VersionId,
        before: BeginWord,
        after: BeginWord,
    },
    /// The End word of a version before and after the event.
    End {
        version: VersionId,
        before: EndWord,
        after: EndWord,
    },
}
