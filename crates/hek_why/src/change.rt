//! Changes from one state of a machine to another, as values.
use crate::items::Items;
use hek_rules::{State, Time, TxnId, VersionId, WriteEntry};
use hek_word::{BeginWord, EndWord};

/// One thing in which two states of a machine differ: its value in the first one, and in the second.
#[derive(Debug, Drop)]
pub enum Change {
    /// The clock.
    Clock(Time, Time),
    /// The Begin word of a version.
    Begin {
        version: VersionId,
        before: BeginWord,
        after: BeginWord,
    },
    /// The End word of a version.
    End {
        version: VersionId,
        before: EndWord,
        after: EndWord,
    },
    /// A version that the first state doesn't have.
    NewVersion {
        version: VersionId,
        key: u64,
        value: u64,
        begin: BeginWord,
        end: EndWord,
    },
    /// A field of a transaction.
    Txn {
        txn: TxnId,
        change: TxnChange,
    },
    /// LockCount of a bucket.
    LockCount {
        bucket: u64,
        before: usize,
        after: usize,
    },
    /// LockList of a bucket.
    LockList {
        bucket: u64,
        before: Items<TxnId>,
        after: Items<TxnId>,
    },
}

/// A field of a transaction that differs: its value in the first state, and in the second.
#[derive(Debug, Drop)]
pub enum TxnChange {
    State(State, State),
    /// The begin time, 0 until it is drawn.
    BeginTime(Time, Time),
    /// The end time, 0 until it is drawn.
    EndTime(Time, Time),
    /// WaitForCounter.
    Waits(u64, u64),
    /// CommitDepCounter.
    CommitDeps(u64, u64),
    /// NoMoreWaitFors.
    NoMoreWaits(bool, bool),
    AbortNow(bool, bool),
    /// The read set.
    Reads(Items<VersionId>, Items<VersionId>),
    /// The write set.
    Writes(Items<WriteEntry>, Items<WriteEntry>),
    /// The bucket set.
    Buckets(Items<u64>, Items<u64>),
    /// WaitingTxnList.
    Waiting(Items<TxnId>, Items<TxnId>),
    /// CommitDepSet.
    Dependents(Items<TxnId>, Items<TxnId>),
}
