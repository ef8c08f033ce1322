//! The records of a version's two words (sections 2 and 4 of the paper: the fields of a version, record locks).
use crate::id::{Time, TxnId};

/// The content of a Begin word: the time from which the version is valid, or the transaction that made it.
#[derive(Clone, Copy, Debug, PartialEq, Eq)]
pub enum BeginRecord {
    At(Time),
    By(TxnId),
}

/// The content of an End word: the time until which the version is valid, or a record lock. The latest version has the
/// time infinity while no transaction holds it.
#[derive(Clone, Copy, Debug, PartialEq, Eq)]
pub enum EndRecord {
    Until(Time),
    /// ReadLockCount, WriteLock and NoMoreReadLocks.
    Lock {
        readers: u8,
        writer: Option<TxnId>,
        no_more: bool,
    },
}

/// What a reader leaves when it goes: more readers, a free version, or a writer that no longer waits for a reader of
/// this version.
#[derive(Clone, Copy, Debug, PartialEq, Eq)]
pub enum Dropped {
    More,
    Free,
    Last(TxnId),
}

/// A change of one record lock by a transaction: it comes or goes, as a reader or as the writer.
#[derive(Clone, Copy)]
pub enum LockChange {
    AddReader,
    DropReader,
    TakeWriter(TxnId),
    ClearWriter,
}
