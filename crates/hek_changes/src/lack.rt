//! What keeps a transaction from a change of an End word.

/// Why a change of an End word by a transaction isn't allowed (section 4 of the paper: record locks).
#[derive(Clone, Copy)]
pub enum Lack {
    /// The transaction is the writer, and a writer holds no read lock.
    IsWriter,
    /// The transaction isn't the writer.
    IsNotWriter,
    /// The version has a writer.
    HasWriter,
    /// The version has no writer.
    HasNoWriter,
    /// The version has no reader.
    HasNoReader,
    /// The version has readers.
    HasReaders,
    /// The version has 255 readers.
    IsFull,
    /// NoMoreReadLocks is set.
    NoMoreReads,
    /// The version has ended: its word is a time.
    HasEnded,
    /// No transaction draws such a time.
    IsNotDrawn,
    /// No transaction has such an ID.
    IsNoTxn,
}
