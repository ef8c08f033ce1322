//! The changes that lead from a word to the next.

/// A change of a Begin word by the transaction that made the version.
#[derive(Clone, Copy)]
pub enum BeginChange {
    /// The maker has committed: the word is its end time.
    Stamped,
    /// The maker has aborted: the version never begins.
    Voided,
}

/// A change of an End word by a transaction. Those from `ClearedThenRead` on are more changes in one exchange.
#[derive(Clone, Copy)]
pub enum EndChange {
    ReaderCame,
    ReaderWent,
    WriterCame,
    /// The transaction is the writer, and gives the word back.
    WriterWent,
    /// The name of another writer, which has aborted, is taken out.
    Cleared,
    /// The transaction is the writer and has committed: the word is its end time.
    Stamped,
    ClearedThenRead,
    ClearedThenWritten,
    /// The transaction gives up its own read lock for the write lock.
    ReaderBecameWriter,
    ClearedThenReaderBecameWriter,
}
