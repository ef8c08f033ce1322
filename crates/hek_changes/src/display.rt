//! Changes as text for people: the rows of the rules that a change is made of, in their order. Faults and lacks as reasons.
use crate::change::{BeginChange, EndChange};
use crate::holders::HolderFault;
use crate::lack::Lack;
use std::fmt;

/// Writes `stamped` or `voided`.
impl fmt::Display for BeginChange {
    fn fmt<W: fmt::Write>(&self, f: &mut fmt::Formatter<W>) -> fmt::Result {
        let text = match self {
            BeginChange::Stamped => "stamped",
            BeginChange::Voided => "voided",
        };
        write!(f, "{text}")
    }
}

/// Writes one word for each row, as `cleared reader-came`.
impl fmt::Display for EndChange {
    fn fmt<W: fmt::Write>(&self, f: &mut fmt::Formatter<W>) -> fmt::Result {
        let text = match self {
            EndChange::ReaderCame => "reader-came",
            EndChange::ReaderWent => "reader-went",
            EndChange::WriterCame => "writer-came",
            EndChange::WriterWent => "writer-went",
            EndChange::Cleared => "cleared",
            EndChange::Stamped => "stamped",
            EndChange::ClearedThenRead => "cleared reader-came",
            EndChange::ClearedThenWritten => "cleared writer-came",
            EndChange::ReaderBecameWriter => "reader-went writer-came",
            EndChange::ClearedThenReaderBecameWriter => "cleared reader-went writer-came",
        };
        write!(f, "{text}")
    }
}

/// Writes the reason, as `the writer is not over`.
impl fmt::Display for HolderFault {
    fn fmt<W: fmt::Write>(&self, f: &mut fmt::Formatter<W>) -> fmt::Result {
        let text = match self {
            HolderFault::WriterLives => "another transaction writes it and is not over",
            HolderFault::NeverCame => "the transaction goes and never came",
            HolderFault::CameTwice => "the transaction read-locks it already",
            HolderFault::IsOver => "the transaction is over and takes a lock",
        };
        write!(f, "{text}")
    }
}

/// Writes the reason, as `NoMoreReadLocks is set`.
impl fmt::Display for Lack {
    fn fmt<W: fmt::Write>(&self, f: &mut fmt::Formatter<W>) -> fmt::Result {
        let text = match self {
            Lack::IsWriter => "the writer holds no read lock beside its write lock",
            Lack::IsNotWriter => "the transaction is not the writer",
            Lack::HasWriter => "the version has a writer",
            Lack::HasNoWriter => "the version has no writer",
            Lack::HasNoReader => "the version has no reader",
            Lack::HasReaders => "the version has readers",
            Lack::IsFull => "the version has 255 readers",
            Lack::NoMoreReads => "NoMoreReadLocks is set",
            Lack::HasEnded => "the version has ended",
            Lack::IsNotDrawn => "no transaction draws that time",
            Lack::IsNoTxn => "no transaction has that number",
        };
        write!(f, "{text}")
    }
}
