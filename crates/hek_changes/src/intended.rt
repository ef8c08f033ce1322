//! The one change that can lead from a word to a record.
ghost use Rattle.std.specs.Prelude.{◌≡◌, ◌≢◌, ℕ, Bool, Some, None};
ghost use Rattle.hek_rules.specs.Words.{writer_of};
ghost use Rattle.hek_rules.specs.declared.word.EndRecord.TheVariants.{Until, Lock};
ghost use Rattle.hek_changes.specs.declared.change.EndChange.{EndChange as SpecChange};
ghost use Rattle.hek_changes.specs.Changes.{EndLeads};

use crate::change::EndChange;
use hek_rules::{EndRecord, Time, TxnId};
use hek_word::EndWord;

/// The change that a transaction makes if it leaves this record: no other change of it leads there.
pub(crate) fn intended(before: EndWord, after: EndRecord, txn: TxnId) -> EndChange
    ensures { (c : SpecChange) → EndLeads txn c before after → result ≡ c }
{
    match after {
        EndRecord::Until(time) => intended_time(before, time, txn),
        EndRecord::Lock {
            readers,
            writer,
            ..
        } => match before.writer() {
            None => unwritten(before, readers, writer, txn),
            Some(old) => written(before, old, readers, writer, txn),
        },
    }
}

/// The change that leaves a time: nobody holds the version, or it has ended.
fn intended_time(before: EndWord, time: Time, txn: TxnId) -> EndChange
    ensures { (c : SpecChange) → EndLeads txn c before (Until time) → result ≡ c }
{
    if time.number() != Time::INFINITY {
        return EndChange::Stamped;
    }
    let Some(writer) = before.writer() else {
        return EndChange::ReaderWent;
    };
    if writer.number() == txn.number() {
        EndChange::WriterWent
    } else {
        EndChange::Cleared
    }
}

/// The change that leads from a word without writer to a lock.
fn unwritten(before: EndWord, readers: u8, writer: Option<TxnId>, txn: TxnId) -> EndChange
    requires { writer_of before ≡ None }
    ensures { (c : SpecChange) (no_more : Bool) → EndLeads txn c before (Lock readers writer no_more) → result ≡ c }
{
    match writer {
        None if readers > before.readers() => EndChange::ReaderCame,
        None => EndChange::ReaderWent,
        Some(_) if readers < before.readers() => EndChange::ReaderBecameWriter,
        Some(_) => EndChange::WriterCame,
    }
}

/// The change that leads from a word with a writer to a lock.
fn written(before: EndWord, old: TxnId, readers: u8, writer: Option<TxnId>, txn: TxnId) -> EndChange
    requires { writer_of before ≡ Some old }
    ensures { (c : SpecChange) (no_more : Bool) → EndLeads txn c before (Lock readers writer no_more) → result ≡ c }
{
    match writer {
        None if old.number() == txn.number() => EndChange::WriterWent,
        None if readers > before.readers() => EndChange::ClearedThenRead,
        None => EndChange::Cleared,
        Some(new) if new.number() == old.number() => {
            if readers > before.readers() {
                EndChange::ReaderCame
            } else {
                EndChange::ReaderWent
            }
        }
        Some(_) if readers < before.readers() => EndChange::ClearedThenReaderBecameWriter,
        Some(_) => EndChange::ClearedThenWritten,
    }
}
