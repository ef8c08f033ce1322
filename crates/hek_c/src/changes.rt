//! Which change leads from a word to the next, and the words after the end of a transaction.
ghost use Rattle.std.specs.Prelude.{◌≡◌};
ghost use Rattle.std.specs.Option.{option_map_or};
ghost use Rattle.hek_c.specs.Changes.{begin_change_number, end_change_number, IsBeginAnswer, IsEndAnswer};

use hek_changes::{BeginChange, EndChange, begin_change, end_change};
use hek_rules::TxnId;

/// The answer if no change leads from one word to the other.
const NO_CHANGE: u32 = 0;

/// The number of the change by this transaction that leads from the Begin word `old` to the Begin word `new`; 0 if none
/// does, or if one of them is no Begin word.
#[unsafe(no_mangle)]
pub extern "C" fn hek_begin_change(old: u64, new: u64, txn: u64) -> u32
    ensures { IsBeginAnswer txn old new result }
{
    begin_number(begin_change(old, new, TxnId::new(txn)))
}

fn begin_number(found: Option<BeginChange>) -> u32
    ensures { result ≡ option_map_or begin_change_number found 0 }
{
    match found {
        None => NO_CHANGE,
        Some(BeginChange::Stamped) => 1,
        Some(BeginChange::Voided) => 2,
    }
}

/// The number of the change by this transaction that leads from the End word `old` to the End word `new`; 0 if none does,
/// or if one of them is no End word.
#[unsafe(no_mangle)]
pub extern "C" fn hek_end_change(old: u64, new: u64, txn: u64) -> u32
    ensures { IsEndAnswer txn old new result }
{
    end_number(end_change(old, new, TxnId::new(txn)))
}

/// The number of a change that was looked for; 0 if none was found.
fn end_number(found: Option<EndChange>) -> u32
    ensures { result ≡ option_map_or end_change_number found 0 }
{
    match found {
        None => NO_CHANGE,
        Some(change) => number_of(change),
    }
}

/// The number of a change in the header.
pub(crate) fn number_of(change: EndChange) -> u32
    ensures { result ≡ end_change_number change }
{
    match change {
        EndChange::ReaderCame => 1,
        EndChange::ReaderWent => 2,
        EndChange::WriterCame => 3,
        EndChange::WriterWent => 4,
        EndChange::Cleared => 5,
        EndChange::Stamped => 6,
        EndChange::ClearedThenRead => 7,
        EndChange::ClearedThenWritten => 8,
        EndChange::ReaderBecameWriter => 9,
        EndChange::ClearedThenReaderBecameWriter => 10,
    }
}
