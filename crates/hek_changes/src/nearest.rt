//! What comes nearest to an exchange that is no change.
ghost use Rattle.std.specs.Prelude.{IfSome};
ghost use Rattle.hek_changes.specs.Lacks.{IsNearest};

use crate::change::EndChange;
use crate::intended::intended;
use crate::lack::Lack;
use crate::left::{left_by, stamp_lack};
use hek_rules::TxnId;
use hek_word::{EndWord, decode_end};

/// A change that comes nearest to an exchange: the word that it leaves, or what keeps the transaction from it.
#[derive(Clone, Copy)]
pub struct Nearest {
    pub change: EndChange,
    pub left: Result<EndWord, Lack>,
}

/// The change of an End word by this transaction that comes nearest to an exchange which is none. None if the number `old` is no
/// End word.
pub fn nearest_change(old: u64, new: u64, txn: TxnId) -> Option<Nearest>
    ensures { IfSome result (IsNearest txn old) }
{
    let before = EndWord::read(old)?;
    let change = intended(before, decode_end(new), txn);
    let left = match change {
        EndChange::Stamped => Err(stamp_lack(before, txn)),
        change => left_by(change, before, txn),
    };
    Some(Nearest { change, left })
}
