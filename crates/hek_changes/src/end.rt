//! Changes of End words.
ghost use Rattle.std.specs.Prelude.{◌≡◌, ℕ, ◌↔◌, ◌<◌, Some, IsTrue};
ghost use Rattle.hek_changes.specs.declared.change.EndChange.{EndChange as SpecChange};
ghost use Rattle.hek_changes.specs.Changes.{EndLeads, IsEndChange, IsStamped};

use crate::change::EndChange;
use crate::intended::intended;
use crate::left::left_by;
use hek_rules::{Time, TxnId};
use hek_word::EndWord;

/// The change of an End word by this transaction that leads from the number `old` to the number `new`. None if none does, or if one
/// of them is no End word.
#[tactic(auto, using(crate::proofs::WordLaws::not_old_end, crate::proofs::WordLaws::not_new_end, crate::proofs::WordLaws::end_found))]
pub fn end_change(old: u64, new: u64, txn: TxnId) -> Option<EndChange>
    ensures { IsEndChange txn old new result }
{
    let before = EndWord::read(old)?;
    let after = EndWord::read(new)?;
    change_of_words(before, after, txn)
}

fn change_of_words(before: EndWord, after: EndWord, txn: TxnId) -> Option<EndChange>
    ensures { (c : SpecChange) → (result ≡ Some c) ↔ EndLeads txn c before after }
{
    let change = intended(before, after.content(), txn);
    if leads(change, before, after, txn) {
        Some(change)
    } else {
        None
    }
}

/// Whether the change leads from one word to the other.
fn leads(change: EndChange, before: EndWord, after: EndWord, txn: TxnId) -> bool
    ensures { IsTrue result ↔ EndLeads txn change before after }
{
    match change {
        EndChange::Stamped => is_stamped(before, after, txn),
        change => {
            match left_by(change, before, txn) {
                Ok(left) => left == after,
                Err(_) => false,
            }
        }
    }
}

/// Whether `before` has this writer alone, and `after` is a time that a transaction draws.
fn is_stamped(before: EndWord, after: EndWord, txn: TxnId) -> bool
    ensures { IsTrue result ↔ IsStamped txn before after }
{
    let (Some(writer), Some(time)) = (before.writer(), after.time()) else {
        return false;
    };
    writer.number() == txn.number()
        && before.readers() == 0
        && time.number() > 0
        && time.number() < Time::INFINITY
}
