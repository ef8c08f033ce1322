//! Changes of Begin words.
ghost use Rattle.std.specs.Prelude.{◌≡◌, ◌↔◌, Some};
ghost use Rattle.hek_changes.specs.declared.change.BeginChange.{BeginChange as SpecChange};
ghost use Rattle.hek_changes.specs.Changes.{BeginLeads, IsBeginChange};

use crate::change::BeginChange;
use hek_rules::{Time, TxnId};
use hek_word::BeginWord;

/// The change of a Begin word by this transaction that leads from the number `old` to the number `new`. None if none does, or if
/// one of them is no Begin word.
#[tactic(auto, using(crate::proofs::WordLaws::not_old_begin, crate::proofs::WordLaws::not_new_begin, crate::proofs::WordLaws::begin_found))]
pub fn begin_change(old: u64, new: u64, txn: TxnId) -> Option<BeginChange>
    ensures { IsBeginChange txn old new result }
{
    let before = BeginWord::read(old)?;
    let after = BeginWord::read(new)?;
    change_of_words(before, after, txn)
}

fn change_of_words(before: BeginWord, after: BeginWord, txn: TxnId) -> Option<BeginChange>
    ensures { (c : SpecChange) → (result ≡ Some c) ↔ BeginLeads txn c before after }
{
    let (Some(maker), Some(time)) = (before.txn(), after.time()) else {
        return None;
    };
    if maker.number() != txn.number() || time.number() == 0 {
        None
    } else if time.number() == Time::INFINITY {
        Some(BeginChange::Voided)
    } else {
        Some(BeginChange::Stamped)
    }
}
