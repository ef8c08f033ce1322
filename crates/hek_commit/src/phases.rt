//! Precommit, commit, abort and end (section 2 of the paper: the phases of a transaction).
ghost use Rattle.std.specs.Prelude.{◌≡◌, ◌↔◌, [], IsOk, IfErr, OnOk, OnErr};
ghost use Rattle.std.specs.List.{All};
ghost use Rattle.hek_rules.specs.World.{txn_in, set_txn};
ghost use Rattle.hek_rules.specs.declared.event.State.TheVariants.{Preparing, Terminated};
ghost use Rattle.hek_txn.specs.TxnTable.{Declared, waits_of, commit_deps_of, dependents_of, with_dependents};
ghost use Rattle.hek_commit.specs.Committed.{AreCounted, in_state, table_after_commit, table_after_abort};

use crate::dependents::{doom_dependents, lower_dependents};
use hek_rules::{Cause, State, Time, TxnId};
use hek_txn::Txns;

/// `txn` is Preparing with this end time; or Err with its WaitForCounter, if that is above 0.
pub fn precommit(txns: &mut Txns, txn: TxnId, end: Time) -> Result<(), u64>
    requires { Declared txns.old txn }
    ensures ready { IsOk result ↔ (waits_of txns.old txn ≡ 0) }
    ensures prepared { OnOk result (txns.new ≡ record txns.old { cores = set_txn txns.old.cores txn (record (txn_in txns.old.cores txn) { state = Preparing; end = end }) }) }
    ensures waits { IfErr result (λ waits. waits ≡ waits_of txns.old txn) }
    ensures unchanged { OnErr result (txns.new ≡ txns.old) }
{
    let waits = txns.waits(txn);
    if waits > 0 {
        return Err(waits);
    }
    txns.set_prepared(txn, end);
    Ok(())
}

/// `txn` is Committed, and each transaction that depended on it depends on one less; or Err with its CommitDepCounter,
/// if that is above 0.
pub fn commit(txns: &mut Txns, txn: TxnId) -> Result<(), u64>
    requires txn { Declared txns.old txn }
    requires dependents { All (λ x. Declared txns.old x) (dependents_of txns.old txn).items }
    requires counted { AreCounted txns.old.commit_deps (dependents_of txns.old txn).items }
    ensures ready { IsOk result ↔ (commit_deps_of txns.old txn ≡ 0) }
    ensures committed { OnOk result (txns.new ≡ with_dependents (table_after_commit txns.old txn) txn (dependents_of txns.new txn)) }
    ensures emptied { OnOk result ((dependents_of txns.new txn).items ≡ []) }
    ensures commit_deps { IfErr result (λ commit_deps. commit_deps ≡ commit_deps_of txns.old txn) }
    ensures unchanged { OnErr result (txns.new ≡ txns.old) }
{
    let commit_deps = txns.commit_deps(txn);
    if commit_deps > 0 {
        return Err(commit_deps);
    }
    lower_dependents(txns, txn);
    txns.set_state(txn, State::Committed);
    txns.clear_dependents(txn);
    Ok(())
}

/// `txn` is Aborted by this cause. Each transaction that depended on it has AbortNow, and depends on one less.
pub fn abort(txns: &mut Txns, txn: TxnId, cause: Cause)
    requires txn { Declared txns.old txn }
    requires dependents { All (λ x. Declared txns.old x) (dependents_of txns.old txn).items }
    requires counted { AreCounted txns.old.commit_deps (dependents_of txns.old txn).items }
    ensures txns { txns.new ≡ with_dependents (table_after_abort txns.old txn cause) txn (dependents_of txns.new txn) }
    ensures emptied { (dependents_of txns.new txn).items ≡ [] }
{
    txns.set_state(txn, State::Aborted(cause));
    doom_dependents(txns, txn);
    lower_dependents(txns, txn);
    txns.clear_dependents(txn);
}

/// `txn` is Terminated.
pub fn end(txns: &mut Txns, txn: TxnId)
    requires { Declared txns.old txn }
    ensures { txns.new ≡ record txns.old { cores = in_state txns.old.cores txn Terminated } }
{
    txns.set_state(txn, State::Terminated);
}
