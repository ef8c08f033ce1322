//! Commit dependencies (section 2 of the paper): CommitDepSet and CommitDepCounter change together.
ghost use Rattle.std.specs.Prelude.{◌≡◌, ◌+◌, ◌<◌, ◌≤◌, ◌^◌, nat_eq, length};
ghost use Rattle.std.specs.List.{All};
ghost use Rattle.hek_rules.specs.Table.{doom};
ghost use Rattle.hek_txn.specs.Entries.{joined};
ghost use Rattle.hek_txn.specs.TxnTable.{Declared, commit_deps_of, dependents_of, with_dependents};
ghost use Rattle.hek_commit.specs.Committed.{AreCounted, depended_deps, lowered};

use hek_rules::TxnId;
use hek_txn::Txns;

/// `txn` depends on `other`, unless it does already.
pub fn depend(txns: &mut Txns, txn: TxnId, other: TxnId)
    requires txn { Declared txns.old txn }
    requires depended { Declared txns.old other }
    requires room { 0 < (dependents_of txns.old other).room }
    requires counted { commit_deps_of txns.old txn + 1 < 2 ^ 64 }
    ensures txns { txns.new ≡ with_dependents (depended_deps txns.old txn other) other (dependents_of txns.new other) }
    ensures items { (dependents_of txns.new other).items ≡ joined nat_eq (dependents_of txns.old other).items txn }
    ensures room { (dependents_of txns.old other).room ≤ (dependents_of txns.new other).room + 1 }
{
    if !txns.has_dependent(other, txn) {
        let commit_deps = txns.commit_deps(txn);
        txns.set_commit_deps(txn, commit_deps + 1);
    }
    txns.push_dependent(other, txn);
}

/// Each transaction that depends on t depends on one less.
pub(crate) fn lower_dependents(txns: &mut Txns, t: TxnId)
    requires txn { Declared txns.old t }
    requires dependents { All (λ x. Declared txns.old x) (dependents_of txns.old t).items }
    requires counted { AreCounted txns.old.commit_deps (dependents_of txns.old t).items }
    ensures { txns.new ≡ record txns.old { commit_deps = lowered txns.old.commit_deps (dependents_of txns.old t).items } }
{
    for i in 0..txns.dependents(t).len() {
        let x = txns.dependents(t)[i];
        let commit_deps = txns.commit_deps(x);
        txns.set_commit_deps(x, commit_deps - 1);
    }
}

/// Sets AbortNow of each transaction that depends on t.
pub(crate) fn doom_dependents(txns: &mut Txns, t: TxnId)
    requires txn { Declared txns.old t }
    requires dependents { All (λ x. Declared txns.old x) (dependents_of txns.old t).items }
    ensures txns { txns.new ≡ record txns.old { cores = doom txns.old.cores (dependents_of txns.old t).items } }
    ensures long { length txns.new.cores ≡ length txns.old.cores }
{
    for i in 0..txns.dependents(t).len() {
        let x = txns.dependents(t)[i];
        txns.set_abort_now(x);
    }
}
