//! Releases (section 4 of the paper): read locks first, then bucket locks, then the transactions that wait because of a
//! bucket, one per event.
ghost use Rattle.std.specs.Prelude.{◌≡◌, Some, None, slice_get};
ghost use Rattle.hek_rules.specs.Table.{release_rule};
ghost use Rattle.hek_txn.specs.TxnTable.{Declared, read_set_of, bucket_set_of};
ghost use Rattle.hek_machine.specs.Stands.{StandsForSome, IsRule};

use crate::engine::Engine;
use hek_rules::{Reply, TxnId, VersionId};

impl Engine {
    #[tactic(auto, using(crate::proofs::ReleaseRules::read_made, crate::proofs::ReleaseRules::read_has_reader, crate::proofs::ReleaseRules::read_may_tell))]
    fn release_read(&mut self, t: TxnId, v: VersionId) -> Reply
        requires known { Declared self.old.txns t }
        requires ordered { StandsForSome self.old }
        requires first { slice_get (read_set_of self.old.txns t).items 0 ≡ Some v }
        ensures { IsRule (λ w. release_rule w t) self.old self.new result }
    {
        let waiter = hek_locks::release_read(&mut self.store, &mut self.txns, t, v);
        Reply::ReleasedRead(v, waiter)
    }

    #[tactic(auto, using(crate::proofs::ReleaseRules::bucket_made))]
    fn release_bucket(&mut self, t: TxnId, bucket: u64) -> Reply
        requires known { Declared self.old.txns t }
        requires ordered { StandsForSome self.old }
        requires none { slice_get (read_set_of self.old.txns t).items 0 ≡ None }
        requires first { slice_get (bucket_set_of self.old.txns t).items 0 ≡ Some bucket }
        ensures { IsRule (λ w. release_rule w t) self.old self.new result }
    {
        self.buckets.unlock(bucket, t);
        self.txns.remove_bucket(t, bucket);
        Reply::ReleasedBucket(bucket)
    }

    #[tactic(auto, using(crate::proofs::ReleaseRules::waiters_counted))]
    fn release_waiter(&mut self, t: TxnId) -> Reply
        requires known { Declared self.old.txns t }
        requires ordered { StandsForSome self.old }
        requires none { slice_get (read_set_of self.old.txns t).items 0 ≡ None }
        requires free { slice_get (bucket_set_of self.old.txns t).items 0 ≡ None }
        ensures { IsRule (λ w. release_rule w t) self.old self.new result }
    {
        match hek_buckets::release_waiter(&mut self.txns, t) {
            Some(u) => Reply::ReleasedWaiter(u),
            None => Reply::Nothing,
        }
    }

    /// Releases the first thing that the transaction holds.
    pub(crate) fn release(&mut self, t: TxnId) -> Reply
        requires known { Declared self.old.txns t }
        requires ordered { StandsForSome self.old }
        ensures { IsRule (λ w. release_rule w t) self.old self.new result }
    {
        if let Some(v) = self.txns.first_read(t) {
            self.release_read(t, v)
        } else if let Some(bucket) = self.txns.first_bucket(t) {
            self.release_bucket(t, bucket)
        } else {
            self.release_waiter(t)
        }
    }
}
