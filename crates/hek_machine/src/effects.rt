//! The effects of a walk, done one after another. The lists have room for them.
ghost use Rattle.std.specs.Prelude.{◌≡◌, ◌<◌, ◌≤◌, ◌^◌, ◌∷◌, [], length};
ghost use Rattle.hek_rules.specs.Walk.{apply_all as all_applied};
ghost use Rattle.hek_rules.specs.declared.event.Effect.TheVariants.{LockBucket, DependOn, MakeWait, ReadLock, WriteLock};
ghost use Rattle.hek_txn.specs.TxnTable.{read_set_of, write_set_of, bucket_set_of, waiting_list_of};
ghost use Rattle.hek_machine.specs.Room.{IsEffectReady, KeepsRoom, KeepsAdding, HasRoom, reads_in, writes_in, wait_effects, buckets_in};
ghost use Rattle.hek_machine.specs.Applied.{IsAble, Applies, Allowed};
ghost use Rattle.hek_machine.specs.Stands.{Shows, StandsFor, StandsForSome};

use crate::engine::Engine;
use hek_buckets::impose_wait;
use hek_commit::depend;
use hek_locks::{read_lock, write_lock};
use hek_rules::{Effect, TxnId, VersionId};

impl Engine {
    fn lock_bucket(&mut self, t: TxnId, bucket: u64)
        requires able { IsAble self.old t (LockBucket bucket) }
        requires ready { IsEffectReady self.old t (LockBucket bucket) }
        requires free { 0 < (bucket_set_of self.old.txns t).room }
        ensures shows { Applies self.old self.new t (LockBucket bucket) }
        ensures room { KeepsRoom self.old self.new t (LockBucket bucket) }
    {
        if !self.txns.locks_bucket(t, bucket) {
            self.buckets.lock(bucket, t);
            self.txns.push_bucket(t, bucket);
        }
    }

    fn depend_on(&mut self, t: TxnId, u: TxnId)
        requires able { IsAble self.old t (DependOn u) }
        requires ready { IsEffectReady self.old t (DependOn u) }
        ensures shows { Applies self.old self.new t (DependOn u) }
        ensures room { KeepsRoom self.old self.new t (DependOn u) }
    {
        if !self.txns.has_dependent(u, t) {
            depend(&mut self.txns, t, u);
        }
    }

    fn make_wait(&mut self, t: TxnId, u: TxnId)
        requires able { IsAble self.old t (MakeWait u) }
        requires ready { 0 < (waiting_list_of self.old.txns t).room }
        ensures shows { Applies self.old self.new t (MakeWait u) }
        ensures room { KeepsRoom self.old self.new t (MakeWait u) }
    {
        impose_wait(&mut self.txns, t, u);
    }

    fn read_lock(&mut self, t: TxnId, v: VersionId)
        requires able { IsAble self.old t (ReadLock v) }
        requires ready { 0 < (read_set_of self.old.txns t).room }
        ensures shows { Applies self.old self.new t (ReadLock v) }
        ensures room { KeepsRoom self.old self.new t (ReadLock v) }
    {
        read_lock(&mut self.store, &mut self.txns, t, v);
    }

    fn write_lock(&mut self, t: TxnId, v: VersionId)
        requires able { IsAble self.old t (WriteLock v) }
        requires ready { 0 < (write_set_of self.old.txns t).room }
        ensures shows { Applies self.old self.new t (WriteLock v) }
        ensures room { KeepsRoom self.old self.new t (WriteLock v) }
    {
        write_lock(&mut self.store, &mut self.txns, t, v);
    }

    fn apply(&mut self, t: TxnId, effect: Effect)
        requires able { IsAble self.old t effect }
        requires ready { IsEffectReady self.old t effect }
        requires reads { reads_in (effect ∷ []) ≤ (read_set_of self.old.txns t).room }
        requires writes { writes_in (effect ∷ []) ≤ (write_set_of self.old.txns t).room }
        requires waits { wait_effects (effect ∷ []) ≤ (waiting_list_of self.old.txns t).room }
        requires buckets { buckets_in (effect ∷ []) ≤ (bucket_set_of self.old.txns t).room }
        ensures shows { Applies self.old self.new t effect }
        ensures room { KeepsRoom self.old self.new t effect }
    {
        match effect {
            Effect::LockBucket(bucket) => self.lock_bucket(t, bucket),
            Effect::DependOn(u) => self.depend_on(t, u),
            Effect::MakeWait(u) => self.make_wait(t, u),
            Effect::ReadLock(v) => self.read_lock(t, v),
            Effect::WriteLock(v) => self.write_lock(t, v),
        }
    }

    /// Does the effects of an allowed walk, in order. Room for `made` versions is left.
    pub(crate) fn apply_all(&mut self, t: TxnId, effects: &[Effect], made: usize)
        requires ordered { StandsForSome self.old }
        requires allowed { (w : _) → StandsFor self.old w → Allowed w t effects.now }
        requires room { HasRoom self.old t made effects.now }
        requires small { length self.old.store.versions < 2 ^ 58 }
        ensures shows { (w : _) → StandsFor self.old w → Shows self.new (all_applied t w effects.now) }
        ensures room { HasRoom self.new t made [] }
        ensures kept { KeepsAdding self.old self.new t }
    {
        for &effect in effects {
            self.apply(t, effect);
        }
    }
}
