//! Room: everything that an event may add is reserved before the event changes anything.
ghost use Rattle.std.specs.Prelude.{◌≡◌, ◌+◌, ◌<◌, ◌≤◌, ◌^◌, ◌∷◌, [], length, OnOk};
ghost use Rattle.hek_laws.specs.Lists.{In};
ghost use Rattle.hek_txn.specs.TxnTable.{Declared, read_set_of, write_set_of, bucket_set_of, waiting_list_of};
ghost use Rattle.hek_machine.specs.Room.{reads_in, writes_in, wait_effects, buckets_in, IsThere, IsEffectReady, HasRoom, Reserved, AreReady, AreJoined};
ghost use Rattle.std.specs.List.{All};
ghost use Rattle.hek_buckets.specs.LockLists.{holders_of};

use crate::engine::Engine;
use hek_rules::{Effect, NoMemory, TxnId};

/// How many effects add to each list of their transaction.
#[derive(Clone, Copy, Debug)]
struct Needs {
    reads: usize,
    writes: usize,
    waits: usize,
    buckets: usize,
}

impl Needs {
    /// The needs with another effect.
    fn and(self, effect: Effect) -> Needs
        requires reads { self.reads + 1 < 2 ^ 64 }
        requires writes { self.writes + 1 < 2 ^ 64 }
        requires waits { self.waits + 1 < 2 ^ 64 }
        requires buckets { self.buckets + 1 < 2 ^ 64 }
        ensures reads { result.reads ≡ self.reads + reads_in (effect ∷ []) }
        ensures writes { result.writes ≡ self.writes + writes_in (effect ∷ []) }
        ensures waits { result.waits ≡ self.waits + wait_effects (effect ∷ []) }
        ensures buckets { result.buckets ≡ self.buckets + buckets_in (effect ∷ []) }
    {
        let mut more = self;
        match effect {
            Effect::LockBucket(_) => more.buckets += 1,
            Effect::MakeWait(_) => more.waits += 1,
            Effect::ReadLock(_) => more.reads += 1,
            Effect::WriteLock(_) => more.writes += 1,
            Effect::DependOn(_) => {}
        }
        more
    }
}

fn needs_of(effects: &[Effect]) -> Needs
    ensures reads { result.reads ≡ reads_in effects.now }
    ensures writes { result.writes ≡ writes_in effects.now }
    ensures waits { result.waits ≡ wait_effects effects.now }
    ensures buckets { result.buckets ≡ buckets_in effects.now }
    ensures small { length effects.now < 2 ^ 63 }
{
    let mut needs = Needs {
        reads: 0,
        writes: 0,
        waits: 0,
        buckets: 0,
    };
    for &effect in effects {
        needs = needs.and(effect);
    }
    needs
}

impl Engine {
    /// Makes room in the transaction's lists for these needs, and for `made` new versions in its write set and waiting
    /// list.
    fn reserve_own(&mut self, t: TxnId, needs: Needs, made: usize) -> Result<(), NoMemory>
        requires known { Declared self.old.txns t }
        requires few_writes { needs.writes + made < 2 ^ 64 }
        requires few_waits { needs.waits + made < 2 ^ 64 }
        ensures reserved { Reserved self.old self.new }
        ensures reads { OnOk result (needs.reads ≤ (read_set_of self.new.txns t).room) }
        ensures writes { OnOk result (needs.writes + made ≤ (write_set_of self.new.txns t).room) }
        ensures waits { OnOk result (needs.waits + made ≤ (waiting_list_of self.new.txns t).room) }
        ensures buckets { OnOk result (needs.buckets ≤ (bucket_set_of self.new.txns t).room) }
    {
        self.txns.reserve_reads(t, needs.reads)?;
        self.txns.reserve_writes(t, needs.writes + made)?;
        self.txns.reserve_waiters(t, needs.waits + made)?;
        self.txns.reserve_buckets(t, needs.buckets)
    }

    /// Makes room for the transaction in the list of a bucket or another transaction that an effect adds to.
    fn reserve_other(&mut self, t: TxnId, effect: Effect) -> Result<(), NoMemory>
        requires there { IsThere self.old effect }
        ensures reserved { Reserved self.old self.new }
        ensures ready { OnOk result (IsEffectReady self.new t effect) }
    {
        match effect {
            Effect::LockBucket(bucket) => self.buckets.reserve(bucket),
            Effect::DependOn(u) => self.txns.reserve_dependents(u, 1),
            Effect::MakeWait(_) | Effect::ReadLock(_) | Effect::WriteLock(_) => Ok(()),
        }
    }

    fn reserve_others(&mut self, t: TxnId, effects: &[Effect]) -> Result<(), NoMemory>
        requires there { (e : _) → In e effects.now → IsThere self.old e }
        ensures reserved { Reserved self.old self.new }
        ensures ready { OnOk result (AreReady self.new t effects.now) }
    {
        for &effect in effects {
            self.reserve_other(t, effect)?;
        }
        Ok(())
    }

    /// Makes room for these effects of the transaction, and for `made` versions that it makes.
    pub(crate) fn reserve(
        &mut self,
        t: TxnId,
        effects: &[Effect],
        made: usize,
    ) -> Result<(), NoMemory>
        requires known { Declared self.old.txns t }
        requires there { (e : _) → In e effects.now → IsThere self.old e }
        requires few { made ≤ 1 }
        ensures reserved { Reserved self.old self.new }
        ensures room { OnOk result (HasRoom self.new t made effects.now) }
    {
        self.reserve_own(t, needs_of(effects), made)?;
        self.reserve_others(t, effects)
    }

    /// Makes room for the transaction in the waiting lists of those that lock a bucket.
    pub(crate) fn reserve_joins(&mut self, t: TxnId, bucket: u64) -> Result<(), NoMemory>
        requires bucket { bucket < length self.old.buckets }
        requires holders { All (λ h. Declared self.old.txns h) (holders_of self.old.buckets bucket).items }
        ensures reserved { Reserved self.old self.new }
        ensures joins { OnOk result (AreJoined self.new t (holders_of self.old.buckets bucket).items) }
    {
        for place in 0..self.buckets.holders(bucket).len() {
            let holder = self.buckets.holders(bucket)[place];
            self.txns.reserve_waiters(holder, 1)?;
        }
        Ok(())
    }
}
