//! Walks: what an event would do with the versions of some keys, judged on the machine as it is before any change
//! (section 4 of the paper: reads, updates, and the waits that they cause).
ghost use Rattle.std.specs.Prelude.{◌≡◌, ◌<◌, ◌%◌, ℕ, true, length, IfOk, OnOk};
ghost use Rattle.std.specs.List.{All};
ghost use Rattle.hek_rules.specs.Words.{infinity};
ghost use Rattle.hek_rules.specs.World.{txn_in};
ghost use Rattle.hek_rules.specs.declared.event.Sight.TheVariants.{Hidden};
ghost use Rattle.hek_rules.specs.Visibility.{sight as sight_of, is_seen as seen};
ghost use Rattle.hek_rules.specs.Locks.{no_read_lock, no_write_lock};
ghost use Rattle.hek_rules.specs.declared.event.Effect.TheVariants.{ReadLock, WriteLock};
ghost use Rattle.hek_rules.specs.Walk.{walk as walk_of, last, read_time as time_of, bucket_effects, unless_refused, behind, read_judged, lock_judged, wait_judged, version_judged, versions_judged};
ghost use Rattle.hek_rules.specs.declared.event.State.TheVariants.{Active};
ghost use Rattle.hek_txn.specs.TxnTable.{Declared};
ghost use Rattle.hek_visible.specs.Seen.{version_seen};
ghost use Rattle.hek_machine.specs.Stands.{StandsForSome};
ghost use Rattle.hek_machine.specs.Judgements.{IsShown, looks, verdict, judgement_of, seen_among, IsAimed};
ghost use Rattle.hek_rules.specs.Aims.{purpose_of, target_of};

use crate::engine::Engine;
use hek_locks::{can_read_lock, can_write_lock};
use hek_rules::{Aim, Cause, Effect, Level, NoMemory, Sight, Time, TxnId, VersionId};
use hek_visible::see;

pub(crate) fn is_seen(sight: Sight) -> bool
    ensures { result ≡ seen sight }
{
    matches!(sight, Sight::Seen | Sight::SeenIf(_))
}

/// Whether the version is hidden, and adds nothing to a walk; most versions are.
pub(crate) fn is_hidden(sight: &Sight) -> bool
    ensures { result ≡ true → sight.now ≡ Hidden }
{
    matches!(sight, Sight::Hidden)
}

/// Appends an effect, if there is one, or returns the cause of a refusal.
fn append(
    effects: &mut Vec<Effect>,
    next: Result<Option<Effect>, Cause>,
) -> Result<Option<Cause>, NoMemory>
    ensures { IfOk result (λ r. behind effects.old.items (judgement_of next) ≡ verdict r effects.new.items) }
{
    match next {
        Ok(None) => Ok(None),
        Ok(Some(effect)) => {
            effects.push(effect)?;
            Ok(None)
        }
        Err(cause) => Ok(Some(cause)),
    }
}

impl Engine {
    /// The time at which a transaction looks: its begin time at the snapshot level, otherwise the clock.
    pub(crate) fn read_time(&self, t: TxnId) -> Time
        requires known { Declared self.now.txns t }
        ensures { result ≡ looks self.now t }
    {
        match self.txns.level(t) {
            Level::Serializable | Level::Repeatable => self.clock,
            Level::Snapshot => self.txns.begin_time(t),
        }
    }

    /// What a transaction sees of a version, at the time at which it looks.
    #[tactic(auto, using(crate::proofs::WalkRules::sight_creator, crate::proofs::WalkRules::sight_writer))]
    fn sight(&self, t: TxnId, read_time: Time, v: VersionId) -> Sight
        requires version { v < length self.now.store.versions }
        requires known { Declared self.now.txns t }
        requires time { read_time ≡ looks self.now t }
        requires active { (txn_in self.now.txns.cores t).state ≡ Active }
        requires ordered { StandsForSome self.now }
        ensures { result ≡ version_seen self.now.store self.now.txns t (looks self.now t) v }
    {
        see(&self.store, &self.txns, t, read_time, v)
    }

    /// The last of these versions that the transaction sees.
    pub(crate) fn last_seen(&self, t: TxnId, vs: &[VersionId]) -> Option<VersionId>
        requires versions { All (λ v. v < length self.now.store.versions) vs.now }
        requires known { Declared self.now.txns t }
        requires active { (txn_in self.now.txns.cores t).state ≡ Active }
        requires ordered { StandsForSome self.now }
        ensures { result ≡ last (seen_among self.now t vs.now) }
    {
        let read_time = self.read_time(t);
        let mut left = vs.len();
        while left > 0 {
            left -= 1;
            let v = vs[left];
            if is_seen(self.sight(t, read_time, v)) {
                return Some(v);
            }
        }
        None
    }

    /// The read lock of a version: none, an effect, or the cause of a refusal.
    #[tactic(auto, using(crate::proofs::WalkRules::writer_known))]
    fn judge_read_lock(&self, t: TxnId, v: VersionId) -> Result<Option<Effect>, Cause>
        requires version { v < length self.now.store.versions }
        requires known { Declared self.now.txns t }
        requires ordered { StandsForSome self.now }
        ensures { IsShown self.now (λ w. unless_refused (no_read_lock w t v) (ReadLock v)) (judgement_of result) }
    {
        match can_read_lock(&self.store, &self.txns, t, v) {
            Ok(()) => Ok(Some(Effect::ReadLock(v))),
            Err(cause) => Err(cause),
        }
    }

    /// The read lock of a version that the transaction sees; a snapshot transaction takes none.
    fn judge_read(&self, t: TxnId, v: VersionId) -> Result<Option<Effect>, Cause>
        requires version { v < length self.now.store.versions }
        requires known { Declared self.now.txns t }
        requires ordered { StandsForSome self.now }
        ensures { IsShown self.now (λ w. read_judged w t v (txn_in w.txns t).level) (judgement_of result) }
    {
        match self.txns.level(t) {
            Level::Serializable | Level::Repeatable => self.judge_read_lock(t, v),
            Level::Snapshot => Ok(None),
        }
    }

    /// The write lock of a write's target: an effect, or the cause of a refusal.
    #[tactic(auto, using(crate::proofs::WalkRules::writer_known))]
    fn judge_write(&self, v: VersionId) -> Result<Option<Effect>, Cause>
        requires version { v < length self.now.store.versions }
        requires ordered { StandsForSome self.now }
        ensures { IsShown self.now (λ w. unless_refused (no_write_lock w v) (WriteLock v)) (judgement_of result) }
    {
        match can_write_lock(&self.store, &self.txns, v) {
            Ok(()) => Ok(Some(Effect::WriteLock(v))),
            Err(cause) => Err(cause),
        }
    }

    /// The lock of a version that the transaction sees; a write locks its target alone.
    fn judge_lock(&self, t: TxnId, aim: Aim, v: VersionId) -> Result<Option<Effect>, Cause>
        requires version { v < length self.now.store.versions }
        requires known { Declared self.now.txns t }
        requires ordered { StandsForSome self.now }
        ensures { IsShown self.now (λ w. lock_judged w t (purpose_of aim) (target_of aim) v) (judgement_of result) }
    {
        match aim {
            Aim::ToRead => self.judge_read(t, v),
            Aim::ToWrite(Some(target)) => {
                if v == target {
                    self.judge_write(v)
                } else {
                    Ok(None)
                }
            }
            Aim::ToWrite(None) => Ok(None),
        }
    }

    /// The Active transaction u made a version that t does not see: if t is serializable, u must wait for t.
    fn judge_wait(&self, t: TxnId, u: TxnId) -> Result<Option<Effect>, Cause>
        requires known { Declared self.now.txns t }
        requires maker { Declared self.now.txns u }
        ensures { IsShown self.now (λ w. wait_judged w t u (txn_in w.txns t).level) (judgement_of result) }
    {
        match self.txns.level(t) {
            Level::Snapshot | Level::Repeatable => Ok(None),
            Level::Serializable => {
                if self.txns.has_waiter(t, u) {
                    Ok(None)
                } else if self.txns.no_more_waits(u) {
                    Err(Cause::NoMoreWaits)
                } else {
                    Ok(Some(Effect::MakeWait(u)))
                }
            }
        }
    }

    /// Judges one version by what the transaction sees of it: appends its effects, or returns the cause of a refusal.
    pub(crate) fn judge_sight(
        &self,
        t: TxnId,
        sight: Sight,
        aim: &Aim,
        v: VersionId,
        effects: &mut Vec<Effect>,
    ) -> Result<Option<Cause>, NoMemory>
        requires version { v < length self.now.store.versions }
        requires known { Declared self.now.txns t }
        requires sight { sight ≡ version_seen self.now.store self.now.txns t (looks self.now t) v }
        requires active { (txn_in self.now.txns.cores t).state ≡ Active }
        requires ordered { StandsForSome self.now }
        ensures { IfOk result (λ r. IsShown self.now (λ w. behind effects.old.items (version_judged w t (purpose_of aim.now) (target_of aim.now) v (sight_of w t (time_of w t) v))) (verdict r effects.new.items)) }
    {
        match sight {
            Sight::Seen => append(effects, self.judge_lock(t, *aim, v)),
            Sight::SeenIf(u) => {
                effects.push(Effect::DependOn(u))?;
                append(effects, self.judge_lock(t, *aim, v))
            }
            Sight::Hidden => Ok(None),
            Sight::HiddenIf(u) => append(effects, Ok(Some(Effect::DependOn(u)))),
            Sight::HiddenActive(u) => append(effects, self.judge_wait(t, u)),
        }
    }

    /// Whether the two words alone hide the version at this time from every transaction: both are times, and the time
    /// is not between them.
    fn is_outside(&self, read_time: Time, v: VersionId) -> bool
        requires version { v < length self.now.store.versions }
        requires time { read_time < infinity }
        ensures { result ≡ true → (t : ℕ) → version_seen self.now.store self.now.txns t read_time v ≡ Hidden }
    {
        match (self.store.begin_of(v).time(), self.store.end_of(v).time()) {
            (Some(from), Some(until)) => read_time < from || until <= read_time,
            _ => false,
        }
    }

    /// What a transaction sees of a version, at the time at which it looks. Most versions of a long chain have ended,
    /// and their words alone hide them.
    pub(crate) fn sight_at(&self, t: TxnId, read_time: Time, v: VersionId) -> Sight
        requires version { v < length self.now.store.versions }
        requires known { Declared self.now.txns t }
        requires time { read_time ≡ looks self.now t }
        requires active { (txn_in self.now.txns.cores t).state ≡ Active }
        requires ordered { StandsForSome self.now }
        ensures { result ≡ version_seen self.now.store self.now.txns t (looks self.now t) v }
    {
        if self.is_outside(read_time, v) {
            Sight::Hidden
        } else {
            self.sight(t, read_time, v)
        }
    }

    /// Judges the versions in order of creation, up to the first refusal.
    fn judge_versions(
        &self,
        t: TxnId,
        aim: &Aim,
        vs: &[VersionId],
        effects: &mut Vec<Effect>,
    ) -> Result<Option<Cause>, NoMemory>
        requires versions { All (λ v. v < length self.now.store.versions) vs.now }
        requires known { Declared self.now.txns t }
        requires active { (txn_in self.now.txns.cores t).state ≡ Active }
        requires ordered { StandsForSome self.now }
        ensures { IfOk result (λ r. IsShown self.now (λ w. behind effects.old.items (versions_judged w t (purpose_of aim.now) (target_of aim.now) vs.now)) (verdict r effects.new.items)) }
    {
        let read_time = self.read_time(t);
        for &v in vs {
            let sight = self.sight_at(t, read_time, v);
            if is_hidden(&sight) {
                continue;
            }
            let refused = self.judge_sight(t, sight, aim, v, effects)?;
            if refused.is_some() {
                return Ok(refused);
            }
        }
        Ok(None)
    }

    /// Clears the list, and adds the lock of the bucket if the transaction is serializable.
    pub(crate) fn list_first(
        &self,
        t: TxnId,
        bucket: u64,
        effects: &mut Vec<Effect>,
    ) -> Result<(), NoMemory>
        requires { Declared self.now.txns t }
        ensures { OnOk result (effects.new.items ≡ bucket_effects (txn_in self.now.txns.cores t).level bucket) }
    {
        effects.clear();
        match self.txns.level(t) {
            Level::Serializable => {
                effects.push(Effect::LockBucket(bucket))?;
                Ok(())
            }
            Level::Repeatable | Level::Snapshot => Ok(()),
        }
    }

    /// Clears the list, and adds the lock of the key's bucket if the transaction is serializable; otherwise the bucket
    /// is not computed.
    pub(crate) fn list_first_of(
        &self,
        t: TxnId,
        key: u64,
        effects: &mut Vec<Effect>,
    ) -> Result<(), NoMemory>
        requires { Declared self.now.txns t }
        ensures { OnOk result (effects.new.items ≡ bucket_effects (txn_in self.now.txns.cores t).level (key % self.now.store.buckets)) }
    {
        effects.clear();
        match self.txns.level(t) {
            Level::Serializable => {
                effects.push(Effect::LockBucket(self.bucket_of(key)))?;
                Ok(())
            }
            Level::Repeatable | Level::Snapshot => Ok(()),
        }
    }

    /// The walk over these versions, all of one bucket: returns the cause of its refusal, or replaces the list by its
    /// effects in order.
    pub(crate) fn walk(
        &self,
        t: TxnId,
        aim: &Aim,
        bucket: u64,
        vs: &[VersionId],
        effects: &mut Vec<Effect>,
    ) -> Result<Option<Cause>, NoMemory>
        requires versions { All (λ v. v < length self.now.store.versions) vs.now }
        requires known { Declared self.now.txns t }
        requires active { (txn_in self.now.txns.cores t).state ≡ Active }
        requires ordered { StandsForSome self.now }
        requires aimed { IsAimed self.now t vs.now aim.now }
        ensures { IfOk result (λ r. IsShown self.now (λ w. walk_of w t (purpose_of aim.now) bucket vs.now) (verdict r effects.new.items)) }
    {
        self.list_first(t, bucket, effects)?;
        self.judge_versions(t, aim, vs, effects)
    }
}
