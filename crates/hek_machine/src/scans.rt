//! Reads of many keys at once: the scan of a bucket, and the committed rows (section 4 of the paper: reads).
ghost use Rattle.std.specs.Prelude.{◌≡◌, ◌<◌, ◌++◌, ◌∷◌, ◌&&◌, true, None, [], length, if◌then◌else◌, IfOk, OnOk, OnErr};
ghost use Rattle.std.specs.List.{All};
ghost use Rattle.hek_rules.specs.declared.event.State.TheVariants.{Active};
ghost use Rattle.hek_rules.specs.Visibility.{is_seen as sees};
ghost use Rattle.hek_rules.specs.Walk.{ToRead, walk as walk_of, behind, of_bucket, seen_of, versions_judged};
ghost use Rattle.hek_rules.specs.Shown.{was_made as made, lasts as is_last, committed_rows};
ghost use Rattle.hek_rules.specs.World.{txn_in, version_in, places, is_committed as committed};
ghost use Rattle.hek_rules.specs.Table.{pairs_of as pairs_in, scan_rule};
ghost use Rattle.hek_rules.specs.Checks.{is_open};
ghost use Rattle.hek_store.specs.Places.{versions_left};
ghost use Rattle.hek_txn.specs.TxnTable.{Declared};
ghost use Rattle.hek_machine.specs.Applied.{Allowed};
ghost use Rattle.hek_machine.specs.Judgements.{IsShown, seen_among, verdict};
ghost use Rattle.hek_machine.specs.Stands.{StandsFor, StandsForSome, IsRule, StillShows};

use crate::engine::Engine;
use crate::judging::{is_hidden, is_seen};
use crate::pairs::put;
use crate::scratch::Scratch;
use crate::walks::reply_or_abort;
use hek_rules::{Aim, Cause, Effect, NoMemory, Pairs, Reply, Sight, State, TxnId, VersionId};
use hek_store::Versions;
use hek_word::{BeginWord, EndWord};
use std::collections::BTreeMap;

/// The most versions that are sorted one by one; more are sorted with a tree.
const FEW: usize = 64;

fn is_committed(state: State) -> bool
    ensures { result ≡ committed state }
{
    matches!(state, State::Committed)
}

/// Lists a version if it is seen.
fn note(sight: &Sight, v: VersionId, seen: &mut Vec<VersionId>) -> Result<(), NoMemory>
    ensures { OnOk result (seen.new.items ≡ seen.old.items ++ (if sees sight.now then v ∷ [] else [])) }
{
    if is_seen(*sight) {
        seen.push(v)?;
    }
    Ok(())
}

impl Engine {
    /// The pairs of a few versions by key; a later version replaces an earlier one. At worst this takes time quadratic
    /// in their number.
    fn few_pairs(&self, vs: &[VersionId]) -> Result<Vec<(u64, u64)>, NoMemory>
        requires { All (λ v. v < length self.now.store.versions) vs.now }
        ensures { IfOk result (λ pairs. IsShown self.now (λ w. pairs_in w.versions [] vs.now) pairs.items) }
    {
        let mut pairs = Vec::with_capacity(self.alloc, vs.len())?;
        for &v in vs {
            put(&mut pairs, self.store.key_of(v), self.store.value_of(v))?;
        }
        Ok(pairs)
    }

    /// The pairs of these versions by key, sorted with a tree; a later version replaces an earlier one.
    fn many_pairs(&self, vs: &[VersionId]) -> Result<Vec<(u64, u64)>, NoMemory>
        requires { All (λ v. v < length self.now.store.versions) vs.now }
        ensures { IfOk result (λ pairs. IsShown self.now (λ w. pairs_in w.versions [] vs.now) pairs.items) }
    {
        let mut pairs = BTreeMap::new(self.alloc);
        for &v in vs {
            pairs.insert(self.store.key_of(v), self.store.value_of(v))?;
        }
        Ok(pairs.into_iter().collect(self.alloc)?)
    }

    /// The pairs of these versions by key; a later version replaces an earlier one.
    fn pairs_of(&self, vs: &[VersionId]) -> Result<Pairs, NoMemory>
        requires { All (λ v. v < length self.now.store.versions) vs.now }
        ensures { IfOk result (IsShown self.now (λ w. pairs_in w.versions [] vs.now)) }
    {
        let pairs = if vs.len() <= FEW {
            self.few_pairs(vs)?
        } else {
            self.many_pairs(vs)?
        };
        Ok(Pairs::new(pairs))
    }

    /// Judges the versions for a read, in order of creation, up to the first refusal, and replaces the list `seen` by
    /// those seen.
    fn judge_bucket(
        &self,
        t: TxnId,
        versions: Versions<'_>,
        effects: &mut Vec<Effect>,
        seen: &mut Vec<VersionId>,
    ) -> Result<Option<Cause>, NoMemory>
        requires versions { All (λ v. v < length self.now.store.versions) (versions_left versions) }
        requires known { Declared self.now.txns t }
        requires active { (txn_in self.now.txns.cores t).state ≡ Active }
        requires ordered { StandsForSome self.now }
        ensures judged { IfOk result (λ r. IsShown self.now (λ w. behind effects.old.items (versions_judged w t ToRead None (versions_left versions.entry))) (verdict r effects.new.items)) }
        ensures seen { IfOk result (λ r. r ≡ None → seen.new.items ≡ seen_among self.now t (versions_left versions.entry)) }
        ensures below { IfOk result (λ _. All (λ v. v < length self.now.store.versions) seen.new.items) }
    {
        seen.clear();
        let read_time = self.read_time(t);
        let aim = &Aim::ToRead;
        for v in versions {
            let sight = self.sight_at(t, read_time, v);
            if is_hidden(&sight) {
                continue;
            }
            note(&sight, v, seen)?;
            let refused = self.judge_sight(t, sight, aim, v, effects)?;
            if refused.is_some() {
                return Ok(refused);
            }
        }
        Ok(None)
    }

    /// The walk of a scan along the versions of a bucket: returns the cause of its refusal, or replaces the lists by
    /// its effects in order and by the versions seen.
    fn walk_bucket(
        &self,
        t: TxnId,
        bucket: u64,
        effects: &mut Vec<Effect>,
        seen: &mut Vec<VersionId>,
    ) -> Result<Option<Cause>, NoMemory>
        requires known { Declared self.now.txns t }
        requires ordered { StandsForSome self.now }
        requires walker { is_open (txn_in self.now.txns.cores t) ≡ true }
        requires bucket { bucket < self.now.store.buckets }
        ensures judged { IfOk result (λ r. IsShown self.now (λ w. walk_of w t ToRead bucket (of_bucket w bucket)) (verdict r effects.new.items)) }
        ensures allowed { IfOk result (λ r. r ≡ None → (w : _) → StandsFor self.now w → Allowed w t effects.new.items) }
        ensures seen { IfOk result (λ r. r ≡ None → IsShown self.now (λ w. seen_of w t (of_bucket w bucket)) seen.new.items) }
        ensures below { IfOk result (λ _. All (λ v. v < length self.now.store.versions) seen.new.items) }
    {
        self.list_first(t, bucket, effects)?;
        self.judge_bucket(t, self.store.versions_in(bucket), effects, seen)
    }

    /// The scan of a bucket.
    pub(crate) fn scan(
        &mut self,
        t: TxnId,
        bucket: u64,
        scratch: &mut Scratch,
    ) -> Result<Reply, NoMemory>
        requires known { Declared self.old.txns t }
        requires ordered { StandsForSome self.old }
        requires walker { is_open (txn_in self.old.txns.cores t) ≡ true }
        requires bucket { bucket < self.old.store.buckets }
        ensures rule { IfOk result (IsRule (λ w. scan_rule w t bucket) self.old self.new) }
        ensures still { OnErr result (StillShows self.old self.new) }
    {
        let refused = self.walk_bucket(t, bucket, &mut scratch.effects, &mut scratch.seen)?;
        let pairs = self.pairs_of(&scratch.seen)?;
        let refused = self.settle(t, refused, scratch.effects.as_slice(), 0)?;
        Ok(reply_or_abort(refused, Reply::Rows(pairs)))
    }

    /// Whether the version was loaded, or made by a transaction that has committed.
    fn was_made(&self, v: VersionId) -> bool
        requires version { v < length self.now.store.versions }
        requires ordered { StandsForSome self.now }
        ensures { IsShown self.now (λ w. made w (version_in w.versions v).creator) result }
    {
        let word = self.store.begin_of(v);
        match word.txn() {
            Some(u) => is_committed(self.txns.state(u)),
            None => word != BeginWord::infinity(),
        }
    }

    /// Whether no committed transaction ended the version.
    fn lasts(&self, v: VersionId) -> bool
        requires version { v < length self.now.store.versions }
        requires ordered { StandsForSome self.now }
        ensures { IsShown self.now (λ w. is_last w (version_in w.versions v).ender) result }
    {
        let word = self.store.end_of(v);
        match word.writer() {
            Some(u) => !is_committed(self.txns.state(u)),
            None => word.time().is_none() || word == EndWord::infinity(),
        }
    }

    /// Whether the version is a committed row.
    fn is_row(&self, v: VersionId) -> bool
        requires version { v < length self.now.store.versions }
        requires ordered { StandsForSome self.now }
        ensures { IsShown self.now (λ w. made w (version_in w.versions v).creator && is_last w (version_in w.versions v).ender) result }
    {
        self.was_made(v) && self.lasts(v)
    }

    /// The versions that are committed rows, in order of creation.
    fn committed_versions(&self) -> Result<Vec<VersionId>, NoMemory>
        requires { StandsForSome self.now }
        ensures { IfOk result (λ vs. IsShown self.now (λ w. places (λ v x. made w x.creator && is_last w x.ender) 0 w.versions) vs.items) }
    {
        let mut found = Vec::new(self.alloc);
        for i in 0..self.store.len() {
            let v = VersionId::new(i);
            if self.is_row(v) {
                found.push(v)?;
            }
        }
        Ok(found)
    }

    /// The committed rows: those that committed transactions made and none of them ended.
    pub(crate) fn rows(&self) -> Result<Pairs, NoMemory>
        requires ordered { StandsForSome self.now }
        ensures { IfOk result (λ r. IsShown self.now committed_rows r) }
    {
        let vs = self.committed_versions()?;
        self.pairs_of(&vs)
    }
}
