//! The read of a key: a walk along its versions, without a list of them (section 4 of the paper: reads).
ghost use Rattle.std.specs.Prelude.{◌≡◌, ◌<◌, true, None, length, if◌then◌else◌, Some, IfOk, IfSome, OnErr};
ghost use Rattle.std.specs.List.{All};
ghost use Rattle.hek_rules.specs.World.{txn_in};
ghost use Rattle.hek_rules.specs.declared.event.State.TheVariants.{Active};
ghost use Rattle.hek_rules.specs.Visibility.{is_seen as seen};
ghost use Rattle.hek_rules.specs.Walk.{ToRead, behind, last, seen_of, of_key, versions_judged};
ghost use Rattle.hek_rules.specs.Table.{found as found_row, read_rule};
ghost use Rattle.hek_rules.specs.Checks.{is_open};
ghost use Rattle.hek_store.specs.Places.{key_versions_left};
ghost use Rattle.hek_txn.specs.TxnTable.{Declared};
ghost use Rattle.hek_machine.specs.Applied.{Allowed};
ghost use Rattle.hek_machine.specs.Judgements.{IsShown, seen_among, verdict};
ghost use Rattle.hek_machine.specs.Stands.{StandsFor, StandsForSome, IsRule, StillShows};
ghost use Rattle.hek_machine.specs.Written.{key_walk};

use crate::engine::Engine;
use crate::judging::{is_hidden, is_seen};
use crate::scratch::{Met, Scratch};
use crate::walks::reply_or_abort;
use hek_rules::{Aim, Cause, Effect, NoMemory, Reply, Sight, TxnId, VersionId};
use hek_store::KeyVersions;

/// The last version seen, after this version.
fn latest(before: Option<VersionId>, sight: &Sight, v: VersionId) -> Option<VersionId>
    ensures { result ≡ (if seen sight.now then Some v else before) }
{
    if is_seen(*sight) { Some(v) } else { before }
}

impl Engine {
    /// The reply of a read: the value of the version seen, or Absent.
    fn found(&self, seen: Option<VersionId>) -> Reply
        requires { IfSome seen (λ v. v < length self.now.store.versions) }
        ensures { IsShown self.now (λ w. found_row w seen) result }
    {
        match seen {
            Some(v) => Reply::Found(self.store.value_of(v)),
            None => Reply::Absent,
        }
    }

    /// Judges the versions for a read, in order of creation, up to the first refusal, and keeps the last one seen.
    fn judge_along(
        &self,
        t: TxnId,
        versions: KeyVersions<'_>,
        effects: &mut Vec<Effect>,
        met: &mut Met,
    ) -> Result<Option<Cause>, NoMemory>
        requires versions { All (λ v. v < length self.now.store.versions) (key_versions_left versions) }
        requires known { Declared self.now.txns t }
        requires active { (txn_in self.now.txns.cores t).state ≡ Active }
        requires ordered { StandsForSome self.now }
        ensures judged { IfOk result (λ r. IsShown self.now (λ w. behind effects.old.items (versions_judged w t ToRead None (key_versions_left versions.entry))) (verdict r effects.new.items)) }
        ensures seen { IfOk result (λ r. r ≡ None → met.new.seen ≡ last (seen_among self.now t (key_versions_left versions.entry))) }
        ensures below { IfOk result (λ _. IfSome met.new.seen (λ v. v < length self.now.store.versions)) }
    {
        let read_time = self.read_time(t);
        let aim = &Aim::ToRead;
        let mut seen = None;
        let mut count = 0usize;
        for v in versions {
            count = count.wrapping_add(1);
            let sight = self.sight_at(t, read_time, v);
            if is_hidden(&sight) {
                continue;
            }
            seen = latest(seen, &sight, v);
            let refused = self.judge_sight(t, sight, aim, v, effects)?;
            if refused.is_some() {
                *met = Met { count, seen };
                return Ok(refused);
            }
        }
        *met = Met { count, seen };
        Ok(None)
    }

    /// The walk of a read along the versions of a key that suffice for the transaction: returns the cause of its
    /// refusal, or replaces the list by its effects in order.
    fn walk_along(
        &self,
        t: TxnId,
        key: u64,
        effects: &mut Vec<Effect>,
        met: &mut Met,
    ) -> Result<Option<Cause>, NoMemory>
        requires known { Declared self.now.txns t }
        requires ordered { StandsForSome self.now }
        requires walker { is_open (txn_in self.now.txns.cores t) ≡ true }
        ensures judged { IfOk result (λ r. IsShown self.now (λ w. key_walk w t ToRead key) (verdict r effects.new.items)) }
        ensures allowed { IfOk result (λ r. r ≡ None → (w : _) → StandsFor self.now w → Allowed w t effects.new.items) }
        ensures seen { IfOk result (λ r. r ≡ None → IsShown self.now (λ w. last (seen_of w t (of_key w key))) met.new.seen) }
        ensures below { IfOk result (λ _. IfSome met.new.seen (λ v. v < length self.now.store.versions)) }
    {
        self.list_first_of(t, key, effects)?;
        self.judge_along(t, self.versions_for(t, key), effects, met)
    }

    /// The read of a key.
    pub(crate) fn read(
        &mut self,
        t: TxnId,
        key: u64,
        scratch: &mut Scratch,
    ) -> Result<Reply, NoMemory>
        requires known { Declared self.old.txns t }
        requires ordered { StandsForSome self.old }
        requires walker { is_open (txn_in self.old.txns.cores t) ≡ true }
        ensures rule { IfOk result (IsRule (λ w. read_rule w t key) self.old self.new) }
        ensures still { OnErr result (StillShows self.old self.new) }
    {
        let refused = self.walk_along(t, key, &mut scratch.effects, &mut scratch.met)?;
        let reply = self.found(scratch.met.seen);
        let refused = self.settle(t, refused, scratch.effects.as_slice(), 0)?;
        Ok(reply_or_abort(refused, reply))
    }
}
