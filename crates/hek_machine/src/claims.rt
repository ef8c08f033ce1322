//! Versions that claim their key, and the insert of a claimed key (section 4 of the paper: inserts).
ghost use Rattle.std.specs.Prelude.{◌≡◌, ◌<◌, true, None, length, IfOk, OnErr, ◌||◌};
ghost use Rattle.std.specs.List.{All};
ghost use Rattle.hek_rules.specs.World.{txn_in, bucket_of, version_in};
ghost use Rattle.hek_rules.specs.Walk.{ToRead};
ghost use Rattle.hek_rules.specs.Table.{is_claim as claim, is_claimed as claimed, is_made_by_other as made_by_other, is_made_later as made_later, claims};
ghost use Rattle.hek_rules.specs.Checks.{is_open};
ghost use Rattle.hek_txn.specs.TxnTable.{Declared};
ghost use Rattle.hek_machine.specs.Judgements.{IsShown, looks};
ghost use Rattle.hek_machine.specs.Stands.{StandsForSome, IsRule, StillShows};
ghost use Rattle.hek_machine.specs.Written.{AreEnough, key_walk, after_conflict};
ghost use Rattle.hek_visible.specs.Seen.{NamesCreator};

use crate::engine::Engine;
use hek_rules::{
    Aim, BeginRecord, Cause, Effect, Level, NoMemory, Reply, State, Time, TxnId, VersionId,
};

impl Engine {
    /// Whether another Active transaction made the version with this Begin.
    fn is_made_by_other(&self, t: TxnId, begin: BeginRecord) -> bool
        requires maker { NamesCreator self.now.txns begin }
        ensures { result ≡ made_by_other self.now.txns.cores t begin }
    {
        match begin {
            BeginRecord::At(_) => false,
            BeginRecord::By(u) => u != t && matches!(self.txns.state(u), State::Active),
        }
    }

    /// Whether another Active transaction made the version with this Begin, or it was made after the time at which `t`
    /// looks.
    fn is_made_since(&self, t: TxnId, begin: BeginRecord) -> bool
        requires known { Declared self.now.txns t }
        requires maker { NamesCreator self.now.txns begin }
        ensures { result ≡ (made_by_other self.now.txns.cores t begin || made_later self.now.txns.cores (looks self.now t) begin) }
    {
        let time = self.read_time(t);
        match begin {
            BeginRecord::At(made) => time < made && made.number() < Time::INFINITY,
            BeginRecord::By(u) => match self.txns.state(u) {
                State::Active => u != t,
                State::Preparing | State::Committed => time < self.txns.end_time(u),
                State::NotBegun | State::Aborted(_) | State::Terminated => false,
            },
        }
    }

    /// Whether the version with this Begin claims its key: another Active transaction made it, or, if `t` is a snapshot
    /// one, it was made after the begin of `t`.
    fn is_claim_by(&self, t: TxnId, begin: BeginRecord) -> bool
        requires known { Declared self.now.txns t }
        requires maker { NamesCreator self.now.txns begin }
        ensures { result ≡ claims self.now.txns.cores t (looks self.now t) (txn_in self.now.txns.cores t).level begin }
    {
        match self.txns.level(t) {
            Level::Serializable | Level::Repeatable => self.is_made_by_other(t, begin),
            Level::Snapshot => self.is_made_since(t, begin),
        }
    }

    /// Whether this version claims its key against `t`.
    fn is_claim(&self, t: TxnId, v: VersionId) -> bool
        requires version { v < length self.now.store.versions }
        requires known { Declared self.now.txns t }
        requires ordered { StandsForSome self.now }
        ensures { IsShown self.now (λ w. claim w t (txn_in w.txns t).level (version_in w.versions v).creator) result }
    {
        self.is_claim_by(t, self.store.begin_of(v).content())
    }

    /// Whether one of these versions claims its key against `t`.
    pub(crate) fn is_claimed(&self, t: TxnId, vs: &[VersionId]) -> bool
        requires known { Declared self.now.txns t }
        requires versions { All (λ v. v < length self.now.store.versions) vs.now }
        requires ordered { StandsForSome self.now }
        ensures { IsShown self.now (λ w. claimed w t vs.now) result }
    {
        for &v in vs {
            if self.is_claim(t, v) {
                return true;
            }
        }
        false
    }

    /// The insert of a claimed key: the transaction aborts, by a refusal of its walk if there is one, otherwise by
    /// Conflict.
    pub(crate) fn conflict(
        &mut self,
        t: TxnId,
        key: u64,
        vs: &[VersionId],
        effects: &mut Vec<Effect>,
    ) -> Result<Reply, NoMemory>
        requires known { Declared self.old.txns t }
        requires ordered { StandsForSome self.old }
        requires walker { is_open (txn_in self.old.txns.cores t) ≡ true }
        requires versions { AreEnough self.old t key vs.now }
        ensures rule { IfOk result (IsRule (λ w. after_conflict w t (key_walk w t ToRead key)) self.old self.new) }
        ensures still { OnErr result (StillShows self.old self.new) }
    {
        let bucket = self.bucket_of(key);
        let refused = self.walk(t, &Aim::ToRead, bucket, vs, effects)?;
        match refused {
            Some(cause) => Ok(self.abort(t, cause)),
            None => Ok(self.abort(t, Cause::Conflict)),
        }
    }
}
