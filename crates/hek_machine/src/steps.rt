//! Steps: each event is the checks and then the rule of its kind.
ghost use Rattle.std.specs.Prelude.{◌≡◌, false, Some, IfOk, OnErr, IsOk};
ghost use Rattle.hek_rules.specs.World.{txn_in};
ghost use Rattle.hek_rules.specs.Events.{txn_of};
ghost use Rattle.hek_rules.specs.Table.{rule as rule_of, checked, outcome};
ghost use Rattle.hek_laws.specs.Runs.{IsPlaced};
ghost use Rattle.hek_txn.specs.TxnTable.{Declared};
ghost use Rattle.hek_rules.specs.declared.check.Check.TheVariants.{Passed};
ghost use Rattle.hek_machine.specs.Checks.{is_idle};
ghost use Rattle.hek_rules.specs.Checks.{check_of};
ghost use Rattle.hek_machine.specs.Stands.{StandsForSome, IsRule, StillShows};
ghost use Rattle.hek_machine.specs.Steps.{takes_memory, NeedsNone};

use crate::engine::Engine;
use crate::scratch::Scratch;
use hek_rules::{Cause, Check, Event, NoMemory, Refusal, Reply, TxnId};

impl Engine {
    /// The rule of an event that has passed the checks.
    fn rule(&mut self, t: TxnId, e: &Event, scratch: &mut Scratch) -> Result<Reply, NoMemory>
        requires known { Declared self.old.txns t }
        requires ordered { StandsForSome self.old }
        requires passed { check_of (txn_in self.old.txns.cores t) (is_idle self.old.txns t) self.old.clock e.now ≡ Passed }
        requires placed { IsPlaced self.old.store.buckets e.now }
        ensures rule { IfOk result (IsRule (λ w. rule_of w t e.now) self.old self.new) }
        ensures still { OnErr result (StillShows self.old self.new) }
        ensures sure { takes_memory e.now ≡ false → IsOk result }
    {
        match *e {
            Event::Begin(_) => Ok(self.begin(t)),
            Event::Read(_, key) => self.read(t, key, scratch),
            Event::Scan(_, bucket) => self.scan(t, bucket, scratch),
            Event::Insert(_, key, value) => self.insert(t, key, value, scratch),
            Event::Update(_, key, value) => self.update(t, key, value, scratch),
            Event::Delete(_, key) => self.delete(t, key, scratch),
            Event::Finish(_) => Ok(self.finish(t)),
            Event::Precommit(_) => Ok(self.precommit(t)),
            Event::Release(_) => Ok(self.release(t)),
            Event::Commit(_) => Ok(self.commit(t)),
            Event::Fail(_) => Ok(self.fail(t)),
            Event::Stamp(_) => Ok(self.stamp(t)),
            Event::End(_) => Ok(self.end(t)),
            Event::Detect => self.detect(),
        }
    }

    /// An event of a transaction: the first check that fits gives the answer, otherwise the event's rule does.
    fn step_of(&mut self, t: TxnId, e: &Event, scratch: &mut Scratch) -> Result<Reply, NoMemory>
        requires ordered { StandsForSome self.old }
        requires placed { IsPlaced self.old.store.buckets e.now }
        ensures rule { IfOk result (IsRule (λ w. checked w t e.now) self.old self.new) }
        ensures still { OnErr result (StillShows self.old self.new) }
        ensures sure { txn_of e.now ≡ Some t → NeedsNone self.old e.now → IsOk result }
    {
        if !self.txns.is_declared(t) {
            return Ok(Reply::Refused(Refusal::UnknownTxn));
        }
        match self.check(t, e) {
            Check::Refused(why) => Ok(Reply::Refused(why)),
            Check::Doomed => Ok(self.abort(t, Cause::Cascade)),
            Check::StillAborted(cause) => Ok(Reply::Aborted(cause)),
            Check::Passed => self.rule(t, e, scratch),
        }
    }

    /// The reply to an event. NoMemory comes only from an event that reads or writes rows or searches for a deadlock,
    /// and has passed the checks.
    fn answer(&mut self, e: &Event, scratch: &mut Scratch) -> Result<Reply, NoMemory>
        requires ordered { StandsForSome self.old }
        requires placed { IsPlaced self.old.store.buckets e.now }
        ensures rule { IfOk result (IsRule (λ w. outcome w e.now) self.old self.new) }
        ensures still { OnErr result (StillShows self.old self.new) }
        ensures sure { NeedsNone self.old e.now → IsOk result }
    {
        match (*e).txn() {
            Some(t) => self.step_of(t, e, scratch),
            None => self.detect(),
        }
    }

    /// The reply to an event. If the event met many versions of a key, later events pass over those that are over.
    pub(crate) fn step(&mut self, e: &Event, scratch: &mut Scratch) -> Result<Reply, NoMemory>
        requires ordered { StandsForSome self.old }
        requires placed { IsPlaced self.old.store.buckets e.now }
        ensures rule { IfOk result (IsRule (λ w. outcome w e.now) self.old self.new) }
        ensures still { OnErr result (StillShows self.old self.new) }
        ensures sure { NeedsNone self.old e.now → IsOk result }
    {
        let answered = self.answer(e, scratch);
        self.pass_over(*e, scratch);
        answered
    }
}
