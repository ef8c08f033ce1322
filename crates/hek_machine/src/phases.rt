//! Begin, finish, precommit, commit, fail, stamp and end (section 2 of the paper: the phases of a transaction).
ghost use Rattle.std.specs.Prelude.{◌-◌, ◌<◌, ◌^◌};
ghost use Rattle.hek_rules.specs.Table.{aborted, begin_rule, finish_rule, precommit_rule, commit_rule, fail_rule, stamp_rule, end_rule};
ghost use Rattle.hek_txn.specs.TxnTable.{Declared};
ghost use Rattle.hek_machine.specs.Stands.{StandsForSome, IsRule};

use crate::engine::Engine;
use hek_rules::{Cause, Reply, Time, TxnId};

impl Engine {
    pub(crate) fn begin(&mut self, t: TxnId) -> Reply
        requires known { Declared self.old.txns t }
        requires early { self.old.clock < 2 ^ 63 - 2 }
        ensures { IsRule (λ w. begin_rule w t) self.old self.new result }
    {
        let now = self.clock;
        self.txns.set_begun(t, now);
        self.clock = Time::new(now.number() + 1);
        Reply::Began(now)
    }

    pub(crate) fn finish(&mut self, t: TxnId) -> Reply
        requires known { Declared self.old.txns t }
        ensures { IsRule (λ w. finish_rule w t) self.old self.new result }
    {
        self.txns.set_no_more_waits(t);
        Reply::Ready
    }

    pub(crate) fn precommit(&mut self, t: TxnId) -> Reply
        requires known { Declared self.old.txns t }
        requires early { self.old.clock < 2 ^ 63 - 2 }
        ensures { IsRule (λ w. precommit_rule w t) self.old self.new result }
    {
        let now = self.clock;
        if let Err(waits) = hek_commit::precommit(&mut self.txns, t, now) {
            return Reply::Waiting(waits);
        }
        self.clock = Time::new(now.number() + 1);
        Reply::Precommitted(now)
    }

    #[tactic(auto, using(crate::proofs::PhaseRules::dependents_declared, crate::proofs::PhaseRules::dependents_counted))]
    pub(crate) fn commit(&mut self, t: TxnId) -> Reply
        requires known { Declared self.old.txns t }
        requires ordered { StandsForSome self.old }
        ensures { IsRule (λ w. commit_rule w t) self.old self.new result }
    {
        match hek_commit::commit(&mut self.txns, t) {
            Ok(()) => Reply::Committed,
            Err(commit_deps) => Reply::WaitingCommits(commit_deps),
        }
    }

    /// Aborts the transaction by this cause.
    #[tactic(auto, using(crate::proofs::PhaseRules::dependents_declared, crate::proofs::PhaseRules::dependents_counted))]
    pub(crate) fn abort(&mut self, t: TxnId, cause: Cause) -> Reply
        requires known { Declared self.old.txns t }
        requires ordered { StandsForSome self.old }
        ensures { IsRule (λ w. aborted w t cause) self.old self.new result }
    {
        hek_commit::abort(&mut self.txns, t, cause);
        Reply::Aborted(cause)
    }

    #[tactic(auto, using(crate::proofs::PhaseRules::dependents_declared, crate::proofs::PhaseRules::dependents_counted))]
    pub(crate) fn fail(&mut self, t: TxnId) -> Reply
        requires known { Declared self.old.txns t }
        requires ordered { StandsForSome self.old }
        ensures { IsRule (λ w. fail_rule w t) self.old self.new result }
    {
        hek_commit::abort(&mut self.txns, t, Cause::Asked);
        Reply::Failed
    }

    /// Stamps the first entry of the write set.
    #[tactic(auto, using(crate::proofs::StampRules::stamp_time, crate::proofs::StampRules::can_stamp))]
    pub(crate) fn stamp(&mut self, t: TxnId) -> Reply
        requires known { Declared self.old.txns t }
        requires ordered { StandsForSome self.old }
        ensures { IsRule (λ w. stamp_rule w t) self.old self.new result }
    {
        hek_commit::stamp_next(&mut self.store, &mut self.txns, t)
    }

    pub(crate) fn end(&mut self, t: TxnId) -> Reply
        requires known { Declared self.old.txns t }
        ensures { IsRule (λ w. end_rule w t) self.old self.new result }
    {
        hek_commit::end(&mut self.txns, t);
        Reply::Over
    }
}
