//! Single facts that a machine shows.
ghost use Rattle.std.specs.Prelude.{IfOk, false};
ghost use Rattle.hek_rules.specs.Listing.{has};
ghost use Rattle.hek_rules.specs.World.{txn_in};
ghost use Rattle.hek_rules.specs.Walk.{read_time as read_time_in};
ghost use Rattle.hek_txn.specs.TxnTable.{Declared};
ghost use Rattle.hek_machine.specs.Judgements.{IsShown};

use hek_machine::Machine;
use hek_rules::{Level, NoMemory, State, Time, TxnId, VersionId};

/// The state of a transaction, declared or not.
#[tactic(auto, using(crate::proofs::Undeclared::undeclared_state))]
pub(crate) fn state_of(machine: &Machine, u: TxnId) -> State
    ensures { IsShown machine.now (λ w. (txn_in w.txns u).state) result }
{
    if machine.is_declared(u) {
        machine.state(u)
    } else {
        State::NotBegun
    }
}

/// A transaction's end time, 0 until it is drawn.
#[tactic(auto, using(crate::proofs::Undeclared::undeclared_end))]
pub(crate) fn end_of(machine: &Machine, u: TxnId) -> Time
    ensures { IsShown machine.now (λ w. (txn_in w.txns u).end) result }
{
    if machine.is_declared(u) {
        machine.end_time(u)
    } else {
        Time::new(0)
    }
}

/// Whether a transaction has finished: its NoMoreWaitFors flag.
#[tactic(auto, using(crate::proofs::Undeclared::undeclared_finished))]
pub(crate) fn has_finished(machine: &Machine, u: TxnId) -> bool
    ensures { IsShown machine.now (λ w. (txn_in w.txns u).no_more_waits) result }
{
    machine.is_declared(u) && machine.no_more_waits(u)
}

/// The time at which a transaction reads: its begin time at the snapshot level, otherwise the clock.
pub fn read_time(machine: &Machine, t: TxnId) -> Time
    requires { Declared machine.now.txns t }
    ensures { IsShown machine.now (λ w. read_time_in w t) result }
{
    match machine.level(t) {
        Level::Snapshot => machine.begin_time(t),
        Level::Serializable | Level::Repeatable => machine.clock(),
    }
}

/// Whether a transaction read-locks a version.
#[tactic(auto, using(crate::proofs::Members::among_pairs))]
pub(crate) fn reads(machine: &Machine, t: TxnId, v: VersionId) -> Result<bool, NoMemory>
    requires { Declared machine.now.txns t }
    ensures { IfOk result (IsShown machine.now (λ w. has w.read_locks t v)) }
{
    let versions = machine.read_list(t)?;
    Ok(versions.as_slice().contains(&v))
}

/// Whether u is in the WaitingTxnList of t.
#[tactic(auto, using(crate::proofs::Members::among_pairs))]
pub(crate) fn is_listed(machine: &Machine, t: TxnId, u: TxnId) -> Result<bool, NoMemory>
    requires { Declared machine.now.txns t }
    ensures { IfOk result (IsShown machine.now (λ w. has w.waiters t u)) }
{
    let txns = machine.waiting_list(t)?;
    Ok(txns.as_slice().contains(&u))
}

/// Whether t is in the CommitDepSet of u.
#[tactic(auto, using(crate::proofs::Members::among_pairs))]
pub(crate) fn is_dependent(machine: &Machine, u: TxnId, t: TxnId) -> Result<bool, NoMemory>
    requires { Declared machine.now.txns u }
    ensures { IfOk result (IsShown machine.now (λ w. has w.dependents u t)) }
{
    let txns = machine.dependents(u)?;
    Ok(txns.as_slice().contains(&t))
}
