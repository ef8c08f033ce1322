//! Why an event is refused.
ghost use Rattle.hek_txn.specs.TxnTable.{Declared};
ghost use Rattle.hek_why.specs.Phases.{IsPhaseOf};

use crate::facts::{has_finished, state_of};
use crate::reason::{Phase, Reason};
use hek_machine::Machine;
use hek_rules::{EventKind, NoMemory, Refusal, State, TxnId};

/// The phase that each kind of event wants its transaction to be in.
fn phase_of(kind: EventKind) -> Phase
    ensures { IsPhaseOf kind result }
{
    match kind {
        EventKind::Begin => Phase::NotBegun,
        EventKind::Read
        | EventKind::Scan
        | EventKind::Insert
        | EventKind::Update
        | EventKind::Delete
        | EventKind::Finish => Phase::Open,
        EventKind::Precommit => Phase::Finished,
        EventKind::Commit => Phase::Preparing,
        EventKind::Fail => Phase::Live,
        EventKind::Release => Phase::Releasing,
        EventKind::Stamp | EventKind::End | EventKind::Detect => Phase::Over,
    }
}

/// Why an event was refused: the phase that it wants and the state of its transaction; for an `end` of a committed or
/// aborted transaction, what is left to give back and to stamp.
pub(crate) fn refusal_reason(
    machine: &Machine,
    t: TxnId,
    kind: EventKind,
    refusal: Refusal,
) -> Result<Reason, NoMemory> {
    let state = state_of(machine, t);
    let is_decided = state == State::Committed || matches!(state, State::Aborted(_));
    if kind == EventKind::End && is_decided && machine.is_declared(t) {
        return holdings(machine, t);
    }
    Ok(Reason::Refused {
        refusal,
        phase: phase_of(kind),
        state,
        finished: has_finished(machine, t),
    })
}

/// How much a transaction has left to give back and to stamp.
fn holdings(machine: &Machine, t: TxnId) -> Result<Reason, NoMemory>
    requires { Declared machine.now.txns t }
{
    Ok(Reason::Holds {
        reads: machine.read_list(t)?.len(),
        buckets: machine.bucket_list(t)?.len(),
        waiters: machine.waiting_list(t)?.len(),
        writes: machine.write_list(t)?.len(),
    })
}
