//! Runs: the events of a schedule, one after another.
ghost use Rattle.std.specs.Prelude.{IfOk};
ghost use Rattle.std.specs.List.{All};
ghost use Rattle.hek_laws.specs.Runs.{IsFirstClock, IsPlaced};
ghost use Rattle.hek_machine.specs.Steps.{IsRun, HasNoFaults, RowsAreSerial};

use crate::machine::Machine;
use hek_rules::{Event, NoMemory, Reply, Schedule, Time};
use std::alloc::Global;

/// The result of a run: the reply to each event, in order, and the machine at the end.
#[derive(Drop)]
pub struct Trace {
    pub replies: Vec<Reply>,
    pub machine: Machine,
}

/// Runs these events, one after another, on the rows and transactions of a schedule. The clock begins at 1. The bucket
/// of each scan must exist.
///
/// However the events of different transactions are mixed, no event of a declared transaction is at fault: each committed
/// transaction was answered, as its level promises, over the rows that the committed transactions before it by end time
/// wrote. The committed rows of the machine at the end are those that the writes of all committed transactions leave, laid
/// one over another by end time. Where all are serializable, that is a run of one after another.
pub fn run(alloc: Global, schedule: &Schedule, events: &[Event]) -> Result<Trace, NoMemory>
    requires placed { All (IsPlaced schedule.now.buckets) events.now }
    ensures run { IfOk result (λ trace. IsRun schedule.now 1 events.now trace.replies.items trace.machine) }
    ensures serial { IfOk result (λ trace. HasNoFaults schedule.now events.now trace.replies.items) }
    ensures rows { IfOk result (λ trace. RowsAreSerial schedule.now events.now trace.replies.items trace.machine) }
{
    run_at(alloc, schedule, Time::new(1), events)
}

/// Runs these events as [`run`] does, with another first clock, from 1 to 2^63 - 2.
pub fn run_at(
    alloc: Global,
    schedule: &Schedule,
    clock: Time,
    events: &[Event],
) -> Result<Trace, NoMemory>
    requires clock { IsFirstClock clock }
    requires placed { All (IsPlaced schedule.now.buckets) events.now }
    ensures run { IfOk result (λ trace. IsRun schedule.now clock events.now trace.replies.items trace.machine) }
    ensures serial { IfOk result (λ trace. HasNoFaults schedule.now events.now trace.replies.items) }
    ensures rows { IfOk result (λ trace. RowsAreSerial schedule.now events.now trace.replies.items trace.machine) }
{
    let mut machine = Machine::load_at(alloc, schedule, clock)?;
    let mut replies = Vec::with_capacity(alloc, events.len())?;
    for &event in events {
        let reply = machine.step(event)?;
        replies.push(reply)?;
    }
    Ok(Trace { replies, machine })
}
