//! One step of a schedule with its reasons and changes, without the lines of the steps before it.
ghost use Rattle.std.specs.Prelude.{◌≡◌, ◌<◌, length};
ghost use Rattle.std.specs.List.{All};
ghost use Rattle.hek_laws.specs.Runs.{IsPlaced};

use crate::telling::{Telling, tell_step};
use hek_machine::Machine;
use hek_report::Printing;
use hek_rules::{Event, NoMemory, Reply, Schedule, TxnId};
use hek_step_report::Extras;
use hek_why::Dooms;
use std::alloc::Global;

/// Does the step after the first `place` ones of a schedule, on the machine after those. Appends its line of the trace,
/// and what is asked for under it, as text. If the transaction is doomed, runs the earlier steps again to find whose abort
/// doomed it.
#[tactic(auto, using(hek_asm::proofs::RowLemmas::steps_declared, hek_machine::proofs::PlacedSteps::steps_placed))]
pub fn explain_step(
    alloc: Global,
    schedule: &Schedule,
    machine: &mut Machine,
    place: u64,
    extras: Extras,
    lines: &mut Vec<u8>,
) -> Result<(), NoMemory>
    requires buckets { length machine.old.buckets ≡ schedule.now.buckets }
    requires place { place < length schedule.now.steps }
{
    // `known` gives that each step of the schedule is well formed.
    schedule.known();
    let event = schedule.steps()[place as usize];
    let mut telling = Telling {
        schedule,
        done: place,
        dooms: dooms_before(alloc, schedule, machine, place, &event)?,
        extras,
        printing: Printing::Text,
    };
    tell_step(alloc, &mut telling, machine, &event, lines)
}

/// The transactions whose aborts, in the first steps of a schedule, doomed an event's transaction, if it is doomed.
fn dooms_before(
    alloc: Global,
    schedule: &Schedule,
    machine: &Machine,
    count: u64,
    event: &Event,
) -> Result<Dooms, NoMemory> {
    let mut dooms = Dooms::new(alloc);
    if let Some(t) = event.txn() {
        if machine.is_declared(t) && machine.abort_now(t) {
            note_all(alloc, schedule, count, t, &mut dooms)?;
        }
    }
    Ok(dooms)
}

/// Notes the transactions whose aborts doom a transaction in the first steps of a schedule.
#[tactic(auto, using(hek_machine::proofs::PlacedSteps::steps_placed))]
fn note_all(
    alloc: Global,
    schedule: &Schedule,
    count: u64,
    t: TxnId,
    dooms: &mut Dooms,
) -> Result<(), NoMemory> {
    // `known` gives that the schedule has a bucket, and that each of its steps is well formed.
    schedule.known();
    let mut machine = Machine::load(alloc, schedule)?;
    note_steps(&mut machine, schedule.steps(), count, t, dooms)
}

fn note_steps(
    machine: &mut Machine,
    steps: &[Event],
    count: u64,
    t: TxnId,
    dooms: &mut Dooms,
) -> Result<(), NoMemory>
    requires { All (IsPlaced (length machine.old.buckets)) steps.now }
{
    for place in 0..steps.len() {
        if place as u64 >= count {
            break;
        }
        note_step(machine, &steps[place], t, dooms)?;
    }
    Ok(())
}

/// Does an event on the machine, and notes whether its transaction's abort dooms t.
fn note_step(
    machine: &mut Machine,
    event: &Event,
    t: TxnId,
    dooms: &mut Dooms,
) -> Result<(), NoMemory>
    requires { IsPlaced (length machine.old.buckets) event.now }
    ensures { length machine.new.buckets ≡ length machine.old.buckets }
{
    let trusted = trusted_by(machine, event, t)?;
    let reply = machine.step(*event)?;
    match (trusted, reply) {
        (Some(u), Reply::Aborted(_) | Reply::Failed) => dooms.add(u, t),
        _ => Ok(()),
    }
}

/// The transaction of an event, if the commit of t depends on it; that transaction is Preparing.
fn trusted_by(machine: &Machine, event: &Event, t: TxnId) -> Result<Option<TxnId>, NoMemory> {
    let Some(u) = event.txn() else {
        return Ok(None);
    };
    if !machine.is_declared(u) {
        return Ok(None);
    }
    let dependents = machine.dependents(u)?;
    Ok(if dependents.as_slice().contains(&t) {
        Some(u)
    } else {
        None
    })
}
