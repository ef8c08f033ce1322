//! The reasons of refusals that no schedule comes to: a clock that is full, and transactions that aren't declared.
ghost use Rattle.std.specs.Prelude.{length};
ghost use Rattle.hek_laws.specs.Runs.{IsPlaced};

use crate::asserts::{holds, is_at};
use hek_asm::assemble_text;
use hek_machine::Machine;
use hek_rules::{Event, NoMemory, Refusal, Reply, Schedule, Time, TxnId};
use hek_step_report::text::put_reasons;
use hek_why::{Dooms, Step, reasons};
use std::alloc::Global;
use std::process::Abort;
use std::test::Fail;

/// One time is left to draw: at 2^63 - 2 the clock is full.
const LATE: u64 = (1 << 63) - 3;

/// An event, its refusal, and the line that says why.
type Case = (Event, Refusal, &'static str);

/// Does an event, and sees that it is refused so, with this for a reason.
fn refuse(
    rt: &impl Abort,
    alloc: Global,
    schedule: &Schedule,
    machine: &mut Machine,
    case: &Case,
) -> Result<(), NoMemory> {
    let before = machine.copy()?;
    refuse_from(rt, alloc, schedule, &before, machine, case)
}

/// Does an event, and sees that it is refused so, from a machine before it.
fn refuse_from(
    rt: &impl Abort,
    alloc: Global,
    schedule: &Schedule,
    before: &Machine,
    machine: &mut Machine,
    case: &Case,
) -> Result<(), NoMemory> {
    let (event, refusal, want) = *case;
    let reply = stepped(rt, machine, event)?;
    holds(rt, matches!(reply, Reply::Refused(it) if it == refusal));
    let step = Step {
        before,
        event,
        reply: &reply,
        after: machine,
    };
    let lines = lines_of(alloc, schedule, &step)?;
    is_at(rt, want, lines.as_slice(), want.as_bytes());
    Ok(())
}

/// The lines of a step's reasons.
fn lines_of(alloc: Global, schedule: &Schedule, step: &Step<'_>) -> Result<Vec<u8>, NoMemory> {
    let list = reasons(alloc, step, &Dooms::new(alloc))?;
    let mut lines = Vec::new(alloc);
    let t = step.event.txn().unwrap_or(TxnId::new(0));
    put_reasons(schedule, step.before, t, list.as_slice(), &mut lines)?;
    Ok(lines)
}

/// Draws the last time for a, and sees each event refused.
fn refuse_all(
    rt: &impl Abort,
    alloc: Global,
    schedule: &Schedule,
    machine: &mut Machine,
) -> Result<(), NoMemory> {
    let (a, b) = (TxnId::new(1), TxnId::new(2));
    stepped(rt, machine, Event::Begin(a))?;
    stepped(rt, machine, Event::Finish(a))?;
    let full = "  no time is left to draw\n";
    for case in &[
        (Event::Begin(b), Refusal::ClockFull, full),
        (Event::Precommit(a), Refusal::ClockFull, full),
        (
            Event::Read(TxnId::new(3), 10),
            Refusal::UnknownTxn,
            "  3 is not declared\n",
        ),
        (
            Event::End(TxnId::new(0)),
            Refusal::UnknownTxn,
            "  0 is not declared\n",
        ),
    ] {
        refuse(rt, alloc, schedule, machine, case)?;
    }
    Ok(())
}

fn refuse_late(rt: &impl Abort, alloc: Global, schedule: &Schedule) -> Result<(), NoMemory> {
    let mut machine = Machine::load_at(alloc, schedule, Time::new(LATE))?;
    refuse_all(rt, alloc, schedule, &mut machine)
}

fn stepped(rt: &impl Abort, machine: &mut Machine, event: Event) -> Result<Reply, NoMemory> {
    assert_placed(rt, machine, &event);
    machine.step(event)
}

fn assert_placed(rt: &impl Abort, machine: &Machine, event: &Event)
    ensures { IsPlaced (length machine.now.buckets) event.now }
{
    match *event {
        Event::Scan(_, bucket) => assert!(rt; bucket < machine.buckets()),
        _ => {}
    }
}

#[test]
fn gives_the_reasons(rt: HostRuntime) -> Result<(), Fail> {
    let text = "buckets 1\nrow 10 1\ntxn a repeatable\ntxn b repeatable\n";
    let schedule = assemble_text(rt.alloc(), text)?;
    refuse_late(&rt, rt.alloc(), &schedule)?;
    Ok(())
}
