//! A run that is told step by step.
ghost use Rattle.std.specs.Prelude.{◌≡◌, length};
ghost use Rattle.hek_laws.specs.Runs.{IsPlaced};
ghost use Rattle.hek_asm.specs.Trace.{NamesDeclared};

use crate::printed::{put_plain, put_told};
use hek_machine::Machine;
use hek_report::Printing;
use hek_rules::{Event, NoMemory, Schedule};
use hek_step_report::{Extras, Told};
use hek_why::{Change, Dooms, Reason, Step, changes, reasons};
use std::alloc::Global;

/// A run so far: the schedule, the number of events done, which abort doomed which transaction, what is asked for with
/// each step, and how it is printed.
#[derive(Drop)]
pub(crate) struct Telling<'a> {
    pub(crate) schedule: &'a Schedule,
    pub(crate) done: u64,
    pub(crate) dooms: Dooms,
    pub(crate) extras: Extras,
    pub(crate) printing: Printing,
}

impl<'a> Telling<'a> {
    /// A run of a schedule before its first event.
    pub(crate) fn new(
        alloc: Global,
        schedule: &'a Schedule,
        extras: Extras,
        printing: Printing,
    ) -> Telling<'a>
        ensures { result.schedule ≡ schedule.entry }
    {
        Telling {
            schedule,
            done: 0,
            dooms: Dooms::new(alloc),
            extras,
            printing,
        }
    }
}

/// Does an event on the machine. Appends its line, and what is asked for with it.
pub(crate) fn tell_step(
    alloc: Global,
    telling: &mut Telling<'_>,
    machine: &mut Machine,
    event: &Event,
    lines: &mut Vec<u8>,
) -> Result<(), NoMemory>
    requires placed { IsPlaced (length machine.old.buckets) event.now }
    requires declared { NamesDeclared (length telling.old.schedule.now.txns) event.now }
    ensures buckets { length machine.new.buckets ≡ length machine.old.buckets }
    ensures schedule { telling.new.schedule ≡ telling.old.schedule }
{
    if telling.extras.is_none() {
        return tell_plain(alloc, telling, machine, event, lines);
    }
    let before = machine.copy()?;
    tell_from(alloc, telling, &before, machine, event, lines)
}

/// Does an event on the machine. Appends its line.
fn tell_plain(
    alloc: Global,
    telling: &mut Telling<'_>,
    machine: &mut Machine,
    event: &Event,
    lines: &mut Vec<u8>,
) -> Result<(), NoMemory>
    requires placed { IsPlaced (length machine.old.buckets) event.now }
    requires declared { NamesDeclared (length telling.old.schedule.now.txns) event.now }
    ensures buckets { length machine.new.buckets ≡ length machine.old.buckets }
    ensures schedule { telling.new.schedule ≡ telling.old.schedule }
{
    let reply = machine.step(*event)?;
    telling.done = telling.done.saturating_add(1);
    let (printing, number) = (telling.printing, telling.done);
    put_plain(
        alloc,
        printing,
        telling.schedule,
        number,
        event,
        &reply,
        lines,
    )
}

/// Does an event on the machine, given a copy of it from before. Appends its line, and what is asked for with it.
fn tell_from(
    alloc: Global,
    telling: &mut Telling<'_>,
    before: &Machine,
    machine: &mut Machine,
    event: &Event,
    lines: &mut Vec<u8>,
) -> Result<(), NoMemory>
    requires placed { IsPlaced (length machine.old.buckets) event.now }
    requires declared { NamesDeclared (length telling.old.schedule.now.txns) event.now }
    ensures buckets { length machine.new.buckets ≡ length machine.old.buckets }
    ensures schedule { telling.new.schedule ≡ telling.old.schedule }
{
    let reply = machine.step(*event)?;
    telling.done = telling.done.saturating_add(1);
    let step = Step {
        before,
        event: *event,
        reply: &reply,
        after: machine,
    };
    put_step(alloc, telling, &step, lines)?;
    telling.dooms.note(before, *event, &reply)
}

/// Appends the lines of a step, with what is asked for.
fn put_step(
    alloc: Global,
    telling: &Telling<'_>,
    step: &Step<'_>,
    lines: &mut Vec<u8>,
) -> Result<(), NoMemory>
    requires { NamesDeclared (length telling.now.schedule.now.txns) step.now.event }
{
    let reasons = reasons_asked(alloc, telling, step)?;
    let changes = changes_asked(alloc, telling, step)?;
    let told = Told {
        number: telling.done,
        step,
        why: telling.extras.why,
        reasons: reasons.as_slice(),
        changes: if telling.extras.changes {
            Some(changes.as_slice())
        } else {
            None
        },
    };
    put_told(alloc, telling.printing, telling.schedule, &told, lines)
}

/// The reasons of a step, if they are asked for.
fn reasons_asked(
    alloc: Global,
    telling: &Telling<'_>,
    step: &Step<'_>,
) -> Result<Vec<Reason>, NoMemory> {
    match telling.extras.why {
        Some(_) => reasons(alloc, step, &telling.dooms),
        None => Ok(Vec::new(alloc)),
    }
}

/// What a step changed, if that is asked for.
fn changes_asked(
    alloc: Global,
    telling: &Telling<'_>,
    step: &Step<'_>,
) -> Result<Vec<Change>, NoMemory> {
    if telling.extras.changes {
        changes(alloc, step.before, step.after)
    } else {
        Ok(Vec::new(alloc))
    }
}
