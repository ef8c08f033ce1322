//! The command `run` with reasons, changes or objects of JSON.
ghost use Rattle.std.specs.Prelude.{◌≡◌, length, IfOk};
ghost use Rattle.std.specs.List.{All, AllByRecursion};
ghost use Rattle.hek_laws.specs.Runs.{IsPlaced};
ghost use Rattle.hek_asm.specs.Trace.{NamesDeclared};

use crate::printed::put_state;
use crate::telling::{Telling, tell_step};
use hek_machine::Machine;
use hek_report::{HekFault, Printing, ScheduleFile, schedule_in, send, send_if_many};
use hek_rules::{Event, NoMemory, Schedule};
use hek_step_report::Extras;
use std::alloc::Global;
use std::io::{Read, Write};

/// What is asked of a run.
#[derive(Clone, Copy)]
pub struct Steps {
    /// What is asked for with each step.
    pub extras: Extras,
    /// How many steps are done, if not all.
    pub limit: Option<u64>,
    /// Whether the state of the machine follows the last step.
    pub state: bool,
    pub printing: Printing,
}

/// Runs the first steps of the schedule in a file, as many as are asked for. Writes each with what is asked for, and
/// then, if that is asked for, the state of the machine. Answers the exit status. With reasons or changes each step takes
/// time linear in the state.
pub fn steps_command<'a, R: Read + Drop, W: Write>(
    alloc: Global,
    file: ScheduleFile<R>,
    asked: Steps,
    out: &mut W,
) -> Result<u8, HekFault<'a>>
    ensures { IfOk result (λ status. status ≡ 0) }
{
    let schedule = schedule_in(alloc, file)?;
    write_run(alloc, &schedule, asked, out)?;
    Ok(0)
}

/// Runs the first steps of a schedule, and writes what is asked for.
#[tactic(auto, using(hek_asm::proofs::RowLemmas::steps_declared, hek_machine::proofs::PlacedSteps::steps_placed))]
fn write_run<'a, W: Write>(
    alloc: Global,
    schedule: &Schedule,
    asked: Steps,
    out: &mut W,
) -> Result<(), HekFault<'a>> {
    // `known` gives that the schedule has a bucket, and that each of its steps is well formed.
    schedule.known();
    let mut machine = Machine::load(alloc, schedule)?;
    let mut telling = Telling::new(alloc, schedule, asked.extras, asked.printing);
    let steps = schedule.steps();
    write_steps(alloc, &mut telling, &mut machine, steps, asked.limit, out)?;
    write_state(alloc, schedule, &machine, asked, out)
}

/// Does steps on a machine, as many as `limit` or all of them, and writes each.
fn write_steps<'a, W: Write>(
    alloc: Global,
    telling: &mut Telling<'_>,
    machine: &mut Machine,
    steps: &[Event],
    limit: Option<u64>,
    out: &mut W,
) -> Result<(), HekFault<'a>>
    requires buckets { length machine.old.buckets ≡ telling.old.schedule.now.buckets }
    requires placed { All (IsPlaced telling.old.schedule.now.buckets) steps.now }
    requires declared { AllByRecursion (NamesDeclared (length telling.old.schedule.now.txns)) steps.now }
{
    let mut lines = Vec::new(alloc);
    let last = limit.unwrap_or(u64::MAX);
    for place in 0..steps.len() {
        if place as u64 >= last {
            break;
        }
        tell_step(alloc, telling, machine, &steps[place], &mut lines)?;
        send_if_many(&mut lines, out)?;
    }
    send(&mut lines, out)
}

/// Writes the state of a machine, if it is asked for.
fn write_state<'a, W: Write>(
    alloc: Global,
    schedule: &Schedule,
    machine: &Machine,
    asked: Steps,
    out: &mut W,
) -> Result<(), HekFault<'a>> {
    if !asked.state {
        return Ok(());
    }
    let mut lines = Vec::new(alloc);
    put_state(alloc, asked.printing, schedule, machine, &mut lines)?;
    send(&mut lines, out)
}

/// Appends each step of a schedule, with what is asked for.
#[tactic(auto, using(hek_asm::proofs::RowLemmas::steps_declared, hek_machine::proofs::PlacedSteps::steps_placed))]
pub fn put_run(
    alloc: Global,
    schedule: &Schedule,
    extras: Extras,
    printing: Printing,
    lines: &mut Vec<u8>,
) -> Result<(), NoMemory> {
    // `known` gives that the schedule has a bucket, and that each of its steps is well formed.
    schedule.known();
    let mut machine = Machine::load(alloc, schedule)?;
    let mut telling = Telling::new(alloc, schedule, extras, printing);
    put_steps(alloc, &mut telling, &mut machine, schedule.steps(), lines)
}

fn put_steps(
    alloc: Global,
    telling: &mut Telling<'_>,
    machine: &mut Machine,
    steps: &[Event],
    lines: &mut Vec<u8>,
) -> Result<(), NoMemory>
    requires buckets { length machine.old.buckets ≡ telling.old.schedule.now.buckets }
    requires placed { All (IsPlaced telling.old.schedule.now.buckets) steps.now }
    requires declared { AllByRecursion (NamesDeclared (length telling.old.schedule.now.txns)) steps.now }
{
    for place in 0..steps.len() {
        tell_step(alloc, telling, machine, &steps[place], lines)?;
    }
    Ok(())
}
