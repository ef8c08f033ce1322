//! The log of a run of the machine.
ghost use Rattle.std.specs.Prelude.{◌≡◌, length};
ghost use Rattle.std.specs.List.{All};
ghost use Rattle.hek_laws.specs.Runs.{IsPlaced};

use hek_history_log::write_run;
use hek_machine::Machine;
use hek_report::{HekFault, ScheduleFile, schedule_in, send};
use hek_rules::{Event, NoMemory, Schedule, Transcript};
use std::alloc::Global;
use std::io::{Read, Write};

/// Runs the steps of the schedule in a file, and writes the run as a log: a line for each transaction. Answers the exit
/// status.
pub fn run_log_command<'a, R: Read + Drop, W: Write>(
    alloc: Global,
    file: ScheduleFile<R>,
    out: &mut W,
) -> Result<u8, HekFault<'a>> {
    let schedule = schedule_in(alloc, file)?;
    let mut lines = lines_of_run(alloc, &schedule)?;
    send(&mut lines, out)?;
    Ok(0)
}

/// The log of the run of a schedule's steps.
fn lines_of_run(alloc: Global, schedule: &Schedule) -> Result<Vec<u8>, NoMemory> {
    let mut transcript = Transcript::new(alloc, schedule)?;
    run_all(alloc, schedule, &mut transcript)?;
    let mut lines = Vec::new(alloc);
    write_run(alloc, schedule, &transcript, &mut lines)?;
    Ok(lines)
}

/// Runs a schedule's steps, and notes each with its reply.
#[tactic(auto, using(hek_machine::proofs::PlacedSteps::steps_placed))]
fn run_all(
    alloc: Global,
    schedule: &Schedule,
    transcript: &mut Transcript,
) -> Result<(), NoMemory> {
    // `known` gives that the schedule has a bucket, and that each of its steps is well formed.
    schedule.known();
    let mut machine = Machine::load(alloc, schedule)?;
    run_steps(schedule, &mut machine, schedule.steps(), transcript)
}

/// Does steps, and notes each with its reply.
fn run_steps(
    schedule: &Schedule,
    machine: &mut Machine,
    steps: &[Event],
    transcript: &mut Transcript,
) -> Result<(), NoMemory>
    requires buckets { length machine.old.buckets ≡ schedule.now.buckets }
    requires placed { All (IsPlaced schedule.now.buckets) steps.now }
{
    for place in 0..steps.len() {
        run_step(machine, &steps[place], transcript)?;
    }
    Ok(())
}

fn run_step(
    machine: &mut Machine,
    event: &Event,
    transcript: &mut Transcript,
) -> Result<(), NoMemory>
    requires placed { IsPlaced (length machine.old.buckets) event.now }
    ensures buckets { length machine.new.buckets ≡ length machine.old.buckets }
{
    let reply = machine.step(*event)?;
    transcript.push(*event, reply)
}
