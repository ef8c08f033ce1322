//! The command `run`: the trace of a schedule's steps, and the state after them.
ghost use Rattle.std.specs.Prelude.{◌≡◌, length, IfOk, IfErr, OnOk, MatchResult};
ghost use Rattle.std.specs.List.{All, AllByRecursion};
ghost use Rattle.std.specs.Io.KnownBytes.{Appends};
ghost use Rattle.hek_rules.specs.Run.{run as run_of};
ghost use Rattle.hek_rules.specs.World.{World};
ghost use Rattle.hek_laws.specs.Runs.{IsPlaced};
ghost use Rattle.hek_asm.specs.Trace.{NamesDeclared};
ghost use Rattle.hek_machine.specs.Stands.{StandsFor};
ghost use Rattle.hek_machine.specs.Observed.{opening_of};
ghost use Rattle.hek_machine.specs.Steps.{HasNoFaults};
ghost use Rattle.hek_report.specs.Files.{PrintFails, IsStop};
ghost use Rattle.hek_step_report.specs.StateText.{state_text};
ghost use Rattle.hek_run_command.specs.Ran.{Runs, RunsTo, ShowsState, trace_of, trace_of_steps, replies_to, first_events};

use hek_asm::put_line;
use hek_machine::Machine;
use hek_report::{HekFault, ScheduleFile, schedule_in, send, send_if_many};
use hek_rules::{Event, Schedule};
use hek_step_report::text::{clock_line, state_lines};
use std::alloc::Global;
use std::io::{Read, Write};

/// Runs the steps of the schedule in a file, and writes their trace while it runs. Answers the exit status. No event is
/// at fault: each committed transaction gets what its own level promises, by end time. After a fault the lines of the
/// steps before it may have been written.
pub fn run_command<'a, R: Read + Drop, W: Write>(
    alloc: Global,
    file: ScheduleFile<R>,
    out: &mut W,
) -> Result<u8, HekFault<'a>>
    ensures { MatchResult result (λ status. (status ≡ 0) × Runs R.remaining file (W.contents out.old) (W.contents out.new)) (PrintFails R.remaining file) }
{
    let schedule = schedule_in(alloc, file)?;
    write_run(alloc, &schedule, out)?;
    Ok(0)
}

/// Runs the steps of a schedule, and writes their trace while it runs.
#[tactic(auto, using(hek_asm::proofs::RowLemmas::steps_declared, hek_machine::proofs::PlacedSteps::steps_placed, hek_machine::proofs::RunRules::run_has_no_faults))]
fn write_run<'a, W: Write>(
    alloc: Global,
    schedule: &Schedule,
    out: &mut W,
) -> Result<(), HekFault<'a>>
    ensures written { OnOk result (Appends (W.contents out.old) (W.contents out.new) (trace_of_steps schedule.now)) }
    ensures serial { OnOk result (HasNoFaults schedule.now schedule.now.steps (replies_to schedule.now schedule.now.steps)) }
    ensures stops { IfErr result IsStop }
{
    // `known` gives that the schedule has a bucket, and that each of its steps is well formed.
    schedule.known();
    let mut machine = Machine::load(alloc, schedule)?;
    write_steps(alloc, schedule, &mut machine, schedule.steps(), out)
}

/// Runs the first steps of the schedule in a file, as many as `limit` or all of them. Writes their trace, and the state
/// of the machine after them. Answers the exit status.
pub fn state_command<'a, R: Read + Drop, W: Write>(
    alloc: Global,
    file: ScheduleFile<R>,
    limit: Option<u64>,
    out: &mut W,
) -> Result<u8, HekFault<'a>>
    ensures { MatchResult result (λ status. (status ≡ 0) × RunsTo R.remaining file limit (W.contents out.old) (W.contents out.new)) (PrintFails R.remaining file) }
{
    let schedule = schedule_in(alloc, file)?;
    write_state(alloc, &schedule, limit, out)?;
    Ok(0)
}

/// Runs the first steps of a schedule, and writes their trace and the state after them.
fn write_state<'a, W: Write>(
    alloc: Global,
    schedule: &Schedule,
    limit: Option<u64>,
    out: &mut W,
) -> Result<(), HekFault<'a>>
    ensures written { OnOk result (ShowsState schedule.now limit (W.contents out.old) (W.contents out.new)) }
    ensures stops { IfErr result IsStop }
{
    // `known` gives that the schedule has a bucket, and that each of its steps is well formed.
    schedule.known();
    let steps = first_steps(schedule.steps(), limit);
    let mut machine = Machine::load(alloc, schedule)?;
    write_steps(alloc, schedule, &mut machine, steps, out)?;
    write_machine(alloc, schedule, &machine, out)
}

/// Writes the state of a machine.
fn write_machine<'a, W: Write>(
    alloc: Global,
    schedule: &Schedule,
    machine: &Machine,
    out: &mut W,
) -> Result<(), HekFault<'a>>
    ensures written { IfOk result (λ _. (w : World) → StandsFor machine.now w → Appends (W.contents out.old) (W.contents out.new) (state_text schedule.now w)) }
    ensures stops { IfErr result IsStop }
{
    let clock = machine.clock();
    let mut line = clock_line(alloc, clock)?;
    send(&mut line, out)?;
    let mut lines = state_lines(alloc, schedule, machine)?;
    send(&mut lines, out)
}

/// The first steps, as many as `limit` or all of them.
fn first_steps(steps: &[Event], limit: Option<u64>) -> &[Event]
    ensures { result.now ≡ first_events limit steps.now }
{
    match limit {
        None => steps,
        Some(count) => {
            if count < steps.len() as u64 {
                &steps[..count as usize]
            } else {
                steps
            }
        }
    }
}

/// Does steps on a machine that has done none, and writes their trace.
fn write_steps<'a, W: Write>(
    alloc: Global,
    schedule: &Schedule,
    machine: &mut Machine,
    steps: &[Event],
    out: &mut W,
) -> Result<(), HekFault<'a>>
    requires opens { StandsFor machine.old (opening_of schedule.now 1) }
    requires buckets { length machine.old.buckets ≡ schedule.now.buckets }
    requires placed { All (IsPlaced schedule.now.buckets) steps.now }
    requires declared { AllByRecursion (NamesDeclared (length schedule.now.txns)) steps.now }
    ensures stands { OnOk result (StandsFor machine.new (run_of (opening_of schedule.now 1) steps.now)) }
    ensures written { OnOk result (Appends (W.contents out.old) (W.contents out.new) (trace_of schedule.now steps.now)) }
    ensures stops { IfErr result IsStop }
{
    let mut lines = Vec::new(alloc);
    for place in 0..steps.len() {
        let event = &steps[place];
        let reply = machine.step(*event)?;
        put_line(schedule, place as u64 + 1, event, &reply, &mut lines)?;
        send_if_many(&mut lines, out)?;
    }
    send(&mut lines, out)?;
    Ok(())
}
