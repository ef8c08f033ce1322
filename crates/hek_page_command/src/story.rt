//! A run step by step, as a page shows it: the state before the first step that is shown, the trace, and each step.
ghost use Rattle.std.specs.Prelude.{◌≡◌, ◌≤◌, ◌+◌, [], length, IfOk, OnOk};
ghost use Rattle.std.specs.List.{All, AllByRecursion};
ghost use Rattle.hek_rules.specs.World.{World};
ghost use Rattle.hek_rules.specs.Run.{next};
ghost use Rattle.hek_laws.specs.Runs.{IsPlaced};
ghost use Rattle.hek_asm.specs.Trace.{NamesDeclared};
ghost use Rattle.hek_machine.specs.Stands.{StandsFor};
ghost use Rattle.hek_moves.specs.Steps.{world_at, LeadsNext};
ghost use Rattle.hek_page_command.specs.Tellings.{AreTold, IsStory, IsStepAdded};

use crate::changed::put_clock;
use crate::step_text::{StepText, Watch, step_text};
use crate::waits::Waits;
use hek_asm::put_line;
use hek_machine::Machine;
use hek_rules::{Event, NoMemory, Reply, Schedule, Transcript};
use hek_step_report::text::state_lines;
use hek_why::{Dooms, Step};
use std::alloc::Global;

/// The steps of a run after the first `done` ones, up to the step with the number `last`, if there are so many.
#[derive(Clone, Copy)]
pub struct StepRange {
    pub done: usize,
    pub last: usize,
}

/// A run, as a page shows it.
#[derive(Drop)]
pub struct Story {
    pub opening: Opening,
    /// All steps from the first of the run on.
    pub transcript: Transcript,
    /// The lines of the steps that are shown.
    pub trace: Vec<u8>,
    pub steps: Vec<StepText>,
}

/// The lines of the state before the first step, of the waits there, and of the transactions that have asked.
#[derive(Drop)]
pub struct Opening {
    pub lines: Vec<u8>,
    pub waits: Vec<u8>,
    pub asked: Vec<u8>,
}

/// The run of a schedule's steps, of which those of the range are shown. What the shown steps change, done one after another on
/// what the machine shows before them, gives what it shows after each.
pub fn story_of(alloc: Global, schedule: &Schedule, range: StepRange) -> Result<Story, NoMemory>
    ensures { IfOk result (λ story. IsStory schedule.now range story.steps.items) }
{
    let last = range.last.min(schedule.steps().len());
    let fitting = StepRange {
        done: range.done.min(last),
        last,
    };
    let mut story = empty_story(alloc, schedule)?;
    run_story(alloc, schedule, fitting, &mut story)?;
    Ok(story)
}

/// A story that has no step yet.
fn empty_story(alloc: Global, schedule: &Schedule) -> Result<Story, NoMemory>
    ensures { IfOk result (λ story. story.steps.items ≡ []) }
{
    let transcript = Transcript::new(alloc, schedule)?;
    let opening = Opening {
        lines: Vec::new(alloc),
        waits: Vec::new(alloc),
        asked: Vec::new(alloc),
    };
    Ok(Story {
        opening,
        transcript,
        trace: Vec::new(alloc),
        steps: Vec::new(alloc),
    })
}

/// Runs a schedule from its first step on.
#[tactic(auto, using(hek_asm::proofs::RowLemmas::steps_declared, hek_machine::proofs::PlacedSteps::steps_placed))]
fn run_story(
    alloc: Global,
    schedule: &Schedule,
    range: StepRange,
    story: &mut Story,
) -> Result<(), NoMemory>
    requires fits { range.done ≤ range.last }
    requires ends { range.last ≤ length schedule.now.steps }
    requires none { story.old.steps.items ≡ [] }
    ensures told { OnOk result (AreTold schedule.now range.done story.new.steps.items) }
    ensures count { OnOk result (range.done + length story.new.steps.items ≡ range.last) }
{
    // `known` gives that the schedule has a bucket, and that each of its steps is well formed.
    schedule.known();
    let mut machine = Machine::load(alloc, schedule)?;
    let mut watch = Watch {
        waits: Waits::new(alloc),
        dooms: Dooms::new(alloc),
    };
    let steps = schedule.steps();
    tell_steps(
        alloc,
        schedule,
        steps,
        range,
        &mut machine,
        &mut watch,
        story,
    )
}

/// Does the steps before those that are shown, and then these.
fn tell_steps(
    alloc: Global,
    schedule: &Schedule,
    steps: &[Event],
    range: StepRange,
    machine: &mut Machine,
    watch: &mut Watch,
    story: &mut Story,
) -> Result<(), NoMemory>
    requires same { steps.now ≡ schedule.now.steps }
    requires fits { range.done ≤ range.last }
    requires ends { range.last ≤ length steps.now }
    requires none { story.old.steps.items ≡ [] }
    requires placed { All (IsPlaced schedule.now.buckets) steps.now }
    requires declared { AllByRecursion (NamesDeclared (length schedule.now.txns)) steps.now }
    requires stands { StandsFor machine.old (world_at schedule.now 0) }
    ensures told { OnOk result (AreTold schedule.now range.done story.new.steps.items) }
    ensures count { OnOk result (range.done + length story.new.steps.items ≡ range.last) }
{
    let passed = &mut story.transcript;
    pass_steps(alloc, schedule, steps, range.done, machine, watch, passed)?;
    open(alloc, schedule, machine, watch, &mut story.opening)?;
    show_steps(alloc, schedule, steps, range, machine, watch, story)
}

/// Does the steps before those that are shown.
fn pass_steps(
    alloc: Global,
    schedule: &Schedule,
    steps: &[Event],
    done: usize,
    machine: &mut Machine,
    watch: &mut Watch,
    passed: &mut Transcript,
) -> Result<(), NoMemory>
    requires same { steps.now ≡ schedule.now.steps }
    requires fits { done ≤ length steps.now }
    requires placed { All (IsPlaced schedule.now.buckets) steps.now }
    requires stands { StandsFor machine.old (world_at schedule.now 0) }
    ensures { OnOk result (StandsFor machine.new (world_at schedule.now done)) }
{
    for place in 0..done {
        let event = &steps[place];
        pass_step(alloc, event, machine, watch, passed)?;
    }
    Ok(())
}

fn pass_step(
    alloc: Global,
    event: &Event,
    machine: &mut Machine,
    watch: &mut Watch,
    passed: &mut Transcript,
) -> Result<(), NoMemory>
    requires placed { IsPlaced (length machine.old.buckets) event.now }
    ensures { OnOk result (LeadsNext event.now machine.old machine.new) }
{
    let before = machine.copy()?;
    pass_from(alloc, event, &before, machine, watch, passed)
}

/// Does a step that no page shows, given a copy of the machine from before it.
fn pass_from(
    alloc: Global,
    event: &Event,
    before: &Machine,
    machine: &mut Machine,
    watch: &mut Watch,
    passed: &mut Transcript,
) -> Result<(), NoMemory>
    requires placed { IsPlaced (length machine.old.buckets) event.now }
    ensures { OnOk result (LeadsNext event.now machine.old machine.new) }
{
    let reply = machine.step(*event)?;
    watch_step(alloc, before, event, &reply, machine, watch)?;
    passed.push(*event, reply)
}

/// Takes note of a step that no page shows.
fn watch_step(
    alloc: Global,
    before: &Machine,
    event: &Event,
    reply: &Reply,
    after: &Machine,
    watch: &mut Watch,
) -> Result<(), NoMemory> {
    let step = Step {
        before,
        event: *event,
        reply,
        after,
    };
    let mut ended = Vec::new(alloc);
    watch.waits.note(alloc, &step, &mut ended)?;
    watch.dooms.note(before, *event, reply)
}

/// The state before the steps that are shown.
fn open(
    alloc: Global,
    schedule: &Schedule,
    machine: &Machine,
    watch: &mut Watch,
    opening: &mut Opening,
) -> Result<(), NoMemory> {
    put_clock(alloc, machine, &mut opening.lines)?;
    let lines = state_lines(alloc, schedule, machine)?;
    opening.lines.extend_from_slice(lines.as_slice())?;
    let mut waits = None;
    watch.waits.changes(alloc, machine, &mut waits)?;
    if let Some(waits) = waits {
        opening.waits = waits;
    }
    watch.waits.put_asked(&mut opening.asked)
}

/// Does the steps that are shown.
fn show_steps(
    alloc: Global,
    schedule: &Schedule,
    steps: &[Event],
    range: StepRange,
    machine: &mut Machine,
    watch: &mut Watch,
    story: &mut Story,
) -> Result<(), NoMemory>
    requires same { steps.now ≡ schedule.now.steps }
    requires fits { range.done ≤ range.last }
    requires ends { range.last ≤ length steps.now }
    requires none { story.old.steps.items ≡ [] }
    requires placed { All (IsPlaced schedule.now.buckets) steps.now }
    requires declared { AllByRecursion (NamesDeclared (length schedule.now.txns)) steps.now }
    requires stands { StandsFor machine.old (world_at schedule.now range.done) }
    ensures told { OnOk result (AreTold schedule.now range.done story.new.steps.items) }
    ensures count { OnOk result (range.done + length story.new.steps.items ≡ range.last) }
{
    for place in range.done..range.last {
        let event = &steps[place];
        let number = place as u64 + 1;
        show_step(alloc, schedule, number, event, machine, watch, story)?;
    }
    Ok(())
}

/// One step that is shown.
fn show_step(
    alloc: Global,
    schedule: &Schedule,
    number: u64,
    event: &Event,
    machine: &mut Machine,
    watch: &mut Watch,
    story: &mut Story,
) -> Result<(), NoMemory>
    requires placed { IsPlaced (length machine.old.buckets) event.now }
    requires declared { NamesDeclared (length schedule.now.txns) event.now }
    ensures next { OnOk result (LeadsNext event.now machine.old machine.new) }
    ensures added { OnOk result (IsStepAdded machine.old machine.new story.old.steps.items story.new.steps.items) }
{
    let before = machine.copy()?;
    show_from(
        alloc, schedule, number, event, &before, machine, watch, story,
    )?;
    Ok(())
}

/// Does a step that is shown, given a copy of the machine from before it.
fn show_from(
    alloc: Global,
    schedule: &Schedule,
    number: u64,
    event: &Event,
    before: &Machine,
    machine: &mut Machine,
    watch: &mut Watch,
    story: &mut Story,
) -> Result<(), NoMemory>
    requires placed { IsPlaced (length machine.old.buckets) event.now }
    requires declared { NamesDeclared (length schedule.now.txns) event.now }
    ensures next { OnOk result (LeadsNext event.now machine.old machine.new) }
    ensures added { OnOk result (IsStepAdded before.now machine.new story.old.steps.items story.new.steps.items) }
{
    let reply = machine.step(*event)?;
    let step = Step {
        before,
        event: *event,
        reply: &reply,
        after: machine,
    };
    add_step(alloc, schedule, number, &step, watch, story)?;
    story.transcript.push(*event, reply)?;
    Ok(())
}

/// Adds what a page says of a step, and its line of the trace.
fn add_step(
    alloc: Global,
    schedule: &Schedule,
    number: u64,
    step: &Step<'_>,
    watch: &mut Watch,
    story: &mut Story,
) -> Result<(), NoMemory>
    requires declared { NamesDeclared (length schedule.now.txns) step.now.event }
    ensures added { OnOk result (IsStepAdded step.now.before.now step.now.after.now story.old.steps.items story.new.steps.items) }
{
    let text = step_text(alloc, schedule, step, watch)?;
    watch.dooms.note(step.before, step.event, step.reply)?;
    put_line(schedule, number, &step.event, step.reply, &mut story.trace)?;
    story.steps.push(text)?;
    Ok(())
}
