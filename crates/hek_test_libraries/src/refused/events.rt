//! Each event of the worked runs: where it is refused the machine shows what it showed, and the event made again has its reply.
use crate::asserts::{holds, refused};
use crate::refused::machines::{assert_placed, assert_same, loaded, machine_after};
use crate::refused::runs::{RUNS, Run};
use crate::refused::texts::{assembled, told};
use hek_machine::Machine;
use hek_rules::{Event, Reply, Schedule, Transcript};
use std::alloc::Global;
use std::process::Abort;

fn takes_memory(event: &Event) -> bool {
    matches!(
        event,
        Event::Read(..)
            | Event::Scan(..)
            | Event::Insert(..)
            | Event::Update(..)
            | Event::Delete(..)
            | Event::Detect
    )
}

/// A machine that is in a run, before the event at a place.
fn assert_unchanged(
    rt: &(impl Abort + Eprint),
    alloc: Global,
    schedule: &Schedule,
    told: &Transcript,
    place: usize,
    machine: &Machine,
) {
    let Some(before) = told.events().get(..place) else {
        panic!(rt; "no such place");
    };
    let twin = machine_after(rt, alloc, schedule, before);
    assert_same(rt, alloc, schedule, machine, &twin);
}

fn step_again(rt: &(impl Abort + Eprint), machine: &mut Machine, event: &Event) -> Reply {
    assert_placed(rt, machine, event);
    machine.step(*event).expect(rt, "refused twice")
}

/// The event at a place of a run has its reply, also where it is refused before.
fn play(
    rt: &(impl Abort + Eprint),
    alloc: Global,
    schedule: &Schedule,
    told: &Transcript,
    place: usize,
    machine: &mut Machine,
) {
    let (Some(event), Some(wanted)) = (told.events().get(place), told.replies().get(place)) else {
        panic!(rt; "no such place");
    };
    assert_placed(rt, machine, event);
    let reply = match machine.step(*event) {
        Ok(reply) => reply,
        Err(_) => {
            refused(rt, event.kind().word());
            holds(rt, takes_memory(event));
            assert_unchanged(rt, alloc, schedule, told, place, machine);
            step_again(rt, machine, event)
        }
    };
    assert!(rt; reply.same(wanted), "{event:?}: {reply:?}");
}

fn play_run(rt: &(impl Abort + Eprint), alloc: Global, run: &Run) {
    let schedule = assembled(rt, alloc, run.opening);
    let told = told(rt, alloc, &schedule, run.trace);
    let mut machine = loaded(rt, alloc, &schedule);
    for place in 0..told.events().len() {
        play(rt, alloc, &schedule, &told, place, &mut machine);
    }
}

#[test]
fn worked_runs(rt: HostRuntime) {
    for run in RUNS {
        play_run(&rt, rt.alloc(), run);
    }
}
