//! Answers to `list`.
ghost use Rattle.std.specs.Prelude.{length};
ghost use Rattle.std.specs.List.{AllByRecursion};
ghost use Rattle.hek_asm.specs.Trace.{NamesDeclared};

use crate::question::Listing;
use crate::stop_text::{put_number, put_text};
use hek_asm::put_step as put_event;
use hek_debug::Debugger;
use hek_rules::{Event, NoMemory, Schedule};
use std::alloc::Global;

/// How many steps are listed before a place, and how many after it.
const ROUND: u64 = 5;

/// Appends the steps that a question asks for, with a mark at the next one.
#[tactic(auto, using(hek_asm::proofs::RowLemmas::steps_declared))]
pub(crate) fn put_steps(
    alloc: Global,
    debugger: &Debugger,
    listing: Listing,
    lines: &mut Vec<u8>,
) -> Result<(), NoMemory> {
    let schedule = debugger.schedule();
    // `known` gives that each step of the schedule is well formed.
    schedule.known();
    let at = debugger.at();
    let (from, to) = places(listing, at, schedule.steps().len() as u64);
    put_between(alloc, schedule, schedule.steps(), at, from, to, lines)
}

/// The places of the first step that is listed and of the one after the last; the first step of a schedule is at 0.
fn places(listing: Listing, at: u64, count: u64) -> (u64, u64) {
    match listing {
        Listing::Here => around(at),
        Listing::Around(step) => around(step.min(count).saturating_sub(1)),
        Listing::Between(first, last) => (first.min(count).saturating_sub(1), last),
    }
}

fn around(place: u64) -> (u64, u64) {
    (place.saturating_sub(ROUND), place.saturating_add(ROUND))
}

/// The steps from a place up to another, each with its number, and a mark at the next one, or at the end.
fn put_between(
    alloc: Global,
    schedule: &Schedule,
    steps: &[Event],
    at: u64,
    from: u64,
    to: u64,
    lines: &mut Vec<u8>,
) -> Result<(), NoMemory>
    requires { AllByRecursion (NamesDeclared (length schedule.now.txns)) steps.now }
{
    let last = to.min(steps.len() as u64);
    for place in from..last {
        let front = if place == at { "=> " } else { "   " };
        put_text(front, lines)?;
        put_step(alloc, schedule, place + 1, &steps[place as usize], lines)?;
    }
    if last == at && at == steps.len() as u64 {
        return put_text("=> end\n", lines);
    }
    Ok(())
}

/// A step, after its number.
fn put_step(
    alloc: Global,
    schedule: &Schedule,
    number: u64,
    event: &Event,
    lines: &mut Vec<u8>,
) -> Result<(), NoMemory>
    requires { NamesDeclared (length schedule.now.txns) event.now }
{
    put_number(number, lines)?;
    put_event(schedule, event, lines)?;
    put_text("\n", lines)
}
