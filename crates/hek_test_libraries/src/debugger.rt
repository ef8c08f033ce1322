//! The marks of a debugger, and the copies of its machine that it keeps for going back.
use crate::asserts::{holds, is, is_at};
use hek_asm::assemble_text;
use hek_debug::{Command, Debugger, Mark};
use hek_rules::{Event, EventKind};
use std::alloc::Global;
use std::process::Abort;

/// A debugger over so many steps that each look for a deadlock.
fn debugger(rt: &impl Abort, alloc: Global, steps: u64) -> Debugger {
    let mut schedule = assemble_text(alloc, "buckets 1\n").expect(rt, "a schedule");
    for _ in 0..steps {
        holds(rt, schedule.step_fits(Event::Detect));
        holds(rt, schedule.add_step(Event::Detect).is_ok());
    }
    Debugger::open(alloc, schedule).expect(rt, "memory")
}

fn goes(rt: &impl Abort, debugger: &mut Debugger, command: Command, to: u64) {
    holds(rt, debugger.command(command).is_ok());
    is(rt, debugger.at(), to);
}

#[test]
fn marks_have_their_indexes(rt: HostRuntime) {
    let mut debugger = debugger(&rt, rt.alloc(), 2);
    is(&rt, debugger.mark(1), None);
    for mark in [Mark::At(1), Mark::OnEvent(EventKind::Detect)] {
        goes(&rt, &mut debugger, Command::Set(mark), 0);
    }
    for (index, mark) in [
        (0, None),
        (1, Some(Mark::At(1))),
        (2, Some(Mark::OnEvent(EventKind::Detect))),
        (3, None),
        (u64::MAX, None),
    ] {
        is_at(&rt, index, debugger.mark(index), mark);
    }
    goes(&rt, &mut debugger, Command::Run, 1);
    goes(&rt, &mut debugger, Command::Clear, 1);
    is(&rt, debugger.mark(1), None);
}

/// A copy is kept at each 1,000 steps, and at most 32 are.
#[test]
fn copies_are_kept_for_going_back(rt: HostRuntime) {
    for (steps, copies) in [(2_500, 3), (40_500, 32)] {
        let mut debugger = debugger(&rt, rt.alloc(), steps);
        is(&rt, debugger.copies(), 0);
        goes(&rt, &mut debugger, Command::Run, steps);
        is_at(&rt, steps, debugger.copies(), copies);
        goes(&rt, &mut debugger, Command::Back(700), steps - 700);
        goes(&rt, &mut debugger, Command::Back(steps), 0);
    }
}
