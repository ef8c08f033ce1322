//! The debugger: where a step or a run is refused it stands on its way, where another command is, nothing has changed; and it goes on.
use crate::asserts::{holds, is, refused};
use crate::refused::machines::{assert_same, machine_after};
use crate::refused::texts::assembled;
use hek_debug::Reason::*;
use hek_debug::{Command, CommandFault, DebugFault, Debugger, Reason, read_commands};
use hek_rules::Schedule;
use std::alloc::Global;
use std::process::Abort;

/// A reader, a writer that waits for it, and the release that ends the wait.
const SCHEDULE: &str = "buckets 1
row 10 100
txn a repeatable
txn b repeatable
a begin
b begin
a read 10
b update 10 200
a finish
a precommit
a release
";

const COMMANDS: &str = "watch end 0
watch waits b
run
run
run
back 2
break txn a
step 1
back 9
clear
run
";

/// The debugger's position after each command, and why.
const STOPS: &[(u64, Reason)] = &[
    (0, Set(1)),
    (0, Set(2)),
    (3, Break(1)),
    (4, Break(1)),
    (7, Break(1)),
    (5, Back),
    (5, Set(3)),
    (6, Stepped),
    (0, Back),
    (0, Cleared),
    (7, End),
];

fn commands(
    rt: &(impl Abort + Eprint),
    alloc: Global,
    schedule: &Schedule,
    text: &str,
) -> Vec<Command> {
    match read_commands(alloc, schedule, text) {
        Ok(commands) => commands,
        Err(fault) => {
            is(rt, fault, CommandFault::NoMemory);
            refused(rt, "read_commands");
            read_commands(alloc, schedule, text).expect(rt, "refused twice")
        }
    }
}

// The schedule is the debugger's, so it is read anew.
fn opened(rt: &(impl Abort + Eprint), alloc: Global, text: &str) -> Debugger {
    match Debugger::open(alloc, assembled(rt, alloc, text)) {
        Ok(debugger) => debugger,
        Err(_) => {
            refused(rt, "open");
            Debugger::open(alloc, assembled(rt, alloc, text)).expect(rt, "refused twice")
        }
    }
}

fn word_of(command: Command) -> &'static str {
    match command {
        Command::Step(_) => "debug step",
        Command::Run => "debug run",
        Command::Back(_) => "debug back",
        Command::Set(_) => "debug break or watch",
        Command::Clear => "debug clear",
    }
}

/// The machine is that of the first steps.
fn assert_stands(rt: &(impl Abort + Eprint), alloc: Global, debugger: &Debugger) {
    let Some(steps) = debugger.schedule().steps().get(..debugger.at() as usize) else {
        panic!(rt; "no such place");
    };
    let twin = machine_after(rt, alloc, debugger.schedule(), steps);
    assert_same(rt, alloc, debugger.schedule(), debugger.machine(), &twin);
}

fn obey_again(
    rt: &(impl Abort + Eprint),
    debugger: &mut Debugger,
    command: Command,
    wanted: (u64, Reason),
) {
    let stop = debugger.command(command).expect(rt, "refused twice");
    is(rt, (stop.at, stop.reason), wanted);
}

// What is left of a step or a run.
fn go_on(rt: &(impl Abort + Eprint), debugger: &mut Debugger, wanted: u64) {
    let left = wanted.saturating_sub(debugger.at());
    let stop = debugger
        .command(Command::Step(left))
        .expect(rt, "refused twice");
    is(rt, stop.at, wanted);
}

fn obey(
    rt: &(impl Abort + Eprint),
    alloc: Global,
    debugger: &mut Debugger,
    command: Command,
    wanted: (u64, Reason),
) {
    let (was, marks) = (debugger.at(), debugger.marks().len());
    match debugger.command(command) {
        Ok(stop) => is(rt, (stop.at, stop.reason), wanted),
        Err(DebugFault::NoMemory { at }) => {
            refused(rt, word_of(command));
            is(rt, debugger.at(), at);
            is(rt, debugger.marks().len(), marks);
            assert_stands(rt, alloc, debugger);
            if matches!(command, Command::Step(_) | Command::Run) {
                holds(rt, was <= at && at <= wanted.0);
                go_on(rt, debugger, wanted.0);
            } else {
                is(rt, at, was);
                obey_again(rt, debugger, command, wanted);
            }
        }
    }
}

fn assert_stops(
    rt: &(impl Abort + Eprint),
    alloc: Global,
    text: &str,
    words: &str,
    stops: &[(u64, Reason)],
) {
    let mut debugger = opened(rt, alloc, text);
    let commands = commands(rt, alloc, debugger.schedule(), words);
    is(rt, commands.len(), stops.len());
    for (command, stop) in commands.as_slice().iter().zip(stops) {
        obey(rt, alloc, &mut debugger, *command, *stop);
    }
}

#[test]
fn sessions(rt: HostRuntime) {
    assert_stops(&rt, rt.alloc(), SCHEDULE, COMMANDS, STOPS);
}
