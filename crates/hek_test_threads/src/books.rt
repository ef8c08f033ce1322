//! One event at a time, and transcripts that were changed.
use crate::scene::{holds, id, is, ran, scene};
use hek_rules::{Event, Reply};
use hek_threads::{Book, Part, Report, Shared, ThreadFault, compare};
use std::alloc::Global;
use std::process::Abort;
use std::sync::Wait;
use std::thread::Threads;

const TWO: &str = "buckets 1\nrow 10 100\ntxn a repeatable\ntxn b repeatable\na read 10\n";

const ONE: &str = "buckets 1\nrow 10 100\ntxn a repeatable\na read 10\n";

// The events of a part, made one after another, have these numbers.
fn assert_numbers<R: Abort + Wait>(rt: &R, shared: &Shared<'_>, part: &Part) {
    for (place, (event, _)) in part.as_slice().iter().enumerate() {
        let (number, _) = shared.step(rt, id(1), *event).expect(rt, "an answer");
        is(rt, number, place as u64 + 1);
    }
}

// No worker may make these.
fn assert_mismatches<R: Abort + Wait>(rt: &R, shared: &Shared<'_>) {
    for (worker, event) in [
        (1, Event::Read(id(2), 10)),
        (1, Event::Scan(id(1), 1)),
        (9, Event::Detect),
        (0, Event::Detect),
    ] {
        let fault = shared.step(rt, id(worker), event).err();
        is(rt, fault, Some(ThreadFault::Mismatch(id(worker))));
    }
}

// Events that two workers may make have these numbers, and no others have one.
fn assert_numbers_of_two<R: Abort + Wait>(rt: &R, alloc: Global, part: &Part) {
    let two = scene(rt, alloc, TWO);
    let shared = Shared::new(Book::load(alloc, &two).expect(rt, "a book"));
    assert_mismatches(rt, &shared);
    assert_numbers(rt, &shared, part);
    assert_mismatches(rt, &shared);
    is(rt, shared.into_book().history().len(), 9);
}

#[test]
fn numbers_events(rt: HostRuntime) {
    let one = scene(&rt, rt.alloc(), ONE);
    let report = ran(&rt, rt.alloc(), &one, 5);
    is(&rt, report.transcripts.len(), 1);
    for part in &report.transcripts {
        assert_numbers_of_two(&rt, rt.alloc(), part);
    }
}

#[derive(Clone, Copy)]
enum Change {
    Nothing,
    /// Another value is found.
    Reply,
    /// The last event is missing.
    Less,
    /// There is an event more.
    More,
}

fn changed_reply(rt: &impl Abort, reply: &Reply, change: Change) -> Reply {
    match (change, reply) {
        (Change::Reply, Reply::Found(value)) => Reply::Found(value.wrapping_add(1)),
        (_, reply) => reply.copy().expect(rt, "memory"),
    }
}

// The part with a change.
fn changed(rt: &impl Abort, alloc: Global, part: &Part, change: Change) -> Part {
    let mut turns = Vec::new(alloc);
    for (event, reply) in part.as_slice() {
        let reply = changed_reply(rt, reply, change);
        holds(rt, turns.push((*event, reply)).is_ok());
    }
    match change {
        Change::Less => {
            let _last = turns.pop();
        }
        Change::More => holds(rt, turns.push((Event::Detect, Reply::NoCycle)).is_ok()),
        Change::Nothing | Change::Reply => {}
    }
    Part::of(turns)
}

fn assert_compares(rt: &impl Abort, alloc: Global, report: &Report, change: Change, least: u64) {
    let mut parts = Vec::new(alloc);
    for part in &report.transcripts {
        holds(rt, parts.push(changed(rt, alloc, part, change)).is_ok());
    }
    let found = compare(report.history.as_slice(), parts.as_slice());
    is(rt, found.map_or(0, |worker| worker.number()), least);
}

// The first worker is at fault wherever its part was changed.
fn assert_compares_all(rt: &impl Abort, alloc: Global, report: &Report) {
    for (change, least) in [
        (Change::Nothing, 0),
        (Change::Reply, 1),
        (Change::Less, 1),
        (Change::More, 1),
    ] {
        assert_compares(rt, alloc, report, change, least);
    }
}

// A run of a text's transactions.
fn assert_run_compares<R: Abort + Threads + Wait + Sync>(
    rt: &R,
    alloc: Global,
    text: &str,
    turns: u64,
) {
    let schedule = scene(rt, alloc, text);
    let report = ran(rt, alloc, &schedule, turns);
    assert_compares_all(rt, alloc, &report);
}

#[test]
fn compares_transcripts(rt: HostRuntime) {
    for (text, turns) in [(ONE, 5), (ONE, 0), (TWO, 5)] {
        assert_run_compares(&rt, rt.alloc(), text, turns);
    }
}
