//! Schedule texts, traces and images. A call that is refused is made again.
ghost use Rattle.std.specs.Prelude.{◌≡◌, false};

use crate::asserts::{holds, is, refused};
use hek_asm::{AsmFault, TraceFault, assemble_text, canonical, read_trace};
use hek_image::{LoadFault, load_image, write_image};
use hek_rules::{Ending, MemorySink, MemorySource, Schedule, Transcript, Verdict};
use hek_serial::check;
use std::alloc::Global;
use std::process::Abort;

/// A scan that sees the same rows each time, though another transaction inserts.
pub(crate) const SCHEDULE: &str = "buckets 2
row 10 100
row 12 120
txn a serializable
txn b serializable
txn c serializable
a begin
b begin
a scan 0
b insert 14 140
b finish
b precommit
a scan 0
a finish
a precommit
a release
a release
a release
a release
b precommit
a commit
b commit
c begin
c scan 0
";

pub(crate) const TRACE: &str = "1 a begin -> began 1
2 b begin -> began 2
3 a scan 0 -> rows 10=100 12=120
4 b insert 14 140 -> done
5 b finish -> ready
6 b precommit -> waiting 1
7 a scan 0 -> rows 10=100 12=120
8 a finish -> ready
9 a precommit -> precommitted 3
10 a release -> released read 0
11 a release -> released read 1
12 a release -> released bucket 0
13 a release -> released waiter 2
14 b precommit -> precommitted 4
15 a commit -> committed
16 b commit -> committed
17 c begin -> began 5
18 c scan 0 -> rows 10=100 12=120 14=140
";

/// The bytes of the schedule's image: 22, 16 for each row, 3 for each transaction, 21 for each step.
const IMAGE_LEN: usize = 22 + 2 * 16 + 3 * 3 + 18 * 21;

pub(crate) fn assembled(rt: &(impl Abort + Eprint), alloc: Global, text: &str) -> Schedule {
    match assemble_text(alloc, text) {
        Ok(schedule) => schedule,
        Err(fault) => {
            is(rt, fault, AsmFault::NoMemory);
            refused(rt, "assemble_text");
            assemble_text(alloc, text).expect(rt, "refused twice")
        }
    }
}

pub(crate) fn told(
    rt: &(impl Abort + Eprint),
    alloc: Global,
    schedule: &Schedule,
    trace: &str,
) -> Transcript {
    match read_trace(alloc, schedule, trace) {
        Ok(told) => told,
        Err(fault) => {
            is(rt, fault, TraceFault::NoMemory);
            refused(rt, "read_trace");
            read_trace(alloc, schedule, trace).expect(rt, "refused twice")
        }
    }
}

fn canonical_text(rt: &(impl Abort + Eprint), alloc: Global, schedule: &Schedule) -> String {
    match canonical(alloc, schedule) {
        Ok(text) => text,
        Err(_) => {
            refused(rt, "canonical");
            canonical(alloc, schedule).expect(rt, "refused twice")
        }
    }
}

#[test]
fn reads_and_writes_texts(rt: HostRuntime) {
    let schedule = assembled(&rt, rt.alloc(), SCHEDULE);
    is(
        &rt,
        canonical_text(&rt, rt.alloc(), &schedule).as_str(),
        SCHEDULE,
    );
}

fn verdict(rt: &(impl Abort + Eprint), alloc: Global, told: &Transcript) -> Verdict {
    match check(alloc, told) {
        Ok(verdict) => verdict,
        Err(_) => {
            refused(rt, "check");
            check(alloc, told).expect(rt, "refused twice")
        }
    }
}

#[test]
fn checks_a_trace(rt: HostRuntime) {
    let schedule = assembled(&rt, rt.alloc(), SCHEDULE);
    let told = told(&rt, rt.alloc(), &schedule, TRACE);
    is(&rt, told.events().len(), 18);
    is(&rt, verdict(&rt, rt.alloc(), &told), Verdict::Serial);
}

fn empty_sink(alloc: Global) -> MemorySink
    ensures { result.failed ≡ false }
{
    MemorySink::new(alloc, IMAGE_LEN, 100)
}

// The writer itself takes no memory: the sink does, and fails where it is refused.
fn image(rt: &(impl Abort + Eprint), alloc: Global, schedule: &Schedule) -> MemorySink {
    let mut sink = empty_sink(alloc);
    if write_image(schedule, &mut sink).is_ok() {
        return sink;
    }
    refused(rt, "the sink of write_image");
    let mut sink = empty_sink(alloc);
    holds(rt, write_image(schedule, &mut sink).is_ok());
    sink
}

fn loaded_image(rt: &(impl Abort + Eprint), alloc: Global, bytes: &[u8]) -> Schedule {
    let mut source = MemorySource::new(bytes, 7, Ending::Ends);
    match load_image(alloc, &mut source) {
        Ok(schedule) => schedule,
        Err(fault) => {
            is(rt, fault, LoadFault::NoMemory);
            refused(rt, "load_image");
            let mut source = MemorySource::new(bytes, 7, Ending::Ends);
            load_image(alloc, &mut source).expect(rt, "refused twice")
        }
    }
}

#[test]
fn writes_and_loads_images(rt: HostRuntime) {
    let schedule = assembled(&rt, rt.alloc(), SCHEDULE);
    let image = image(&rt, rt.alloc(), &schedule);
    is(&rt, image.bytes().len(), IMAGE_LEN);
    holds(
        &rt,
        loaded_image(&rt, rt.alloc(), image.bytes()).same(&schedule),
    );
}
