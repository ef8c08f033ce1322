//! Machines: loaded, run, copied and looked at. A call that is refused is made again.
ghost use Rattle.std.specs.Prelude.{◌≡◌, length};
ghost use Rattle.hek_laws.specs.Runs.{IsPlaced};
ghost use Rattle.hek_txn.specs.TxnTable.{Declared};

use crate::asserts::{holds, is, refused};
use crate::refused::texts::{SCHEDULE, TRACE, assembled, told};
use hek_machine::{Machine, Trace, run, run_at};
use hek_rules::{Event, Pairs, Reply, Schedule, Time, Transcript, TxnId};
use hek_step_report::text::state_lines;
use std::alloc::Global;
use std::process::Abort;

pub(crate) fn loaded(rt: &(impl Abort + Eprint), alloc: Global, schedule: &Schedule) -> Machine {
    match Machine::load(alloc, schedule) {
        Ok(machine) => machine,
        Err(_) => {
            refused(rt, "load");
            Machine::load(alloc, schedule).expect(rt, "refused twice")
        }
    }
}

/// All that a machine shows, as text, but for its clock.
pub(crate) fn state(
    rt: &(impl Abort + Eprint),
    alloc: Global,
    schedule: &Schedule,
    machine: &Machine,
) -> Vec<u8> {
    match state_lines(alloc, schedule, machine) {
        Ok(lines) => lines,
        Err(_) => {
            refused(rt, "state_lines");
            state_lines(alloc, schedule, machine).expect(rt, "refused twice")
        }
    }
}

/// The machines show the same.
pub(crate) fn assert_same(
    rt: &(impl Abort + Eprint),
    alloc: Global,
    schedule: &Schedule,
    one: &Machine,
    other: &Machine,
) {
    is(rt, one.clock(), other.clock());
    holds(
        rt,
        state(rt, alloc, schedule, one).as_slice() == state(rt, alloc, schedule, other).as_slice(),
    );
}

pub(crate) fn assert_placed(rt: &(impl Abort + Eprint), machine: &Machine, event: &Event)
    ensures { IsPlaced (length machine.now.buckets) event.now }
{
    match *event {
        Event::Scan(_, bucket) => assert!(rt; bucket < machine.buckets()),
        _ => {}
    }
}

fn step(rt: &(impl Abort + Eprint), machine: &mut Machine, event: &Event) {
    assert_placed(rt, machine, event);
    if machine.step(*event).is_err() {
        refused(rt, event.kind().word());
        assert_placed(rt, machine, event);
        holds(rt, machine.step(*event).is_ok());
    }
}

/// The machine of a schedule after these events.
pub(crate) fn machine_after(
    rt: &(impl Abort + Eprint),
    alloc: Global,
    schedule: &Schedule,
    events: &[Event],
) -> Machine {
    let mut machine = loaded(rt, alloc, schedule);
    for event in events {
        step(rt, &mut machine, event);
    }
    machine
}

// The steps of a schedule.
#[tactic(auto, using(hek_machine::proofs::PlacedSteps::steps_placed))]
fn ran(rt: &(impl Abort + Eprint), alloc: Global, schedule: &Schedule) -> Trace {
    let _ = schedule.buckets();
    match run(alloc, schedule, schedule.steps()) {
        Ok(ran) => ran,
        Err(_) => {
            refused(rt, "run");
            run(alloc, schedule, schedule.steps()).expect(rt, "refused twice")
        }
    }
}

// The same from another first clock.
#[tactic(auto, using(hek_machine::proofs::PlacedSteps::steps_placed))]
fn ran_late(rt: &(impl Abort + Eprint), alloc: Global, schedule: &Schedule) -> Trace {
    let _ = schedule.buckets();
    match run_at(alloc, schedule, Time::new(50), schedule.steps()) {
        Ok(ran) => ran,
        Err(_) => {
            refused(rt, "run_at");
            run_at(alloc, schedule, Time::new(50), schedule.steps()).expect(rt, "refused twice")
        }
    }
}

fn assert_replies(rt: &(impl Abort + Eprint), got: &[Reply], wanted: &[Reply]) {
    is(rt, got.len(), wanted.len());
    for (reply, want) in got.iter().zip(wanted) {
        holds(rt, reply.same(want));
    }
}

#[test]
fn runs(rt: HostRuntime) {
    let schedule = assembled(&rt, rt.alloc(), SCHEDULE);
    let told = told(&rt, rt.alloc(), &schedule, TRACE);
    let ran = ran(&rt, rt.alloc(), &schedule);
    assert_replies(&rt, ran.replies.as_slice(), told.replies());
}

#[test]
fn runs_from_another_clock(rt: HostRuntime) {
    let schedule = assembled(&rt, rt.alloc(), SCHEDULE);
    let ran = ran_late(&rt, rt.alloc(), &schedule);
    is(&rt, ran.replies.len(), 18);
    // five times are drawn
    is(&rt, ran.machine.clock(), Time::new(55));
}

/// The machine in which the second transaction waits for the first, which has listed a bucket twice.
fn waiting(
    rt: &(impl Abort + Eprint),
    alloc: Global,
    schedule: &Schedule,
    told: &Transcript,
) -> Machine {
    match told.events().get(..7) {
        Some(events) => machine_after(rt, alloc, schedule, events),
        None => loaded(rt, alloc, schedule),
    }
}

fn copied(rt: &(impl Abort + Eprint), machine: &Machine) -> Machine {
    match machine.copy() {
        Ok(copy) => copy,
        Err(_) => {
            refused(rt, "copy");
            machine.copy().expect(rt, "refused twice")
        }
    }
}

#[test]
fn copies(rt: HostRuntime) {
    let schedule = assembled(&rt, rt.alloc(), SCHEDULE);
    let told = told(&rt, rt.alloc(), &schedule, TRACE);
    let machine = waiting(&rt, rt.alloc(), &schedule, &told);
    let copy = copied(&rt, &machine);
    assert_same(&rt, rt.alloc(), &schedule, &copy, &machine);
}

fn rows(rt: &(impl Abort + Eprint), machine: &Machine) -> Pairs {
    match machine.rows() {
        Ok(rows) => rows,
        Err(_) => {
            refused(rt, "rows");
            machine.rows().expect(rt, "refused twice")
        }
    }
}

fn declared(rt: &(impl Abort + Eprint), machine: &Machine, number: u64) -> TxnId
    ensures { Declared machine.now.txns result }
{
    let t = TxnId::new(number);
    assert!(rt; machine.is_declared(t));
    t
}

fn reads(rt: &(impl Abort + Eprint), machine: &Machine, number: u64) -> usize {
    let t = declared(rt, machine, number);
    match machine.read_list(t) {
        Ok(list) => list.len(),
        Err(_) => {
            refused(rt, "read_list");
            machine.read_list(t).expect(rt, "refused twice").len()
        }
    }
}

fn writes(rt: &(impl Abort + Eprint), machine: &Machine, number: u64) -> usize {
    let t = declared(rt, machine, number);
    match machine.write_list(t) {
        Ok(list) => list.len(),
        Err(_) => {
            refused(rt, "write_list");
            machine.write_list(t).expect(rt, "refused twice").len()
        }
    }
}

fn buckets(rt: &(impl Abort + Eprint), machine: &Machine, number: u64) -> usize {
    let t = declared(rt, machine, number);
    match machine.bucket_list(t) {
        Ok(list) => list.len(),
        Err(_) => {
            refused(rt, "bucket_list");
            machine.bucket_list(t).expect(rt, "refused twice").len()
        }
    }
}

fn waiters(rt: &(impl Abort + Eprint), machine: &Machine, number: u64) -> usize {
    let t = declared(rt, machine, number);
    match machine.waiting_list(t) {
        Ok(list) => list.len(),
        Err(_) => {
            refused(rt, "waiting_list");
            machine.waiting_list(t).expect(rt, "refused twice").len()
        }
    }
}

fn dependents(rt: &(impl Abort + Eprint), machine: &Machine, number: u64) -> usize {
    let t = declared(rt, machine, number);
    match machine.dependents(t) {
        Ok(list) => list.len(),
        Err(_) => {
            refused(rt, "dependents");
            machine.dependents(t).expect(rt, "refused twice").len()
        }
    }
}

fn holders(rt: &(impl Abort + Eprint), machine: &Machine, bucket: u64) -> usize {
    assert!(rt; bucket < machine.buckets());
    match machine.lock_list(bucket) {
        Ok(list) => list.len(),
        Err(_) => {
            refused(rt, "lock_list");
            machine.lock_list(bucket).expect(rt, "refused twice").len()
        }
    }
}

// a has listed the rows of bucket 0; b, which inserts there, waits for a.
#[test]
fn shows_lists(rt: HostRuntime) {
    let schedule = assembled(&rt, rt.alloc(), SCHEDULE);
    let told = told(&rt, rt.alloc(), &schedule, TRACE);
    let machine = waiting(&rt, rt.alloc(), &schedule, &told);
    is(&rt, reads(&rt, &machine, 1), 2);
    is(&rt, buckets(&rt, &machine, 1), 1);
    is(&rt, waiters(&rt, &machine, 1), 1);
    is(&rt, writes(&rt, &machine, 2), 1);
    is(&rt, holders(&rt, &machine, 0), 2);
    is(&rt, rows(&rt, &machine).items().len(), 2);
}

const DEPENDING: &str = "buckets 1
row 10 100
txn a repeatable
txn b repeatable
a begin
a insert 11 1
a finish
a precommit
b begin
b read 11
";

// b has read what a made, which isn't committed yet.
#[test]
fn shows_dependents(rt: HostRuntime) {
    let schedule = assembled(&rt, rt.alloc(), DEPENDING);
    let machine = depending(&rt, rt.alloc(), &schedule);
    is(&rt, dependents(&rt, &machine, 1), 1);
}

fn depending(rt: &(impl Abort + Eprint), alloc: Global, schedule: &Schedule) -> Machine {
    machine_after(rt, alloc, schedule, schedule.steps())
}
