//! As many readers of one version as there can be.
use crate::asserts::{holds, is, refused};
use crate::refused::machines::{assert_same, loaded};
use hek_machine::Machine;
use hek_rules::{Cause, Event, Level, Reply, Schedule, TxnId};
use std::alloc::Global;
use std::process::Abort;

/// The most readers of a version.
const READERS: u64 = 255;

const KEY: u64 = 10;

fn name(rt: &(impl Abort + Eprint), alloc: Global, number: u64) -> String {
    match format!(in alloc; "t{number}") {
        Ok(name) => name,
        Err(_) => {
            refused(rt, "a name");
            format!(in alloc; "t{number}").expect(rt, "refused twice")
        }
    }
}

fn add_txn(rt: &(impl Abort + Eprint), schedule: &mut Schedule, name: &str) {
    assert!(rt; schedule.txn_fits(name));
    if schedule.add_txn(name, Level::Repeatable).is_err() {
        refused(rt, "the builder");
        assert!(rt; schedule.txn_fits(name));
        holds(rt, schedule.add_txn(name, Level::Repeatable).is_ok());
    }
}

fn crowd(rt: &(impl Abort + Eprint), alloc: Global) -> Schedule {
    let mut schedule = Schedule::new(alloc, 1);
    assert!(rt; schedule.row_fits(KEY));
    if schedule.add_row(KEY, 100).is_err() {
        refused(rt, "the builder");
        assert!(rt; schedule.row_fits(KEY));
        holds(rt, schedule.add_row(KEY, 100).is_ok());
    }
    for number in 1..=READERS + 1 {
        add_txn(rt, &mut schedule, name(rt, alloc, number).as_str());
    }
    schedule
}

// Begins and reads take no bucket.
fn begun(rt: &(impl Abort + Eprint), alloc: Global, schedule: &Schedule) -> Machine {
    let mut machine = loaded(rt, alloc, schedule);
    for number in 1..=READERS + 1 {
        holds(rt, machine.step(Event::Begin(TxnId::new(number))).is_ok());
    }
    machine
}

fn read(rt: &(impl Abort + Eprint), machine: &mut Machine, number: u64) -> Reply {
    machine
        .step(Event::Read(TxnId::new(number), KEY))
        .expect(rt, "refused twice")
}

/// The machine in which so many have read.
fn read_by(
    rt: &(impl Abort + Eprint),
    alloc: Global,
    schedule: &Schedule,
    readers: u64,
) -> Machine {
    let mut machine = begun(rt, alloc, schedule);
    for number in 1..=readers {
        holds(
            rt,
            matches!(read(rt, &mut machine, number), Reply::Found(100)),
        );
    }
    machine
}

fn read_next(
    rt: &(impl Abort + Eprint),
    alloc: Global,
    schedule: &Schedule,
    machine: &mut Machine,
    number: u64,
) -> Reply {
    match machine.step(Event::Read(TxnId::new(number), KEY)) {
        Ok(reply) => reply,
        Err(_) => {
            refused(rt, "read");
            let twin = read_by(rt, alloc, schedule, number.saturating_sub(1));
            assert_same(rt, alloc, schedule, machine, &twin);
            read(rt, machine, number)
        }
    }
}

#[test]
fn readers(rt: HostRuntime) {
    let schedule = crowd(&rt, rt.alloc());
    let mut machine = begun(&rt, rt.alloc(), &schedule);
    for number in 1..=READERS {
        let reply = read_next(&rt, rt.alloc(), &schedule, &mut machine, number);
        holds(&rt, matches!(reply, Reply::Found(100)));
    }
    let reply = read_next(&rt, rt.alloc(), &schedule, &mut machine, READERS + 1);
    holds(&rt, matches!(reply, Reply::Aborted(Cause::ReadersFull)));
    is(&rt, machine.versions(), 1);
}
