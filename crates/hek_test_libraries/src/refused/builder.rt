//! Schedules and transcripts in the making, each beside a twin that shows what it was before.
use crate::asserts::{holds, is, refused};
use crate::refused::texts::assembled;
use hek_rules::{Event, Level, NoMemory, Reply, Schedule, Transcript, TxnId};
use std::alloc::Global;
use std::process::Abort;

/// What is added to a schedule.
#[derive(Clone, Copy)]
enum Item {
    Row(u64),
    Txn(&'static str),
    Step(u64),
}

fn add(rt: &(impl Abort + Eprint), schedule: &mut Schedule, item: Item) -> Result<(), NoMemory> {
    match item {
        Item::Row(key) => {
            assert!(rt; schedule.row_fits(key));
            schedule.add_row(key, 100)
        }
        Item::Txn(name) => {
            assert!(rt; schedule.txn_fits(name));
            schedule.add_txn(name, Level::Snapshot)
        }
        Item::Step(key) => {
            assert!(rt; schedule.step_fits(Event::Read(TxnId::new(1), key)));
            schedule.add_step(Event::Read(TxnId::new(1), key))
        }
    }
}

fn added_again(rt: &(impl Abort + Eprint), schedule: &mut Schedule, item: Item) {
    refused(rt, "the builder");
    holds(rt, add(rt, schedule, item).is_ok());
}

/// An item is added to both. Where it is refused, the schedule is as its twin, and the item is added again.
fn add_to_both(
    rt: &(impl Abort + Eprint),
    schedule: &mut Schedule,
    twin: &mut Schedule,
    item: Item,
) {
    if add(rt, schedule, item).is_err() {
        holds(rt, schedule.same(twin));
        added_again(rt, schedule, item);
    }
    if add(rt, twin, item).is_err() {
        added_again(rt, twin, item);
    }
    holds(rt, schedule.same(twin));
}

fn add_rows(rt: &(impl Abort + Eprint), schedule: &mut Schedule, twin: &mut Schedule) {
    for key in 0..20u64 {
        add_to_both(rt, schedule, twin, Item::Row(key));
    }
}

fn add_txns(rt: &(impl Abort + Eprint), schedule: &mut Schedule, twin: &mut Schedule) {
    for name in ["a", "b", "c", "d", "e", "f", "g", "h", "i"] {
        add_to_both(rt, schedule, twin, Item::Txn(name));
    }
}

fn add_steps(rt: &(impl Abort + Eprint), schedule: &mut Schedule, twin: &mut Schedule) {
    for key in 0..40u64 {
        add_to_both(rt, schedule, twin, Item::Step(key));
    }
}

#[test]
fn schedules_grow(rt: HostRuntime) {
    let mut schedule = Schedule::new(rt.alloc(), 4);
    let mut twin = Schedule::new(rt.alloc(), 4);
    add_rows(&rt, &mut schedule, &mut twin);
    add_txns(&rt, &mut schedule, &mut twin);
    add_steps(&rt, &mut schedule, &mut twin);
    is(&rt, schedule.row_count(), 20);
    is(&rt, schedule.txn_count(), 9);
    is(&rt, schedule.steps().len(), 40);
}

fn empty_transcript(rt: &(impl Abort + Eprint), alloc: Global, schedule: &Schedule) -> Transcript {
    match Transcript::new(alloc, schedule) {
        Ok(told) => told,
        Err(_) => {
            refused(rt, "Transcript::new");
            Transcript::new(alloc, schedule).expect(rt, "refused twice")
        }
    }
}

fn tell(rt: &(impl Abort + Eprint), told: &mut Transcript, key: u64) {
    let before = told.events().len();
    if told
        .push(Event::Read(TxnId::new(1), key), Reply::Absent)
        .is_err()
    {
        refused(rt, "Transcript::push");
        is(rt, told.events().len(), before);
        is(rt, told.replies().len(), before);
        holds(
            rt,
            told.push(Event::Read(TxnId::new(1), key), Reply::Absent)
                .is_ok(),
        );
    }
    is(rt, told.events().len(), before.saturating_add(1));
}

#[test]
fn transcripts_grow(rt: HostRuntime) {
    let schedule = assembled(&rt, rt.alloc(), "buckets 1\nrow 10 100\ntxn a repeatable\n");
    let mut told = empty_transcript(&rt, rt.alloc(), &schedule);
    for key in 0..40u64 {
        tell(&rt, &mut told, key);
    }
}
