//! What fits a schedule, and the largest one.
use crate::asserts::{holds, is, is_at};
use hek_rules::{Event, Level, MAX_ROWS, MAX_STEPS, MAX_TXNS, Schedule, TxnId};
use std::alloc::Global;
use std::process::Abort;

fn add_row(rt: &impl Abort, schedule: &mut Schedule, key: u64) {
    holds(rt, schedule.row_fits(key));
    holds(rt, schedule.add_row(key, key).is_ok());
}

/// Declares a transaction with the name `t` and a number.
pub(crate) fn add_txn(rt: &impl Abort, alloc: Global, schedule: &mut Schedule, number: u64) {
    let name = format!(in alloc; "t{number}").expect(rt, "no memory");
    holds(rt, schedule.txn_fits(name.as_str()));
    let added = schedule.add_txn(name.as_str(), Level::Repeatable);
    holds(rt, added.is_ok());
}

fn add_step(rt: &impl Abort, schedule: &mut Schedule, key: u64) {
    let (asked, added) = (
        Event::Read(TxnId::new(1_024), key),
        Event::Read(TxnId::new(1_024), key),
    );
    holds(rt, schedule.step_fits(asked));
    holds(rt, schedule.add_step(added).is_ok());
}

fn fill(rt: &impl Abort, alloc: Global, schedule: &mut Schedule) {
    for key in 0..65_536 {
        add_row(rt, schedule, key);
    }
    for number in 0..1_024 {
        add_txn(rt, alloc, schedule, number);
    }
    for key in 0..1_000_000 {
        add_step(rt, schedule, key);
    }
}

#[test]
fn the_largest_schedule_takes_no_more(rt: HostRuntime) {
    let mut schedule = Schedule::new(rt.alloc(), 1_024);
    fill(&rt, rt.alloc(), &mut schedule);
    is(&rt, schedule.row_count(), MAX_ROWS);
    is(&rt, schedule.txn_count(), MAX_TXNS);
    is(&rt, schedule.steps().len(), MAX_STEPS);
    holds(&rt, !schedule.row_fits(65_536) && !schedule.has_key(65_536));
    holds(
        &rt,
        !schedule.txn_fits("t1024") && !schedule.has_name("t1024"),
    );
    holds(&rt, !schedule.step_fits(Event::Detect));
}

/// Names that fit a schedule of one transaction `a`, and names that don't.
const NAMES: [(&str, bool); 13] = [
    ("c", true),
    ("z9_", true),
    ("abcdefghijklmnopqrstuvwxyz012345", true),
    ("abcdefghijklmnopqrstuvwxyz0123456", false),
    ("a", false),
    ("", false),
    ("B", false),
    ("1a", false),
    ("_a", false),
    ("a-b", false),
    ("row", false),
    ("txn", false),
    ("detect", false),
];

#[test]
fn a_schedule_takes_what_fits(rt: HostRuntime) {
    let mut schedule = Schedule::new(rt.alloc(), 4);
    add_row(&rt, &mut schedule, 7);
    holds(
        &rt,
        schedule.txn_fits("a") && schedule.add_txn("a", Level::Snapshot).is_ok(),
    );
    holds(
        &rt,
        schedule.has_key(7) && !schedule.row_fits(7) && schedule.row_fits(8),
    );
    is(&rt, schedule.row(0), (7, 7));
    for (name, fits) in NAMES {
        is_at(&rt, name, schedule.txn_fits(name), fits);
    }
    let a = schedule.id_of(b"a").expect(&rt, "a transaction a");
    is(&rt, (a, schedule.id_of(b"c")), (TxnId::new(1), None));
    is(
        &rt,
        (schedule.name_of(a), schedule.level_of(a)),
        ("a", Level::Snapshot),
    );
    holds(
        &rt,
        schedule.step_fits(Event::Scan(a, 3)) && !schedule.step_fits(Event::Scan(a, 4)),
    );
    for number in [0, 2] {
        holds(&rt, !schedule.step_fits(Event::Begin(TxnId::new(number))));
    }
}
