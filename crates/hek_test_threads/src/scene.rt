//! Schedules, and what holds in a test.
use hek_asm::assemble_text;
use hek_rules::{Reply, Schedule, Transcript, TxnId, Verdict};
use hek_serial::check;
use hek_threads::{Gate, Report, run_workers};
use std::alloc::Global;
use std::fmt::Debug;
use std::io::Write;
use std::process::Abort;
use std::sync::Wait;
use std::thread::Threads;
use std::{io, str};

/// The two are equal.
pub fn is<T: PartialEq + Debug + Drop>(rt: &impl Abort, got: T, want: T) {
    assert!(rt; got == want, "{got:?} and not {want:?}");
}

/// It holds.
pub fn holds(rt: &impl Abort, fact: bool) {
    assert!(rt; fact);
}

pub fn id(number: u64) -> TxnId {
    TxnId::new(number)
}

/// The schedule of a text.
pub fn scene(rt: &impl Abort, alloc: Global, text: &str) -> Schedule {
    assemble_text(alloc, text).expect(rt, "a schedule")
}

fn put_crowd(text: &mut Vec<u8>, workers: u64, rows: u64, reads: u64) -> io::Result<()> {
    writeln!(text, "buckets 4")?;
    for key in 0..rows {
        writeln!(text, "row {key} 100")?;
    }
    for worker in 0..workers {
        writeln!(text, "txn t{worker} repeatable")?;
    }
    for worker in 0..workers {
        put_work(text, worker, rows, reads)?;
    }
    Ok(())
}

fn put_work(text: &mut Vec<u8>, worker: u64, rows: u64, reads: u64) -> io::Result<()> {
    for place in 0..reads {
        let key = worker.wrapping_add(place).checked_rem(rows).unwrap_or(0);
        writeln!(text, "t{worker} read {key}")?;
    }
    let key = worker.checked_rem(rows).unwrap_or(0);
    writeln!(text, "t{worker} update {key} 7")?;
    writeln!(text, "t{worker} read {key}")
}

/// Rows of value 100, and workers, each of which reads so many rows from the row with its number on, and then sets that row
/// to 7.
pub fn crowd(rt: &impl Abort, alloc: Global, workers: u64, rows: u64, reads: u64) -> Schedule {
    let mut text = Vec::new(alloc);
    put_crowd(&mut text, workers, rows, reads).expect(rt, "memory");
    let text = str::from_utf8(text.as_slice()).expect(rt, "a text");
    scene(rt, alloc, text)
}

/// A gate that is always open.
pub struct Open;

impl Gate for Open {
    fn before(&self, _worker: TxnId, _nth: u64) {}
}

/// The report of a run whose gate is always open.
pub fn ran<R: Abort + Threads + Wait + Sync>(
    rt: &R,
    alloc: Global,
    schedule: &Schedule,
    turns: u64,
) -> Report {
    run_workers(rt, alloc, schedule, turns, &Open).expect(rt, "a report")
}

/// The checker finds no fault with the history.
pub fn assert_serial(rt: &impl Abort, alloc: Global, schedule: &Schedule, report: &Report) {
    let mut told = Transcript::new(alloc, schedule).expect(rt, "memory");
    for entry in &report.history {
        let reply: Reply = entry.reply.copy().expect(rt, "memory");
        told.push(entry.event, reply).expect(rt, "memory");
    }
    is(rt, check(alloc, &told), Ok(Verdict::Serial));
}
