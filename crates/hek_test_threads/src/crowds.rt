//! Many workers, again and again.
use crate::scene::{assert_serial, crowd, is, ran, scene};
use hek_rules::Reply;
use hek_threads::Report;
use std::alloc::Global;
use std::process::Abort;
use std::sync::Wait;
use std::test::Fail;
use std::thread::Threads;

const SAME_WAY: &str =
    "buckets 2\nrow 10 100\nrow 11 110\nrow 12 120\ntxn a serializable\ntxn b serializable\na read 10\na update 11 1\nb read 10\nb update 11 2\n";

const CROSSWISE: &str =
    "buckets 2\nrow 10 100\nrow 11 110\nrow 12 120\ntxn a serializable\ntxn b serializable\na read 10\na update 11 1\nb read 11\nb update 10 2\n";

// Runs again and again, each of them serial.
fn assert_runs_serial<R: Abort + Threads + Wait + Sync>(rt: &R, alloc: Global, text: &str) {
    let schedule = scene(rt, alloc, text);
    for _ in 0..100 {
        let report = ran(rt, alloc, &schedule, 1_000);
        assert_serial(rt, alloc, &schedule, &report);
    }
}

#[test]
fn two_are_serial(rt: HostRuntime) {
    for text in [SAME_WAY, CROSSWISE] {
        assert_runs_serial(&rt, rt.alloc(), text);
    }
}

fn committed(report: &Report) -> usize {
    report
        .history
        .iter()
        .filter(|entry| matches!(entry.reply, Reply::Committed))
        .count()
}

// Each worker on a separate row commits, and finds what it wrote.
fn assert_all_commit(rt: &impl Abort, report: &Report, workers: usize) {
    is(rt, committed(report), workers);
    let sevens = report
        .history
        .iter()
        .filter(|entry| matches!(entry.reply, Reply::Found(7)))
        .count();
    is(rt, sevens, workers);
    let rows = report.machine.rows().expect(rt, "memory");
    let sevens = rows.items().iter().filter(|row| row.1 == 7).count();
    is(rt, sevens, workers);
}

#[test]
fn many_on_rows_of_their_own(rt: HostRuntime) {
    let schedule = crowd(&rt, rt.alloc(), 64, 64, 1);
    for _ in 0..20 {
        let report = ran(&rt, rt.alloc(), &schedule, 50);
        assert_all_commit(&rt, &report, 64);
        assert_serial(&rt, rt.alloc(), &schedule, &report);
    }
}

#[test]
fn many_on_few_rows(rt: HostRuntime) {
    let schedule = crowd(&rt, rt.alloc(), 64, 4, 2);
    for _ in 0..20 {
        let report = ran(&rt, rt.alloc(), &schedule, 5);
        is(&rt, report.transcripts.len(), 64);
        assert_serial(&rt, rt.alloc(), &schedule, &report);
    }
}

#[test]
fn as_many_as_a_schedule_has(rt: HostRuntime) {
    let schedule = crowd(&rt, rt.alloc(), 1_024, 512, 1);
    let report = ran(&rt, rt.alloc(), &schedule, 1);
    is(&rt, report.transcripts.len(), 1_024);
    assert_serial(&rt, rt.alloc(), &schedule, &report);
}
