//! Two workers that a gate holds in step.
use crate::scene::{holds, is, scene};
use hek_rules::TxnId;
use hek_threads::{Entry, Gate, run_workers};
use std::process::Abort;
use std::sync::atomic::{AtomicU64, Ordering};
use std::thread;

/// How often the gate lets others run before it gives up.
const MOST: u64 = 100_000_000;

/// Holds each worker's nth event, for n from 2 to `last`, until the other's nth was called for.
#[derive(Drop)]
struct Pace {
    first: AtomicU64,
    second: AtomicU64,
    last: u64,
    late: AtomicU64,
}

impl Pace {
    fn new(last: u64) -> Pace {
        Pace {
            first: AtomicU64::new(0),
            second: AtomicU64::new(0),
            last,
            late: AtomicU64::new(0),
        }
    }

    fn wait_for(&self, other: &AtomicU64, nth: u64) {
        for _ in 0..MOST {
            if other.load(Ordering::SeqCst) >= nth {
                return;
            }
            thread::yield_now();
        }
        self.late.store(1, Ordering::SeqCst);
    }
}

impl Gate for Pace {
    fn before(&self, worker: TxnId, nth: u64) {
        let (mine, other) = if worker.number() == 1 {
            (&self.first, &self.second)
        } else {
            (&self.second, &self.first)
        };
        mine.store(nth, Ordering::SeqCst);
        if nth >= 2 && nth <= self.last {
            self.wait_for(other, nth);
        }
    }
}

fn assert_both(rt: &impl Abort, entries: &[Entry]) {
    let first = entries.first().map_or(0, |entry| entry.worker.number());
    let second = entries.get(1).map_or(0, |entry| entry.worker.number());
    is(rt, (first.min(second), first.max(second)), (1, 2));
}

// One thread for both would stop at the gate, and so would a lock that is kept over two events.
#[test]
fn two_go_in_step(rt: HostRuntime) {
    let text = "buckets 1\nrow 10 100\ntxn a repeatable\ntxn b repeatable\na read 10\nb read 10\n";
    let schedule = scene(&rt, rt.alloc(), text);
    let pace = Pace::new(9);
    let report = run_workers(&rt, rt.alloc(), &schedule, 5, &pace).expect(&rt, "a report");
    is(&rt, pace.late.load(Ordering::SeqCst), 0);
    is(&rt, report.history.len(), 18);
    for pair in report.history.chunks(2) {
        assert_both(&rt, pair);
    }
    holds(&rt, report.transcripts.len() == 2);
}
