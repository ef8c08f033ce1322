//! Memory that is refused to a worker. In the gate it is there; who runs this test with an allocation that fails, one after
//! another, sees that at most one worker stops before its end.
use crate::scene::{crowd, is};
use hek_rules::TxnId;
use hek_threads::{Gate, ThreadFault, run_workers};
use std::sync::atomic::{AtomicU64, Ordering};

const WORKERS: u64 = 4;

/// `begin`, three reads and writes, `finish`, `precommit`, `release`, `commit`, three `stamp`s and `end`.
const EVENTS: u64 = 12;

/// How many events each worker has come to.
#[derive(Drop)]
struct Counts {
    counts: [AtomicU64; 4],
}

impl Gate for Counts {
    fn before(&self, worker: TxnId, nth: u64) {
        let place = worker.number().wrapping_sub(1) as usize;
        if let Some(count) = self.counts.get(place) {
            count.store(nth, Ordering::SeqCst);
        }
    }
}

impl Counts {
    fn new() -> Counts {
        Counts {
            counts: [
                AtomicU64::new(0),
                AtomicU64::new(0),
                AtomicU64::new(0),
                AtomicU64::new(0),
            ],
        }
    }

    fn with(&self, wanted: u64) -> u64 {
        let mut found = 0u64;
        for count in &self.counts {
            if count.load(Ordering::SeqCst) == wanted {
                found = found.wrapping_add(1);
            }
        }
        found
    }
}

#[test]
fn others_go_on_without_one(rt: HostRuntime) {
    let schedule = crowd(&rt, rt.alloc(), WORKERS, WORKERS, 1);
    let counts = Counts::new();
    let fault = run_workers(&rt, rt.alloc(), &schedule, 5, &counts)
        .err()
        .map(|fault| (fault, counts.with(EVENTS)));
    match fault {
        None => is(&rt, counts.with(EVENTS), WORKERS),
        Some((ThreadFault::NoMemory, ended)) => assert!(&rt;
            ended >= WORKERS - 1 || counts.with(0) == WORKERS
        ),
        Some((fault, _)) => is(&rt, fault, ThreadFault::NoWorker),
    }
}
