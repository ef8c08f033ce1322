//! One transaction from `begin` to `end`, with its transcript.
ghost use Rattle.std.specs.Prelude.{◌≡◌, IfOk};
ghost use Rattle.hek_worker.specs.Grammar.{IsTranscript, work_of};

use crate::shared::Steps;
use hek_rules::{Event, TxnId};
use hek_worker::{Part, Position, Stage, ThreadFault, is_work};
use std::alloc::Global;
use std::sync::Wait;

/// Holds workers back. No contract says when a gate is called, nor with what: tests alone show it.
pub trait Gate {
    /// A worker calls this before each of its events, outside the lock. `nth` counts that worker's events from 1,
    /// `detect` too.
    fn before(&self, worker: TxnId, nth: u64);
}

/// Is told who makes no more events. No contract says when it is called, nor with whom: tests alone show it.
pub trait Exit {
    /// A worker calls this once, after its last event. For a worker without a thread it is called too.
    fn leave(&self, worker: TxnId);
}

/// An exit that nobody looks at.
pub(crate) struct Unwatched;

impl Exit for Unwatched {
    fn leave(&self, _worker: TxnId) {}
}

// The reads and writes of one transaction.
fn own_work(alloc: Global, worker: TxnId, steps: &[Event]) -> Result<Vec<Event>, ThreadFault>
    ensures { IfOk result (λ v. v.items ≡ work_of worker steps.now) }
{
    Ok(
        steps
            .iter()
            .copied()
            .filter(|step| is_work(worker, *step))
            .collect(alloc)?,
    )
}

/// Runs one transaction to its end, and leaves.
pub(crate) fn work<S: Steps, G: Gate, X: Exit, R: Wait>(
    rt: &R,
    alloc: Global,
    shared: &S,
    worker: TxnId,
    steps: &[Event],
    turns: u64,
    gate: &G,
    exit: &X,
) -> Result<Part, ThreadFault>
    ensures { IfOk result (λ p. IsTranscript worker (work_of worker steps.now) turns p) }
{
    let part = work_through(rt, alloc, shared, worker, steps, turns, gate);
    exit.leave(worker);
    part
}

/// Runs one transaction to its end.
fn work_through<S: Steps, G: Gate, R: Wait>(
    rt: &R,
    alloc: Global,
    shared: &S,
    worker: TxnId,
    steps: &[Event],
    turns: u64,
    gate: &G,
) -> Result<Part, ThreadFault>
    ensures { IfOk result (λ p. IsTranscript worker (work_of worker steps.now) turns p) }
{
    let own = own_work(alloc, worker, steps)?;
    let mut done = Vec::new(alloc);
    let mut at = Position::begin(turns);
    for _ in rt.forever() {
        if at.stage == Stage::Ended {
            return Ok(Part::of(done));
        }
        done.reserve(1)?;
        let event = at.event(worker, own.as_slice());
        gate.before(worker, done.len() as u64 + 1);
        let made = event;
        let (_, reply) = shared.step_once(rt, worker, made)?;
        let Some(next) = at.after(worker, own.as_slice(), &reply) else {
            return Err(ThreadFault::Mismatch(worker));
        };
        done.push_reserved((event, reply));
        at = next;
    }
    unreachable!()
}
