//! A thread for each transaction, all joined, and the report of the run.
ghost use Rattle.std.specs.Prelude.{◌≡◌, ◌≢◌, ◌⊎◌, ◌<◌, ◌≤◌, ◌+◌, ℕ, Err, Ok, IsTrue, IfOk, IfSome, IfNone, vec_len, vec_capacity, slice_get, slice_index_or, Some, length};
ghost use Rattle.hek_machine.specs.Steps.{IsRun, RowsAreSerial};
ghost use Rattle.hek_worker.specs.History.{IsHistory, IsSerialHistory, history_events, part_of, replies_in};
ghost use Rattle.hek_worker.specs.Grammar.{AreTranscripts, IsTranscript, work_of, worker_at};

use crate::parts::compare;
use crate::shared::{Shared, Steps};
use crate::worker::{Exit, Gate, Unwatched, work};
use hek_machine::Machine;
use hek_rules::{Event, Schedule, TxnId};
use hek_worker::{Book, Entry, Part, ThreadFault};
use std::alloc::Global;
use std::sync::Wait;
use std::thread;
use std::thread::{Promise, PromisedHandle, Scope, Threads};

/// What a run gives: the machine after it, all entries in the order in which they were made, and one transcript for
/// each declared transaction, in order of their IDs.
#[derive(Drop)]
pub struct Report {
    pub machine: Machine,
    pub history: Vec<Entry>,
    pub transcripts: Vec<Part>,
}

// What a worker's thread returns: a transcript of that worker.
#[derive(Clone, Copy)]
struct Transcribes<'a> {
    worker: TxnId,
    steps: &'a [Event],
    turns: u64,
}

impl<'a> Promise<Result<Part, ThreadFault>> for Transcribes<'a> {
    ghost kept_by = { λ p r. IfOk r (λ part. IsTranscript p.worker (work_of p.worker p.steps.now) p.turns part) };
}

type Handle<'s> = PromisedHandle<Result<Part, ThreadFault>, Transcribes<'s>>;

// Starts a thread for each transaction. If one cannot be started, `Err` hands back those that were.
fn start_all<'s, E, S: Steps + Sync, G: Gate + Sync, X: Exit + Sync, R: Threads + Wait + Sync>(
    scope: &Scope<'s, E>,
    rt: &'s R,
    alloc: Global,
    shared: &'s S,
    schedule: &'s Schedule,
    turns: u64,
    gate: &'s G,
    exit: &'s X,
    mut handles: Vec<Handle<'s>>,
) -> Result<Vec<Handle<'s>>, Vec<Handle<'s>>>
    requires empty { vec_len handles ≡ 0 }
    requires room { length schedule.now.txns ≤ vec_capacity handles }
    ensures count { IfOk result (λ v. vec_len v ≡ length schedule.now.txns) }
    ensures each { IfOk result (λ v. (k : ℕ) (d : _) → k < length schedule.now.txns → ((slice_index_or v.items k d).promise.worker ≡ k + 1) × ((slice_index_or v.items k d).promise.steps.now ≡ schedule.now.steps) × ((slice_index_or v.items k d).promise.turns ≡ turns)) }
{
    for i in 0..schedule.txn_count() as u64 {
        let number = i + 1;
        let worker = TxnId::new(number);
        let steps = schedule.steps();
        let promise = Transcribes {
            worker,
            steps,
            turns,
        };
        let run = move || -> Result<Part, ThreadFault>
            ensures { IfOk result (λ part. IsTranscript number (work_of number steps.entry.now) turns part) }
        {
            work(
                rt,
                alloc,
                shared,
                TxnId::new(number),
                steps,
                turns,
                gate,
                exit,
            )
        };
        match scope.spawn_with(promise, run) {
            Ok(handle) => handles.push_reserved(handle),
            Err(_) => {
                leave_from(exit, number, schedule.txn_count() as u64);
                return Err(handles);
            }
        }
    }
    Ok(handles)
}

// The workers from a number on have no thread, so they leave at once.
fn leave_from<X: Exit>(exit: &X, first: u64, last: u64) {
    for number in first..=last {
        exit.leave(TxnId::new(number));
    }
}

// The fault of two that counts: NoMemory first, otherwise the earlier one.
fn first_of(fault: Option<ThreadFault>, next: ThreadFault) -> ThreadFault
    ensures memory { (fault ≡ Some ThreadFault.NoMemory) ⊎ (next ≡ ThreadFault.NoMemory) → result ≡ ThreadFault.NoMemory }
    ensures earlier { IfSome fault (λ f. next ≢ ThreadFault.NoMemory → result ≡ f) }
    ensures only { IfNone fault (result ≡ next) }
{
    match (fault, next) {
        (None, fault) => fault,
        (Some(_), ThreadFault::NoMemory) => ThreadFault::NoMemory,
        (Some(fault), _) => fault,
    }
}

// Joins all threads. `parts` has room for their transcripts.
fn join_all<'s, R: Threads>(
    rt: &R,
    schedule: &'s Schedule,
    turns: u64,
    handles: Vec<Handle<'s>>,
    mut parts: Vec<Part>,
) -> Result<Vec<Part>, ThreadFault>
    requires count { vec_len handles ≡ length schedule.now.txns }
    requires promised { (k : ℕ) (d : _) → k < length schedule.now.txns → ((slice_index_or handles.items k d).promise.worker ≡ k + 1) × ((slice_index_or handles.items k d).promise.steps.now ≡ schedule.now.steps) × ((slice_index_or handles.items k d).promise.turns ≡ turns) }
    requires empty { vec_len parts ≡ 0 }
    requires room { length schedule.now.txns ≤ vec_capacity parts }
    ensures count { IfOk result (λ v. vec_len v ≡ length schedule.now.txns) }
    ensures each { IfOk result (λ v. AreTranscripts schedule.now.steps turns v.items) }
{
    let mut fault = None;
    for handle in handles {
        match handle.join(rt) {
            Ok(part) => parts.push_reserved(part),
            Err(next) => fault = Some(first_of(fault, next)),
        }
    }
    match fault {
        Some(fault) => Err(fault),
        None => Ok(parts),
    }
}

// Runs all workers in threads of the scope, and joins each that was started.
fn run_all<'s, E, S: Steps + Sync, G: Gate + Sync, X: Exit + Sync, R: Threads + Wait + Sync>(
    scope: &Scope<'s, E>,
    rt: &'s R,
    alloc: Global,
    shared: &'s S,
    schedule: &'s Schedule,
    turns: u64,
    gate: &'s G,
    exit: &'s X,
) -> Result<Vec<Part>, ThreadFault>
    ensures count { IfOk result (λ v. vec_len v ≡ length schedule.now.txns) }
    ensures each { IfOk result (λ v. AreTranscripts schedule.now.steps turns v.items) }
{
    let count = schedule.txn_count();
    let parts = Vec::with_capacity(alloc, count)?;
    let handles = Vec::with_capacity(alloc, count)?;
    match start_all(
        scope, rt, alloc, shared, schedule, turns, gate, exit, handles,
    ) {
        Ok(handles) => join_all(rt, schedule, turns, handles, parts),
        Err(handles) => {
            for handle in handles {
                let _result = handle.join(rt);
            }
            Err(ThreadFault::NoWorker)
        }
    }
}

// Runs all workers in one scope.
fn gather<S: Steps + Sync, G: Gate + Sync, X: Exit + Sync, R: Threads + Wait + Sync>(
    rt: &R,
    alloc: Global,
    shared: &S,
    schedule: &Schedule,
    turns: u64,
    gate: &G,
    exit: &X,
) -> Result<Vec<Part>, ThreadFault>
    ensures count { IfOk result (λ v. vec_len v ≡ length schedule.now.txns) }
    ensures each { IfOk result (λ v. AreTranscripts schedule.now.steps turns v.items) }
{
    thread::scope(
        thread::scope_env(),
        rt,
        |scope| -> Result<Vec<Part>, ThreadFault>
            ensures count { IfOk result (λ v. vec_len v ≡ length schedule.entry.now.txns) }
            ensures each { IfOk result (λ v. AreTranscripts schedule.entry.now.steps turns v.items) }
        { run_all(scope, rt, alloc, shared, schedule, turns, gate, exit) },
    )
}

// The transcripts, if the book is of the run's own schedule; otherwise Mismatch(0), but NoWorker and NoMemory come
// first.
fn of_own_book(joined: Result<Vec<Part>, ThreadFault>, own: bool) -> Result<Vec<Part>, ThreadFault>
    ensures own { IfOk result (λ v. IsTrue own × (joined ≡ Ok v)) }
    ensures kept { IsTrue own → result ≡ joined }
    ensures first { (joined ≡ Err ThreadFault.NoWorker) ⊎ (joined ≡ Err ThreadFault.NoMemory) → result ≡ joined }
    ensures book { ¬ (IsTrue own) → joined ≢ Err ThreadFault.NoWorker → joined ≢ Err ThreadFault.NoMemory → result ≡ Err (ThreadFault.Mismatch 0) }
{
    match joined {
        Err(ThreadFault::NoWorker) => Err(ThreadFault::NoWorker),
        Err(ThreadFault::NoMemory) => Err(ThreadFault::NoMemory),
        joined => {
            if own {
                joined
            } else {
                Err(ThreadFault::Mismatch(TxnId::new(0)))
            }
        }
    }
}

/// Runs each declared transaction in its own thread, and joins all threads that were started. A worker makes `begin`,
/// its transaction's reads and writes in the order of the schedule's steps, `finish`, `precommit`, `release` and
/// `commit`, and `stamp`s and `end`s what it did. When it has to wait it uses one of `turns`, looks for a deadlock and
/// tries again; without a turn left it makes `fail`. All other steps of the schedule are skipped. `gate` is called
/// before each event.
///
/// NoWorker: a thread cannot be started. NoMemory: a worker ran out of memory and made no more events; the others ran
/// to their ends. Mismatch: a worker's replies, or its part of the history, are not what they should be. Of several
/// faults the first in this order counts, and of mismatches that of the worker with the least ID, where 0 means the
/// book.
pub fn run_workers<G: Gate + Sync, R: Threads + Wait + Sync>(
    rt: &R,
    alloc: Global,
    schedule: &Schedule,
    turns: u64,
    gate: &G,
) -> Result<Report, ThreadFault>
    ensures formed { IfOk result (λ r. IsHistory (length schedule.now.txns) r.history.items) }
    ensures run { IfOk result (λ r. IsRun schedule.now 1 (history_events r.history.items) (replies_in r.history.items) r.machine) }
    ensures serial { IfOk result (λ r. IsSerialHistory schedule.now r.history.items) }
    ensures rows { IfOk result (λ r. RowsAreSerial schedule.now (history_events r.history.items) (replies_in r.history.items) r.machine) }
    ensures count { IfOk result (λ r. vec_len r.transcripts ≡ length schedule.now.txns) }
    ensures grammar { IfOk result (λ r. AreTranscripts schedule.now.steps turns r.transcripts.items) }
    ensures parts { IfOk result (λ r. (i : ℕ) (p : _) → slice_get r.transcripts.items i ≡ Some p → p ≡ part_of (i + 1) r.history.items) }
{
    run_workers_with_exit(rt, alloc, schedule, turns, gate, &Unwatched)
}

/// Runs as `run_workers` does, and tells `exit` who makes no more events.
pub fn run_workers_with_exit<G: Gate + Sync, X: Exit + Sync, R: Threads + Wait + Sync>(
    rt: &R,
    alloc: Global,
    schedule: &Schedule,
    turns: u64,
    gate: &G,
    exit: &X,
) -> Result<Report, ThreadFault>
    ensures formed { IfOk result (λ r. IsHistory (length schedule.now.txns) r.history.items) }
    ensures run { IfOk result (λ r. IsRun schedule.now 1 (history_events r.history.items) (replies_in r.history.items) r.machine) }
    ensures serial { IfOk result (λ r. IsSerialHistory schedule.now r.history.items) }
    ensures rows { IfOk result (λ r. RowsAreSerial schedule.now (history_events r.history.items) (replies_in r.history.items) r.machine) }
    ensures count { IfOk result (λ r. vec_len r.transcripts ≡ length schedule.now.txns) }
    ensures grammar { IfOk result (λ r. AreTranscripts schedule.now.steps turns r.transcripts.items) }
    ensures parts { IfOk result (λ r. (i : ℕ) (p : _) → slice_get r.transcripts.items i ≡ Some p → p ≡ part_of (i + 1) r.history.items) }
{
    let shared = Shared::new(Book::load(alloc, schedule)?);
    let joined = gather(rt, alloc, &shared, schedule, turns, gate, exit);
    let book = shared.into_book();
    let transcripts = of_own_book(joined, book.is_of(schedule))?;
    let (machine, history) = book.into_parts();
    if let Some(worker) = compare(history.as_slice(), transcripts.as_slice()) {
        return Err(ThreadFault::Mismatch(worker));
    }
    Ok(Report {
        machine,
        history,
        transcripts,
    })
}
