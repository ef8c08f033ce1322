//! One run in threads, and its trace.
ghost use Rattle.std.specs.Prelude.{◌≡◌, MatchResult, OnOk, IfOk, IfErr, length};
ghost use Rattle.hek_asm.specs.Trace.{trace};
ghost use Rattle.hek_worker.specs.History.{IsHistory, history_events, replies_in};
ghost use Rattle.hek_report.specs.declared.printing.Printing.TheVariants as printings;
ghost use Rattle.hek_threads_command.specs.Threaded.{HasRun, IsRunFault, IsThreadsStop, RunsInThreads, ShowsHistory, ThreadsFail, thread_fault};

use crate::json::history_lines;
use crate::text::trace_text;
use hek_report::{HekFault, Printing, ScheduleFile, schedule_in, send};
use hek_rules::{NoMemory, Schedule, TxnId};
use hek_threads::{Entry, Gate, Lottery, Report, ThreadFault, run_workers, run_workers_with_exit};
use std::alloc::Global;
use std::io::{Read, Write};
use std::sync::Wait;
use std::thread::Threads;

/// How the threads of a run get on.
#[derive(Clone, Copy)]
pub struct Pace {
    /// How often a waiting worker may try again.
    pub turns: u64,
    /// The seed by which it is drawn which worker makes the next event; without one, the system decides.
    pub seed: Option<u64>,
}

/// Runs each transaction of the schedule in a file in its own thread, and writes the history: as a trace, or the object of
/// each step. Answers the exit status. Nothing is written before the run is over.
#[tactic(auto, using(crate::proofs::Histories::stop_fails))]
pub fn threads_command<'a, T: Threads + Wait + Sync, R: Read + Drop, W: Write>(
    rt: &T,
    alloc: Global,
    file: ScheduleFile<R>,
    pace: Pace,
    printing: Printing,
    out: &mut W,
) -> Result<u8, HekFault<'a>>
    ensures { MatchResult result (λ status. (status ≡ 0) × RunsInThreads R.remaining file printing (W.contents out.old) (W.contents out.new)) (ThreadsFail R.remaining file) }
{
    let schedule = schedule_in(alloc, file)?;
    write_history(rt, alloc, &schedule, pace, printing, out)?;
    Ok(0)
}

/// Runs a schedule's transactions in threads, and writes the history.
fn write_history<'a, T: Threads + Wait + Sync, W: Write>(
    rt: &T,
    alloc: Global,
    schedule: &Schedule,
    pace: Pace,
    printing: Printing,
    out: &mut W,
) -> Result<(), HekFault<'a>>
    ensures written { OnOk result (ShowsHistory schedule.now printing (W.contents out.old) (W.contents out.new)) }
    ensures stops { IfErr result IsThreadsStop }
{
    let history = history_of(rt, alloc, schedule, pace)?;
    let mut lines = lines_of(alloc, schedule, history, printing)?;
    send(&mut lines, out)
}

/// The lines of a history.
fn lines_of(
    alloc: Global,
    schedule: &Schedule,
    history: Vec<Entry>,
    printing: Printing,
) -> Result<Vec<u8>, NoMemory>
    requires { IsHistory (length schedule.now.txns) history.items }
    ensures { IfOk result (λ lines. printing ≡ printings.Text → lines.items ≡ trace schedule.now (history_events history.items) (replies_in history.items)) }
{
    match printing {
        Printing::Text => trace_text(alloc, schedule, history),
        Printing::Json => history_lines(alloc, schedule, history.as_slice()),
    }
}

/// A gate that is always open.
struct Open;

impl Gate for Open {
    fn before(&self, _worker: TxnId, _nth: u64) {}
}

/// The report of a run in threads.
pub fn report_of<'a, T: Threads + Wait + Sync>(
    rt: &T,
    alloc: Global,
    schedule: &Schedule,
    pace: Pace,
) -> Result<Report, HekFault<'a>>
    ensures run { IfOk result (λ report. HasRun schedule.now report.history.items) }
    ensures stops { IfErr result IsRunFault }
{
    match ran_at(rt, alloc, schedule, pace) {
        Ok(report) => Ok(report),
        Err(fault) => Err(fault_of(fault)),
    }
}

/// What comes of a run in threads at a pace.
fn ran_at<T: Threads + Wait + Sync>(
    rt: &T,
    alloc: Global,
    schedule: &Schedule,
    pace: Pace,
) -> Result<Report, ThreadFault>
    ensures { IfOk result (λ report. HasRun schedule.now report.history.items) }
{
    match pace.seed {
        None => run_workers(rt, alloc, schedule, pace.turns, &Open),
        Some(seed) => {
            let lottery = Lottery::new(rt, alloc, schedule.txn_count(), seed)?;
            run_workers_with_exit(rt, alloc, schedule, pace.turns, &lottery, &lottery)
        }
    }
}

/// The history of a run in threads.
fn history_of<'a, T: Threads + Wait + Sync>(
    rt: &T,
    alloc: Global,
    schedule: &Schedule,
    pace: Pace,
) -> Result<Vec<Entry>, HekFault<'a>>
    ensures run { IfOk result (λ history. HasRun schedule.now history.items) }
    ensures stops { IfErr result IsRunFault }
{
    let Report {
        machine: _,
        history,
        transcripts: _,
    } = report_of(rt, alloc, schedule, pace)?;
    Ok(history)
}

/// The fault of a run in threads as that of a command.
fn fault_of<'a>(fault: ThreadFault) -> HekFault<'a>
    ensures { result ≡ thread_fault fault }
{
    match fault {
        ThreadFault::NoWorker => HekFault::NoWorker,
        ThreadFault::NoMemory => HekFault::NoMemory,
        ThreadFault::Mismatch(worker) => HekFault::Mismatch(worker.number()),
    }
}
