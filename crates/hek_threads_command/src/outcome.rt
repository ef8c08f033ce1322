//! The outcome of a run: which transactions committed, which aborted and why, the rows, the checker's verdict, and whether
//! the committed transactions can follow one another.
ghost use Rattle.std.specs.Prelude.{◌≡◌, IfOk};
ghost use Rattle.hek_rules.specs.declared.serial.Verdict.TheVariants as verdict;
ghost use Rattle.hek_worker.specs.History.{IsSerialHistory};
ghost use Rattle.hek_threads_command.specs.Threaded.{HasRun};
ghost use Rattle.hek_threads_command.specs.Outcomes.{ending_reply};

use hek_history_report::{Together, together_of};
use hek_rules::{Cause, NoMemory, Pairs, Reply, Schedule, Verdict};
use hek_serial::check;
use hek_threads::{Part, Report, transcript_of};
use std::alloc::Global;

/// An outcome of a run.
#[derive(Drop)]
pub(crate) struct Outcome {
    /// How each transaction ended, by ID: Committed, Aborted with the cause, or Nothing.
    pub(crate) ends: Vec<Reply>,
    /// The committed rows.
    pub(crate) rows: Pairs,
    /// The checker's verdict on the history, each transaction at its own level.
    pub(crate) verdict: Verdict,
    /// Whether the committed transactions can follow one another, all taken as serializable.
    pub(crate) together: Together,
}

/// The outcome of a run; its verdict is always `Serial`.
pub(crate) fn outcome_of(
    alloc: Global,
    schedule: &Schedule,
    report: Report,
) -> Result<Outcome, NoMemory>
    requires { HasRun schedule.now report.history.items }
    ensures { IfOk result (λ outcome. outcome.verdict ≡ verdict.Serial) }
{
    let ends = ends_of(alloc, report.transcripts.as_slice())?;
    let rows = report.machine.rows()?;
    let (verdict, together) = judge(alloc, schedule, report)?;
    Ok(Outcome {
        ends,
        rows,
        verdict,
        together,
    })
}

fn ends_of(alloc: Global, parts: &[Part]) -> Result<Vec<Reply>, NoMemory> {
    let mut ends = Vec::new(alloc);
    for part in parts {
        ends.push(end_of(part))?;
    }
    Ok(ends)
}

/// How a worker's transaction ended: Committed, or Aborted with the cause.
fn end_of(part: &Part) -> Reply
    ensures { result ≡ ending_reply part.now }
{
    let mut rest = part.as_slice();
    while let Some(((_, reply), later)) = rest.split_first() {
        match reply {
            Reply::Committed => return Reply::Committed,
            Reply::Aborted(cause) => return Reply::Aborted(*cause),
            Reply::Failed => return Reply::Aborted(Cause::Asked),
            _ => rest = later,
        }
    }
    Reply::Nothing
}

/// The checker's verdict on a history that is serial, each transaction at its own level; and whether the committed
/// transactions can follow one another, all taken as serializable.
fn judge(
    alloc: Global,
    schedule: &Schedule,
    report: Report,
) -> Result<(Verdict, Together), NoMemory>
    requires { IsSerialHistory schedule.now report.history.items }
    ensures { IfOk result (λ v. v.0 ≡ verdict.Serial) }
{
    let Report {
        machine: _,
        history,
        transcripts: _,
    } = report;
    let told = transcript_of(alloc, schedule, history)?;
    let together = together_of(alloc, schedule, &told)?;
    let verdict = check(alloc, &told)?;
    Ok((verdict, together))
}
