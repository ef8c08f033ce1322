//! Many runs in threads, and how many different outcomes they have.
ghost use Rattle.std.specs.Prelude.{◌≡◌, MatchResult, IfErr};
ghost use Rattle.hek_report.specs.Files.{FileGives};
ghost use Rattle.hek_threads_command.specs.Threaded.{IsRunFault, IsThreadsStop, ThreadsFail};

use crate::outcome::{Outcome, outcome_of};
use crate::progress::Progress;
use crate::threads::{Pace, report_of};
use crate::{json, text};
use hek_report::{HekFault, Lines, Printing, ScheduleFile, schedule_in, send};
use hek_rules::{NoMemory, Schedule};
use std::alloc::Global;
use std::collections::BTreeMap;
use std::io::{Read, Write};
use std::sync::Wait;
use std::thread::Threads;

/// The outcomes of runs, by their lines.
type Outcomes = BTreeMap<Vec<u8>, Seen>;

/// An outcome, and how many runs had it.
#[derive(Drop)]
struct Seen {
    runs: u64,
    outcome: Outcome,
}

/// Runs the transactions of the schedule in a file `times` times. Writes how many different outcomes there were, and
/// each outcome with how often it occurred. The seed of each run is one more than that of the run before. Answers the
/// exit status. Nothing is written before the last run is over.
/// `progress` counts the runs.
#[tactic(auto, using(crate::proofs::Histories::stop_fails))]
pub fn repeat_command<'a, T: Threads + Wait + Sync, R: Read + Drop, W: Write, E: Write>(
    rt: &T,
    alloc: Global,
    file: ScheduleFile<R>,
    pace: Pace,
    times: u64,
    printing: Printing,
    progress: &mut Progress<'_, E>,
    out: &mut W,
) -> Result<u8, HekFault<'a>>
    ensures { MatchResult result (λ status. (status ≡ 0) × ((plan : _) × FileGives R.remaining file plan)) (ThreadsFail R.remaining file) }
{
    let schedule = schedule_in(alloc, file)?;
    write_outcomes(rt, alloc, &schedule, pace, times, printing, progress, out)?;
    Ok(0)
}

/// Runs a schedule's transactions `times` times, and writes the outcomes.
fn write_outcomes<'a, T: Threads + Wait + Sync, W: Write, E: Write>(
    rt: &T,
    alloc: Global,
    schedule: &Schedule,
    pace: Pace,
    times: u64,
    printing: Printing,
    progress: &mut Progress<'_, E>,
    out: &mut W,
) -> Result<(), HekFault<'a>>
    ensures { IfErr result IsThreadsStop }
{
    let outcomes = outcomes_of(rt, alloc, schedule, pace, times, printing, progress);
    progress.clear();
    let outcomes = outcomes?;
    let mut lines = outcome_lines(alloc, schedule, &outcomes, times, printing)?;
    send(&mut lines, out)
}

/// The outcomes of `times` runs.
fn outcomes_of<'a, T: Threads + Wait + Sync, E: Write>(
    rt: &T,
    alloc: Global,
    schedule: &Schedule,
    pace: Pace,
    times: u64,
    printing: Printing,
    progress: &mut Progress<'_, E>,
) -> Result<Outcomes, HekFault<'a>>
    ensures { IfErr result IsRunFault }
{
    let mut outcomes = BTreeMap::new(alloc);
    for run in 0..times {
        let report = report_of(rt, alloc, schedule, nth(pace, run))?;
        let outcome = outcome_of(alloc, schedule, report)?;
        count_one(alloc, schedule, &mut outcomes, outcome, printing)?;
        progress.count();
    }
    Ok(outcomes)
}

/// The pace of a run with this number, from 0: each run draws by a seed of its own.
fn nth(pace: Pace, run: u64) -> Pace {
    Pace {
        turns: pace.turns,
        seed: match pace.seed {
            Some(seed) => Some(seed.wrapping_add(run)),
            None => None,
        },
    }
}

/// Counts one more run with this outcome.
fn count_one(
    alloc: Global,
    schedule: &Schedule,
    outcomes: &mut Outcomes,
    outcome: Outcome,
    printing: Printing,
) -> Result<(), NoMemory> {
    let mut key = Vec::new(alloc);
    put_outcome_key(alloc, schedule, &outcome, printing, &mut key)?;
    match outcomes.entry(key) {
        Ok(entry) => {
            let seen = entry.or_insert(Seen { runs: 0, outcome });
            seen.runs = seen.runs.saturating_add(1);
            Ok(())
        }
        Err(_) => Err(NoMemory),
    }
}

/// How many outcomes there are, and a line for each.
fn outcome_lines(
    alloc: Global,
    schedule: &Schedule,
    outcomes: &Outcomes,
    times: u64,
    printing: Printing,
) -> Result<Vec<u8>, NoMemory> {
    let mut lines = Vec::new(alloc);
    put_heading(alloc, outcomes.len(), times, printing, &mut lines)?;
    for (_, seen) in outcomes.iter() {
        put_seen(
            alloc,
            schedule,
            seen.runs,
            &seen.outcome,
            printing,
            &mut lines,
        )?;
    }
    Ok(lines)
}

/// Appends the line of how many outcomes and runs there were.
fn put_heading(
    alloc: Global,
    outcomes: usize,
    runs: u64,
    printing: Printing,
    lines: &mut Vec<u8>,
) -> Result<(), NoMemory> {
    match printing {
        Printing::Text => text::put_heading(outcomes, runs, lines),
        Printing::Json => {
            let mut objects = Lines::after(alloc, lines);
            json::put_heading(outcomes, runs, &mut objects);
            objects.put_back(lines)
        }
    }
}

/// Appends the line of an outcome, and of how many runs had it.
fn put_seen(
    alloc: Global,
    schedule: &Schedule,
    runs: u64,
    outcome: &Outcome,
    printing: Printing,
    lines: &mut Vec<u8>,
) -> Result<(), NoMemory> {
    match printing {
        Printing::Text => text::put_seen(schedule, runs, outcome, lines),
        Printing::Json => {
            let mut objects = Lines::after(alloc, lines);
            json::put_seen(schedule, runs, outcome, &mut objects);
            objects.put_back(lines)
        }
    }
}

/// Appends what tells an outcome from others.
fn put_outcome_key(
    alloc: Global,
    schedule: &Schedule,
    outcome: &Outcome,
    printing: Printing,
    key: &mut Vec<u8>,
) -> Result<(), NoMemory> {
    match printing {
        Printing::Text => text::put_outcome(schedule, outcome, key),
        Printing::Json => {
            let mut objects = Lines::after(alloc, key);
            json::put_key(schedule, outcome, &mut objects);
            objects.put_back(key)
        }
    }
}
