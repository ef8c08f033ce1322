//! The command `page`: writes the page of a run.
ghost use Rattle.std.specs.Prelude.{◌≡◌, length, IfOk, IfErr, OnOk, MatchResult};
ghost use Rattle.hek_report.specs.Files.{PrintFails, IsStop};
ghost use Rattle.hek_page_command.specs.Pages.{Pages, IsAnswer, WritesPage, count_of, done_of, last_step};

use crate::comments::{Comments, comments_in};
use crate::data::data_of;
use crate::heading::Heading;
use crate::sheet::write_sheet;
use crate::story::StepRange;
use hek_report::{HekFault, ScheduleFile, schedule_in};
use hek_rules::Schedule;
use std::alloc::Global;
use std::io::{Read, Write};

/// How many steps a page has at most.
pub const MOST_STEPS: u64 = 2_000;

/// The steps that are asked for, by their numbers from 1: from `from`, or from the first, to `to`, or to the last.
#[derive(Clone, Copy)]
pub struct Part {
    pub from: Option<u64>,
    pub to: Option<u64>,
}

/// Writes the page of the run of the schedule in a file, or of a part of the run. Answers the exit status. If the part
/// has more steps than a page, `faults` says so, nothing is written, and the status is 1.
pub fn page_command<'a, R: Read + Drop, W: Write, E: Write>(
    alloc: Global,
    file: ScheduleFile<R>,
    part: Part,
    heading: Heading<'_>,
    out: &mut W,
    faults: &mut E,
) -> Result<u8, HekFault<'a>>
    ensures { MatchResult result (λ status. Pages R.remaining file part status (W.contents out.old) (W.contents out.new)) (PrintFails R.remaining file) }
{
    let comments = comments_in(alloc, &file)?;
    let schedule = schedule_in(alloc, file)?;
    write_page(alloc, &schedule, part, &heading, &comments, out, faults)
}

fn write_page<'a, W: Write, E: Write>(
    alloc: Global,
    schedule: &Schedule,
    part: Part,
    heading: &Heading<'_>,
    comments: &Comments,
    out: &mut W,
    faults: &mut E,
) -> Result<u8, HekFault<'a>>
    ensures answer { IfOk result (λ status. IsAnswer (count_of part (length schedule.now.steps)) status (W.contents out.old) (W.contents out.new)) }
    ensures stops { IfErr result IsStop }
{
    let range = range_of(part, schedule.steps().len() as u64);
    if (range.last as u64).saturating_sub(range.done as u64) > MOST_STEPS {
        let _ = writeln!(faults, "hek: page: more than {MOST_STEPS} steps");
        return Ok(1);
    }
    let data = data_of(alloc, schedule, range, heading, comments)?;
    write_sheet(alloc, heading, data.as_slice(), out)?;
    Ok(0)
}

/// The steps of a part of `steps` steps.
fn range_of(part: Part, steps: u64) -> StepRange
    ensures { (result.done ≡ done_of part steps) × (result.last ≡ last_step part steps) }
{
    let last = part.to.unwrap_or(steps).min(steps);
    let done = part.from.unwrap_or(1).saturating_sub(1).min(last);
    StepRange {
        done: done as usize,
        last: last as usize,
    }
}
