//! The command `check` with more than its verdict: how much of a trace is judged, each of its faults, as text or as objects
//! of JSON.
ghost use Rattle.std.specs.Prelude.{◌≡◌, ◌++◌, ◌∷◌, [], MatchResult, IfErr, IfOk, OnOk};
ghost use Rattle.hek_report.specs.Files.{IsStop};
ghost use Rattle.hek_check_command.specs.Checked.{CheckFails, judged_as, verdict_words};
ghost use Rattle.hek_check_command.specs.Reported.{Begins, IsReportedOn, Reports, end_of_words, front_of};

use crate::faults::{Fault, faults_of};
use crate::judged::Judged;
use crate::verdict::{status_of, transcript_of_text, verdict_of};
use crate::{json, text};
use hek_history_report::{Together, together_of};
use hek_report::{HekFault, Printing, ScheduleFile, schedule_in, send};
use hek_rules::{Level, NoMemory, Schedule, Transcript, Verdict};
use std::alloc::Global;
use std::io::{Read, Write};
use std::str;

/// What is asked for beside the verdict.
#[derive(Clone, Copy, Debug, PartialEq, Eq)]
pub struct Asked {
    /// The level of every transaction, if not each one's own.
    pub level: Option<Level>,
    /// Whether the serial reply of the first event at fault is reported.
    pub why: bool,
    /// Whether it is reported how much is judged, and whether the committed transactions can follow one another.
    pub summary: bool,
    /// Whether each event at fault is reported.
    pub all: bool,
    pub printing: Printing,
}

/// A verdict, and what is reported with it.
#[derive(Clone, Copy)]
pub(crate) struct Reported<'a> {
    pub(crate) schedule: &'a Schedule,
    pub(crate) transcript: &'a Transcript,
    /// The text of the trace.
    pub(crate) text: &'a str,
    pub(crate) asked: Asked,
    pub(crate) verdict: Verdict,
    pub(crate) judged: Judged,
    /// Whether the committed transactions can follow one another, if it is reported how much is judged.
    pub(crate) together: &'a Option<Together>,
    /// The events at fault, as far as they are asked for: none, the first, or all.
    pub(crate) faults: &'a [Fault],
}

/// Writes the verdict on the transcript whose trace, over the schedule in a file, a text is, with what is asked for.
/// Answers the exit status of `check_command`: 1 if the transcript isn't serial.
pub fn reported_command<'a, R: Read + Drop, W: Write>(
    alloc: Global,
    file: ScheduleFile<R>,
    trace: &[u8],
    asked: Asked,
    out: &mut W,
) -> Result<u8, HekFault<'a>>
    ensures { MatchResult result (Reports R.remaining file trace.now asked.level asked.printing asked.summary (W.contents out.old) (W.contents out.new)) (CheckFails R.remaining file trace.now) }
{
    let Ok(text) = str::from_utf8(trace) else {
        return Err(HekFault::NotText);
    };
    let schedule = schedule_in(alloc, file)?;
    let transcript = transcript_of_text(alloc, &schedule, text)?;
    let status = judge(alloc, text, &schedule, &transcript, asked, out)?;
    Ok(status)
}

/// Writes the verdict on the transcript whose trace a text is, with what is asked for. Answers the exit status.
fn judge<'a, W: Write>(
    alloc: Global,
    text: &str,
    schedule: &Schedule,
    transcript: &Transcript,
    asked: Asked,
    out: &mut W,
) -> Result<u8, HekFault<'a>>
    ensures ok { IfOk result (IsReportedOn (judged_as asked.level transcript.now) asked.printing asked.summary (W.contents out.old) (W.contents out.new)) }
    ensures err { IfErr result IsStop }
{
    let verdict = verdict_of(alloc, transcript, asked.level)?;
    write_judged(alloc, text, schedule, transcript, asked, verdict, out)?;
    Ok(status_of(verdict))
}

/// Writes a verdict, and what is reported with it.
fn write_judged<'a, W: Write>(
    alloc: Global,
    text: &str,
    schedule: &Schedule,
    transcript: &Transcript,
    asked: Asked,
    verdict: Verdict,
    out: &mut W,
) -> Result<(), HekFault<'a>>
    ensures ok { OnOk result (Begins (front_of asked.printing asked.summary verdict) (W.contents out.old) (W.contents out.new)) }
    ensures err { IfErr result IsStop }
{
    let mut lines = Vec::new(alloc);
    put_front(asked, verdict, &mut lines)?;
    let rest = rest_of(alloc, text, schedule, transcript, asked, verdict)?;
    append(rest.as_slice(), &mut lines)?;
    send(&mut lines, out)
}

/// Appends bytes.
fn append(rest: &[u8], lines: &mut Vec<u8>) -> Result<(), NoMemory>
    ensures { OnOk result (lines.new.items ≡ lines.old.items ++ rest.now) }
{
    lines.extend_from_slice(rest)?;
    Ok(())
}

/// Appends what the output begins with: as text the words of the verdict, and what ends them.
fn put_front(asked: Asked, verdict: Verdict, lines: &mut Vec<u8>) -> Result<(), NoMemory>
    ensures { OnOk result (lines.new.items ≡ lines.old.items ++ front_of asked.printing asked.summary verdict) }
{
    match asked.printing {
        Printing::Text => put_words_and_end(asked.summary, verdict, lines),
        Printing::Json => Ok(()),
    }
}

fn put_words_and_end(summary: bool, verdict: Verdict, lines: &mut Vec<u8>) -> Result<(), NoMemory>
    ensures { OnOk result (lines.new.items ≡ lines.old.items ++ (verdict_words verdict ++ end_of_words summary ∷ [])) }
{
    put_verdict_words(verdict, lines)?;
    lines.push(end_of_words(summary))?;
    Ok(())
}

/// What ends the words of a verdict: a colon before how much is judged, otherwise the end of the line.
fn end_of_words(summary: bool) -> u8
    ensures { result ≡ end_of_words summary }
{
    if summary { b':' } else { b'\n' }
}

fn put_verdict_words(verdict: Verdict, lines: &mut Vec<u8>) -> Result<(), NoMemory>
    ensures { OnOk result (lines.new.items ≡ lines.old.items ++ verdict_words verdict) }
{
    match verdict {
        Verdict::Serial => {
            lines.extend_from_slice(b"serial")?;
            Ok(())
        }
        Verdict::NotSerial(number) => match write!(lines, "not serial {number}") {
            Ok(()) => Ok(()),
            Err(_) => Err(NoMemory),
        },
    }
}

/// The output behind its front: as text what follows the words of the verdict and their end, as JSON all objects.
fn rest_of(
    alloc: Global,
    text: &str,
    schedule: &Schedule,
    transcript: &Transcript,
    asked: Asked,
    verdict: Verdict,
) -> Result<Vec<u8>, NoMemory> {
    let together = together_asked(alloc, schedule, transcript, asked)?;
    rest_with(alloc, text, schedule, transcript, asked, verdict, &together)
}

/// The output behind its front, given whether the committed transactions can follow one another.
fn rest_with(
    alloc: Global,
    text: &str,
    schedule: &Schedule,
    transcript: &Transcript,
    asked: Asked,
    verdict: Verdict,
    together: &Option<Together>,
) -> Result<Vec<u8>, NoMemory> {
    let faults = faults_asked(alloc, transcript, asked, verdict)?;
    let judged = judged_of(alloc, text)?;
    let reported = Reported {
        schedule,
        transcript,
        text,
        asked,
        verdict,
        judged,
        together,
        faults: faults.as_slice(),
    };
    let mut rest = Vec::new(alloc);
    put_rest(alloc, &reported, &mut rest)?;
    Ok(rest)
}

fn put_rest(alloc: Global, reported: &Reported<'_>, rest: &mut Vec<u8>) -> Result<(), NoMemory> {
    match reported.asked.printing {
        Printing::Text => text::put_rest(alloc, reported, rest),
        Printing::Json => json::put_reported(alloc, reported, rest),
    }
}

/// How much of a trace is judged.
fn judged_of(alloc: Global, text: &str) -> Result<Judged, NoMemory> {
    match Judged::of(alloc, text.as_bytes()) {
        Ok(judged) => Ok(judged),
        // A text has no other fault.
        Err(_) => Err(NoMemory),
    }
}

/// Whether the committed transactions can follow one another, if it is asked for.
fn together_asked(
    alloc: Global,
    schedule: &Schedule,
    transcript: &Transcript,
    asked: Asked,
) -> Result<Option<Together>, NoMemory> {
    if asked.summary {
        Ok(Some(together_of(alloc, schedule, transcript)?))
    } else {
        Ok(None)
    }
}

/// The events at fault, as far as they are asked for.
fn faults_asked(
    alloc: Global,
    transcript: &Transcript,
    asked: Asked,
    verdict: Verdict,
) -> Result<Vec<Fault>, NoMemory> {
    match verdict {
        Verdict::NotSerial(number) if asked.all || asked.why => {
            let first = number.saturating_sub(1) as usize;
            faults_of(alloc, transcript, asked.level, first, asked.all)
        }
        Verdict::Serial | Verdict::NotSerial(_) => Ok(Vec::new(alloc)),
    }
}
