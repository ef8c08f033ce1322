//! The command `check` without options but `--level` and `--why`: the verdict, and the reply that an event at fault would
//! have had.
ghost use Rattle.std.specs.Prelude.{◌≡◌, ◌++◌, ◌∷◌, [], codes, MatchResult, IfOk, IfErr, OnOk};
ghost use Rattle.std.specs.Io.KnownBytes.{Appends};
ghost use Rattle.std.specs.Prelude.{option_copied};
ghost use Rattle.hek_rules.specs.declared.serial.Verdict.TheVariants as verdict;
ghost use Rattle.hek_report.specs.Files.{IsStop};
ghost use Rattle.hek_check_command.specs.Checked.{verdict_text, reply_text, serial_line, why_text, judged_as, Checks, CheckFails, Judges};

use crate::verdict::{serial_at, status_of, transcript_of_text, verdict_of};
use hek_asm::put_reply;
use hek_report::{HekFault, ScheduleFile, schedule_in, send};
use hek_rules::{Level, NoMemory, Reply, Transcript, Verdict};
use std::alloc::Global;
use std::io::{Read, Write};
use std::str;

/// Writes the verdict on the transcript whose trace, over the schedule in a file, a text is; with `why`, also the reply
/// that the event at fault would have had in the serial order. A `level` replaces each transaction's own level. Answers
/// the exit status: 1 if the transcript isn't serial. Bytes that aren't a text are reported before a fault of the file.
pub fn check_command<'a, R: Read + Drop, W: Write>(
    alloc: Global,
    file: ScheduleFile<R>,
    trace: &[u8],
    level: Option<Level>,
    why: bool,
    out: &mut W,
) -> Result<u8, HekFault<'a>>
    ensures { MatchResult result (Checks R.remaining file trace.now level why (W.contents out.old) (W.contents out.new)) (CheckFails R.remaining file trace.now) }
{
    let Ok(trace) = str::from_utf8(trace) else {
        return Err(HekFault::NotText);
    };
    let schedule = schedule_in(alloc, file)?;
    let transcript = transcript_of_text(alloc, &schedule, trace)?;
    let status = judge(alloc, &transcript, level, why, out)?;
    Ok(status)
}

/// Writes the verdict on a transcript and, with `why`, the reply that the event at fault would have had in the serial
/// order. Answers the exit status.
fn judge<'a, W: Write>(
    alloc: Global,
    transcript: &Transcript,
    level: Option<Level>,
    why: bool,
    out: &mut W,
) -> Result<u8, HekFault<'a>>
    ensures ok { IfOk result (Judges (judged_as level transcript.now) why (W.contents out.old) (W.contents out.new)) }
    ensures err { IfErr result IsStop }
{
    let verdict = verdict_of(alloc, transcript, level)?;
    let mut lines = Vec::new(alloc);
    put_verdict(verdict, &mut lines)?;
    put_why(alloc, why, transcript, level, verdict, &mut lines)?;
    send(&mut lines, out)?;
    Ok(status_of(verdict))
}

/// Appends the line of a verdict.
fn put_verdict(verdict: Verdict, lines: &mut Vec<u8>) -> Result<(), NoMemory>
    ensures { OnOk result (lines.new.items ≡ lines.old.items ++ verdict_text verdict) }
{
    match verdict {
        Verdict::Serial => lines.extend_from_slice(b"serial\n")?,
        Verdict::NotSerial(number) => return put_not_serial(number, lines),
    }
    Ok(())
}

fn put_not_serial(number: u64, lines: &mut Vec<u8>) -> Result<(), NoMemory>
    ensures { OnOk result (lines.new.items ≡ lines.old.items ++ verdict_text (verdict.NotSerial number)) }
{
    match writeln!(lines, "not serial {number}") {
        Ok(()) => Ok(()),
        Err(_) => Err(NoMemory),
    }
}

/// Appends the line with the reply that the event at fault would have had in the serial order, if `why` is set.
fn put_why(
    alloc: Global,
    why: bool,
    transcript: &Transcript,
    level: Option<Level>,
    verdict: Verdict,
    lines: &mut Vec<u8>,
) -> Result<(), NoMemory>
    ensures { OnOk result (lines.new.items ≡ lines.old.items ++ why_text why (judged_as level transcript.now) verdict) }
{
    match verdict {
        Verdict::NotSerial(number) if why => {
            put_serial_line(alloc, transcript, level, number, lines)
        }
        Verdict::Serial | Verdict::NotSerial(_) => Ok(()),
    }
}

/// Appends the line with the reply that the event with this number would have had in the serial order.
fn put_serial_line(
    alloc: Global,
    transcript: &Transcript,
    level: Option<Level>,
    number: u64,
    lines: &mut Vec<u8>,
) -> Result<(), NoMemory>
    ensures { OnOk result (lines.new.items ≡ lines.old.items ++ serial_line (judged_as level transcript.now) number) }
{
    let place = number.saturating_sub(1) as usize;
    let reply = serial_at(alloc, transcript, level, place)?;
    lines.extend_from_slice(b"serial reply: ")?;
    put_serial_reply(reply.as_ref(), lines)?;
    lines.push(b'\n')?;
    Ok(())
}

/// Appends a reply of the serial order, or `none`.
pub(crate) fn put_serial_reply(reply: Option<&Reply>, lines: &mut Vec<u8>) -> Result<(), NoMemory>
    ensures { OnOk result (lines.new.items ≡ lines.old.items ++ reply_text (option_copied reply.entry)) }
{
    match reply {
        Some(reply) => put_reply(reply, lines),
        None => {
            lines.extend_from_slice(b"none")?;
            Ok(())
        }
    }
}
