//! The verdict on a trace at the level that is asked for, and the replies of the serial order.
ghost use Rattle.std.specs.Prelude.{◌≡◌, MatchResult, IfOk, slice_get};
ghost use Rattle.hek_rules.specs.Faults.{IsVerdict};
ghost use Rattle.hek_asm.specs.Reading.{IsTraceOf};
ghost use Rattle.hek_serial.specs.Explained.{reply_at};
ghost use Rattle.hek_check_command.specs.Checked.{TraceTextFails, judged_as, verdict_status};

use hek_asm::read_trace;
use hek_report::HekFault;
use hek_rules::{Level, NoMemory, Reply, Schedule, Transcript, Verdict};
use hek_serial::{check, check_at, serial_reply, serial_reply_at};
use std::alloc::Global;

/// The transcript over a schedule whose trace a text is.
pub(crate) fn transcript_of_text<'a>(
    alloc: Global,
    schedule: &Schedule,
    text: &str,
) -> Result<Transcript, HekFault<'a>>
    ensures { MatchResult result (λ reported. IsTraceOf schedule.now reported text.now) (TraceTextFails schedule.now text.now) }
{
    match read_trace(alloc, schedule, text) {
        Ok(transcript) => Ok(transcript),
        Err(fault) => Err(HekFault::from(fault)),
    }
}

/// The verdict with `level` as the level of every transaction, or with each one's own level.
pub(crate) fn verdict_of(
    alloc: Global,
    transcript: &Transcript,
    level: Option<Level>,
) -> Result<Verdict, NoMemory>
    ensures { IfOk result (λ verdict. IsVerdict (judged_as level transcript.now) verdict) }
{
    match level {
        None => check(alloc, transcript),
        Some(level) => check_at(alloc, transcript, level),
    }
}

/// The exit status of a verdict.
pub(crate) fn status_of(verdict: Verdict) -> u8
    ensures { result ≡ verdict_status verdict }
{
    match verdict {
        Verdict::Serial => 0,
        Verdict::NotSerial(_) => 1,
    }
}

/// The reply that the event at a place would have had in the serial order, if there is one.
pub(crate) fn serial_at(
    alloc: Global,
    transcript: &Transcript,
    level: Option<Level>,
    place: usize,
) -> Result<Option<Reply>, NoMemory>
    ensures { IfOk result (λ reply. reply ≡ reply_at (judged_as level transcript.now) place (slice_get (judged_as level transcript.now).history place)) }
{
    match level {
        None => serial_reply(alloc, transcript, place),
        Some(level) => serial_reply_at(alloc, transcript, level, place),
    }
}
