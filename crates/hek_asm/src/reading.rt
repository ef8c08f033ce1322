//! Traces read back, line by line.
ghost use Rattle.std.specs.Prelude.{◌≡◌, ◌++◌, List, ℕ, length, IfOk, IfSome, MatchOption, MatchResult};
ghost use Rattle.hek_rules.specs.Text.{words_of};
ghost use Rattle.hek_asm.specs.Likely.{likely_entry};
ghost use Rattle.hek_asm.specs.Reading.{HasNoLine, IsFront, IsTraceOf, TraceFails};
ghost use Rattle.hek_asm.specs.Trace.{NamesDeclared, trace_line};

use crate::fault::TraceFault;
use crate::likely::{behind, likely_event, likely_reply, step_len};
use crate::line::read_words;
use crate::own_steps::{entry_by_step, without_front};
use crate::trace::put_line;
use hek_rules::{Event, NoMemory, Reply, Schedule, Transcript, next_line};
use std::alloc::Global;

// The only event and reply that a line can be of, if there is one. The room of `words` is used again.
#[tactic(auto, unfolding(crate::specs::Likely::likely_entry))]
fn likely_entry<'t>(
    alloc: Global,
    schedule: &Schedule,
    words: &mut Vec<&'t [u8]>,
    line: &'t [u8],
) -> Result<Option<(Event, Reply)>, NoMemory>
    ensures value { IfOk result (λ o. o ≡ likely_entry schedule.now (words_of line.now)) }
    ensures declared { IfOk result (λ o. IfSome o (λ x. NamesDeclared (length schedule.now.txns) x.0)) }
{
    read_words(line, words)?;
    let [_, rest @ ..] = words.as_slice() else {
        return Ok(None);
    };
    let Some(event) = likely_event(schedule, rest) else {
        return Ok(None);
    };
    let step = event;
    let reply = likely_reply(alloc, behind(rest, step_len(&step) + 1))?;
    Ok(Some((event, reply)))
}

// The text after the line of an event and a reply, if it begins with that line. The room of `scratch` is used again.
fn behind_line<'t>(
    schedule: &Schedule,
    number: u64,
    event: &Event,
    reply: &Reply,
    scratch: &mut Vec<u8>,
    text: &'t [u8],
) -> Result<Option<&'t [u8]>, NoMemory>
    requires { NamesDeclared (length schedule.now.txns) event.now }
    ensures { IfOk result (λ o. let line = trace_line schedule.now number event.now reply.now in MatchOption o ((after : List ℕ) → text.now ≡ line ++ after → ⊥) (λ after. text.now ≡ line ++ after.now)) }
{
    scratch.clear();
    put_line(schedule, number, event, reply, scratch)?;
    Ok(without_front(text, scratch.as_slice()))
}

// The event and the reply of a text's first line, by its words, and the text after it.
fn entry_by_words<'t>(
    alloc: Global,
    schedule: &Schedule,
    words: &mut Vec<&'t [u8]>,
    scratch: &mut Vec<u8>,
    number: u64,
    text: &'t [u8],
) -> Result<Option<(Event, Reply, &'t [u8])>, NoMemory>
    ensures { IfOk result (λ o. MatchOption o (HasNoLine schedule.now number text.now) (λ x. IsFront schedule.now number (x.0, x.1) text.now x.2.now)) }
{
    let _buckets = schedule.buckets();
    let Some((line, _)) = next_line(text) else {
        return Ok(None);
    };
    let Some((event, reply)) = likely_entry(alloc, schedule, words, line)? else {
        return Ok(None);
    };
    let step = event;
    match behind_line(schedule, number, &step, &reply, scratch, text)? {
        None => Ok(None),
        Some(after) => Ok(Some((event, reply, after))),
    }
}

// The event and the reply of a text's first line, which has this number, and the text after it.
fn next_entry<'t>(
    alloc: Global,
    schedule: &Schedule,
    words: &mut Vec<&'t [u8]>,
    scratch: &mut Vec<u8>,
    number: u64,
    text: &'t [u8],
) -> Result<Option<(Event, Reply, &'t [u8])>, NoMemory>
    ensures { IfOk result (λ o. MatchOption o (HasNoLine schedule.now number text.now) (λ x. IsFront schedule.now number (x.0, x.1) text.now x.2.now)) }
{
    if let Some(entry) = entry_by_step(alloc, schedule, words, scratch, number, text)? {
        return Ok(Some(entry));
    }
    entry_by_words(alloc, schedule, words, scratch, number, text)
}

/// The transcript over the schedule's rows and levels whose trace, with the schedule's names, the text is; otherwise
/// the first line that no such trace has there. A last line without LF is at fault.
pub fn read_trace(alloc: Global, schedule: &Schedule, text: &str) -> Result<Transcript, TraceFault>
    ensures { MatchResult result (λ told. IsTraceOf schedule.now told text.now) (TraceFails schedule.now text.now) }
{
    let mut transcript = Transcript::new(alloc, schedule)?;
    let mut rest = text.as_bytes();
    let mut number = 0u64;
    let mut words = Vec::new(alloc);
    let mut scratch = Vec::new(alloc);
    while !rest.is_empty() {
        number += 1;
        let Some((event, reply, after)) = next_entry(
            alloc,
            schedule,
            &mut words,
            &mut scratch,
            number,
            rest,
        )?
        else {
            return Err(TraceFault::Line(number));
        };
        transcript.push(event, reply)?;
        rest = after;
    }
    Ok(transcript)
}
