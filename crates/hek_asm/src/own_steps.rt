//! Lines of a run of the schedule itself: the step of such a line is the schedule's own step of the line's number, so
//! its words are not read, only compared with the text. All other lines are read by their words.
ghost use Rattle.std.specs.Prelude.{◌≡◌, ◌++◌, List, ℕ, length, IfOk, IfSome, MatchOption};
ghost use Rattle.hek_rules.specs.Plan.{IsStep};
ghost use Rattle.hek_asm.specs.Reading.{is_small, IsFront, IsLineRest};
ghost use Rattle.hek_asm.specs.Trace.{NamesDeclared, line_front, line_rest};

use crate::likely::{form_by_letters, form_by_second, likely_reply, plain_reply};
use crate::line::read_words;
use crate::piece::{front_pieces, rest_pieces};
use crate::writing::put_pieces;
use hek_rules::{Event, NoMemory, Reply, ReplyForm, Schedule, next_line};
use std::alloc::Global;

// The schedule's step of this number, counted from 1, if there is one.
fn own_step(schedule: &Schedule, number: u64) -> Option<Event>
    ensures { IfSome result (λ e. IsStep schedule.now.buckets (length schedule.now.txns) e) }
{
    let _buckets = schedule.buckets();
    let steps = schedule.steps();
    if number == 0 || number > steps.len() as u64 {
        return None;
    }
    Some(steps[(number - 1) as usize])
}

/// The text after a front, if it begins with it.
pub(crate) fn without_front<'t>(text: &'t [u8], front: &[u8]) -> Option<&'t [u8]>
    ensures { MatchOption result ((after : List ℕ) → text.now ≡ front.now ++ after → ⊥) (λ after. text.now ≡ front.now ++ after.now) }
{
    text.strip_prefix(front)
}

// The text after the number, the step and the arrow, if it begins with them. None says nothing about the text.
fn behind_front<'t>(
    schedule: &Schedule,
    number: u64,
    event: &Event,
    scratch: &mut Vec<u8>,
    text: &'t [u8],
) -> Result<Option<&'t [u8]>, NoMemory>
    requires { NamesDeclared (length schedule.now.txns) event.now }
    ensures { IfOk result (λ o. IfSome o (λ after. text.now ≡ line_front schedule.now number event.now ++ after.now)) }
{
    scratch.clear();
    put_pieces(front_pieces(schedule, number, event).as_slice(), scratch)?;
    Ok(without_front(text, scratch.as_slice()))
}

// The text after the reply and the line's end, if it begins with them. None says nothing about the text.
fn behind_rest<'t>(
    reply: &Reply,
    scratch: &mut Vec<u8>,
    text: &'t [u8],
) -> Result<Option<&'t [u8]>, NoMemory>
    ensures { IfOk result (λ o. IfSome o (λ after. text.now ≡ line_rest reply.now ++ after.now)) }
{
    scratch.clear();
    put_pieces(rest_pieces(reply).as_slice(), scratch)?;
    Ok(without_front(text, scratch.as_slice()))
}

// The number that the digits after the words of a form write, or its last 64 bits.
fn number_behind(form: ReplyForm, text: &[u8]) -> u64
    ensures { is_small result }
{
    let front = form.text().len() + 1;
    let mut value = 0u64;
    for byte in text.split_at(front.min(text.len())).1 {
        if !byte.is_ascii_digit() {
            return value;
        }
        value = value.wrapping_mul(10).wrapping_add(u64::from(*byte - b'0'));
    }
    value
}

// The form that the letters of a text tell.
fn form_of_text(text: &[u8]) -> Option<ReplyForm> {
    let form = form_by_letters(text)?;
    match text.get(form.first_word().len() + 1) {
        Some(letter) => Some(form_by_second(form, *letter)),
        None => Some(form),
    }
}

// Whether a form has at most one operand, and that a number; or often has no more.
fn is_plain(form: ReplyForm) -> bool {
    !matches!(
        form,
        ReplyForm::Rows | ReplyForm::Victim | ReplyForm::Aborted | ReplyForm::Refused
    )
}

// The reply by its first letters, and the text after the line, if the text begins so. None says nothing about the text.
fn rest_by_letters<'t>(
    scratch: &mut Vec<u8>,
    text: &'t [u8],
) -> Result<Option<(Reply, &'t [u8])>, NoMemory>
    ensures { IfOk result (λ o. IfSome o (λ x. IsLineRest x.0 text.now x.1.now)) }
{
    let Some(form) = form_of_text(text) else {
        return Ok(None);
    };
    if !is_plain(form) {
        return Ok(None);
    }
    let reply = plain_reply(form, number_behind(form, text));
    let Some(after) = behind_rest(&reply, scratch, text)? else {
        return Ok(None);
    };
    Ok(Some((reply, after)))
}

// The reply that the words of the line's rest give, and the text after the line. None says nothing about the text.
fn rest_by_words<'t>(
    alloc: Global,
    words: &mut Vec<&'t [u8]>,
    scratch: &mut Vec<u8>,
    text: &'t [u8],
) -> Result<Option<(Reply, &'t [u8])>, NoMemory>
    ensures { IfOk result (λ o. IfSome o (λ x. IsLineRest x.0 text.now x.1.now)) }
{
    let Some((line, _)) = next_line(text) else {
        return Ok(None);
    };
    read_words(line, words)?;
    let reply = likely_reply(alloc, words.as_slice())?;
    let Some(after) = behind_rest(&reply, scratch, text)? else {
        return Ok(None);
    };
    Ok(Some((reply, after)))
}

// The reply after an arrow, and the text after the line. None says nothing about the text.
fn likely_rest<'t>(
    alloc: Global,
    words: &mut Vec<&'t [u8]>,
    scratch: &mut Vec<u8>,
    text: &'t [u8],
) -> Result<Option<(Reply, &'t [u8])>, NoMemory>
    ensures { IfOk result (λ o. IfSome o (λ x. IsLineRest x.0 text.now x.1.now)) }
{
    if let Some(rest) = rest_by_letters(scratch, text)? {
        return Ok(Some(rest));
    }
    rest_by_words(alloc, words, scratch, text)
}

/// The event and the reply of a text's first line, and the text after it, if the event is the schedule's step of the
/// line's number. None says nothing about the text. The room of `words` and of `scratch` is used again.
pub(crate) fn entry_by_step<'t>(
    alloc: Global,
    schedule: &Schedule,
    words: &mut Vec<&'t [u8]>,
    scratch: &mut Vec<u8>,
    number: u64,
    text: &'t [u8],
) -> Result<Option<(Event, Reply, &'t [u8])>, NoMemory>
    ensures { IfOk result (λ o. IfSome o (λ x. IsFront schedule.now number (x.0, x.1) text.now x.2.now)) }
{
    let _buckets = schedule.buckets();
    let Some(event) = own_step(schedule, number) else {
        return Ok(None);
    };
    let Some(rest) = behind_front(schedule, number, &event, scratch, text)? else {
        return Ok(None);
    };
    let Some((reply, after)) = likely_rest(alloc, words, scratch, rest)? else {
        return Ok(None);
    };
    Ok(Some((event, reply, after)))
}
