//! A line that drives a machine: an event, written as a step of a schedule text.
ghost use Rattle.std.specs.Prelude.{◌≡◌, length, map, IfOk, IfSome};
ghost use Rattle.hek_rules.specs.Plan.{IsStep};

use hek_asm::AsmKind;
use hek_rules::{Event, EventKind, Schedule, next_word, number};

/// Whether a character that is not ASCII occurs outside the comment.
fn has_foreign(line: &[u8]) -> bool {
    for byte in line {
        if *byte == b'#' {
            return false;
        }
        if *byte >= 128 {
            return true;
        }
    }
    false
}

fn number_of(word: &[u8]) -> Result<u64, AsmKind> {
    number(word).ok_or(AsmKind::BadNumber)
}

/// The event on a line, None if the line has no words, or the line's fault.
pub fn read_event(schedule: &Schedule, line: &[u8]) -> Result<Option<Event>, AsmKind>
    ensures { IfOk result (λ event. IfSome event (IsStep schedule.now.buckets (length schedule.now.txns))) }
{
    if has_foreign(line) {
        return Err(AsmKind::NotAscii);
    }
    let Some((first, rest)) = next_word(line) else {
        return Ok(None);
    };
    if first == b"detect".as_slice() {
        return match next_word(rest) {
            None => Ok(Some(Event::Detect)),
            Some(_) => Err(AsmKind::BadWord),
        };
    }
    if is_other(first) {
        return Err(AsmKind::BadWord);
    }
    let event = event_of(schedule, first, rest)?;
    Ok(Some(event))
}

/// Whether a word begins a line of a schedule that comes before its steps.
fn is_other(word: &[u8]) -> bool {
    word == b"buckets".as_slice() || word == b"row".as_slice() || word == b"txn".as_slice()
}

/// The event of the transaction with this name, by the words after the name.
fn event_of(schedule: &Schedule, name: &[u8], rest: &[u8]) -> Result<Event, AsmKind>
    ensures { IfOk result (IsStep schedule.now.buckets (length schedule.now.txns)) }
{
    let buckets = schedule.buckets();
    let (word, rest) = next_word(rest).ok_or(AsmKind::BadWord)?;
    let kind = EventKind::named(word).ok_or(AsmKind::BadWord)?;
    if kind == EventKind::Detect || count_words(rest) != kind.operand_count() {
        return Err(AsmKind::BadWord);
    }
    let txn = schedule.id_of(name).ok_or(AsmKind::UnknownName)?;
    let (first, second) = operands(rest)?;
    if kind == EventKind::Scan && first >= buckets {
        return Err(AsmKind::BadBucket);
    }
    Ok(kind.event(txn, first, second))
}

/// How many words a line has left.
fn count_words(line: &[u8]) -> usize {
    let mut rest = line;
    let mut count = 0usize;
    while let Some((_, after)) = next_word(rest) {
        count = count.saturating_add(1);
        rest = after;
    }
    count
}

/// The numbers of at most two operands, 0 for each that is missing.
fn operands(line: &[u8]) -> Result<(u64, u64), AsmKind> {
    let Some((first, rest)) = next_word(line) else {
        return Ok((0, 0));
    };
    let first = number_of(first)?;
    match next_word(rest) {
        None => Ok((first, 0)),
        Some((second, _)) => Ok((first, number_of(second)?)),
    }
}
