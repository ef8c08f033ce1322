//! What is wrong with a line that is to be an event, where each line is answered by itself, as `hek drive` answers it.
use crate::diagnostic::Diagnostic;
use crate::finding::{Finding, Hint};
use crate::foreign::not_ascii;
use crate::known::Known;
use crate::line::{foreign_comment, is_misspelled, misspelled};
use crate::numbers::is_digits;
use crate::place::line_at;
use crate::schedule::diagnosed;
use crate::step::{judge_detect, judge_step, starts_as_comment};
use crate::words::{Word, read_words};
use hek_rules::{EventKind, NoMemory, Schedule};
use std::alloc::Global;

/// The words that begin the lines of a schedule before its steps.
const BEFORE_STEPS: &[&str] = &["buckets", "row", "txn"];

/// The words that end a session elsewhere.
const ENDS: &[&str] = &["exit", "quit", "q", "bye"];

/// The words with which a line of the debugger begins.
const DEBUGGER: &[&str] = &[
    "step", "run", "back", "goto", "break", "watch", "show", "list", "why", "changes",
];

/// What is wrong with a line that is no event of a schedule's transactions; `name` is that of the input, and `number` that
/// of the line in it. None if nothing is.
pub fn explain_event<'t>(
    alloc: Global,
    name: &'t str,
    schedule: &'t Schedule,
    line: &'t [u8],
    number: u64,
) -> Result<Option<Diagnostic<'t>>, NoMemory> {
    let Some(place) = line_at(line, 1) else {
        return Ok(None);
    };
    let mut known = Known::of(alloc, schedule)?;
    let mut words = Vec::new(alloc);
    read_words(line, &mut words)?;
    let Some(finding) = judge_event(&mut known, words.as_slice(), line) else {
        return Ok(None);
    };
    let mut found = diagnosed(&known, name, place, finding)?;
    found.number = number;
    Ok(Some(found))
}

/// What is wrong with a line that is no event, if something is.
fn judge_event<'t>(
    known: &mut Known<'t>,
    words: &[Word<'t>],
    line: &'t [u8],
) -> Option<Finding<'t>> {
    if let Some(finding) = not_ascii(known, words, line) {
        return Some(finding);
    }
    let [first, rest @ ..] = words else {
        return None;
    };
    if first.is("detect") {
        return judge_detect(known, *first, rest, 1);
    }
    if !known.has_name(first.text) {
        if let Some(finding) = no_event_line(*first) {
            return Some(finding);
        }
    }
    if starts_as_comment(first.text) {
        return Some(foreign_comment(*first));
    }
    if is_misspelled(known.alloc, known, *first, rest) {
        return Some(misspelled(known, *first, rest, 1));
    }
    if let Some(finding) = without_name(known, *first, rest) {
        return Some(finding);
    }
    judge_step(known, *first, rest, line, 1)
}

/// A line that begins with no name, and whose second word is no event.
fn without_name<'t>(known: &Known<'t>, first: Word<'t>, rest: &[Word<'t>]) -> Option<Finding<'t>> {
    let [second, ..] = rest else {
        return None;
    };
    if known.has_name(first.text) || EventKind::named(second.text).is_some() {
        return None;
    }
    let form = if EventKind::named(first.text).is_some() {
        "no transaction is before @: a line is a transaction, then its event"
    } else {
        "no transaction is called @: a line is a transaction, then its event"
    };
    Some(Finding::at(first, form).wanting_names())
}

/// A line that begins with a word of a schedule's other lines, of the debugger, or of the end of a session.
fn no_event_line(first: Word<'_>) -> Option<Finding<'_>> {
    if first.is_one_of(BEFORE_STEPS) {
        let form = "@ is no event: rows and transactions are those of FILE";
        return Some(wanting_event(Finding::at(first, form)));
    }
    if is_digits(first.text) {
        let form = "the line begins with the number @, and an event has none before it";
        return Some(wanting_event(Finding::at(first, form)));
    }
    if first.is_one_of(ENDS) {
        let finding = wanting_event(Finding::at(first, "no line begins with @"));
        return Some(finding.with_instead("Ctrl-D ends the input"));
    }
    if first.is_one_of(DEBUGGER) {
        let finding = wanting_event(Finding::at(first, "no line begins with @"));
        return Some(finding.with_instead("`hek debug FILE` has this command of the debugger"));
    }
    None
}

fn wanting_event(finding: Finding<'_>) -> Finding<'_> {
    finding.wanting_starts().hinting(Hint::None)
}
