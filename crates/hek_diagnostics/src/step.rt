//! What is wrong with a step of a schedule text.
use crate::finding::{Finding, Hint};
use crate::known::Known;
use crate::numbers::{Role, has_byte, no_number};
use crate::place::part;
use crate::sentence::Listed;
use crate::synonym::meaning_event;
use crate::vocabulary::Vocabulary;
use crate::words::Word;
use hek_rules::{EventKind, number};

/// One more than the steps that a schedule can have.
const TOO_MANY_STEPS: u64 = 1_000_001;

/// A line `detect`.
pub(crate) fn judge_detect<'t>(
    known: &mut Known<'t>,
    first: Word<'t>,
    rest: &[Word<'t>],
    at: u64,
) -> Option<Finding<'t>> {
    note_step(known, at);
    match rest {
        [] => one_too_many(known, first),
        [more, ..] => Some(Finding::at(
            *more,
            "`detect` takes nothing after it, and @ is one word too many",
        )
        .wanting(DETECT)),
    }
}

/// What a line with `detect` is.
const DETECT: &str = "a line with `detect` alone";

/// Notes the line of the first step.
fn note_step(known: &mut Known<'_>, at: u64) {
    if known.first_step == 0 {
        known.first_step = at;
    }
}

/// A step, which is counted, past the most that a schedule can have.
fn one_too_many<'t>(known: &mut Known<'t>, first: Word<'t>) -> Option<Finding<'t>> {
    known.steps = known.steps.saturating_add(1);
    if known.steps != TOO_MANY_STEPS {
        return None;
    }
    let form = if first.is("detect") {
        "this @ is one more than the 1000000 steps a schedule can have"
    } else {
        "this step of @ is one more than the 1000000 steps a schedule can have"
    };
    Some(Finding::at(first, form).wanting("at most 1000000 steps"))
}

/// A line of a step, by its first word and the words after it.
pub(crate) fn judge_step<'t>(
    known: &mut Known<'t>,
    first: Word<'t>,
    rest: &[Word<'t>],
    line: &'t [u8],
    at: u64,
) -> Option<Finding<'t>> {
    note_step(known, at);
    let [event, operands @ ..] = rest else {
        let listed = Listed::Words(Vocabulary::Events);
        return Some(Finding::at(first, "@ has no event after it").wanting_listed(
            "an event after the name: ^",
            listed,
        ));
    };
    let Some(kind) = EventKind::named(event.text) else {
        return Some(no_event(known, first, *event));
    };
    if kind.is_detect() {
        return Some(Finding::at(*event, "@ has no transaction before it").wanting(DETECT));
    }
    if let Some(finding) = judge_count(known.buckets, *event, kind, operands, line) {
        return Some(finding);
    }
    if !known.has_name(first.text) {
        return Some(no_txn(known, first));
    }
    if let Some(finding) = judge_operands(known.buckets, kind, operands) {
        return Some(finding);
    }
    one_too_many(known, first)
}

/// A word that names no event.
fn no_event<'t>(known: &Known<'t>, first: Word<'t>, event: Word<'t>) -> Finding<'t> {
    let is_turned = Vocabulary::Events.has(first.text) && known.has_name(event.text);
    unknown_event(event, is_turned)
}

/// A word that names no event; `is_turned` where the event is before its transaction.
pub(crate) fn unknown_event(event: Word<'_>, is_turned: bool) -> Finding<'_> {
    let form = if Vocabulary::Events.has_but_for_capitals(event.text) {
        "no event is called @: events are in lower case"
    } else if is_in_brackets(event.text) {
        "no event is called @: its operand is a separate word"
    } else if has_byte(event.text, 0x0C) {
        "no event is called @: a form feed does not part words"
    } else if is_turned {
        "no event is called @: a step is its transaction, then its event"
    } else {
        "no event is called @"
    };
    let finding = Finding::at(event, form).wanting_words(Vocabulary::Events);
    meaning_event(finding, event.text, Hint::Among(Vocabulary::Events))
}

/// Whether an event comes first in a word, and a bracket after it.
fn is_in_brackets(word: &[u8]) -> bool {
    for (place, byte) in word.iter().enumerate() {
        if *byte == b'(' {
            return Vocabulary::Events.has(part(word, 0, place));
        }
    }
    false
}

/// A name that no transaction has.
fn no_txn<'t>(known: &Known<'t>, name: Word<'t>) -> Finding<'t> {
    if known.list.is_empty() {
        let form = "no transaction is declared, and @ is used here";
        return Finding::at(name, form).wanting("a `txn` line before the first step");
    }
    let form = if known.has_capitals_of_name(name) {
        "no transaction is called @: names are in lower case"
    } else {
        "no transaction is called @"
    };
    Finding::at(name, form).wanting_names()
}

/// The words after an event, if there are too few or too many.
fn judge_count<'t>(
    buckets: u64,
    event: Word<'t>,
    kind: EventKind,
    operands: &[Word<'t>],
    line: &'t [u8],
) -> Option<Finding<'t>> {
    let count = kind.operand_count();
    if operands.len() < count {
        return Some(wanting_form(Finding::at(event, missing(kind)), kind, buckets));
    }
    let more = operands.get(count)?;
    let is_comment = starts_as_comment(part(line, more.start, line.len()));
    let form = if is_comment {
        with_comment(kind)
    } else {
        too_many(kind)
    };
    let finding = Finding::at(*more, form).with_other(event.text);
    Some(wanting_form(finding, kind, buckets))
}

/// What is said of a comment of another language after an event. The event is `&`.
fn with_comment(kind: EventKind) -> &'static str {
    if kind.is_scan() {
        return "& takes one bucket, and a comment begins with `#`";
    }
    match kind.operand_count() {
        0 => "& takes nothing after it, and a comment begins with `#`",
        1 => "& takes one key, and a comment begins with `#`",
        _ => "& takes a key and a value, and a comment begins with `#`",
    }
}

/// Whether the bytes begin as a comment of another language.
pub(crate) fn starts_as_comment(bytes: &[u8]) -> bool {
    bytes.starts_with(b"//") || bytes.starts_with(b"--") || bytes.starts_with(b";")
}

/// What an event lacks whose operands are too few.
pub(crate) fn missing(kind: EventKind) -> &'static str {
    if kind.is_scan() {
        return "@ wants a bucket after it";
    }
    if kind.operand_count() == 2 {
        return "@ wants a key and a value after it";
    }
    "@ wants a key after it"
}

/// What an event takes whose operands are too many. The event is `&`.
pub(crate) fn too_many(kind: EventKind) -> &'static str {
    if kind.is_scan() {
        return "& takes one bucket, and @ is one word too many";
    }
    match kind.operand_count() {
        0 => "& takes nothing after it, and @ is one word too many",
        1 => "& takes one key, and @ is one word too many",
        _ => "& takes a key and a value, and @ is one word too many",
    }
}

/// Adds the form of a kind of event.
pub(crate) fn wanting_form(finding: Finding<'_>, kind: EventKind, buckets: u64) -> Finding<'_> {
    if kind.is_scan() && buckets > 0 {
        return finding.wanting_number("`scan BUCKET`, the bucket from 0 to $", buckets - 1);
    }
    finding.wanting_listed(form_of(kind), Listed::Word(kind.word()))
}

/// The form of a kind of event, in which `^` stands for its word.
fn form_of(kind: EventKind) -> &'static str {
    if kind.is_detect() {
        return DETECT;
    }
    if kind.is_scan() {
        return "`^ BUCKET`";
    }
    match kind.operand_count() {
        0 => "`^` alone",
        1 => "`^ KEY`",
        _ => "`^ KEY VALUE`",
    }
}

/// The operands of an event, of which there are as many as it takes.
fn judge_operands<'t>(buckets: u64, kind: EventKind, operands: &[Word<'t>]) -> Option<Finding<'t>> {
    let first = operands.first()?;
    let role = if kind.is_scan() {
        Role::Other
    } else {
        Role::Key
    };
    let Some(bucket) = number(first.text) else {
        return Some(no_number(*first, role));
    };
    if kind.is_scan() {
        return judge_bucket(buckets, *first, bucket);
    }
    let value = operands.get(1)?;
    match number(value.text) {
        Some(_) => None,
        None => Some(no_number(*value, Role::Value)),
    }
}

/// The bucket of a scan. Without a known number of buckets none is judged.
fn judge_bucket(buckets: u64, word: Word<'_>, bucket: u64) -> Option<Finding<'_>> {
    if bucket < buckets || buckets == 0 {
        return None;
    }
    let last = buckets - 1;
    let finding = match buckets {
        1 => {
            let form = "there is no bucket @: the only bucket is 0";
            return Some(Finding::at(word, form).wanting("the bucket 0"));
        }
        2 => Finding::at(word, "there is no bucket @: the 2 buckets are 0 and 1"),
        _ => Finding::at(word, "there is no bucket @: the $ buckets are 0 to %"),
    };
    Some(
        finding
            .with_number(buckets)
            .with_more(last)
            .wanting_number("a bucket from 0 to $", last),
    )
}
