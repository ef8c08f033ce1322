//! The first line of a text that cannot appear there in any trace.
ghost use Rattle.std.specs.Prelude.{◌≡◌, IfOk, IfSome};

use crate::diagnostic::{Diagnostic, diagnose};
use crate::finding::{Finding, Hint};
use crate::looks::contains;
use crate::numbers::{Role, is_digits};
use crate::place::{line_at, part};
use crate::reply::judge_reply;
use crate::sentence::Sentence;
use crate::step::{missing, too_many, unknown_event, wanting_form};
use crate::token::{Tokens, trace_number};
use crate::words::Word;
use hek_rules::{EventKind, NoMemory, Schedule, TxnId, next_line, next_word, number, same_bytes};
use std::alloc::Global;

/// The words with which lines of a state begin.
const STATE: &[&str] = &["clock", "version", "txn", "bucket"];

/// What is wrong with the line of this number of a text that should be a trace over a schedule, as `read_trace` says; `name`
/// is that of the file. None if the text has no such line.
pub fn explain_trace<'t>(
    alloc: Global,
    name: &'t str,
    schedule: &'t Schedule,
    text: &'t [u8],
    line: u64,
) -> Result<Option<Diagnostic<'t>>, NoMemory>
    ensures { IfOk result (λ found. IfSome found (λ d. d.place.number ≡ line)) }
{
    let Some(place) = line_at(text, line) else {
        return Ok(None);
    };
    let names = names_of(alloc, schedule)?;
    let finding = match schedule_for_trace(text, place.line, line) {
        Some(finding) => finding,
        None => judge(schedule, place.line, line, is_cut(text, line)),
    };
    let names = names.as_slice();
    let found = diagnose(alloc, name, names, names, place, finding)?;
    if found.place.number != line {
        return Ok(None);
    }
    Ok(Some(found))
}

/// A schedule with comments or empty lines before it, where a trace is read.
fn schedule_for_trace<'t>(text: &[u8], line: &'t [u8], number: u64) -> Option<Finding<'t>> {
    if number != 1 || next_word(line).is_some() || !is_schedule(text) {
        return None;
    }
    let form = "this looks like a schedule, and a trace is wanted here";
    let front = Word::new(part(line, 0, 1), 0);
    Some(wanting_event(Finding::at(front, form), number))
}

/// Whether the first word of a text is `buckets`.
fn is_schedule(text: &[u8]) -> bool {
    let mut rest = text;
    for _ in 0..u64::MAX {
        let Some((line, after)) = next_line(rest) else {
            return false;
        };
        if let Some((word, _)) = next_word(line) {
            return same_bytes(word, b"buckets");
        }
        rest = after;
    }
    false
}

/// The names of a schedule's transactions.
pub(crate) fn names_of<'t>(
    alloc: Global,
    schedule: &'t Schedule,
) -> Result<Vec<&'t [u8]>, NoMemory> {
    let mut names = Vec::new(alloc);
    for place in 0..schedule.txn_count() {
        let name = schedule.name_of(TxnId::new(place as u64 + 1));
        names.push(name.as_bytes())?;
    }
    Ok(names)
}

/// Whether the line of this number is the last of a text that doesn't end with the end of a line.
fn is_cut(text: &[u8], line: u64) -> bool {
    !text.ends_with(b"\n") && line_at(text, line.saturating_add(2)).is_none()
}

/// What is wrong with a line.
fn judge<'t>(schedule: &Schedule, line: &'t [u8], number: u64, is_cut: bool) -> Finding<'t> {
    let mut tokens = Tokens::new(line);
    if let Some(finding) = not_an_event(line, number) {
        return finding;
    }
    if let [.., b'\r'] = line {
        return returned(line);
    }
    let end = Word::new(b"", line.len());
    match judge_words(schedule, &mut tokens, number) {
        Err(finding) if is_cut && finding.end >= line.len() => {
            let mut finding = finding;
            finding.sentence = Sentence::new("the trace ends inside its last line", b"");
            finding
        }
        Err(finding) => finding,
        Ok(last) if is_cut => Finding::at(end, "the last line has no line feed after &")
            .with_other(last.text)
            .wanting("a line feed, which ends each line"),
        Ok(_) => wanting_event(Finding::at(end, "no trace has this line here"), number),
    }
}

/// A line that ends with a carriage return.
fn returned(line: &[u8]) -> Finding<'_> {
    let start = line.len().saturating_sub(1);
    let found = Word::new(part(line, start, line.len()), start);
    Finding::at(
        found,
        "the line ends with a carriage return and a line feed",
    )
    .wanting("a line feed right after the reply")
    .with_instead("tr -d '\\r'")
}

/// A line that is no event: of other output, of a schedule, a comment, or an empty one.
fn not_an_event<'t>(line: &'t [u8], number: u64) -> Option<Finding<'t>> {
    let front = Word::new(part(line, 0, 2), 0);
    if front.is("  ") {
        let form = if contains(line, b" -> ") {
            "this is a change of `--changes`, and a trace has none"
        } else {
            "this is a reason of `--why`, and a trace has none"
        };
        let finding = Finding::at(front, form).with_instead("grep -v '^  '");
        return Some(wanting_event(finding, number));
    }
    if line.is_empty() {
        return Some(wanting_event(Finding::at(front, "the line is empty"), number));
    }
    if line.starts_with(b"#") {
        let mark = Word::new(part(line, 0, 1), 0);
        let form = "the line begins with @, and a trace has no comments";
        return Some(wanting_event(Finding::at(mark, form), number));
    }
    other_line(Tokens::new(line).next(), number)
}

/// A line whose first word is that of a state or of a schedule.
fn other_line<'t>(first: Word<'t>, number: u64) -> Option<Finding<'t>> {
    if first.is("buckets") && number == 1 {
        let form = "this looks like a schedule, and a trace is wanted here";
        return Some(wanting_event(Finding::at(first, form), number));
    }
    if !first.is_one_of(STATE) || number == 1 {
        return None;
    }
    let form = "this is a line of `--state`, and a trace has none";
    Some(Finding::at(first, form).wanting_number(
        "the line of event $, or the end of the trace",
        number,
    ))
}

fn wanting_event<'t>(finding: Finding<'t>, number: u64) -> Finding<'t> {
    finding.wanting_number("the line of event $, which begins with `$ `", number)
}

/// What is wrong with the words of a line; otherwise its last word.
fn judge_words<'t>(
    schedule: &Schedule,
    tokens: &mut Tokens<'t>,
    number: u64,
) -> Result<Word<'t>, Finding<'t>> {
    judge_number(tokens, number)?;
    let kind = judge_event(schedule, tokens)?;
    judge_operands(schedule, tokens, kind)?;
    judge_reply(tokens)
}

/// The number at the front of a line.
fn judge_number<'t>(tokens: &mut Tokens<'t>, wanted: u64) -> Result<(), Finding<'t>> {
    let word = tokens.word("the line is empty")?;
    if is_digits(word.text) && word.text.starts_with(b"0") && word.text.len() > 1 {
        return Err(no_event_number(word, "the number @ begins with a zero", wanted).hinting(
            Hint::Count(wanted),
        ));
    }
    match number(word.text) {
        Some(found) if found == wanted => Ok(()),
        Some(_) if wanted == 1 => Err(no_event_number(
            word,
            "the first event has number @",
            wanted,
        ).hinting(Hint::Count(wanted))),
        Some(_) => Err(no_event_number(word, "the event after $ has number @", wanted).hinting(
            Hint::Count(wanted),
        )),
        None => {
            let form = "the line begins with @, and the number of its event is wanted before it";
            Err(no_event_number(word, form, wanted))
        }
    }
}

fn no_event_number<'t>(word: Word<'t>, form: &'static str, wanted: u64) -> Finding<'t> {
    Finding::at(word, form)
        .with_number(wanted.saturating_sub(1))
        .wanting_number("the number of the event: `$`", wanted)
}

/// The transaction and the event of a line.
fn judge_event<'t>(schedule: &Schedule, tokens: &mut Tokens<'t>) -> Result<EventKind, Finding<'t>> {
    let name = tokens.word("the line ends where a transaction is wanted")?;
    if name.is("detect") {
        return Ok(EventKind::Detect);
    }
    if schedule.id_of(name.text).is_none() {
        return Err(Finding::at(name, "the schedule declares no transaction @").wanting_names());
    }
    let event = tokens.word("the line ends where an event is wanted")?;
    match EventKind::named(event.text) {
        Some(EventKind::Detect) => Err(Finding::at(event, "@ has no transaction before it").wanting(
            "`detect` alone",
        )),
        Some(kind) => Ok(kind),
        None => Err(unknown_event(event, false)),
    }
}

/// The operands of an event, and the arrow after them.
fn judge_operands<'t>(
    schedule: &Schedule,
    tokens: &mut Tokens<'t>,
    kind: EventKind,
) -> Result<(), Finding<'t>> {
    for place in 0..kind.operand_count() {
        let word = tokens.word("the line ends where an operand is wanted")?;
        if word.is("->") {
            let event = Word::new(kind.word().as_bytes(), word.start);
            let mut finding = Finding::at(event, missing(kind));
            finding.end = word.end();
            return Err(wanting_form(finding, kind, schedule.buckets()));
        }
        let role = match place {
            0 if kind.is_scan() => Role::Other,
            0 => Role::Key,
            _ => Role::Value,
        };
        trace_number(word, role)?;
    }
    judge_arrow(tokens, kind)
}

fn judge_arrow<'t>(tokens: &mut Tokens<'t>, kind: EventKind) -> Result<(), Finding<'t>> {
    let word = tokens.word("the line ends where an arrow is wanted")?;
    if word.is("->") {
        return Ok(());
    }
    if is_digits(word.text) {
        return Err(
            Finding::at(word, too_many(kind))
                .with_other(kind.word().as_bytes())
                .wanting("->"),
        );
    }
    if is_like_arrow(word.text) {
        return Err(
            Finding::at(word, "there is @ where an arrow is wanted")
                .wanting("->")
                .hinting(Hint::Word("->")),
        );
    }
    Err(Finding::at(word, "there is no arrow before @").wanting("->"))
}

/// Whether no byte is a letter or a digit, or the word begins as an arrow.
fn is_like_arrow(word: &[u8]) -> bool {
    !word.iter().any(|byte| byte.is_ascii_alphanumeric())
}
