//! What is wrong with a line of a schedule text, after what the lines before it have said.
use crate::choice::Choice;
use crate::finding::{Finding, Hint};
use crate::foreign::not_ascii;
use crate::known::{Known, Row};
use crate::looks::other_input;
use crate::names::{NAME, RESERVED, no_name};
use crate::nearest::nearest_word;
use crate::numbers::{Role, has_byte, no_number};
use crate::place::part;
use crate::sentence::Listed;
use crate::step::{judge_detect, judge_step, starts_as_comment};
use crate::synonym::meaning_level;
use crate::vocabulary::Vocabulary;
use crate::words::{Word, read_words};
use hek_rules::{EventKind, Level, MAX_BUCKETS, NoMemory, name_ok, number};
use std::alloc::Global;
use std::str;

/// What is wrong with a line, if something is. The room of `words` is used again.
pub(crate) fn judge<'t>(
    known: &mut Known<'t>,
    words: &mut Vec<Word<'t>>,
    line: &'t [u8],
    at: u64,
) -> Result<Option<Finding<'t>>, NoMemory> {
    read_words(line, words)?;
    if let Some((name, line)) = known.pending.take() {
        known.declare(name, line)?;
    }
    if let Some(finding) = not_ascii(known, words.as_slice(), line) {
        return Ok(Some(finding));
    }
    let [first, rest @ ..] = words.as_slice() else {
        return Ok(None);
    };
    if known.head == 0 {
        known.head = at;
        return Ok(judge_head(known, *first, rest, line));
    }
    judge_body(known, *first, rest, line, at)
}

/// The first line with words, which gives the number of buckets.
fn judge_head<'t>(
    known: &mut Known<'t>,
    first: Word<'t>,
    rest: &[Word<'t>],
    line: &'t [u8],
) -> Option<Finding<'t>> {
    if !first.is("buckets") {
        known.is_over = true;
        return Some(no_buckets(first, line));
    }
    match rest {
        [] => Some(Finding::at(first, "@ wants a number after it").wanting(BUCKETS)),
        [count] => judge_buckets(known, *count),
        [count, more, ..] => {
            let form = if has_byte(part(line, count.end(), more.start), b'\r') {
                "`buckets` takes one number, and a carriage return does not end its line"
            } else if count.text == more.text {
                "`buckets` takes one number, and the second @ is one word too many"
            } else {
                "`buckets` takes one number, and @ is one word too many"
            };
            Some(Finding::at(*more, form).wanting(BUCKETS))
        }
    }
}

/// The form of the first line.
const BUCKETS: &str = "`buckets N`, N from 1 to 1024";

fn judge_buckets<'t>(known: &mut Known<'t>, count: Word<'t>) -> Option<Finding<'t>> {
    let form = match number(count.text) {
        None => return Some(no_number(count, Role::Other).wanting("a number from 1 to 1024")),
        Some(0) => "@ buckets are too few",
        Some(buckets) if buckets > MAX_BUCKETS => "@ buckets are too many",
        Some(buckets) => {
            known.buckets = buckets;
            return None;
        }
    };
    Some(Finding::at(count, form).wanting("a number from 1 to 1024"))
}

/// The words with which a text may begin.
const HEAD: Vocabulary = Vocabulary::These(&["buckets"]);

/// A text whose first line doesn't give the number of buckets.
fn no_buckets<'t>(first: Word<'t>, line: &'t [u8]) -> Finding<'t> {
    if let Some(finding) = other_input(first, line) {
        return finding;
    }
    let form = if HEAD.has_but_for_capitals(first.text) {
        "the text begins with @: words are in lower case"
    } else if starts_as_comment(first.text) {
        "the text begins with @, and a comment begins with `#`"
    } else {
        "the text begins with @, and its first line gives the number of buckets"
    };
    let mut finding = Finding::at(first, form)
        .wanting("buckets")
        .hinting(Hint::Among(HEAD));
    finding.is_plain = first.is_one_of(RESERVED);
    finding
}

/// A line after the first with words.
fn judge_body<'t>(
    known: &mut Known<'t>,
    first: Word<'t>,
    rest: &[Word<'t>],
    line: &'t [u8],
    at: u64,
) -> Result<Option<Finding<'t>>, NoMemory> {
    if first.is("buckets") {
        return Ok(Some(
            Finding::at(first, "@ is given twice, first in line $")
                .with_number(known.head)
                .wanting("`row`, `txn`, a step or `detect`"),
        ));
    }
    if first.is("row") {
        return judge_row(known, first, rest, at);
    }
    if first.is("txn") {
        return judge_txn(known, first, rest, at);
    }
    if first.is("detect") {
        return Ok(judge_detect(known, first, rest, at));
    }
    if starts_as_comment(first.text) {
        return Ok(Some(foreign_comment(first)));
    }
    if is_misspelled(known.alloc, known, first, rest) {
        return Ok(Some(misspelled(known, first, rest, at)));
    }
    Ok(judge_step(known, first, rest, line, at))
}

/// A line that is a comment of another language.
pub(crate) fn foreign_comment(first: Word<'_>) -> Finding<'_> {
    let form = "no line begins with @: a comment begins with `#`";
    Finding::at(first, form)
        .wanting_starts()
        .hinting(Hint::None)
}

/// One more than the rows and the transactions that a schedule can have.
const TOO_MANY_ROWS: u64 = 65_537;

const TOO_MANY_TXNS: u64 = 1_025;

/// What the words after `row` are.
const ROW: &str = "`row KEY VALUE`";

fn judge_row<'t>(
    known: &mut Known<'t>,
    first: Word<'t>,
    rest: &[Word<'t>],
    at: u64,
) -> Result<Option<Finding<'t>>, NoMemory> {
    let (key, value) = match rest {
        [key, value] => (*key, *value),
        [_, _, more, ..] => {
            let form = if starts_as_comment(more.text) {
                "`row` takes a key and a value, and a comment begins with `#`"
            } else {
                "`row` takes a key and a value, and @ is one word too many"
            };
            return Ok(Some(Finding::at(*more, form).wanting(ROW)));
        }
        _ => {
            return Ok(Some(Finding::at(first, "@ wants a key and a value after it").wanting(ROW)));
        }
    };
    if let Some(finding) = late_row(known, first) {
        return Ok(Some(finding));
    }
    if let Some(finding) = judge_key(known, key, at)? {
        return Ok(Some(finding));
    }
    if number(value.text).is_none() {
        return Ok(Some(no_number(value, Role::Value)));
    }
    known.rows = known.rows.saturating_add(1);
    if known.rows == TOO_MANY_ROWS {
        let form = "this @ is one more than the 65536 rows a schedule can have";
        return Ok(Some(Finding::at(first, form).wanting("at most 65536 rows")));
    }
    Ok(None)
}

/// A row after a transaction or a step.
fn late_row<'t>(known: &Known<'t>, first: Word<'t>) -> Option<Finding<'t>> {
    let wanted = if known.first_step == 0 {
        "`txn`, a step or `detect`"
    } else {
        STEP
    };
    if known.first_txn > 0 {
        let form = "@ comes too late: rows are before the first transaction, which is in line $";
        return Some(
            Finding::at(first, form)
                .with_number(known.first_txn)
                .wanting(wanted),
        );
    }
    if known.first_step > 0 {
        let form = "@ comes too late: rows are before the first step, which is in line $";
        return Some(
            Finding::at(first, form)
                .with_number(known.first_step)
                .wanting(wanted),
        );
    }
    None
}

/// What lines are after the first step.
const STEP: &str = "a step or `detect`";

/// The key of a row, which is noted.
fn judge_key<'t>(
    known: &mut Known<'t>,
    key: Word<'t>,
    at: u64,
) -> Result<Option<Finding<'t>>, NoMemory> {
    let Some(value) = number(key.text) else {
        return Ok(Some(no_number(key, Role::Key)));
    };
    let Some(row) = known.row_of_key(value) else {
        let row = Row {
            line: at,
            key: key.text,
        };
        known.load(value, row)?;
        return Ok(None);
    };
    let form = if row.key == key.text {
        "the key @ is loaded twice, first in line $"
    } else {
        "the key @ is loaded twice, first in line $ as &"
    };
    Ok(Some(
        Finding::at(key, form)
            .with_number(row.line)
            .with_other(row.key)
            .wanting("a key that no other row has"),
    ))
}

/// What the words after `txn` are, with the levels as `^`.
const TXN: &str = "`txn NAME LEVEL`, the level ^";

fn wanting_txn(finding: Finding<'_>) -> Finding<'_> {
    finding.wanting_listed(TXN, Listed::OneOf(Choice::Levels))
}

fn judge_txn<'t>(
    known: &mut Known<'t>,
    first: Word<'t>,
    rest: &[Word<'t>],
    at: u64,
) -> Result<Option<Finding<'t>>, NoMemory> {
    let before = match rest {
        [name, ..] => known.line_of_name(name.text),
        [] => None,
    };
    declare(known, rest, at)?;
    let (name, level) = match rest {
        [name, level] => (*name, *level),
        [_, level, more, ..] => return Ok(Some(more_than_level(*level, *more))),
        _ => {
            let form = "@ wants a name and a level after it";
            return Ok(Some(wanting_txn(Finding::at(first, form))));
        }
    };
    if known.first_step > 0 {
        let form = "@ comes too late: transactions are before the first step, which is in line $";
        return Ok(Some(
            Finding::at(first, form)
                .with_number(known.first_step)
                .wanting(STEP),
        ));
    }
    if known.first_txn == 0 {
        known.first_txn = at;
    }
    Ok(judge_name_and_level(known, first, name, level, before))
}

/// What is wrong with a word after a level.
fn more_than_level<'t>(level: Word<'t>, more: Word<'t>) -> Finding<'t> {
    if starts_as_comment(more.text) {
        let form = "`txn` takes a name and a level, and a comment begins with `#`";
        return wanting_txn(Finding::at(more, form));
    }
    let form = "`txn` takes a name and a level, and @ is one word too many";
    let finding = wanting_txn(Finding::at(more, form));
    if Level::named(level.text).is_some() {
        return finding;
    }
    meaning_level(finding, level.text, Hint::None)
}

/// Notes the name of a transaction.
fn declare<'t>(known: &mut Known<'t>, rest: &[Word<'t>], at: u64) -> Result<(), NoMemory> {
    match rest {
        [name, ..] if name_ok(name.text) => known.declare(name.text, at),
        _ => Ok(()),
    }
}

/// The two words after `txn`; `before` is the line that declared the name before.
fn judge_name_and_level<'t>(
    known: &mut Known<'t>,
    first: Word<'t>,
    name: Word<'t>,
    level: Word<'t>,
    before: Option<u64>,
) -> Option<Finding<'t>> {
    if !name_ok(name.text) {
        return Some(no_name(name));
    }
    if Level::named(level.text).is_none() {
        return Some(no_level(level));
    }
    if let Some(line) = before {
        let form = "@ is declared twice, first in line $";
        return Some(
            Finding::at(name, form)
                .with_number(line)
                .wanting("a name that no other transaction has"),
        );
    }
    known.txns = known.txns.saturating_add(1);
    if known.txns == TOO_MANY_TXNS {
        let form = "this @ is one more than the 1024 transactions a schedule can have";
        return Some(Finding::at(first, form).wanting("at most 1024 transactions"));
    }
    None
}

fn no_level(level: Word<'_>) -> Finding<'_> {
    let form = if Vocabulary::Levels.has_but_for_capitals(level.text) {
        "no level is called @: levels are in lower case"
    } else {
        "no level is called @"
    };
    let finding = Finding::at(level, form).wanting_words(Vocabulary::Levels);
    meaning_level(finding, level.text, Hint::Among(Vocabulary::Levels))
}

/// The words that a line may begin with besides a name.
const STARTS: &[&str] = &["row", "txn", "detect"];

/// Whether a line begins with a mistyped `row`, `txn` or `detect`, or with no known word and nothing after it.
pub(crate) fn is_misspelled<'t>(
    alloc: Global,
    known: &Known<'t>,
    first: Word<'t>,
    rest: &[Word<'t>],
) -> bool {
    if known.has_name(first.text) {
        return false;
    }
    match rest {
        [] => true,
        [event, ..] if EventKind::named(event.text).is_some() => false,
        _ => meant_start(alloc, first).is_some(),
    }
}

/// The word with which a line may begin that a mistyped one means.
fn meant_start(alloc: Global, first: Word<'_>) -> Option<&'static str> {
    let text = str::from_utf8(first.text).ok()?;
    nearest_word(alloc, text, STARTS)
}

/// A line that begins with a mistyped word. One that means `txn` still declares its name.
pub(crate) fn misspelled<'t>(
    known: &mut Known<'t>,
    first: Word<'t>,
    rest: &[Word<'t>],
    at: u64,
) -> Finding<'t> {
    if meant_start(known.alloc, first) == Some("txn") {
        known.pending = match rest {
            [name, ..] if name_ok(name.text) => Some((name.text, at)),
            _ => None,
        };
    }
    let form = if Vocabulary::These(STARTS).has_but_for_capitals(first.text) {
        "no line begins with @: words are in lower case"
    } else {
        "no line begins with @"
    };
    Finding::at(first, form).wanting_starts()
}

/// What is wanted at a word of a line, by the line's first word and the place of the word.
pub(crate) fn wanted_at<'t>(finding: Finding<'t>, first: Word<'t>, place: usize) -> Finding<'t> {
    if first.is("txn") && place == 1 {
        return finding.wanting(NAME);
    }
    if first.is("txn") && place > 1 {
        return finding.wanting_words(Vocabulary::Levels);
    }
    if first.is("row") || place > 1 {
        return finding.wanting(crate::numbers::NUMBER);
    }
    if first.is("buckets") && place == 1 {
        return finding.wanting("a number from 1 to 1024");
    }
    finding
}
