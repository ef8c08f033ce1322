//! The words of the steps and of the invariants of a program, as its text has them.
use crate::comments::is_declaration;
use crate::made::joined;
use hek_report::ScheduleFile;
use hek_rules::{EventKind, NoMemory};
use std::alloc::Global;
use std::io::Read;
use std::str;

/// The word with which an invariant begins.
const ALWAYS: &str = "always";

/// What a line of a program is.
#[derive(Clone, Copy, PartialEq, Eq)]
enum Sort {
    /// A line without words, or of buckets, a row or a transaction.
    Other,
    Step,
    Invariant,
}

/// What a line with these words is: a transaction may be called `always`.
fn sort_of(words: &str) -> Sort {
    let mut words = words.split_whitespace();
    let Some(first) = words.next() else {
        return Sort::Other;
    };
    if is_declaration(first) {
        return Sort::Other;
    }
    let second = words.next().unwrap_or("");
    if first == ALWAYS && EventKind::named(second.as_bytes()).is_none() {
        Sort::Invariant
    } else {
        Sort::Step
    }
}

/// Whether a line with these words is a step.
pub(crate) fn is_step(words: &str) -> bool {
    sort_of(words) == Sort::Step
}

/// The words of a line, without its comment.
fn words_of(line: &str) -> &str {
    match line.split_once('#') {
        Some((words, _)) => words,
        None => line,
    }
}

/// The text of a file; an image has none.
fn text_in<R: Read + Drop>(file: &ScheduleFile<R>) -> &str {
    match file {
        ScheduleFile::Text(bytes) => str::from_utf8(bytes.as_slice()).unwrap_or(""),
        ScheduleFile::Image(_) => "",
    }
}

/// The words of each step after the name of its transaction, with one space between them; none of an image.
pub(crate) fn step_texts<R: Read + Drop>(
    alloc: Global,
    file: &ScheduleFile<R>,
) -> Result<Vec<String>, NoMemory> {
    let mut texts = Vec::new(alloc);
    for line in text_in(file).lines() {
        let words = words_of(line);
        if is_step(words) {
            texts.push(without_first(alloc, words)?)?;
        }
    }
    Ok(texts)
}

/// Words without the first, with one space between them.
fn without_first(alloc: Global, words: &str) -> Result<String, NoMemory> {
    match words
        .trim_start()
        .split_once(|letter: char| letter.is_whitespace())
    {
        Some((_, rest)) => joined(alloc, rest),
        None => Ok(String::new(alloc)),
    }
}

/// Whether a letter stands in what is computed alone.
fn is_sign(letter: char) -> bool {
    matches!(letter, '@' | '+' | '-' | '*')
}

/// Whether the word at a place of a step begins what is computed: its value, or its condition.
fn is_computed(place: usize, word: &str) -> bool {
    place > 1 && (word == "if" || word.contains(is_sign))
}

/// The words of a step before what is computed, with one space between them, and whether something is.
pub(crate) fn plain_start(alloc: Global, words: &str) -> Result<(String, bool), NoMemory> {
    let mut start = String::new(alloc);
    for (place, word) in words.split_whitespace().enumerate() {
        if is_computed(place, word) {
            return Ok((start, true));
        }
        if !start.is_empty() {
            start.push(' ')?;
        }
        start.push_str(word)?;
    }
    Ok((start, false))
}

/// Adds the invariants to a text, each with its line, after a space if there are some.
pub(crate) fn add_invariants<R: Read + Drop>(
    alloc: Global,
    file: &ScheduleFile<R>,
    text: &mut String,
) -> Result<(), NoMemory> {
    let mut number: u64 = 0;
    for line in text_in(file).lines() {
        number = number.saturating_add(1);
        let words = words_of(line);
        if sort_of(words) == Sort::Invariant {
            add_invariant(alloc, number, words, text)?;
        }
    }
    Ok(())
}

/// Adds the invariant of a line to a text.
fn add_invariant(
    alloc: Global,
    number: u64,
    words: &str,
    text: &mut String,
) -> Result<(), NoMemory> {
    if !text.is_empty() {
        text.push(' ')?;
    }
    let words = joined(alloc, words)?;
    let line = format!(in alloc; "Line {number}: {words}.")?;
    text.push_str(line.as_str())?;
    Ok(())
}
