//! The lines of a text that only a program has, and the schedule text that is left without what they compute.
use crate::fault::ProgramFault;
use hek_rules::{EventKind, next_line, next_word, same_bytes};
use std::alloc::Global;

/// What a line is to a program.
#[derive(Clone, Copy, Debug, PartialEq, Eq)]
pub(crate) enum Sort {
    /// A line without words, or of buckets, a row or a transaction.
    Head,
    /// A step that is its event.
    Plain,
    /// A step with a term, and no condition.
    Term,
    /// A step with a condition.
    Condition,
    /// An invariant.
    Always,
}

/// Whether a byte stands only in a term or a condition.
fn is_sign(byte: u8) -> bool {
    matches!(byte, b'@' | b'+' | b'-' | b'*' | b'=' | b'<' | b'>' | b'!')
}

/// Whether such a byte stands before the comment.
fn has_sign(line: &[u8]) -> bool {
    for byte in line {
        if *byte == b'#' {
            return false;
        }
        if is_sign(*byte) {
            return true;
        }
    }
    false
}

/// Whether a later word of a step, given what follows its event, is `if`.
fn has_if(rest: &[u8]) -> bool {
    let mut rest = rest;
    for _ in 0..rest.len() {
        let Some((word, later)) = next_word(rest) else {
            return false;
        };
        if same_bytes(word, b"if") {
            return true;
        }
        rest = later;
    }
    false
}

/// Whether a step computes something, by its first word and what follows it.
fn step_sort(first: &[u8], rest: &[u8]) -> Sort {
    let Some((word, later)) = next_word(rest) else {
        return Sort::Plain;
    };
    if same_bytes(first, b"always") && EventKind::named(word).is_none() {
        return Sort::Always;
    }
    if has_if(later) {
        Sort::Condition
    } else if has_sign(later) {
        Sort::Term
    } else {
        Sort::Plain
    }
}

/// What a line is to a program.
pub(crate) fn sort_of(line: &[u8]) -> Sort {
    let Some((first, rest)) = next_word(line) else {
        return Sort::Head;
    };
    if same_bytes(first, b"buckets") || same_bytes(first, b"row") || same_bytes(first, b"txn") {
        return Sort::Head;
    }
    step_sort(first, rest)
}

/// A line that a program has and a schedule hasn't.
#[derive(Clone, Copy, Debug, PartialEq, Eq)]
pub struct ComputedLine {
    /// Its number, from 1.
    pub number: u64,
    /// What it has, in words.
    pub what: &'static str,
}

/// What a line of this sort has, if no schedule has it.
fn what_of(sort: Sort) -> Option<&'static str> {
    match sort {
        Sort::Term => Some("a value that is computed"),
        Sort::Condition => Some("a condition"),
        Sort::Always => Some("an invariant"),
        Sort::Head | Sort::Plain => None,
    }
}

/// The first line that computes something, or is an invariant; none if a text has no such line, as a schedule hasn't.
pub fn computed_line(text: &str) -> Option<ComputedLine> {
    let mut number: u64 = 0;
    let mut rest = text.as_bytes();
    for _ in 0..text.len() {
        let (line, later) = next_line(rest)?;
        number = number.saturating_add(1);
        rest = later;
        if let Some(what) = what_of(sort_of(line)) {
            return Some(ComputedLine { number, what });
        }
    }
    None
}

/// Appends a step without what it computes: with the value 0, and without a condition.
fn put_step(text: &mut Vec<u8>, line: &[u8]) -> Result<(), ProgramFault> {
    let Some((name, rest)) = next_word(line) else {
        return Ok(());
    };
    text.extend_from_slice(name)?;
    let Some((word, rest)) = next_word(rest) else {
        return Ok(());
    };
    text.push(b' ')?;
    text.extend_from_slice(word)?;
    let operands = match EventKind::named(word) {
        Some(kind) => kind.operand_count(),
        None => 0,
    };
    put_operands(text, rest, operands)
}

/// Appends the first operand, and 0 as the second, of those that a step has.
fn put_operands(text: &mut Vec<u8>, rest: &[u8], operands: usize) -> Result<(), ProgramFault> {
    if operands == 0 {
        return Ok(());
    }
    let Some((key, _)) = next_word(rest) else {
        return Ok(());
    };
    text.push(b' ')?;
    text.extend_from_slice(key)?;
    if operands > 1 {
        text.extend_from_slice(b" 0")?;
    }
    Ok(())
}

/// Appends a line without what it computes.
fn put_line(text: &mut Vec<u8>, line: &[u8]) -> Result<(), ProgramFault> {
    match sort_of(line) {
        Sort::Head | Sort::Plain => text.extend_from_slice(line)?,
        Sort::Term | Sort::Condition => put_step(text, line)?,
        Sort::Always => {}
    }
    text.push(b'\n')?;
    Ok(())
}

/// The text without what its lines compute, with a line for each line: a schedule's, if the text is a program's.
pub fn bare_text(alloc: Global, text: &str) -> Result<Vec<u8>, ProgramFault> {
    let mut bare = Vec::new(alloc);
    let mut rest = text.as_bytes();
    for _ in 0..text.len() {
        let Some((line, later)) = next_line(rest) else {
            return Ok(bare);
        };
        put_line(&mut bare, line)?;
        rest = later;
    }
    Ok(bare)
}
