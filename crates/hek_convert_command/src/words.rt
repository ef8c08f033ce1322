//! What words say as Begin words and as End words.
use crate::bounds::Bounds;
use crate::objects::put_word;
use crate::release::hex_number;
use hek_report::{HekFault, INPUT, Lines, Printing, buffered, read_fault, send_lines};
use hek_rules::{Time, TxnId};
use hek_word::{BeginWord, EndWord};
use std::alloc::Global;
use std::io::{BufRead, ErrorKind, Read, Write};

/// Decodes words of 16 hexadecimal digits, and in place of `-` those of the input, one on each line. Writes a line for
/// each. Answers the exit status: 1 if any was not a word, or not one of a machine with these bounds.
pub fn word_command<'a, I: Read + Drop, W: Write>(
    alloc: Global,
    words: &[&'a str],
    bounds: Bounds,
    input: I,
    printing: Printing,
    out: &mut W,
) -> Result<u8, HekFault<'a>> {
    if !words
        .iter()
        .all(|word| *word == INPUT || hex_number(word).is_some())
    {
        return Err(HekFault::BadArgument);
    }
    let mut lines = buffered(alloc, input)?;
    let mut are_words = true;
    for word in words {
        if *word == INPUT {
            are_words &= word_lines(alloc, &mut lines, bounds, printing, out)?;
        } else {
            are_words &= put_line(alloc, word, bounds, printing, out)?;
        }
    }
    Ok(if are_words { 0 } else { 1 })
}

/// Decodes each line, without the blanks around it. A blank line is skipped.
fn word_lines<'a, B: BufRead, W: Write>(
    alloc: Global,
    lines: &mut B,
    bounds: Bounds,
    printing: Printing,
    out: &mut W,
) -> Result<bool, HekFault<'a>> {
    let mut are_words = true;
    for line in lines.lines(alloc) {
        let line = line.map_err(|error| line_fault(error.kind()))?;
        let word = line.as_str().trim();
        if !word.is_empty() {
            are_words &= put_line(alloc, word, bounds, printing, out)?;
        }
    }
    Ok(are_words)
}

/// Why a line of the input can't be read.
pub(crate) fn line_fault<'a>(kind: ErrorKind) -> HekFault<'a> {
    match kind {
        ErrorKind::InvalidData => HekFault::NotText,
        kind => read_fault(kind, INPUT),
    }
}

/// What a number says as a Begin word and as an End word, and which bounds it is past.
#[derive(Clone, Copy)]
pub(crate) struct Said {
    pub(crate) begin: Option<BeginWord>,
    pub(crate) end: Option<EndWord>,
    pub(crate) past_clock: bool,
    pub(crate) past_txns: bool,
    pub(crate) past_readers: bool,
}

impl Said {
    /// Whether it is a word within the bounds.
    fn is_word(self) -> bool {
        let is_word = self.begin.is_some() || self.end.is_some();
        is_word && !self.past_clock && !self.past_txns && !self.past_readers
    }
}

/// What a text says as a word of a machine with these bounds.
fn said_of(word: &str, bounds: Bounds) -> Said {
    let (begin, end) = words_in(word);
    Said {
        begin,
        end,
        past_clock: is_past_clock(word, bounds),
        past_txns: is_past_txns(word, bounds),
        past_readers: is_past_readers(word, bounds),
    }
}

/// The Begin word and the End word that a word can be.
fn words_in(word: &str) -> (Option<BeginWord>, Option<EndWord>) {
    match hex_number(word) {
        Some(number) => (BeginWord::read(number), EndWord::read(number)),
        None => (None, None),
    }
}

fn is_past_clock(word: &str, bounds: Bounds) -> bool {
    let (begin, end) = words_in(word);
    bounds.is_past_clock(time_of(begin, end))
}

fn is_past_txns(word: &str, bounds: Bounds) -> bool {
    let (begin, end) = words_in(word);
    bounds.is_past_txns(txn_of(begin, end))
}

fn is_past_readers(word: &str, bounds: Bounds) -> bool {
    let (_begin, end) = words_in(word);
    match end {
        Some(end) => bounds.is_past_readers(end.readers()),
        None => false,
    }
}

/// Writes what a word is as a Begin word and as an End word, and each bound that it is past. Answers whether it is a word
/// within the bounds.
fn put_line<'a, W: Write>(
    alloc: Global,
    word: &str,
    bounds: Bounds,
    printing: Printing,
    out: &mut W,
) -> Result<bool, HekFault<'a>> {
    let is_word = said_of(word, bounds).is_word();
    let said = said_of(word, bounds);
    match printing {
        Printing::Text => put_text(said, out)?,
        Printing::Json => {
            let mut lines = Lines::new(alloc);
            put_word(word, said, &mut lines);
            send_lines(&mut lines, out)?;
        }
    }
    Ok(is_word)
}

/// Writes the line of a word.
fn put_text<'a, W: Write>(said: Said, out: &mut W) -> Result<(), HekFault<'a>> {
    let written = match (said.begin, said.end) {
        (Some(begin), Some(end)) => write!(out, "{begin}; {end}"),
        (Some(begin), None) => write!(out, "{begin}"),
        (None, Some(end)) => write!(out, "{end}"),
        (None, None) => write!(out, "not a word"),
    };
    written.map_err(|_| HekFault::CannotWrite)?;
    put_limit(said.past_clock, "clock", out)?;
    put_limit(said.past_txns, "transactions", out)?;
    put_limit(said.past_readers, "readers", out)?;
    writeln!(out).map_err(|_| HekFault::CannotWrite)
}

/// The time that a number holds as a word; as both words it is one time.
fn time_of(begin: Option<BeginWord>, end: Option<EndWord>) -> Option<Time> {
    match (begin, end) {
        (Some(begin), _) => begin.time(),
        (None, Some(end)) => end.time(),
        (None, None) => None,
    }
}

/// The transaction that a number names as a word; as both words it is one transaction.
fn txn_of(begin: Option<BeginWord>, end: Option<EndWord>) -> Option<TxnId> {
    match (begin, end) {
        (Some(begin), _) => begin.txn(),
        (None, Some(end)) => end.writer(),
        (None, None) => None,
    }
}

fn put_limit<'a, W: Write>(is_past: bool, name: &str, out: &mut W) -> Result<(), HekFault<'a>> {
    if is_past {
        write!(out, "; past the {name}").map_err(|_| HekFault::CannotWrite)?;
    }
    Ok(())
}
