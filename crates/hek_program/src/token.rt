//! The tokens of a line.
use crate::condition::Relation;
use crate::fault::{ProgramFault, Wanted};
use hek_rules::{Schedule, number, same_bytes};
use std::alloc::Global;

/// What a token is. Words that are neither `if`, `and` nor the name of a transaction are not told apart.
#[derive(Clone, Copy, Debug, PartialEq, Eq)]
pub(crate) enum Kind {
    Number(u64),
    Key(u64),
    /// The name of the transaction with this number.
    Name(u64),
    If,
    And,
    Word,
    Plus,
    Minus,
    Times,
    Relation(Relation),
    /// What begins no token, or no number that fits.
    Strange(Wanted),
}

/// A token, and the column at which it begins, from 1.
#[derive(Clone, Copy, Debug, PartialEq, Eq)]
pub(crate) struct Token {
    pub kind: Kind,
    pub column: u64,
}

/// A line's number, its tokens, and the column behind it.
#[derive(Clone, Copy)]
pub(crate) struct Line<'t> {
    pub number: u64,
    pub tokens: &'t [Token],
    pub end: u64,
}

impl Line<'_> {
    /// The kind of the token at a place, if there is one.
    pub(crate) fn kind(&self, at: usize) -> Option<Kind> {
        match self.tokens.get(at) {
            Some(token) => Some(token.kind),
            None => None,
        }
    }

    /// Whether the token at a place is of this kind.
    pub(crate) fn is(&self, at: usize, kind: Kind) -> bool {
        match self.tokens.get(at) {
            Some(token) => token.kind == kind,
            None => false,
        }
    }

    /// The fault of the token at a place, or of the end of the line. Of a token that is strange it is what that wants.
    pub(crate) fn wants(&self, at: usize, wanted: Wanted) -> ProgramFault {
        match self.tokens.get(at) {
            Some(token) => self.fault(token.column, strange_or(token.kind, wanted)),
            None => self.fault(self.end, wanted),
        }
    }

    fn fault(&self, column: u64, wanted: Wanted) -> ProgramFault {
        ProgramFault::At {
            line: self.number,
            column,
            wanted,
        }
    }
}

fn strange_or(kind: Kind, wanted: Wanted) -> Wanted {
    match kind {
        Kind::Strange(own) => own,
        _ => wanted,
    }
}

/// Whether a byte may stand in a word or a number.
fn is_word_byte(byte: u8) -> bool {
    byte.is_ascii_lowercase() || byte.is_ascii_digit() || byte == b'_'
}

/// How many bytes of words and numbers are at the front.
fn run_len(text: &[u8]) -> usize {
    for (i, byte) in text.iter().enumerate() {
        if !is_word_byte(*byte) {
            return i;
        }
    }
    text.len()
}

/// The bytes of a word or a number at the front.
fn run_of(text: &[u8]) -> &[u8] {
    match text.get(..run_len(text)) {
        Some(run) => run,
        None => text,
    }
}

/// The token that a word or a number is.
fn word_kind(schedule: &Schedule, word: &[u8]) -> Kind {
    let [first, ..] = word else {
        return Kind::Strange(Wanted::Term);
    };
    if first.is_ascii_digit() {
        return match number(word) {
            Some(value) => Kind::Number(value),
            None => Kind::Strange(Wanted::Number),
        };
    }
    if same_bytes(word, b"if") {
        return Kind::If;
    }
    if same_bytes(word, b"and") {
        return Kind::And;
    }
    match schedule.id_of(word) {
        Some(txn) => Kind::Name(txn.number()),
        None => Kind::Word,
    }
}

/// The token at the front that begins with `@`, by what follows that, and its length.
fn key_kind(rest: &[u8]) -> (Kind, usize) {
    let run = run_of(rest);
    let kind = match number(run) {
        Some(key) => Kind::Key(key),
        None => Kind::Strange(Wanted::Number),
    };
    (kind, run.len().saturating_add(1))
}

/// The sign at the front, and its length.
fn sign_kind(text: &[u8]) -> (Kind, usize) {
    match text {
        [b'+', ..] => (Kind::Plus, 1),
        [b'-', ..] => (Kind::Minus, 1),
        [b'*', ..] => (Kind::Times, 1),
        [b'=', ..] => (Kind::Relation(Relation::Equal), 1),
        [b'!', b'=', ..] => (Kind::Relation(Relation::Unequal), 2),
        [b'<', b'=', ..] => (Kind::Relation(Relation::AtMost), 2),
        [b'<', ..] => (Kind::Relation(Relation::Below), 1),
        [b'>', b'=', ..] => (Kind::Relation(Relation::AtLeast), 2),
        [b'>', ..] => (Kind::Relation(Relation::Above), 1),
        _ => (Kind::Strange(Wanted::Term), 1),
    }
}

/// The token at the front, and its length.
fn token_kind(schedule: &Schedule, text: &[u8]) -> (Kind, usize) {
    let run = run_of(text);
    if !run.is_empty() {
        return (word_kind(schedule, run), run.len());
    }
    match text {
        [b'@', rest @ ..] => key_kind(rest),
        _ => sign_kind(text),
    }
}

/// The bytes after the first ones.
fn behind(text: &[u8], count: usize) -> &[u8] {
    match text.get(count..) {
        Some(rest) => rest,
        None => b"",
    }
}

/// The tokens of a line.
pub(crate) fn tokens_of(
    alloc: Global,
    schedule: &Schedule,
    line: &[u8],
) -> Result<Vec<Token>, ProgramFault> {
    let mut tokens = Vec::new(alloc);
    let mut rest = line;
    for _ in 0..line.len() {
        let [first, later @ ..] = rest else {
            return Ok(tokens);
        };
        if *first == b'#' {
            return Ok(tokens);
        }
        if *first == b' ' || *first == b'\t' || *first == b'\r' {
            rest = later;
        } else {
            let (kind, count) = token_kind(schedule, rest);
            let column = column_of(line, rest);
            tokens.push(Token { kind, column })?;
            rest = behind(rest, count);
        }
    }
    Ok(tokens)
}

/// The column at which the rest of a line begins.
fn column_of(line: &[u8], rest: &[u8]) -> u64 {
    (line.len().saturating_sub(rest.len()) as u64).saturating_add(1)
}
