//! Text that goes out part by part: sentences as patterns with values.
use crate::name::is_named;
use hek_rules::{NoMemory, Schedule, TxnId};
use std::fmt::{self, Display};
use std::io::Write;

/// What stands for a mark of a pattern, where its values are of several kinds.
#[derive(Clone, Copy)]
pub enum Hole<'a> {
    Word(&'a str),
    /// A word in braces.
    Braced(&'a str),
    Number(u64),
    /// So many things, which a word names: `1 read`, `2 reads`.
    Count(u64, &'a str),
    /// A number of 64 bits in upper-case hexadecimal, with all its digits.
    Bits(u64),
}

impl Display for Hole<'_> {
    fn fmt<W: fmt::Write>(&self, f: &mut fmt::Formatter<W>) -> fmt::Result {
        match *self {
            Hole::Word(word) => f.write_str(word),
            Hole::Braced(word) => write!(f, "{{{word}}}"),
            Hole::Number(number) => write!(f, "{number}"),
            Hole::Count(count, noun) => {
                let ending = if count == 1 { "" } else { "s" };
                write!(f, "{count} {noun}{ending}")
            }
            Hole::Bits(bits) => write!(f, "{bits:016X}"),
        }
    }
}

impl<'a> Hole<'a> {
    /// The name of a transaction, or its ID if the schedule doesn't declare it.
    pub fn txn(schedule: &'a Schedule, txn: TxnId) -> Hole<'a> {
        if is_named(schedule, txn) {
            Hole::Word(schedule.name_of(txn))
        } else {
            Hole::Number(txn.number())
        }
    }
}

/// Text that is appended to bytes. Writing fails only if memory runs out. That is kept, so that no part has to be asked for it,
/// and `done` says it.
#[derive(Drop)]
pub struct Text<'t> {
    bytes: &'t mut Vec<u8>,
    is_short: bool,
}

impl<'t> Text<'t> {
    /// Nothing yet, after these bytes.
    pub fn after(bytes: &'t mut Vec<u8>) -> Text<'t> {
        Text {
            bytes,
            is_short: false,
        }
    }

    /// Adds a part.
    pub fn put(&mut self, part: &str) {
        if self.bytes.extend_from_slice(part.as_bytes()).is_err() {
            self.is_short = true;
        }
    }

    /// Adds a value as `{}` prints it.
    pub fn show<T: Display>(&mut self, value: &T) {
        if write!(self.bytes, "{value}").is_err() {
            self.is_short = true;
        }
    }

    /// Adds a pattern, with a value in place of each `@`, in their order. A value that has no mark is left out.
    pub fn form<T: Display>(&mut self, pattern: &str, values: &[T]) {
        for (place, part) in pattern.split('@').enumerate() {
            if let Some(before) = place.checked_sub(1) {
                if let Some(value) = values.get(before) {
                    self.show(value);
                }
            }
            self.put(part);
        }
    }

    /// Adds words, with a blank between them.
    pub fn words(&mut self, words: &[&str]) {
        for (place, word) in words.iter().enumerate() {
            self.put(if place > 0 { " " } else { "" });
            self.put(word);
        }
    }

    /// Adds a mark so many times.
    pub fn marks(&mut self, mark: &str, times: usize) {
        for _ in 0..times {
            self.put(mark);
        }
    }

    /// Adds names, separated by commas, with `and` before the last.
    pub fn names(&mut self, schedule: &Schedule, txns: &[TxnId]) {
        for (place, txn) in txns.iter().enumerate() {
            let before = match txns.len().saturating_sub(place) {
                _ if place == 0 => "",
                1 => " and ",
                _ => ", ",
            };
            self.form("@@", &[Hole::Word(before), Hole::txn(schedule, *txn)]);
        }
    }

    /// How many characters the line has that is begun.
    pub fn column(&self) -> usize {
        let mut column = 0usize;
        for byte in self.bytes.iter().rev() {
            if *byte == b'\n' {
                return column;
            }
            // The further bytes of a character begin with the bits 10.
            if *byte & 0xC0 != 0x80 {
                column = column.saturating_add(1);
            }
        }
        column
    }

    /// The bytes, for what is put there in another way; `note` keeps what came of it.
    pub fn bytes(&mut self) -> &mut Vec<u8> {
        self.bytes
    }

    /// Keeps that memory ran out.
    pub fn lack_memory(&mut self) {
        self.is_short = true;
    }

    /// Keeps that memory ran out, if it did.
    pub fn note(&mut self, put: Result<(), NoMemory>) {
        if put.is_err() {
            self.is_short = true;
        }
    }

    /// Says whether memory sufficed for all parts.
    pub fn done(self) -> Result<(), NoMemory> {
        if self.is_short { Err(NoMemory) } else { Ok(()) }
    }
}
