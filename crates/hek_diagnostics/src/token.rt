//! The words of a line of a trace, with one space between them.
use crate::finding::{Finding, Hint};
use crate::numbers::{NUMBER, Role, is_digits, no_number};
use crate::place::part;
use crate::words::Word;
use hek_rules::{NoMemory, number};
use std::alloc::Global;
use std::str;

/// The words of a line of a trace that are still to be read.
#[derive(Clone, Copy)]
pub(crate) struct Tokens<'t> {
    line: &'t [u8],
    at: usize,
}

impl<'t> Tokens<'t> {
    pub(crate) fn new(line: &'t [u8]) -> Tokens<'t> {
        Tokens { line, at: 0 }
    }

    /// The next word, up to the next space, which is passed over. It has no characters where two spaces follow each other,
    /// and at the end of the line.
    pub(crate) fn next(&mut self) -> Word<'t> {
        let start = self.at;
        let rest = part(self.line, start, self.line.len());
        let len = word_len(rest);
        self.at = start.saturating_add(len).saturating_add(1);
        Word::new(part(rest, 0, len), start)
    }

    /// Whether no character is left. A space at the end of the line leaves none, and is at fault.
    pub(crate) fn is_over(&self) -> bool {
        self.at > self.line.len()
    }

    /// The next word, or what is wrong where there is none; `form` is what a line says that ends there.
    pub(crate) fn word(&mut self, form: &'static str) -> Result<Word<'t>, Finding<'t>> {
        if self.is_over() {
            let end = self.line.len();
            return Err(Finding::at(Word::new(b"", end), form));
        }
        let word = self.next();
        if !word.text.is_empty() {
            return Ok(word);
        }
        let blank = Word::new(
            part(self.line, word.start, word.start.saturating_add(1)),
            word.start,
        );
        let form = if blank.text.is_empty() {
            "the line ends with a space"
        } else {
            "there are two spaces where one is wanted"
        };
        Err(Finding::at(blank, form).wanting("one space between words"))
    }

    /// That the line ends here; `last` is the word before.
    pub(crate) fn end(&mut self, last: Word<'t>) -> Result<(), Finding<'t>> {
        if self.is_over() {
            return Ok(());
        }
        let word = self.word("")?;
        let form = "nothing comes after &, and @ is one word too many";
        Err(
            Finding::at(word, form)
                .with_other(last.text)
                .wanting("the end of the line"),
        )
    }
}

/// How many bytes there are before the first space.
fn word_len(bytes: &[u8]) -> usize {
    for (place, byte) in bytes.iter().enumerate() {
        if *byte == b' ' {
            return place;
        }
    }
    bytes.len()
}

/// The number that a word of a trace is, or what is wrong with it.
pub(crate) fn trace_number<'t>(word: Word<'t>, role: Role) -> Result<u64, Finding<'t>> {
    let Some(value) = number(word.text) else {
        return Err(no_number(word, role).wanting(NUMBER));
    };
    if word.text.len() > 1 && word.text.starts_with(b"0") {
        let form = match role {
            Role::Key => "the key @ begins with a zero",
            Role::Value => "the value @ begins with a zero",
            Role::Version => "the version @ begins with a zero",
            Role::Other => "the number @ begins with a zero",
        };
        return Err(
            Finding::at(word, form)
                .wanting("a number without leading zeros")
                .hinting(Hint::Count(value)),
        );
    }
    Ok(value)
}

/// What is wrong with a pair `KEY=VALUE`, if something is.
pub(crate) fn trace_pair<'t>(pair: Word<'t>) -> Result<(), Finding<'t>> {
    for (place, byte) in pair.text.iter().enumerate() {
        if *byte == b'=' {
            let after = place.saturating_add(1);
            let key = Word::new(part(pair.text, 0, place), pair.start);
            let value = Word::new(
                part(pair.text, after, pair.text.len()),
                pair.start.saturating_add(after),
            );
            trace_number(key, Role::Key)?;
            trace_number(value, Role::Value)?;
            return Ok(());
        }
    }
    Err(
        Finding::at(pair, "the pair @ has no `=`")
            .wanting("`KEY=VALUE` for each pair")
            .hinting(Hint::Pair),
    )
}

/// The pair that bytes mean which have another character in place of `=`.
pub(crate) fn meant_pair(alloc: Global, bytes: &[u8]) -> Result<Option<String>, NoMemory> {
    let key = digits_len(bytes);
    let key_bytes = part(bytes, 0, key);
    let value_bytes = part(bytes, key.saturating_add(1), bytes.len());
    if !is_digits(key_bytes) || !is_digits(value_bytes) {
        return Ok(None);
    }
    match (str::from_utf8(key_bytes), str::from_utf8(value_bytes)) {
        (Ok(key), Ok(value)) => Ok(Some(format!(in alloc; "{key}={value}")?)),
        _ => Ok(None),
    }
}

/// How many digits there are at the front.
fn digits_len(bytes: &[u8]) -> usize {
    for (place, byte) in bytes.iter().enumerate() {
        if !byte.is_ascii_digit() {
            return place;
        }
    }
    bytes.len()
}
