//! Words that should be names of transactions.
use crate::finding::{Finding, Hint};
use crate::place::part;
use crate::words::Word;
use hek_rules::{NoMemory, name_ok};
use std::alloc::Global;
use std::str;

/// What a name is.
pub(crate) const NAME: &str = "a name: 1 to 32 lower-case letters, digits and `_`, a letter first";

/// The words that a line begins with, which no name may be.
pub(crate) const RESERVED: &[&str] = &["buckets", "row", "txn", "detect"];

/// The most characters of a name.
const MOST: usize = 32;

/// What is wrong with a word that isn't a name.
pub(crate) fn no_name(word: Word<'_>) -> Finding<'_> {
    if word.is_one_of(RESERVED) {
        return Finding::at(word, "@ cannot be a name, because lines begin with it").wanting(
            "a name: 1 to 32 lower-case letters, digits and `_`, a letter first, and not buckets, row, txn or detect",
        );
    }
    let count = word.text.len();
    if count > MOST {
        return Finding::at(word, "@ has $ characters, and a name has at most 32")
            .wanting(NAME)
            .with_number(count as u64);
    }
    Finding::at(word, form_of(word.text))
        .wanting(NAME)
        .hinting(Hint::Name)
        .with_other(odd_byte(word.text))
}

/// What keeps the bytes from being a name.
fn form_of(bytes: &[u8]) -> &'static str {
    if bytes.iter().any(|byte| byte.is_ascii_uppercase()) {
        return "the name @ has a capital letter in it";
    }
    if odd_byte(bytes).is_empty() {
        return "the name @ does not begin with a letter";
    }
    "the name @ has a & in it"
}

/// The first byte that no name has.
fn odd_byte(bytes: &[u8]) -> &[u8] {
    for (place, byte) in bytes.iter().enumerate() {
        let is_usual = byte.is_ascii_lowercase() || byte.is_ascii_digit() || *byte == b'_';
        if !is_usual {
            return part(bytes, place, place.saturating_add(1));
        }
    }
    b""
}

/// The name that bytes mean which aren't one, if it can be seen.
pub(crate) fn meant_name(alloc: Global, bytes: &[u8]) -> Result<Option<String>, NoMemory> {
    let mut name = String::new(alloc);
    let Ok(text) = str::from_utf8(bytes) else {
        return Ok(None);
    };
    for mark in text.chars() {
        let mark = if mark == '-' {
            '_'
        } else {
            mark.to_ascii_lowercase()
        };
        name.push(mark)?;
    }
    if name_ok(name.as_str().as_bytes()) {
        Ok(Some(name))
    } else {
        Ok(None)
    }
}
