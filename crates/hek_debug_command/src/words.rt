//! The words of a session, for programs that complete them.
use crate::name::NAMES;
use crate::operand::{BREAKS, COUNTERS, SHOWS, WATCHES};
use hek_diagnostics::Vocabulary;
use hek_report::put;
use hek_rules::{NoMemory, ReplyForm};
use std::alloc::Global;
use std::io::Write;

/// The kinds of words that come after the first of a line.
const AFTER: &[Vocabulary] = &[
    BREAKS,
    WATCHES,
    SHOWS,
    COUNTERS,
    Vocabulary::AllEvents,
    Vocabulary::Replies,
    Vocabulary::Causes,
];

/// Appends each word that a line of a session may have but for names and numbers, one on each line.
pub fn put_words(alloc: Global, lines: &mut Vec<u8>) -> Result<(), NoMemory> {
    let mut words = Vec::new(alloc);
    for text in NAMES {
        words.push(text.word)?;
    }
    for kind in AFTER {
        let kind = *kind;
        kind.add_to(&mut words)?;
    }
    add_second_words(&mut words)?;
    put_each(words.as_slice(), lines)
}

/// Appends the second words of replies.
fn add_second_words<'s>(words: &mut Vec<&'s str>) -> Result<(), NoMemory> {
    for form in ReplyForm::ALL {
        if let Some(word) = form.second_word() {
            words.push(word)?;
        }
    }
    Ok(())
}

/// Appends each word that is none of those before it.
fn put_each(words: &[&str], lines: &mut Vec<u8>) -> Result<(), NoMemory> {
    for (place, word) in words.iter().enumerate() {
        if !is_before(words, place, word) {
            put(writeln!(lines, "{word}"))?;
        }
    }
    Ok(())
}

/// Whether a word is one of the words before a place.
fn is_before(words: &[&str], place: usize, word: &str) -> bool {
    for (at, other) in words.iter().enumerate() {
        if at < place && *other == word {
            return true;
        }
    }
    false
}
