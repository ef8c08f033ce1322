//! The word that is meant by a mistyped one.
use std::alloc::{AllocError, Global};
use strsim::osa_distance;

/// How many edits there are at most between a word and the one that it means.
const MOST_EDITS: usize = 2;

/// The nearest of these words to another, whose capitals count as small letters: at most two edits away, and at most half
/// as many as the longer of both has characters. None if two are equally near, or if memory runs out.
pub fn nearest_word<'w>(alloc: Global, word: &str, words: &[&'w str]) -> Option<&'w str> {
    if word.len() > 100 {
        return None;
    }
    match lower_case(alloc, word) {
        Ok(word) => nearest_to(alloc, word.as_str(), words),
        Err(_) => None,
    }
}

/// A text with small letters in place of capitals.
pub(crate) fn lower_case(alloc: Global, text: &str) -> Result<String, AllocError> {
    let mut lower = String::new(alloc);
    for mark in text.chars() {
        lower.push(mark.to_ascii_lowercase())?;
    }
    Ok(lower)
}

fn nearest_to<'w>(alloc: Global, word: &str, words: &[&'w str]) -> Option<&'w str> {
    let mut found = None;
    let mut least = usize::MAX;
    for &known in words {
        let Ok(edits) = osa_distance(alloc, word, known) else {
            return None;
        };
        if is_near(edits, word, known) && edits <= least {
            found = if edits < least { Some(known) } else { None };
            least = edits;
        }
    }
    found
}

/// Whether so many edits between two words are few.
fn is_near(edits: usize, word: &str, known: &str) -> bool {
    let longer = word.chars().count().max(known.chars().count());
    edits <= MOST_EDITS && edits <= longer / 2
}
