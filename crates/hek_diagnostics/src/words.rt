//! Words of a line, with the places where they begin.
use hek_rules::{NoMemory, next_word, same_bytes};

/// A word, and the byte of its line at which it begins.
#[derive(Clone, Copy)]
pub(crate) struct Word<'t> {
    pub(crate) text: &'t [u8],
    pub(crate) start: usize,
}

impl<'t> Word<'t> {
    pub(crate) fn new(text: &'t [u8], start: usize) -> Word<'t> {
        Word { text, start }
    }

    pub(crate) fn end(&self) -> usize {
        self.start.saturating_add(self.text.len())
    }

    /// Whether this is the word.
    pub(crate) fn is(&self, text: &str) -> bool {
        same_bytes(self.text, text.as_bytes())
    }

    /// Whether this is one of the words.
    pub(crate) fn is_one_of(&self, words: &[&str]) -> bool {
        is_one_of(self.text, words)
    }
}

/// Whether the bytes are one of the words.
pub(crate) fn is_one_of(bytes: &[u8], words: &[&str]) -> bool {
    for word in words {
        if bytes == word.as_bytes() {
            return true;
        }
    }
    false
}

/// The most words of a line that are looked at.
const MOST: usize = 8;

/// Replaces the contents of `words` by the first words of a line.
pub(crate) fn read_words<'t>(line: &'t [u8], words: &mut Vec<Word<'t>>) -> Result<(), NoMemory> {
    words.clear();
    let mut rest = line;
    for _ in 0..MOST {
        let Some((text, after)) = next_word(rest) else {
            return Ok(());
        };
        let end = line.len().saturating_sub(after.len());
        words.push(Word::new(text, end.saturating_sub(text.len())))?;
        rest = after;
    }
    Ok(())
}
