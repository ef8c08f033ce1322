//! Characters that are not ASCII.
use crate::finding::{Finding, Hint};
use crate::known::Known;
use crate::line::wanted_at;
use crate::place::part;
use crate::vocabulary::Vocabulary;
use crate::words::Word;

/// A character that looks like an ASCII letter, and that letter: Cyrillic small letters.
const ALIKE: &[(&str, &str)] = &[
    ("\u{430}", "a"),
    ("\u{441}", "c"),
    ("\u{435}", "e"),
    ("\u{456}", "i"),
    ("\u{43E}", "o"),
    ("\u{440}", "p"),
    ("\u{455}", "s"),
    ("\u{445}", "x"),
    ("\u{443}", "y"),
];

/// The first character before the comment of a line that is not ASCII, if there is one.
pub(crate) fn not_ascii<'t>(
    known: &Known<'t>,
    words: &[Word<'t>],
    line: &'t [u8],
) -> Option<Finding<'t>> {
    let start = foreign_place(line)?;
    let found = Word::new(char_at(line, start), start);
    if found.is("\u{A0}") {
        let form = "there is a no-break space where a space is wanted";
        return Some(Finding::at(found, form).wanting("a space or a tab between words"));
    }
    if found.is("\u{FEFF}") && start == 0 && known.head == 0 {
        let form = "the text begins with a byte order mark";
        return Some(Finding::at(found, form).wanting("buckets"));
    }
    Some(wanted_there(known, named(found), words, start))
}

/// The sentence about a character.
fn named(found: Word<'_>) -> Finding<'_> {
    for (mark, letter) in ALIKE {
        if found.is(mark) {
            let form = "@ is not an ASCII character, though it looks like &";
            return Finding::at(found, form).with_other(letter.as_bytes());
        }
    }
    Finding::at(found, "@ is not an ASCII character")
}

/// What is wanted where the character is.
fn wanted_there<'t>(
    known: &Known<'t>,
    finding: Finding<'t>,
    words: &[Word<'t>],
    start: usize,
) -> Finding<'t> {
    let Some(first) = words.first() else {
        return finding;
    };
    let place = words.iter().filter(|word| word.end() <= start).count();
    if known.head == 0 && place == 0 {
        return finding.wanting("buckets");
    }
    if place == 0 {
        return finding.wanting_names().hinting(Hint::None);
    }
    if place == 1 && known.has_name(first.text) {
        return finding.wanting_words(Vocabulary::Events);
    }
    wanted_at(finding, *first, place)
}

/// Where the first byte before the comment is that is not ASCII.
fn foreign_place(line: &[u8]) -> Option<usize> {
    for (place, byte) in line.iter().enumerate() {
        if *byte == b'#' {
            return None;
        }
        if !byte.is_ascii() {
            return Some(place);
        }
    }
    None
}

/// The bytes of the character that begins at a place.
fn char_at(line: &[u8], start: usize) -> &[u8] {
    let rest = part(line, start, line.len());
    for (place, byte) in rest.iter().enumerate() {
        if place > 0 && (*byte & 0xC0) != 0x80 {
            return part(rest, 0, place);
        }
    }
    rest
}
