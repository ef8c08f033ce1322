//! Places in a text, and its lines one after another.
ghost use Rattle.std.specs.Prelude.{◌≡◌, ◌+◌, ◌≤◌, false, length, drop};
ghost use Rattle.hek_diagnostics.specs.Places.{IsLine, lines_and_end};

use crate::excerpt::Excerpt;
use hek_rules::next_line;

/// Characters of a line of a text, from the byte `start` of the line up to `end`. Where these are equal, something is
/// missing there. A text has one more line than it has ends of lines.
#[derive(Clone, Copy)]
pub struct Place<'t> {
    pub text: &'t [u8],
    /// The number of the line, the first being 1.
    pub number: u64,
    pub line: &'t [u8],
    pub start: usize,
    pub end: usize,
    pub ghost is_line: { IsLine text.now number line.now },
    pub ghost ordered: { start ≤ end },
    pub ghost within: { end ≤ length line.now },
}

impl<'t> Place<'t> {
    /// The bytes of the same line from `start` up to `end`, as far as it has them.
    pub(crate) fn span(self, start: usize, end: usize) -> Place<'t>
        ensures text { result.text.now ≡ self.entry.text.now }
        ensures number { result.number ≡ self.entry.number }
    {
        let end = end.min(self.line.len());
        Place {
            text: self.text,
            number: self.number,
            line: self.line,
            start: start.min(end),
            end,
        }
    }

    /// The bytes at the place.
    pub fn found(&self) -> &'t [u8] {
        part(self.line, self.start, self.end)
    }

    /// The column of the first character, the first of a line being 1.
    pub fn column(&self) -> usize {
        count_chars(part(self.line, 0, self.start)).saturating_add(1)
    }

    /// How many characters there are.
    pub fn length(&self) -> usize {
        count_chars(self.found())
    }

    /// The line with carets under the characters.
    pub(crate) fn excerpt(&self) -> Excerpt<'t> {
        Excerpt {
            line: self.line,
            start: self.start,
            end: self.end,
        }
    }
}

/// The bytes from `start` up to `end`, as far as there are so many.
pub(crate) fn part(bytes: &[u8], start: usize, end: usize) -> &[u8] {
    let end = end.min(bytes.len());
    let start = start.min(end);
    &bytes[start..end]
}

/// How many characters of UTF-8 the bytes begin.
pub(crate) fn count_chars(bytes: &[u8]) -> usize {
    bytes.iter().filter(|byte| (**byte & 0xC0) != 0x80).count()
}

/// The lines of a text, one after another, and after them a line without characters.
#[derive(Drop)]
pub(crate) struct Lines<'t> {
    text: &'t [u8],
    rest: &'t [u8],
    number: u64,
    is_over: bool,
    ghost left: { is_over ≡ false → drop number (lines_and_end text.now) ≡ lines_and_end rest.now },
}

impl<'t> Lines<'t> {
    pub(crate) fn new(text: &'t [u8]) -> Lines<'t> {
        Lines {
            text,
            rest: text,
            number: 0,
            is_over: false,
        }
    }

    /// The front of the next line.
    pub(crate) fn next(&mut self) -> Option<Place<'t>> {
        if self.is_over || self.number == u64::MAX {
            return None;
        }
        if self.rest.is_empty() {
            self.is_over = true;
            return Some(Place {
                text: self.text,
                number: self.number + 1,
                line: self.rest,
                start: 0,
                end: 0,
            });
        }
        let (line, rest) = next_line(self.rest)?;
        self.rest = rest;
        self.number += 1;
        Some(Place {
            text: self.text,
            number: self.number,
            line,
            start: 0,
            end: 0,
        })
    }
}

/// The front of a text's line of this number, if the text has so many.
pub(crate) fn line_at(text: &[u8], number: u64) -> Option<Place<'_>> {
    let mut lines = Lines::new(text);
    for _ in 0..number {
        let place = lines.next()?;
        if place.number == number {
            return Some(place);
        }
    }
    None
}
