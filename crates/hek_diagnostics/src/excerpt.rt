//! A line as a reader sees it, with carets under the characters at fault.
use crate::place::{count_chars, part};
use std::fmt::{Display, Formatter};
use std::{fmt, str};

/// Characters of a line, from the byte `start` up to `end`. Where these are equal, something is missing there. It prints as
/// two lines, the second without its end: the line, or its characters around the place, and carets under the place.
#[derive(Clone, Copy)]
pub struct Excerpt<'t> {
    pub line: &'t [u8],
    pub start: usize,
    pub end: usize,
}

/// The most characters of a line that are shown, and of those before the place.
const ROOM: usize = 160;

const BEFORE: usize = 60;

impl Excerpt<'_> {
    /// The column of the first character, the first of a line being 1.
    pub fn column(&self) -> usize {
        count_chars(part(self.line, 0, self.start)).saturating_add(1)
    }

    /// How many characters there are.
    fn length(&self) -> usize {
        count_chars(part(self.line, self.start, self.end))
    }

    /// The text of the line, without a carriage return at its end.
    fn text(&self) -> &str {
        let line = match self.line {
            [line @ .., b'\r'] => line,
            line => line,
        };
        match str::from_utf8(line) {
            Ok(text) => text,
            Err(_) => "",
        }
    }

    /// How many characters of a long line are left out before those that are shown.
    fn skipped(&self) -> usize {
        if count_chars(self.line) <= ROOM {
            return 0;
        }
        self.column().saturating_sub(BEFORE)
    }

    fn write_line<W: fmt::Write>(&self, f: &mut Formatter<W>) -> fmt::Result {
        let skipped = self.skipped();
        f.write_str(if skipped > 0 { "  | .." } else { "  | " })?;
        for (place, mark) in self.text().chars().enumerate() {
            if place >= skipped.saturating_add(ROOM) {
                f.write_str("..")?;
                break;
            }
            if place >= skipped {
                f.write_char(pictured(mark))?;
            }
        }
        f.write_str("\n")
    }

    /// Writes blanks up to the place, with the tabs of the line, and a caret for each character there.
    fn write_carets<W: fmt::Write>(&self, f: &mut Formatter<W>) -> fmt::Result {
        let skipped = self.skipped();
        let before = self.column().saturating_sub(1);
        f.write_str(if skipped > 0 { "  |   " } else { "  | " })?;
        for (place, mark) in self.text().chars().enumerate() {
            if place >= before {
                break;
            }
            if place >= skipped {
                f.write_char(if mark == '\t' { '\t' } else { ' ' })?;
            }
        }
        let most = skipped.saturating_add(ROOM).saturating_sub(before);
        for _ in 0..self.length().min(most).max(1) {
            f.write_char('^')?;
        }
        Ok(())
    }
}

impl Display for Excerpt<'_> {
    fn fmt<W: fmt::Write>(&self, f: &mut Formatter<W>) -> fmt::Result {
        self.write_line(f)?;
        self.write_carets(f)
    }
}

/// A character as it goes out: a control character other than a tab and a line feed is its picture, and one that turns the direction
/// of the text is U+FFFD.
pub fn pictured(mark: char) -> char {
    match mark {
        '\n' | '\t' => mark,
        '\u{7F}' => '\u{2421}',
        '\0'..='\u{1F}' | '\u{80}'..='\u{9F}' => {
            char::from_u32(0x2400 | (u32::from(mark) & 0x1F)).unwrap_or('\u{FFFD}')
        }
        '\u{202A}'..='\u{202E}' | '\u{2066}'..='\u{2069}' => '\u{FFFD}',
        _ => mark,
    }
}
