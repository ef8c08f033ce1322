//! Colours of a terminal: replies by their kinds, and what is at fault.

/// Which lines are in colours.
#[derive(Clone, Copy)]
pub enum Paint {
    None,
    /// None, and they are no text, but an image.
    Image,
    /// Lines with a reply: the reply, by its kind.
    Replies,
    /// Lines of a fault: its first line, and the carets with what they say.
    Faults,
}

/// A colour, by its number in an escape sequence.
#[derive(Clone, Copy)]
pub enum Colour {
    Red,
    Green,
    Yellow,
}

impl Colour {
    /// What begins the colour.
    pub fn front(self) -> &'static [u8] {
        match self {
            Colour::Red => b"\x1b[31m",
            Colour::Green => b"\x1b[32m",
            Colour::Yellow => b"\x1b[33m",
        }
    }
}

/// What ends a colour.
pub const PLAIN: &[u8] = b"\x1b[0m";

/// What stands between an event and its reply.
const ARROW: &[u8] = b" -> ";

/// What begins the line of a fault, and that of a note.
const FAULT: &[u8] = b"hek: ";

const NOTE: &[u8] = b"hek: note: ";

/// What begins a line under that of a fault.
const MARGIN: &[u8] = b"  | ";

/// The first words of replies that are in colours.
const COLOURS: [(&[u8], Colour); 7] = [
    (b"aborted", Colour::Red),
    (b"refused", Colour::Red),
    (b"failed", Colour::Red),
    (b"victim", Colour::Red),
    (b"waiting", Colour::Yellow),
    (b"precommitted", Colour::Green),
    (b"committed", Colour::Green),
];

impl Paint {
    /// Where the part of a line begins that is in a colour, and which.
    pub fn part_of(self, line: &[u8]) -> Option<(usize, Colour)> {
        match self {
            Paint::None | Paint::Image => None,
            Paint::Replies => reply_in(line),
            Paint::Faults => fault_in(line),
        }
    }
}

/// How long a line is without its line feed.
pub fn end_of(line: &[u8]) -> usize {
    match line {
        [front @ .., b'\n'] => front.len(),
        line => line.len(),
    }
}

/// Where the reply of a line of a trace begins, and its colour. A line under it begins with two spaces, and has none.
fn reply_in(line: &[u8]) -> Option<(usize, Colour)> {
    if line.starts_with(b"  ") {
        return None;
    }
    if line.starts_with(b"? line ") {
        return Some((0, Colour::Red));
    }
    let start = place_of(line, ARROW)?.saturating_add(ARROW.len());
    let (_, reply) = line.split_at(start.min(line.len()));
    for (word, colour) in COLOURS {
        if reply.starts_with(word) {
            return Some((start, colour));
        }
    }
    None
}

/// Where bytes first stand in a line.
fn place_of(line: &[u8], bytes: &[u8]) -> Option<usize> {
    for place in 0..line.len() {
        if line[place..].starts_with(bytes) {
            return Some(place);
        }
    }
    None
}

/// Where what is at fault begins in a line: all of the first line, or the carets.
fn fault_in(line: &[u8]) -> Option<(usize, Colour)> {
    if line.starts_with(NOTE) {
        return Some((0, Colour::Yellow));
    }
    if line.starts_with(FAULT) {
        return Some((0, Colour::Red));
    }
    let rest = line.strip_prefix(MARGIN)?;
    for (place, byte) in rest.iter().enumerate() {
        if *byte == b'^' {
            return Some((place.saturating_add(MARGIN.len()), Colour::Red));
        }
        if *byte != b' ' && *byte != b'\t' {
            return None;
        }
    }
    None
}
