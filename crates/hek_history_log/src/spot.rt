//! Where a value is in a line of JSON.

/// A value in a line: the whole, a field of it, an item of a field that is an array, by its place from 0; or the name of a
/// member, by its place.
#[derive(Clone, Copy, Debug, PartialEq, Eq)]
pub(crate) enum Spot {
    Line,
    Field(&'static str),
    Item(&'static str, usize),
    Member(usize),
}

/// The column, from 1, at which a value begins in a line that is JSON; of the whole line if there is no such value.
pub(crate) fn column_of(line: &[u8], spot: Spot) -> u64 {
    let start = skip_blanks(line, 0);
    let found = match spot {
        Spot::Line => None,
        // The members of an object are parted as the items of an array are.
        Spot::Member(place) => Some(item_at(line, start, place)),
        Spot::Field(name) => field_at(line, start, name.as_bytes()),
        Spot::Item(name, place) => match field_at(line, start, name.as_bytes()) {
            Some(list) => Some(item_at(line, list, place)),
            None => None,
        },
    };
    (found.unwrap_or(start) as u64).saturating_add(1)
}

/// Where the value of a field begins, in the object that begins at a place.
fn field_at(line: &[u8], object: usize, name: &[u8]) -> Option<usize> {
    let mut at = skip_byte(line, object);
    for _ in 0..line.len() {
        let key = skip_blanks(line, at);
        let colon = value_end(line, key, b':');
        let value = skip_blanks(line, skip_byte(line, colon));
        if is_key(line, key, name) {
            return Some(value);
        }
        let end = value_end(line, value, b',');
        if line.get(end) != Some(&b',') {
            return None;
        }
        at = skip_byte(line, end);
    }
    None
}

/// Whether the string at a place is this key.
fn is_key(line: &[u8], at: usize, name: &[u8]) -> bool {
    let Some(rest) = line.get(at..) else {
        return false;
    };
    let Some(rest) = rest.strip_prefix(b"\"") else {
        return false;
    };
    match rest.strip_prefix(name) {
        Some(rest) => rest.first() == Some(&b'"'),
        None => false,
    }
}

/// The bytes of the value that begins at a place, without blanks after it: where they begin and end.
pub(crate) fn value_at(line: &[u8], at: usize) -> (usize, usize) {
    let mut end = value_end(line, at, b',');
    for _ in at..end {
        match line.get(end.saturating_sub(1)) {
            Some(byte) if byte.is_ascii_whitespace() => end = end.saturating_sub(1),
            _ => break,
        }
    }
    (at, end)
}

/// The bytes of the name that begins at a place: where they begin and end.
pub(crate) fn name_at(line: &[u8], at: usize) -> (usize, usize) {
    let end = value_end(line, at, b':');
    (at, end)
}

/// The bytes of an item, in the array that begins at a place, if it has so many items: where they begin and end.
pub(crate) fn item_in(line: &[u8], list: usize, place: usize) -> Option<(usize, usize)> {
    if line.get(list) != Some(&b'[') {
        return None;
    }
    let (start, end) = value_at(line, item_at(line, list, place));
    if start < end {
        Some((start, end))
    } else {
        None
    }
}

/// Where an item begins, in the array that begins at a place.
fn item_at(line: &[u8], list: usize, place: usize) -> usize {
    let mut at = skip_blanks(line, skip_byte(line, list));
    for _ in 0..place {
        let end = value_end(line, at, b',');
        at = skip_blanks(line, skip_byte(line, end));
    }
    at
}

/// The place after one byte.
fn skip_byte(line: &[u8], at: usize) -> usize {
    if at < line.len() { at + 1 } else { line.len() }
}

/// The first place from one on that has no blank.
fn skip_blanks(line: &[u8], from: usize) -> usize {
    for place in from..line.len() {
        if !line[place].is_ascii_whitespace() {
            return place;
        }
    }
    line.len()
}

/// Where the value at a place ends: at the byte that parts it from the next, or at the bracket round it.
fn value_end(line: &[u8], from: usize, parting: u8) -> usize {
    let mut within = Within {
        depth: 0,
        quoted: false,
        escaped: false,
    };
    for place in from..line.len() {
        if within.ends_before(line[place], parting) {
            return place;
        }
    }
    line.len()
}

/// How far a place is inside a value: in how many brackets, in a string or not, and after a backslash in it or not.
#[derive(Clone, Copy)]
struct Within {
    depth: usize,
    quoted: bool,
    escaped: bool,
}

impl Within {
    /// Whether the value ends before a byte; if not, goes over it.
    fn ends_before(&mut self, byte: u8, parting: u8) -> bool {
        if self.escaped {
            self.escaped = false;
            return false;
        }
        if self.quoted {
            self.escaped = byte == b'\\';
            self.quoted = byte != b'"';
            return false;
        }
        match byte {
            b'"' => self.quoted = true,
            b'[' | b'{' => self.depth = self.depth.saturating_add(1),
            b']' | b'}' => {
                if self.depth == 0 {
                    return true;
                }
                self.depth = self.depth.saturating_sub(1);
            }
            _ => return self.depth == 0 && byte == parting,
        }
        false
    }
}
