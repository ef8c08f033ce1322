//! The faults of a log as a reader sees them: each with its line, carets under what is wrong, what is wanted and what is meant.
use hek_diagnostics::{Excerpt, nearest_word};
use hek_history_log::{FaultWatch, LogFault, Mistake, Pinpoint, mistake_in};
use hek_report::{Hole, Text};
use hek_rules::NoMemory;
use std::alloc::Global;
use std::io::Write;
use std::str;

/// How many faults are shown at most.
const MOST: u64 = 10;

/// The faults of a log that are explained, if that is wanted. Otherwise reading ends at the first one.
#[derive(Drop)]
pub(crate) struct Explained<'n> {
    alloc: Global,
    name: &'n str,
    is_wanted: bool,
    lines: Vec<u8>,
    shown: u64,
    more: u64,
}

impl<'n> Explained<'n> {
    /// No faults of the log of this name yet.
    pub(crate) fn new(alloc: Global, name: &'n str, is_wanted: bool) -> Explained<'n> {
        Explained {
            alloc,
            name,
            is_wanted,
            lines: Vec::new(alloc),
            shown: 0,
            more: 0,
        }
    }

    /// Writes what was gathered. What can't be written is left out.
    pub(crate) fn write<E: Write>(&self, faults: &mut E) {
        let _ = faults.write_all(self.lines.as_slice());
        if self.more > 0 {
            let more = self.more;
            let _ = writeln!(faults, "and {more} more");
        }
    }

    /// Appends the lines of a fault.
    fn put(&mut self, line: &[u8], fault: &LogFault) -> Result<(), NoMemory> {
        let Some((number, _)) = fault.place() else {
            return Ok(());
        };
        let Some(found) = mistake_in(line, fault) else {
            return Ok(());
        };
        let excerpt = Excerpt {
            line,
            start: found.start,
            end: found.end,
        };
        let (alloc, name) = (self.alloc, Hole::Word(self.name));
        let column = Hole::Number(excerpt.column() as u64);
        let mut text = Text::after(&mut self.lines);
        text.form("  @:@:@\n", &[name, Hole::Number(number), column]);
        text.form("@ ", &[excerpt]);
        let word = word_at(line, found);
        put_mistake(found.mistake, word, &mut text);
        put_wanted(fault, &mut text);
        put_meant(alloc, fault, found.mistake, word, &mut text);
        text.done()
    }
}

impl FaultWatch for Explained<'_> {
    fn see(&mut self, line: &[u8], fault: &LogFault) -> bool {
        if !self.is_wanted {
            return false;
        }
        if self.shown == MOST {
            self.more = self.more.saturating_add(1);
        } else {
            self.shown = self.shown.saturating_add(1);
            let _ = self.put(line, fault);
        }
        true
    }
}

/// The text between quotes at a place, if it is short.
fn word_at<'l>(line: &'l [u8], found: Pinpoint) -> Option<&'l str> {
    let bytes = line.get(found.start..found.end)?;
    let word = bytes.strip_prefix(b"\"")?.strip_suffix(b"\"")?;
    if word.len() > LONGEST {
        return None;
    }
    str::from_utf8(word).ok()
}

/// How many bytes a word has at most that is shown again below its line.
const LONGEST: usize = 60;

/// Adds what is wrong with bytes.
fn put_mistake(mistake: Mistake, word: Option<&str>, text: &mut Text<'_>) {
    match (noun_of(mistake), word) {
        (Some(noun), Some(word)) => {
            let (noun, word) = (Hole::Word(noun), Hole::Word(word));
            text.form("no @ is called `@`\n", &[noun, word]);
        }
        _ => text.form("@\n", &[mistake]),
    }
}

/// What is called otherwise.
fn noun_of(mistake: Mistake) -> Option<&'static str> {
    match mistake {
        Mistake::NoMember => Some("member"),
        Mistake::NoLevel => Some("level"),
        Mistake::NoStatus => Some("status"),
        Mistake::NoOperation => Some("operation"),
        _ => None,
    }
}

/// Adds what is wanted at a place.
fn put_wanted(fault: &LogFault, text: &mut Text<'_>) {
    match fault {
        LogFault::Wanted { wanted, .. } => text.form("  | wanted: @\n", &[*wanted]),
        LogFault::Json { .. } => text.put("  | wanted: a JSON object on one line\n"),
        LogFault::Duplicate { .. } => text.put("  | wanted: each transaction once\n"),
        _ => {}
    }
}

/// Adds the word that is meant, if one is near.
fn put_meant(
    alloc: Global,
    fault: &LogFault,
    mistake: Mistake,
    word: Option<&str>,
    text: &mut Text<'_>,
) {
    let LogFault::Wanted { wanted, .. } = fault else {
        return;
    };
    let Some(word) = word else {
        return;
    };
    if let Some(meant) = nearest_word(alloc, word, mistake.known(*wanted)) {
        text.form("  | did you mean `@`?\n", &[meant]);
    }
}
