//! Inputs that are something else altogether.
use crate::finding::{Finding, Hint};
use crate::numbers::is_digits;
use crate::place::part;
use crate::vocabulary::Vocabulary;
use crate::words::{Word, is_one_of};
use std::fmt;
use std::fmt::{Display, Formatter};

/// The words with which a line of SQL begins.
const SQL: &[&str] = &[
    "begin", "select", "insert", "update", "delete", "create", "start", "commit", "with", "set",
];

/// The words with which a debugger's command begins.
const COMMANDS: &[&str] = &["step", "run", "back", "break", "watch", "clear"];

/// What to do with an image where a text is wanted.
const TEXT_OF_IMAGE: &str = "`hek dis` prints the text of an image, and an image needs no `--text`";

/// What the first line with words of a schedule text looks like, if it looks like something else.
pub(crate) fn other_input<'t>(first: Word<'t>, line: &'t [u8]) -> Option<Finding<'t>> {
    if first.text.starts_with(b"HKSC") {
        let magic = Word::new(part(first.text, 0, 4), first.start);
        return Some(
            Finding::at(
                magic,
                "this looks like a schedule image, and a text is wanted here",
            )
            .wanting("a schedule text")
            .with_instead(TEXT_OF_IMAGE),
        );
    }
    let form = other_form(first, line)?;
    Some(
        Finding::at(first, form)
            .wanting("buckets")
            .hinting(Hint::None),
    )
}

/// What is said of a first word and its line that look like something else than a schedule.
pub(crate) fn other_form(first: Word<'_>, line: &[u8]) -> Option<&'static str> {
    if is_digits(first.text) && contains(line, b" -> ") {
        return Some("this looks like a trace, and a schedule is wanted here");
    }
    if first.text.starts_with(b"{") || first.text.starts_with(b"[") {
        return Some("this looks like JSON, and a schedule is wanted here");
    }
    if first.text.starts_with(b"<") {
        return Some("this looks like a page, and a schedule is wanted here");
    }
    if is_one_of(first.text, COMMANDS) {
        return Some("this looks like debugger commands, and a schedule is wanted here");
    }
    if (first.is_one_of(SQL) || Vocabulary::These(SQL).has_but_for_capitals(first.text))
        && contains(line, b";")
    {
        return Some("this looks like SQL, and a schedule is wanted here");
    }
    None
}

/// Whether a part of the bytes is this.
pub(crate) fn contains(bytes: &[u8], wanted: &[u8]) -> bool {
    for place in 0..bytes.len() {
        if part(bytes, place, bytes.len()).starts_with(wanted) {
            return true;
        }
    }
    false
}

/// What bytes that are not a text look like. Its text is lines as a diagnostic has them.
#[derive(Clone, Copy)]
pub struct OtherBytes<'n> {
    name: &'n str,
    looks: Looks,
    is_schedule: bool,
}

#[derive(Clone, Copy)]
enum Looks {
    Image,
    WideText,
    Bytes,
}

impl Looks {
    fn is_image(self) -> bool {
        matches!(self, Looks::Image)
    }
}

/// What the bytes of the file of this name look like, which are not UTF-8; `is_schedule` says that the file is to have a
/// schedule.
pub fn explain_bytes<'n>(name: &'n str, bytes: &[u8], is_schedule: bool) -> OtherBytes<'n> {
    let looks = if bytes.starts_with(b"HKSC") {
        Looks::Image
    } else if bytes.starts_with(b"\xFF\xFE") || bytes.starts_with(b"\xFE\xFF") {
        Looks::WideText
    } else {
        Looks::Bytes
    };
    OtherBytes {
        name,
        looks,
        is_schedule,
    }
}

impl Display for OtherBytes<'_> {
    fn fmt<W: fmt::Write>(&self, f: &mut Formatter<W>) -> fmt::Result {
        let name = self.name;
        writeln!(f, "  {name}")?;
        f.write_str(match self.looks {
            Looks::Image => {
                "  | this looks like a schedule image, and a text is wanted here\n  | wanted: a text in UTF-8\n"
            }
            Looks::WideText => {
                "  | this looks like UTF-16, and a text in UTF-8 is wanted here\n  | wanted: a text in UTF-8\n"
            }
            Looks::Bytes => { "  | some of its bytes are not UTF-8\n  | wanted: a text in UTF-8\n" }
        })?;
        if self.is_schedule && self.looks.is_image() {
            return writeln!(f, "  | instead: {TEXT_OF_IMAGE}");
        }
        Ok(())
    }
}
