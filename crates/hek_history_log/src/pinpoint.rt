//! Which bytes of a line are at fault, and what is wrong with them: more than a fault of a log says.
use crate::fault::{LogFault, Wanted};
use crate::fields::{MEMBERS, OPENING_MEMBERS};
use crate::operations::OPERATIONS;
use crate::spot::{item_in, name_at, value_at};
use hek_rules::number;
use std::fmt;
use std::fmt::{Display, Formatter};

/// The bytes of a line that are at fault, from `start` up to `end`, and what is wrong with them.
#[derive(Clone, Copy, Debug, PartialEq, Eq)]
pub struct Pinpoint {
    pub start: usize,
    pub end: usize,
    pub mistake: Mistake,
}

/// What is wrong with bytes of a line. It prints as a phrase.
#[derive(Clone, Copy, Debug, PartialEq, Eq)]
pub enum Mistake {
    /// The line is no JSON from here on.
    NoJson,
    /// Nothing is called so.
    NoMember,
    NoLevel,
    NoStatus,
    NoOperation,
    /// A member is there already.
    Twice,
    /// The transaction has a line already, of this number.
    TransactionTwice(u64),
    /// A value that is no key, no value, not what was done, no bucket, no pairs.
    NoKey,
    NoValue,
    NoAnswer,
    NoBucket,
    NoPairs,
    /// An operation has too few or too many parts.
    Parts,
    /// A member is missing in the object.
    Missing,
    /// A time is before another.
    Reversed,
    /// The value is not what is wanted there.
    Other,
}

const LEVELS: [&str; 3] = ["serializable", "snapshot", "repeatable"];

const STATUSES: [&str; 3] = ["committed", "aborted", "unknown"];

impl Mistake {
    /// The words that are valid in place of the one at fault.
    pub fn known(self, wanted: Wanted) -> &'static [&'static str] {
        match (self, wanted) {
            (Mistake::NoMember, Wanted::OpeningMember) => &OPENING_MEMBERS,
            (Mistake::NoMember, _) => &MEMBERS,
            (Mistake::NoLevel, _) => &LEVELS,
            (Mistake::NoStatus, _) => &STATUSES,
            (Mistake::NoOperation, _) => &OPERATIONS,
            _ => &[],
        }
    }

    fn text(self) -> &'static str {
        match self {
            Mistake::NoJson => "the line is no JSON here",
            Mistake::NoMember => "no member is called so",
            Mistake::NoLevel => "no level is called so",
            Mistake::NoStatus => "no status is called so",
            Mistake::NoOperation => "no operation is called so",
            Mistake::Twice => "this member is there twice",
            Mistake::TransactionTwice(_) => "this transaction has a line already: line ",
            Mistake::NoKey => "a key is a text or a number below 2^64",
            Mistake::NoValue => "a value is a text or a whole number from -2^63 up to 2^64",
            Mistake::NoAnswer => "DONE is true or false",
            Mistake::NoBucket => "a bucket is a number",
            Mistake::NoPairs => "pairs are an array of [KEY, VALUE]",
            Mistake::Parts => "this operation has too few or too many parts",
            Mistake::Missing => "something is missing in this object",
            Mistake::Reversed => "this is before what it should follow",
            Mistake::Other => "something else is wanted here",
        }
    }
}

impl Display for Mistake {
    fn fmt<W: fmt::Write>(&self, f: &mut Formatter<W>) -> fmt::Result {
        f.write_str(self.text())?;
        match *self {
            Mistake::TransactionTwice(line) => write!(f, "{line}"),
            _ => Ok(()),
        }
    }
}

/// Where in the bytes of its line a fault is, and what is wrong there; None for a fault that has no place in its line.
pub fn mistake_in(line: &[u8], fault: &LogFault) -> Option<Pinpoint> {
    let (_, column) = fault.place()?;
    let at = column.saturating_sub(1) as usize;
    let (span, mistake) = match fault {
        LogFault::Json { .. } => ((at, at.saturating_add(1)), Mistake::NoJson),
        LogFault::Duplicate { before, .. } => {
            (value_at(line, at), Mistake::TransactionTwice(*before))
        }
        LogFault::Wanted { wanted, .. } => wanted_at(line, at, *wanted),
        _ => return None,
    };
    Some(Pinpoint {
        start: span.0,
        end: span.1,
        mistake,
    })
}

/// The bytes of a value where something else is wanted, or of the part of it that is at fault.
fn wanted_at(line: &[u8], at: usize, wanted: Wanted) -> ((usize, usize), Mistake) {
    let whole = value_at(line, at);
    match wanted {
        Wanted::OpeningMember | Wanted::Member => (name_at(line, at), Mistake::NoMember),
        Wanted::Once => (name_at(line, at), Mistake::Twice),
        Wanted::Level => (whole, Mistake::NoLevel),
        Wanted::Status => (whole, Mistake::NoStatus),
        Wanted::Transaction => ((at, at.saturating_add(1)), Mistake::Missing),
        Wanted::Operations if line.get(at) == Some(&b'{') && is_line(line, whole) => {
            ((at, at.saturating_add(1)), Mistake::Missing)
        }
        Wanted::EndAfterBegin | Wanted::AnsweredAfterInvoked => (whole, Mistake::Reversed),
        Wanted::Operation => match item_in(line, at, 0) {
            Some(word) => (word, Mistake::NoOperation),
            None => (whole, Mistake::Other),
        },
        _ => part_at(line, whole, parts_of(wanted)),
    }
}

/// Whether bytes are a whole line, blanks apart.
fn is_line(line: &[u8], span: (usize, usize)) -> bool {
    let after = line.get(span.1..).unwrap_or(&[]);
    after.iter().all(|byte| byte.is_ascii_whitespace())
}

/// A part of an operation or of a row.
#[derive(Clone, Copy)]
enum Part {
    Word,
    Key,
    Value,
    /// A value, or null.
    Found,
    Answer,
    Bucket,
    Pairs,
}

/// The parts of what is wanted, if it is an operation or a row.
fn parts_of(wanted: Wanted) -> &'static [Part] {
    match wanted {
        Wanted::Row => &[Part::Key, Part::Value],
        Wanted::Read => &[Part::Word, Part::Key, Part::Found],
        Wanted::Write => &[Part::Word, Part::Key, Part::Value],
        Wanted::Insert | Wanted::Update => &[Part::Word, Part::Key, Part::Value, Part::Answer],
        Wanted::Delete => &[Part::Word, Part::Key, Part::Answer],
        Wanted::Scan => &[Part::Word, Part::Bucket, Part::Pairs],
        Wanted::Range => &[Part::Word, Part::Key, Part::Key, Part::Pairs],
        _ => &[],
    }
}

/// The first part of an array that is not what it should be; the whole if their number is wrong.
fn part_at(line: &[u8], whole: (usize, usize), parts: &[Part]) -> ((usize, usize), Mistake) {
    if parts.is_empty() || line.get(whole.0) != Some(&b'[') {
        return (whole, Mistake::Other);
    }
    let mut last = None;
    for (place, part) in parts.iter().enumerate() {
        let Some(span) = item_in(line, whole.0, place) else {
            return (whole, Mistake::Parts);
        };
        let bytes = line.get(span.0..span.1).unwrap_or(&[]);
        if let Some(mistake) = part.mistake_of(bytes) {
            return (span, mistake);
        }
        last = Some(span);
    }
    match last {
        _ if item_in(line, whole.0, parts.len()).is_some() => (whole, Mistake::Parts),
        Some(span) => (span, Mistake::NoPairs),
        None => (whole, Mistake::Other),
    }
}

impl Part {
    /// What is wrong with the bytes of a part, if something is.
    fn mistake_of(self, bytes: &[u8]) -> Option<Mistake> {
        let (is_right, mistake) = match self {
            Part::Word => (true, Mistake::Other),
            Part::Key => (is_label(bytes), Mistake::NoKey),
            Part::Value => (is_value(bytes), Mistake::NoValue),
            Part::Found => (
                is_value(bytes) || bytes == b"null".as_slice(),
                Mistake::NoValue,
            ),
            Part::Answer => (is_answer(bytes), Mistake::NoAnswer),
            Part::Bucket => (number(bytes).is_some(), Mistake::NoBucket),
            Part::Pairs => (bytes.first() == Some(&b'['), Mistake::NoPairs),
        };
        if is_right { None } else { Some(mistake) }
    }
}

/// Whether these bytes are a key of a log.
fn is_label(bytes: &[u8]) -> bool {
    bytes.first() == Some(&b'"') || number(bytes).is_some()
}

/// Whether these bytes are a value of a log.
fn is_value(bytes: &[u8]) -> bool {
    match bytes {
        [b'-', digits @ ..] => matches!(number(digits), Some(size) if size > 0 && size <= 1 << 63),
        _ => is_label(bytes),
    }
}

/// Whether the bytes of a value say whether something was done.
fn is_answer(bytes: &[u8]) -> bool {
    bytes == b"true".as_slice() || bytes == b"false".as_slice()
}
