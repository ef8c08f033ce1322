//! A fault as a reader sees it: the place, the line, what is wrong, what is wanted and what is meant.
ghost use Rattle.std.specs.Prelude.{◌≡◌, IfOk};

use crate::finding::{Finding, Hint, Wanted};
use crate::names::meant_name;
use crate::nearest::nearest_word;
use crate::numbers::meant_number;
use crate::place::Place;
use crate::sentence::Sentence;
use crate::token::meant_pair;
use crate::vocabulary::Vocabulary;
use hek_rules::NoMemory;
use std::alloc::Global;
use std::fmt::{Display, Formatter};
use std::{fmt, str};

/// A fault of a text. It prints as lines, each with its end: the file with line and column, the line, and under it what is
/// wrong, what is wanted, what is meant and what to do instead, as far as these are known.
#[derive(Drop)]
pub struct Diagnostic<'t> {
    name: &'t str,
    /// The number of the line, as it is printed.
    pub(crate) number: u64,
    pub place: Place<'t>,
    sentence: Sentence<'t>,
    wanted: Listed<'t>,
    meant: Option<String>,
    instead: Sentence<'t>,
}

/// What is valid at a place: a form, or one of some words. It prints as one line, without its end.
#[derive(Drop)]
pub enum Listed<'t> {
    Form(Sentence<'t>),
    Words(Vec<&'t [u8]>),
}

/// The faults of a text: those that are shown, and how many more there are. They print one after another.
#[derive(Drop)]
pub struct Diagnostics<'t> {
    pub first: Diagnostic<'t>,
    pub others: Vec<Diagnostic<'t>>,
    pub more: u64,
}

/// A finding as a diagnostic. `names` are those of the transactions, `starts` the words with which a line may begin.
pub(crate) fn diagnose<'t>(
    alloc: Global,
    name: &'t str,
    names: &[&'t [u8]],
    starts: &[&'t [u8]],
    place: Place<'t>,
    finding: Finding<'t>,
) -> Result<Diagnostic<'t>, NoMemory>
    ensures number { IfOk result (λ d. d.place.number ≡ place.entry.number) }
    ensures text { IfOk result (λ d. d.place.text.now ≡ place.entry.text.now) }
{
    let place = place.span(finding.start, finding.end);
    let wanted = match finding.wanted {
        Wanted::Form(form) => Listed::Form(form),
        Wanted::Names => Listed::Words(copied(alloc, names)?),
        Wanted::Starts => Listed::Words(copied(alloc, starts)?),
    };
    let meant = meant(alloc, names, starts, finding.hint, place.found())?;
    Ok(Diagnostic {
        name,
        number: place.number,
        place,
        sentence: finding.sentence,
        wanted,
        meant,
        instead: finding.instead,
    })
}

fn copied<'t>(alloc: Global, words: &[&'t [u8]]) -> Result<Vec<&'t [u8]>, NoMemory> {
    let mut copy = Vec::new(alloc);
    for word in words {
        copy.push(*word)?;
    }
    Ok(copy)
}

/// What is meant by the bytes that were found.
fn meant<'t>(
    alloc: Global,
    names: &[&'t [u8]],
    starts: &[&'t [u8]],
    hint: Hint,
    found: &[u8],
) -> Result<Option<String>, NoMemory> {
    match hint {
        Hint::None => Ok(None),
        Hint::Word(word) => Ok(Some(String::from_str(alloc, word)?)),
        Hint::Among(words) => near_known(alloc, found, words),
        Hint::Names => near_bytes(alloc, found, names),
        Hint::Starts => near_bytes(alloc, found, starts),
        Hint::Number => match meant_number(alloc, found)? {
            Some(number) => Ok(Some(written(alloc, number)?)),
            None => Ok(None),
        },
        Hint::Count(number) => Ok(Some(written(alloc, number)?)),
        Hint::Name => meant_name(alloc, found),
        Hint::Pair => meant_pair(alloc, found),
    }
}

fn written(alloc: Global, number: u64) -> Result<String, NoMemory> {
    Ok(format!(in alloc; "{number}")?)
}

/// The nearest of some words to bytes.
fn near(alloc: Global, found: &[u8], words: &[&str]) -> Result<Option<String>, NoMemory> {
    let Ok(found) = str::from_utf8(found) else {
        return Ok(None);
    };
    match nearest_word(alloc, found, words) {
        Some(word) => Ok(Some(String::from_str(alloc, word)?)),
        None => Ok(None),
    }
}

fn near_known(alloc: Global, found: &[u8], known: Vocabulary) -> Result<Option<String>, NoMemory> {
    let mut words = Vec::new(alloc);
    known.add_to(&mut words)?;
    near(alloc, found, words.as_slice())
}

fn near_bytes(alloc: Global, found: &[u8], words: &[&[u8]]) -> Result<Option<String>, NoMemory> {
    let mut texts = Vec::new(alloc);
    for word in words {
        if let Ok(text) = str::from_utf8(word) {
            texts.push(text)?;
        }
    }
    near(alloc, found, texts.as_slice())
}

/// The most words that are listed.
const LISTED: usize = 20;

impl<'t> Diagnostic<'t> {
    /// The sentence that says what is wrong.
    pub fn message(&self) -> Sentence<'t> {
        self.sentence
    }

    /// What is wanted at the place, if that is known.
    pub fn wanted(&self) -> Option<&Listed<'t>> {
        match &self.wanted {
            Listed::Form(form) if form.is_empty() => None,
            wanted => Some(wanted),
        }
    }

    /// What is meant by the characters at the place, if that is known.
    pub fn meant(&self) -> Option<&str> {
        match &self.meant {
            Some(meant) => Some(meant.as_str()),
            None => None,
        }
    }

    /// What to do instead, if that is known.
    pub fn instead(&self) -> Option<Sentence<'t>> {
        if self.instead.is_empty() {
            return None;
        }
        Some(self.instead)
    }

    fn write_wanted<W: fmt::Write>(&self, f: &mut Formatter<W>) -> fmt::Result {
        match &self.wanted {
            Listed::Form(form) if form.is_empty() => Ok(()),
            Listed::Form(form) => writeln!(f, "  | wanted: {form}"),
            Listed::Words(words) => {
                f.write_str("  | wanted:")?;
                write_words(f, words.as_slice())?;
                f.write_str("\n")
            }
        }
    }

    fn write_meant<W: fmt::Write>(&self, f: &mut Formatter<W>) -> fmt::Result {
        if let Some(meant) = &self.meant {
            writeln!(f, "  | did you mean `{meant}`?")?;
        }
        if self.instead.is_empty() {
            return Ok(());
        }
        let instead = self.instead;
        writeln!(f, "  | instead: {instead}")
    }
}

impl Display for Listed<'_> {
    fn fmt<W: fmt::Write>(&self, f: &mut Formatter<W>) -> fmt::Result {
        match self {
            Listed::Form(form) => write!(f, "{form}"),
            Listed::Words(words) => match words.as_slice() {
                [] => Ok(()),
                [first, rest @ ..] => {
                    f.write_str(str::from_utf8(first).unwrap_or("?"))?;
                    write_words(f, rest)
                }
            },
        }
    }
}

/// Writes words, each after a space.
fn write_words<W: fmt::Write>(f: &mut Formatter<W>, words: &[&[u8]]) -> fmt::Result {
    for (place, word) in words.iter().enumerate() {
        if place == LISTED {
            return f.write_str(" ..");
        }
        f.write_str(" ")?;
        f.write_str(str::from_utf8(word).unwrap_or("?"))?;
    }
    Ok(())
}

impl Display for Diagnostic<'_> {
    fn fmt<W: fmt::Write>(&self, f: &mut Formatter<W>) -> fmt::Result {
        let name = self.name;
        let number = self.number;
        let column = self.place.column();
        let sentence = self.sentence;
        let excerpt = self.place.excerpt();
        writeln!(f, "  {name}:{number}:{column}\n{excerpt} {sentence}")?;
        self.write_wanted(f)?;
        self.write_meant(f)
    }
}

impl Display for Diagnostics<'_> {
    fn fmt<W: fmt::Write>(&self, f: &mut Formatter<W>) -> fmt::Result {
        let first = &self.first;
        write!(f, "{first}")?;
        for other in &self.others {
            write!(f, "{other}")?;
        }
        let more = self.more;
        match more {
            0 => Ok(()),
            _ => writeln!(f, "and {more} more"),
        }
    }
}
