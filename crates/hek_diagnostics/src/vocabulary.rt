//! The words that schedules and traces may have at a place, as hek_rules has them.
use hek_rules::{Cause, EventKind, Level, NoMemory, ReplyForm};
use std::fmt;
use std::fmt::{Display, Formatter};

/// Words of one kind. They print with one space between them.
#[derive(Clone, Copy)]
pub enum Vocabulary {
    /// The events of a transaction.
    Events,
    /// These, and `detect`.
    AllEvents,
    Levels,
    Causes,
    /// The words with which replies begin.
    Replies,
    /// The words that replies may have after the first word of a form.
    Behind(ReplyForm),
    /// These words.
    These(&'static [&'static str]),
}

/// How many places a vocabulary has. Not each of them has a word.
const PLACES: usize = 24;

impl Vocabulary {
    /// Appends the words to a list.
    pub fn add_to<'s>(self, words: &mut Vec<&'s str>) -> Result<(), NoMemory> {
        for place in 0..PLACES {
            if let Some(word) = self.word_at(place) {
                words.push(word)?;
            }
        }
        Ok(())
    }

    /// Whether the bytes are one of the words.
    pub(crate) fn has(self, bytes: &[u8]) -> bool {
        for place in 0..PLACES {
            if let Some(word) = self.word_at(place) {
                if bytes == word.as_bytes() {
                    return true;
                }
            }
        }
        false
    }

    /// Whether the bytes are one of the words but for capitals, and have a capital.
    pub(crate) fn has_but_for_capitals(self, bytes: &[u8]) -> bool {
        if self.has(bytes) {
            return false;
        }
        for place in 0..PLACES {
            if let Some(word) = self.word_at(place) {
                if bytes.eq_ignore_ascii_case(word.as_bytes()) {
                    return true;
                }
            }
        }
        false
    }

    /// The word at a place, if it has one.
    fn word_at(self, place: usize) -> Option<&'static str> {
        match self {
            Vocabulary::Events => event_at(place),
            Vocabulary::AllEvents => any_event_at(place),
            Vocabulary::Levels => level_at(place),
            Vocabulary::Causes => cause_at(place),
            Vocabulary::Replies => first_at(place),
            Vocabulary::Behind(form) => second_at(form, place),
            Vocabulary::These(words) => words.get(place).copied(),
        }
    }
}

/// The event of a transaction at a place.
fn event_at(place: usize) -> Option<&'static str> {
    let kind = EventKind::ALL.get(place).copied()?;
    if kind.is_detect() {
        return None;
    }
    Some(kind.word())
}

fn any_event_at(place: usize) -> Option<&'static str> {
    let kind = EventKind::ALL.get(place).copied()?;
    Some(kind.word())
}

pub(crate) fn level_at(place: usize) -> Option<&'static str> {
    let level = Level::ALL.get(place).copied()?;
    Some(level.word())
}

fn cause_at(place: usize) -> Option<&'static str> {
    let cause = Cause::ALL.get(place).copied()?;
    Some(cause.word())
}

/// The first word of the form at a place, if the form before has another.
fn first_at(place: usize) -> Option<&'static str> {
    let form = ReplyForm::ALL.get(place).copied()?;
    let word = form.first_word();
    match form_before(place) {
        Some(before) if before.first_word() == word => None,
        _ => Some(word),
    }
}

fn form_before(place: usize) -> Option<ReplyForm> {
    ReplyForm::ALL.get(place.checked_sub(1)?).copied()
}

/// The second word of the form at a place, if its first word is that of the other form.
fn second_at(other: ReplyForm, place: usize) -> Option<&'static str> {
    let form = ReplyForm::ALL.get(place).copied()?;
    if form.first_word() != other.first_word() {
        return None;
    }
    form.second_word()
}

impl Display for Vocabulary {
    fn fmt<W: fmt::Write>(&self, f: &mut Formatter<W>) -> fmt::Result {
        let words = *self;
        let mut is_first = true;
        for place in 0..PLACES {
            if let Some(word) = words.word_at(place) {
                if !is_first {
                    f.write_str(" ")?;
                }
                f.write_str(word)?;
                is_first = false;
            }
        }
        Ok(())
    }
}
