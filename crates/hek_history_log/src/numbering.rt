//! The numbers that stand for labels.
ghost use Rattle.std.specs.Prelude.{◌≡◌, ◌<◌, ◌^◌, ℕ, Ok, None, true, false};
ghost use Rattle.hek_history_log.specs.HasRead.{HasNoEntry};
ghost use Rattle.hek_history_log.specs.Readable.{IsOwn};
ghost use Rattle.hek_history_log.specs.declared.shown.Label.TheVariants.{Number};

use crate::shown::Label;
use hek_rules::NoMemory;
use indexmap::IndexSet;
use std::alloc::Global;

/// From this number on a number stands for an entry of `Labels`.
const ENTRIES: u64 = 1 << 63;

/// What a number from `ENTRIES` on stands for, by what is left of it when divided by `KINDS`.
#[derive(Clone, Copy, PartialEq, Eq)]
enum Kind {
    Large,
    Text,
    Negative,
}

const KINDS: u64 = 4;

/// Labels by number. A number below 2^63 stands for itself. Larger ones, texts and numbers below zero have the numbers from
/// 2^63 on, each kind in the order in which they came.
#[derive(Drop)]
pub(crate) struct Labels {
    texts: IndexSet<String>,
    large: IndexSet<u64>,
    negative: IndexSet<i64>,
}

impl Labels {
    /// No label but the numbers that stand for themselves.
    pub(crate) fn new(alloc: Global) -> Labels
        ensures { HasNoEntry result }
    {
        Labels {
            texts: IndexSet::new(alloc),
            large: IndexSet::new(alloc),
            negative: IndexSet::new(alloc),
        }
    }

    /// The number of a label, which is kept.
    pub(crate) fn number_of(&mut self, alloc: Global, label: Label<'_>) -> Result<u64, NoMemory>
        ensures { (n : ℕ) → IsOwn n → label.entry ≡ Number n
            → (result ≡ Ok n) × (self.new ≡ self.old) }
    {
        match label {
            Label::Number(number) => self.number_of_number(number),
            Label::Negative(number) => self.number_of_negative(number),
            Label::Text(text) => self.number_of_text(alloc, text),
        }
    }

    fn number_of_number(&mut self, number: u64) -> Result<u64, NoMemory>
        ensures { IsOwn number → (result ≡ Ok number) × (self.new ≡ self.old) }
    {
        if number < ENTRIES {
            return Ok(number);
        }
        let (place, _) = self.large.insert_full(number)?;
        entry_number(place, Kind::Large)
    }

    fn number_of_negative(&mut self, number: i64) -> Result<u64, NoMemory> {
        let (place, _) = self.negative.insert_full(number)?;
        entry_number(place, Kind::Negative)
    }

    fn number_of_text(&mut self, alloc: Global, text: &str) -> Result<u64, NoMemory> {
        if let Some(place) = self.texts.get_index_of(text) {
            return entry_number(place, Kind::Text);
        }
        let (place, _) = self.texts.insert_full(String::from_str(alloc, text)?)?;
        entry_number(place, Kind::Text)
    }

    /// The label with a number; a number that stands for no entry is its own label.
    pub(crate) fn label(&self, number: u64) -> Label<'_>
        ensures { number < 2 ^ 63 → result ≡ Number number }
    {
        if number < ENTRIES {
            return Label::Number(number);
        }
        self.entry(number).unwrap_or(Label::Number(number))
    }

    /// The entry that a number stands for.
    fn entry(&self, number: u64) -> Option<Label<'_>> {
        let (kind, place) = entry_place(number)?;
        match kind {
            Kind::Large => Some(Label::Number(*self.large.get_index(place)?)),
            Kind::Text => Some(Label::Text(self.texts.get_index(place)?.as_str())),
            Kind::Negative => Some(Label::Negative(*self.negative.get_index(place)?)),
        }
    }

    /// Whether a number stands for a text.
    pub(crate) fn is_text(number: u64) -> bool
        ensures { IsOwn number → result ≡ false }
    {
        Labels::text_place(number).is_some()
    }

    /// The place among the texts of the text that a number stands for.
    pub(crate) fn text_place(number: u64) -> Option<usize>
        ensures { IsOwn number → result ≡ None }
    {
        match entry_place(number)? {
            (Kind::Text, place) => Some(place),
            _ => None,
        }
    }

    /// The texts in the order in which they came.
    pub(crate) fn texts(&self) -> &[String]
        ensures { result.now ≡ self.now.texts.keys }
    {
        self.texts.as_slice()
    }

    /// Whether each label is its own number.
    pub(crate) fn are_small(&self) -> bool
        ensures { HasNoEntry self.now → result ≡ true }
    {
        self.texts.is_empty() && self.large.is_empty() && self.negative.is_empty()
    }
}

/// The number of the entry of a kind at a place.
fn entry_number(place: usize, kind: Kind) -> Result<u64, NoMemory> {
    let place = place as u64;
    if place >= ENTRIES / KINDS {
        return Err(NoMemory);
    }
    let first = ENTRIES + place * KINDS;
    Ok(match kind {
        Kind::Large => first,
        Kind::Text => first + 1,
        Kind::Negative => first + 2,
    })
}

/// The kind and the place of the entry that a number stands for.
fn entry_place(number: u64) -> Option<(Kind, usize)>
    ensures { IsOwn number → result ≡ None }
{
    let entry = number.checked_sub(ENTRIES)?;
    let kind = match entry % KINDS {
        0 => Kind::Large,
        1 => Kind::Text,
        2 => Kind::Negative,
        _ => return None,
    };
    Some((kind, (entry / KINDS) as usize))
}
