//! Conditions of `break if`, over how many others a transaction waits for.
use hek_debug::Mark;
use hek_machine::Machine;
use hek_rules::{Schedule, TxnId, next_word, number};

/// How a condition compares a counter with a number.
#[derive(Clone, Copy, PartialEq, Eq)]
pub(crate) enum Comparison {
    Less,
    AtMost,
    Equal,
    Unequal,
    AtLeast,
    More,
}

/// The words of the comparisons. Where two have one meaning, the first is printed.
const COMPARISONS: &[(&str, Comparison)] = &[
    ("<", Comparison::Less),
    ("<=", Comparison::AtMost),
    ("=", Comparison::Equal),
    ("==", Comparison::Equal),
    ("!=", Comparison::Unequal),
    (">=", Comparison::AtLeast),
    (">", Comparison::More),
];

impl Comparison {
    /// The comparison with this word.
    pub(crate) fn named(word: &[u8]) -> Option<Comparison> {
        for row in COMPARISONS {
            if word == row.0.as_bytes() {
                return Some(row.1);
            }
        }
        None
    }

    pub(crate) fn word(self) -> &'static str {
        for row in COMPARISONS {
            if row.1 == self {
                return row.0;
            }
        }
        ""
    }

    fn is_met(self, count: u64, bound: u64) -> bool {
        match self {
            Comparison::Less => count < bound,
            Comparison::AtMost => count <= bound,
            Comparison::Equal => count == bound,
            Comparison::Unequal => count != bound,
            Comparison::AtLeast => count >= bound,
            Comparison::More => count > bound,
        }
    }
}

/// A condition `waits NAME OP N`: that a transaction, which has this number, waits for so many others.
#[derive(Clone, Copy)]
pub(crate) struct Condition {
    number: u64,
    pub(crate) comparison: Comparison,
    pub(crate) bound: u64,
}

impl Condition {
    /// The condition that these words are, with the names that a schedule gives.
    pub(crate) fn read(schedule: &Schedule, line: &[u8]) -> Option<Condition> {
        let (counter, rest) = next_word(line)?;
        if counter != b"waits".as_slice() {
            return None;
        }
        let (name, rest) = next_word(rest)?;
        let (comparison, rest) = next_word(rest)?;
        let (bound, rest) = next_word(rest)?;
        if next_word(rest).is_some() {
            return None;
        }
        Some(Condition {
            number: schedule.id_of(name)?.number(),
            comparison: Comparison::named(comparison)?,
            bound: number(bound)?,
        })
    }

    pub(crate) fn txn(self) -> TxnId {
        TxnId::new(self.number)
    }

    /// Whether the condition is true.
    pub(crate) fn is_met(self, machine: &Machine) -> bool {
        match Mark::WatchWaits(self.txn()).look(machine) {
            Some(count) => self.comparison.is_met(count, self.bound),
            None => false,
        }
    }
}
