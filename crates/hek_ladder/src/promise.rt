//! What a log can be asked for.
ghost use Rattle.std.specs.Prelude.{◌≡◌};
ghost use Rattle.hek_ladder.specs.Findings.{rules_at};

use hek_levels::{Guarantees, Level, Rules};

/// A level, or a guarantee of sessions.
#[derive(Clone, Copy, PartialEq, Eq)]
pub enum Promise {
    Serializable,
    Snapshot,
    ParallelSnapshot,
    Prefix,
    Causal,
    ReadAtomic,
    MonotonicView,
    ReadCommitted,
    ReadUncommitted,
    /// Serializable, with no answer of absence judged.
    Repeatable,
    /// Each transaction at the level that its line gives.
    Own,
    MonotonicReads,
    ReadYourWrites,
    MonotonicWrites,
    WritesFollowReads,
    /// All four, by one explanation.
    AllGuarantees,
}

const NO_GUARANTEES: Guarantees = Guarantees {
    monotonic_reads: false,
    read_your_writes: false,
    monotonic_writes: false,
    writes_follow_reads: false,
};

const ALL_GUARANTEES: Guarantees = Guarantees {
    monotonic_reads: true,
    read_your_writes: true,
    monotonic_writes: true,
    writes_follow_reads: true,
};

impl Promise {
    /// The levels, the strongest first: what holds at one holds at those after it, but that of the parallel snapshot and the prefix
    /// neither implies the other.
    pub const LEVELS: [Promise; 9] = [
        Promise::Serializable,
        Promise::Snapshot,
        Promise::ParallelSnapshot,
        Promise::Prefix,
        Promise::Causal,
        Promise::ReadAtomic,
        Promise::MonotonicView,
        Promise::ReadCommitted,
        Promise::ReadUncommitted,
    ];

    /// The guarantees of sessions; the last is all of them.
    pub const GUARANTEES: [Promise; 5] = [
        Promise::MonotonicReads,
        Promise::ReadYourWrites,
        Promise::MonotonicWrites,
        Promise::WritesFollowReads,
        Promise::AllGuarantees,
    ];

    /// All, in the order in which a help lists them.
    const ALL: [Promise; 16] = [
        Promise::Serializable,
        Promise::Repeatable,
        Promise::Snapshot,
        Promise::ParallelSnapshot,
        Promise::Prefix,
        Promise::Causal,
        Promise::ReadAtomic,
        Promise::MonotonicView,
        Promise::ReadCommitted,
        Promise::ReadUncommitted,
        Promise::Own,
        Promise::MonotonicReads,
        Promise::ReadYourWrites,
        Promise::MonotonicWrites,
        Promise::WritesFollowReads,
        Promise::AllGuarantees,
    ];

    /// The words of all.
    pub const WORDS: &'static [&'static str] = &[
        "serializable",
        "repeatable",
        "snapshot",
        "parallel-snapshot",
        "prefix",
        "causal",
        "read-atomic",
        "monotonic-view",
        "read-committed",
        "read-uncommitted",
        "own",
        "monotonic-reads",
        "read-your-writes",
        "monotonic-writes",
        "writes-follow-reads",
        "guarantees",
    ];

    /// The word of the level or guarantee, in options and verdicts.
    pub fn word(self) -> &'static str {
        for (one, word) in Promise::ALL.iter().zip(Promise::WORDS.iter()) {
            if *one == self {
                return word;
            }
        }
        ""
    }

    /// The level or guarantee that a word names.
    pub fn named(wanted: &str) -> Option<Promise> {
        for (one, word) in Promise::ALL.iter().zip(Promise::WORDS.iter()) {
            let word: &str = word;
            if word == wanted {
                return Some(*one);
            }
        }
        None
    }

    /// The rules of all transactions; those of read uncommitted are about turns alone, and the own ones are those of a log.
    pub fn rules(self) -> Rules
        ensures { result ≡ rules_at self }
    {
        match self {
            Promise::Serializable | Promise::Repeatable | Promise::Own | Promise::ReadUncommitted =>
                Level::Serializable.rules(),
            Promise::Snapshot => Level::Snapshot.rules(),
            Promise::ParallelSnapshot => Level::ParallelSnapshot.rules(),
            Promise::Prefix => Level::Prefix.rules(),
            Promise::Causal => Level::Causal.rules(),
            Promise::ReadAtomic => Level::ReadAtomic.rules(),
            Promise::MonotonicView => Level::MonotonicView.rules(),
            Promise::ReadCommitted => Level::ReadCommitted.rules(),
            Promise::MonotonicReads => Guarantees {
                monotonic_reads: true,
                ..NO_GUARANTEES
            }
            .rules(),
            Promise::ReadYourWrites => Guarantees {
                read_your_writes: true,
                ..NO_GUARANTEES
            }
            .rules(),
            Promise::MonotonicWrites => Guarantees {
                monotonic_writes: true,
                ..NO_GUARANTEES
            }
            .rules(),
            Promise::WritesFollowReads => Guarantees {
                writes_follow_reads: true,
                ..NO_GUARANTEES
            }
            .rules(),
            Promise::AllGuarantees => ALL_GUARANTEES.rules(),
        }
    }

    /// Whether it is about sessions alone.
    pub fn is_guarantee(self) -> bool {
        Promise::GUARANTEES.contains(&self)
    }

    /// Whether one level that holds answers another, which stands after it among the levels.
    pub fn implies(self, weaker: Promise) -> bool {
        !matches!((self, weaker), (Promise::ParallelSnapshot, Promise::Prefix))
    }
}
