//! Names of transactions and versions, and points in time.
ghost use Rattle.std.specs.Prelude.{◌≡◌};

use std::marker::Model;

/// A transaction, by its number. Declared transactions have the numbers from 1 upward, but an event may name any.
/// A word can name 1 to 2^54 - 2.
#[derive(Clone, Copy, Debug, PartialEq, Eq, PartialOrd, Ord, Hash)]
pub struct TxnId {
    number: u64,
}

impl Model for TxnId {
    ghost use Rattle.std.specs.Prelude.{ℕ};

    ghost Value = { ℕ };

    ghost view = { λ t. t.number };

    ghost inverse = { λ n. record { number = n } };
}

impl TxnId {
    /// The ID with this number. Transactions have numbers from 1 upward.
    pub fn new(number: u64) -> TxnId
        ensures { result ≡ number }
    {
        TxnId { number }
    }

    /// The number of the ID.
    pub fn number(self) -> u64
        ensures { result ≡ self }
    {
        self.number
    }
}

/// A version, by its place in the order of creation, from 0.
#[derive(Clone, Copy, Debug, PartialEq, Eq, PartialOrd, Ord, Hash)]
pub struct VersionId {
    index: u64,
}

impl Model for VersionId {
    ghost use Rattle.std.specs.Prelude.{ℕ};

    ghost Value = { ℕ };

    ghost view = { λ v. v.index };

    ghost inverse = { λ n. record { index = n } };
}

impl VersionId {
    /// The version at this index, counted from 0.
    pub fn new(index: u64) -> VersionId
        ensures { result ≡ index }
    {
        VersionId { index }
    }

    /// The index, counted from 0.
    pub fn index(self) -> u64
        ensures { result ≡ self }
    {
        self.index
    }
}

/// A point in time, as a draw from the clock gives it. A word can hold 0 to 2^63 - 1, the last of which is infinity.
#[derive(Clone, Copy, Debug, PartialEq, Eq, PartialOrd, Ord, Hash)]
pub struct Time {
    ticks: u64,
}

impl Model for Time {
    ghost use Rattle.std.specs.Prelude.{ℕ};

    ghost Value = { ℕ };

    ghost view = { λ t. t.ticks };

    ghost inverse = { λ n. record { ticks = n } };
}

impl Time {
    /// The ticks of the time that never comes, the last that a word can hold.
    pub const INFINITY: u64 = 0x7FFF_FFFF_FFFF_FFFF;

    /// The time after this many ticks of the clock.
    pub fn new(ticks: u64) -> Time
        ensures { result ≡ ticks }
    {
        Time { ticks }
    }

    /// The time in ticks of the clock.
    pub fn number(self) -> u64
        ensures { result ≡ self }
    {
        self.ticks
    }
}
