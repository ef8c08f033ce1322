//! Lists that replies hold: pairs of a scan, and members of a cycle.
ghost use Rattle.std.specs.Prelude.{◌≡◌, ◌↔◌, IfOk, IsTrue};

use crate::id::TxnId;
use crate::memory::NoMemory;
use std::marker::Model;

/// Keys with their values. In a reply they are sorted by key, each key once.
#[derive(Debug, Drop)]
pub struct Pairs {
    pairs: Vec<(u64, u64)>,
}

impl Model for Pairs {
    ghost use Rattle.std.specs.Prelude.{ℕ, List};

    ghost Value = { List (ℕ × ℕ) };

    ghost view = { λ p. p.pairs.items };
}

impl Pairs {
    /// These pairs, in this order.
    pub fn new(pairs: Vec<(u64, u64)>) -> Pairs
        ensures { result ≡ pairs.items }
    {
        Pairs { pairs }
    }

    /// The pairs, in order.
    pub fn items(&self) -> &[(u64, u64)]
        ensures { result.now ≡ self.now }
    {
        self.pairs.as_slice()
    }

    /// An equal list, or NoMemory.
    pub fn copy(&self) -> Result<Pairs, NoMemory>
        ensures { IfOk result (λ pairs. pairs ≡ self.now) }
    {
        Ok(Pairs {
            pairs: self.pairs.clone()?,
        })
    }

    /// Whether the lists are equal.
    pub fn same(&self, other: &Pairs) -> bool
        ensures { IsTrue result ↔ (self.now ≡ other.now) }
    {
        self.pairs == other.pairs
    }
}

/// The transactions of a cycle of waits, from the victim on: each waits for the next, and the last for the victim. Few
/// replies have them, and the box keeps a reply at 32 bytes instead of 40.
#[derive(Debug, Drop)]
pub struct Members {
    members: Box<Vec<TxnId>>,
}

impl Model for Members {
    ghost use Rattle.std.specs.Prelude.{ℕ, List};

    ghost Value = { List ℕ };

    ghost view = { λ m. m.members.value.items };
}

impl Members {
    /// These members, in this order.
    pub fn new(members: Box<Vec<TxnId>>) -> Members
        ensures { result ≡ members.value.items }
    {
        Members { members }
    }

    /// The members, in order.
    pub fn items(&self) -> &[TxnId]
        ensures { result.now ≡ self.now }
    {
        self.members.as_slice()
    }

    /// An equal list, or NoMemory.
    pub fn copy(&self) -> Result<Members, NoMemory>
        ensures { IfOk result (λ members. members ≡ self.now) }
    {
        Ok(Members {
            members: self.members.clone()?,
        })
    }

    /// Whether the lists are equal.
    pub fn same(&self, other: &Members) -> bool
        ensures { IsTrue result ↔ (self.now ≡ other.now) }
    {
        self.members == other.members
    }
}
