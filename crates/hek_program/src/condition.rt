//! Conditions: comparisons of terms.
ghost use Rattle.std.specs.Prelude.{◌≡◌, [], IfOk};
ghost use Rattle.hek_program.specs.Conditions.{all_hold, compares, relates};

use crate::lookup::Lookup;
use crate::term::Amount;
use hek_rules::NoMemory;
use std::alloc::Global;
use std::marker::Model;

/// How two numbers are related.
#[derive(Clone, Copy, Debug, PartialEq, Eq)]
pub enum Relation {
    Equal,
    Unequal,
    Below,
    AtMost,
    Above,
    AtLeast,
}

impl Relation {
    /// Whether two numbers are so related.
    pub(crate) fn relates(self, left: u128, right: u128) -> bool
        ensures { result ≡ relates self left right }
    {
        match self {
            Relation::Equal => left == right,
            Relation::Unequal => left != right,
            Relation::Below => left < right,
            Relation::AtMost => left <= right,
            Relation::Above => right < left,
            Relation::AtLeast => right <= left,
        }
    }
}

/// Two terms, and how they are to be related.
#[derive(Drop, Debug)]
pub struct Comparison {
    pub left: Amount,
    pub relation: Relation,
    pub right: Amount,
}

impl Comparison {
    /// Whether the comparison holds. One with a term that is no number does not.
    pub fn holds<L: Lookup>(&self, lookup: &L) -> bool
        ensures { result ≡ compares (L.value_of lookup.now) self.now }
    {
        let Some(left) = self.left.sum(lookup) else {
            return false;
        };
        let Some(right) = self.right.sum(lookup) else {
            return false;
        };
        left.relates(self.relation, right)
    }

    /// An equal comparison, or NoMemory.
    pub fn copy(&self, alloc: Global) -> Result<Comparison, NoMemory>
        ensures { IfOk result (λ comparison. comparison ≡ self.now) }
    {
        Ok(Comparison {
            left: self.left.copy(alloc)?,
            relation: self.relation,
            right: self.right.copy(alloc)?,
        })
    }
}

/// Comparisons that are all to hold. Without one the condition always holds.
#[derive(Drop, Debug)]
pub struct Condition {
    comparisons: Vec<Comparison>,
}

impl Model for Condition {
    ghost use Rattle.std.specs.Prelude.{List};
    ghost use Rattle.hek_program.specs.declared.condition.Comparison.{Comparison};

    ghost Value = { List Comparison };

    ghost view = { λ c. c.comparisons.items };
}

impl Condition {
    /// The condition that all of these hold.
    pub fn new(comparisons: Vec<Comparison>) -> Condition
        ensures { result ≡ comparisons.items }
    {
        Condition { comparisons }
    }

    /// The condition that always holds.
    pub fn none(alloc: Global) -> Condition
        ensures { result ≡ [] }
    {
        Condition {
            comparisons: Vec::new(alloc),
        }
    }

    /// The comparisons, in order.
    pub fn comparisons(&self) -> &[Comparison]
        ensures { result.now ≡ self.now }
    {
        self.comparisons.as_slice()
    }

    /// Whether each comparison holds.
    pub fn holds<L: Lookup>(&self, lookup: &L) -> bool
        ensures { result ≡ all_hold (L.value_of lookup.now) self.now }
    {
        let mut rest = self.comparisons.as_slice();
        while let Some((comparison, later)) = rest.split_first() {
            if !comparison.holds(lookup) {
                return false;
            }
            rest = later;
        }
        true
    }

    /// An equal condition, or NoMemory.
    pub fn copy(&self, alloc: Global) -> Result<Condition, NoMemory>
        ensures { IfOk result (λ condition. condition ≡ self.now) }
    {
        Ok(Condition {
            comparisons: copies(alloc, self.comparisons.as_slice())?,
        })
    }
}

fn copies(alloc: Global, comparisons: &[Comparison]) -> Result<Vec<Comparison>, NoMemory>
    ensures { IfOk result (λ copies. copies.items ≡ comparisons.now) }
{
    let mut copies = Vec::new(alloc);
    let mut rest = comparisons;
    while let Some((comparison, later)) = rest.split_first() {
        copies.push(comparison.copy(alloc)?)?;
        rest = later;
    }
    Ok(copies)
}
