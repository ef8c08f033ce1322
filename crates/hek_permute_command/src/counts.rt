//! How many orders have an outcome.
use hek_permute::{Outcome, Tally};
use hek_rules::TxnId;

/// Whether no tally before this one has the outcome.
pub(crate) fn is_first(tallies: &[Tally], column: usize, outcome: &Outcome) -> bool {
    for (place, tally) in tallies.iter().enumerate() {
        if place < column && count_of(tally, outcome) > 0 {
            return false;
        }
    }
    true
}

/// How many orders have the outcome.
pub(crate) fn count_of(tally: &Tally, outcome: &Outcome) -> u64 {
    for row in tally.rows() {
        if row.outcome().same(outcome) {
            return row.orders();
        }
    }
    0
}

/// The first order that has the outcome.
pub(crate) fn first_of<'t>(tally: &'t Tally, outcome: &Outcome) -> Option<&'t [TxnId]> {
    for row in tally.rows() {
        if row.outcome().same(outcome) {
            return Some(row.first());
        }
    }
    None
}

/// How many orders a tally has.
pub(crate) fn orders_of(tally: &Tally) -> u64 {
    let mut orders = 0u64;
    for row in tally.rows() {
        orders = orders.saturating_add(row.orders());
    }
    orders
}
