//! How many of the keys of a scan have a row, while rows come and go.
use crate::lists::{add, at, put};
use hek_rules::NoMemory;
use std::alloc::Global;

/// Counts over places: each count is that of the places that end at its own, as many as the lowest one of its digits in binary says.
#[derive(Drop)]
pub(crate) struct RowsWithin {
    counts: Vec<u32>,
}

impl RowsWithin {
    /// No place.
    pub(crate) fn new(alloc: Global) -> RowsWithin {
        RowsWithin {
            counts: Vec::new(alloc),
        }
    }

    /// So many places, none of which has a row.
    pub(crate) fn fill(&mut self, places: usize) -> Result<(), NoMemory> {
        for _ in 0..places.saturating_add(1) {
            add(&mut self.counts, 0)?;
        }
        Ok(())
    }

    /// A row comes to a place, or goes.
    pub(crate) fn change(&mut self, place: usize, comes: bool) {
        let mut at_count = place.saturating_add(1);
        for _ in 0..usize::BITS {
            let before = at(self.counts.as_slice(), at_count, 0);
            let after = if comes {
                before.saturating_add(1)
            } else {
                before.saturating_sub(1)
            };
            put(&mut self.counts, at_count, after);
            at_count = at_count.saturating_add(lowest_digit(at_count));
        }
    }

    /// How many of the places below one have a row.
    fn below(&self, place: usize) -> u64 {
        let mut sum: u64 = 0;
        let mut at_count = place;
        for _ in 0..usize::BITS {
            if at_count == 0 {
                break;
            }
            sum = sum.saturating_add(u64::from(at(self.counts.as_slice(), at_count, 0)));
            at_count = at_count.saturating_sub(lowest_digit(at_count));
        }
        sum
    }

    /// How many of the places from one up to another have a row.
    pub(crate) fn between(&self, from: usize, to: usize) -> u64 {
        self.below(to).saturating_sub(self.below(from))
    }
}

/// The lowest digit of a number in binary that isn't zero, as a number.
fn lowest_digit(number: usize) -> usize {
    number & number.wrapping_neg()
}
