//! What is counted of an order that was found.
use hek_history::Operation;
use hek_ladder::{Scene, order_of};
use hek_levels_search::Shown;
use hek_rules::NoMemory;
use std::alloc::Global;

/// How many transactions take place, how many reads and scans they have, and how many of them would have to move for
/// the others to commit by end time.
#[derive(Clone, Copy)]
pub(crate) struct Counts {
    pub transactions: u64,
    pub reads: u64,
    pub elsewhere: Option<u64>,
}

/// Counts what takes place in an explanation.
pub(crate) fn counts_of(scene: &Scene, shown: &Shown) -> Result<Counts, NoMemory> {
    let alloc = scene.alloc;
    let history = &scene.log.history;
    let mut ends = Vec::new(alloc);
    let mut transactions: u64 = 0;
    let mut reads: u64 = 0;
    for place in order_of(alloc, shown)?.iter() {
        if let Some(transaction) = history.transactions.get(*place) {
            transactions = transactions.saturating_add(1);
            reads = reads.saturating_add(reads_of(transaction.operations.as_slice()));
            if let Some(end) = transaction.end {
                ends.push(end)?;
            }
        }
    }
    Ok(Counts {
        transactions,
        reads,
        elsewhere: elsewhere(alloc, ends.as_slice())?,
    })
}

/// How many operations are reads or scans.
fn reads_of(operations: &[Operation]) -> u64 {
    let reads = operations.iter().filter(|one| matches!(
        **one,
        Operation::Read(_, _) | Operation::Scan(_, _)
    ));
    reads.count() as u64
}

/// How many of these times would have to move for the others to be in order; nothing without times. The times that can
/// stay are a longest part of them that doesn't fall: `least` has, for each length, the least last time of such a part.
fn elsewhere(alloc: Global, times: &[u64]) -> Result<Option<u64>, NoMemory> {
    if times.is_empty() {
        return Ok(None);
    }
    let mut least: Vec<u64> = Vec::new(alloc);
    for time in times {
        let place = least.partition_point(|last| *last <= *time);
        match least.get_mut(place) {
            Some(last) => *last = *time,
            None => least.push(*time)?,
        }
    }
    Ok(Some(times.len().saturating_sub(least.len()) as u64))
}
