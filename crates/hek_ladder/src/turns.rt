//! The turns of the transactions of a log: what binds.
use crate::binding::Binding;
use hek_anomalies::{Lane, Lanes};
use hek_history::{Change, Status, Transaction, change_of, key_of};
use hek_history_log::Log;
use hek_levels::Turn;
use hek_rules::NoMemory;
use std::alloc::Global;

/// The turns of each transaction, by their places.
pub(crate) fn turns_of(
    alloc: Global,
    log: &Log,
    binding: Binding,
    lanes: &mut Lanes,
) -> Result<Vec<Vec<Turn>>, NoMemory> {
    let mut all = Vec::new(alloc);
    let mut turns = Vec::new(alloc);
    for t in 0..log.history.transactions.len() {
        turns.clear();
        if let Some(transaction) = log.history.transactions.get(t) {
            if transaction.status != Status::Aborted {
                add_turns(log, binding, t, transaction, lanes, &mut turns)?;
            }
        }
        all.push(Vec::from_slice(alloc, turns.as_slice())?)?;
    }
    Ok(all)
}

/// Adds the turns of a transaction.
fn add_turns(
    log: &Log,
    binding: Binding,
    t: usize,
    transaction: &Transaction,
    lanes: &mut Lanes,
    turns: &mut Vec<Turn>,
) -> Result<(), NoMemory> {
    if binding.sessions {
        if let Some(turn) = log.turn(t) {
            turns.push(lanes.turn(Lane::Session(turn.session), turn.number, turn.number)?)?;
        }
    }
    if binding.real {
        let (first, last) = times_of(transaction);
        turns.push(lanes.turn(Lane::RealTime, first, last)?)?;
    }
    if binding.versions {
        add_versions(log, t, lanes, turns)?;
        if let Some(end) = transaction.end {
            add_ends(transaction, end, lanes, turns)?;
        }
    }
    Ok(())
}

/// Adds the version numbers of a transaction, of each key from the least to the greatest.
fn add_versions(
    log: &Log,
    t: usize,
    lanes: &mut Lanes,
    turns: &mut Vec<Turn>,
) -> Result<(), NoMemory> {
    let from = turns.len();
    for version in log.versions_of(t) {
        let lane = Lane::Versions(version.key);
        turns.push(lanes.turn(lane, version.number, version.number)?)?;
    }
    if from <= turns.len() {
        let (_before, own) = turns.split_at_mut(from);
        own.sort_unstable_by_key(|turn| (turn.lane, turn.first));
        for n in 1..own.len() {
            if own[n - 1].lane == own[n].lane {
                own[n].first = own[n - 1].first;
            }
        }
        own.reverse();
    }
    // of each lane the one with the greatest number is the first now
    turns.dedup_by_key(|turn| turn.lane);
    Ok(())
}

/// When a transaction was invoked and answered. One without a time is before nobody, or after nobody.
fn times_of(transaction: &Transaction) -> (u64, u64) {
    let first = transaction.invoked.unwrap_or(0);
    let last = match transaction.status {
        Status::Committed => transaction.answered.unwrap_or(u64::MAX),
        Status::Aborted | Status::Unknown => u64::MAX,
    };
    (first, last)
}

/// Adds the end of a transaction as its turn among the writers of each key that it changes.
fn add_ends(
    transaction: &Transaction,
    end: u64,
    lanes: &mut Lanes,
    turns: &mut Vec<Turn>,
) -> Result<(), NoMemory> {
    let from = turns.len();
    for operation in &transaction.operations {
        if change_of(operation) != Change::Keep {
            turns.push(lanes.turn(Lane::Ends(key_of(operation)), end, end)?)?;
        }
    }
    if from <= turns.len() {
        let (_before, own) = turns.split_at_mut(from);
        own.sort_unstable_by_key(|turn| turn.lane);
    }
    turns.dedup_by_key(|turn| turn.lane);
    Ok(())
}
