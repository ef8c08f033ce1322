//! How the answers of a transaction contradict what it had done itself, or each other.
use hek_history::{Change, Operation, Scope, change_of, covers, key_of};
use hek_levels::Need;
use hek_levels_search::meets;
use hek_rules::NoMemory;
use std::alloc::Global;
use std::collections::HashMap;

/// How a transaction's answers contradict each other, whatever the others did.
#[derive(Clone, Copy)]
pub enum OwnFault {
    /// The operation found something else than what the transaction itself had left at the key.
    Contradicted {
        operation: usize,
        key: u64,
        left: Option<u64>,
        found: Need,
    },
    /// The two operations tell of two values of the key, which the transaction didn't change between them.
    Disagree {
        first: usize,
        second: usize,
        key: u64,
        before: Need,
        after: Need,
        /// Whether one of them is a scan that shows that the key is absent.
        missed: bool,
    },
    /// The pairs of the scan are not by key.
    Unordered {
        operation: usize,
    },
    /// The scan has a pair whose key it isn't of.
    Outside {
        operation: usize,
        key: u64,
    },
}

impl OwnFault {
    /// The key that it is of, if it is of one.
    pub fn key(self) -> Option<u64> {
        match self {
            OwnFault::Contradicted { key, .. }
            | OwnFault::Disagree { key, .. }
            | OwnFault::Outside { key, .. } => Some(key),
            OwnFault::Unordered { .. } => None,
        }
    }

    /// The operations that show it: one, or two.
    pub fn operations(self) -> (Option<usize>, usize) {
        match self {
            OwnFault::Contradicted { operation, .. }
            | OwnFault::Outside { operation, .. }
            | OwnFault::Unordered { operation } => (None, operation),
            OwnFault::Disagree { first, second, .. } => (Some(first), second),
        }
    }
}

/// What a transaction left at the keys that it changed so far.
type Left = HashMap<u64, Option<u64>>;

/// How the answers of these operations contradict what earlier ones left, if they do.
pub(crate) fn fault_in(
    alloc: Global,
    operations: &[Operation],
) -> Result<Option<OwnFault>, NoMemory> {
    let mut left = HashMap::new(alloc);
    for (n, operation) in operations.iter().enumerate() {
        let fault = fault_at(&left, n, operation);
        if fault.is_some() {
            return Ok(fault);
        }
        note_change(&mut left, operation)?;
    }
    Ok(None)
}

/// Notes what an operation leaves.
fn note_change(left: &mut Left, operation: &Operation) -> Result<(), NoMemory> {
    let value = match change_of(operation) {
        Change::Keep => return Ok(()),
        Change::Remove => None,
        Change::Set(value) => Some(value),
    };
    let _before = left.insert(key_of(operation), value)?;
    Ok(())
}

/// What is wrong with the answer of the operation at a place.
fn fault_at(left: &Left, n: usize, operation: &Operation) -> Option<OwnFault> {
    match operation {
        Operation::Scan(scope, pairs) => scan_fault(left, n, *scope, pairs.as_slice()),
        _ => {
            let found = found_by(operation)?;
            contradicted(left, n, key_of(operation), found)
        }
    }
}

/// The fault of a key at which something else was found than was left.
fn contradicted(left: &Left, operation: usize, key: u64, found: Need) -> Option<OwnFault> {
    let there = left.get(&key).copied()?;
    if meets(found, there) {
        return None;
    }
    Some(OwnFault::Contradicted {
        operation,
        key,
        left: there,
        found,
    })
}

/// What an operation found at its key.
fn found_by(operation: &Operation) -> Option<Need> {
    match operation {
        Operation::Read(_, Some(value)) => Some(Need::Value(*value)),
        Operation::Read(_, None) => Some(Need::Absent),
        Operation::Insert(_, _, done) => Some(if *done { Need::Absent } else { Need::Present }),
        Operation::Update(_, _, done) | Operation::Delete(_, done) => {
            Some(if *done { Need::Present } else { Need::Absent })
        }
        Operation::Put(_, _) | Operation::Scan(_, _) => None,
    }
}

/// What is wrong with a scan.
fn scan_fault(
    left: &Left,
    operation: usize,
    scope: Scope,
    pairs: &[(u64, u64)],
) -> Option<OwnFault> {
    let mut before: Option<u64> = None;
    for pair in pairs {
        let key = pair.0;
        if before.is_some_and(|other| key <= other) {
            return Some(OwnFault::Unordered { operation });
        }
        if !covers(scope, key) {
            return Some(OwnFault::Outside { operation, key });
        }
        before = Some(key);
    }
    let mut fault = None;
    let mut least = u64::MAX;
    for (key, _) in left.iter() {
        if covers(scope, *key) && *key <= least {
            let found = contradicted(left, operation, *key, listed(pairs, *key));
            if found.is_some() {
                fault = found;
                least = *key;
            }
        }
    }
    fault
}

/// What pairs say of a key.
fn listed(pairs: &[(u64, u64)], key: u64) -> Need {
    let place = pairs.partition_point(|pair| pair.0 < key);
    match pairs.get(place) {
        Some(pair) if pair.0 == key => Need::Value(pair.1),
        _ => Need::Absent,
    }
}
