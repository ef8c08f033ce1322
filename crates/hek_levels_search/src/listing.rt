//! The keys that scans miss of which there are readings.
use crate::lists::add;
use crate::problem::{Absence, Problem};
use hek_levels::{Log, scans_of};
use hek_rules::NoMemory;

/// How many keys all scans miss together, at most, where each of them is a reading from the start.
const MOST_ABSENCES: usize = 400_000;

/// How many keys that scans miss are looked at together, at most.
const MOST_LISTED: usize = 2_000_000;

/// The keys that scans miss of which there are readings.
pub(crate) type Listed = Vec<Absence>;

/// More keys that scans miss are readings. Answers whether there is room for them, and they are new.
pub(crate) fn list(listed: &mut Listed, missed: &[Absence]) -> Result<bool, NoMemory> {
    let before = listed.len();
    if before.saturating_add(missed.len()) > MOST_LISTED {
        return Ok(false);
    }
    listed.extend_from_slice(missed)?;
    listed.sort_unstable();
    listed.dedup();
    Ok(listed.len() != before)
}

/// All keys that the scans of a transaction miss are readings.
pub(crate) fn list_all_of(
    log: &Log,
    problem: &Problem,
    t: usize,
    listed: &mut Listed,
) -> Result<(), NoMemory> {
    for (place, scan) in scans_of(log, t).iter().enumerate() {
        let (from, to) = problem.keys.places_of(scan.scope);
        for there in from..to {
            let key = problem.keys.name(problem.keys.key_at(scan.scope, there));
            if scan.except.binary_search(&key).is_err() {
                add(
                    listed,
                    Absence {
                        transaction: t,
                        scan: place,
                        key,
                    },
                )?;
            }
        }
    }
    Ok(())
}

/// Whether some transaction has a scan.
pub(crate) fn has_scans(log: &Log) -> bool {
    for t in 0..log.transactions.len() {
        if !scans_of(log, t).is_empty() {
            return true;
        }
    }
    false
}

/// Whether all keys that scans miss are few together.
pub(crate) fn are_few(log: &Log, problem: &Problem) -> bool {
    let mut count: usize = 0;
    for t in 0..problem.transactions() {
        for scan in scans_of(log, t) {
            let (from, to) = problem.keys.places_of(scan.scope);
            count = count.saturating_add(to.saturating_sub(from));
        }
    }
    count <= MOST_ABSENCES
}
