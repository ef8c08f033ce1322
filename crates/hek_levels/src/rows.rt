//! Rows by key.
ghost use Rattle.std.specs.Prelude.{◌≡◌, ◌==◌, ◌≤◌, ◌<◌, ℕ, None, Some, slice_get, is_some, IsTrue, OnOk, IfOk, true, if◌then◌else◌};
ghost use Rattle.hek_rules.specs.Listing.{value_of};
ghost use Rattle.hek_levels.specs.Logs.{left_in, misses as misses_it};
ghost use Rattle.hek_levels.specs.Rows.{row_of as row_there, either, left_over, IsAmong};

use crate::log::{Change, Scan};
use crate::logged::is_excepted;
use hek_history::{Scope, covers};
use hek_rules::NoMemory;
use std::alloc::Global;
use std::collections::BTreeMap;

/// The value of a key.
pub(crate) fn row_of(rows: &BTreeMap<u64, u64>, key: u64) -> Option<u64>
    ensures { result ≡ row_there rows.now key }
{
    rows.get(&key).copied()
}

/// One row more, unless its key has one.
fn put_row(rows: &mut BTreeMap<u64, u64>, row: (u64, u64)) -> Result<(), NoMemory>
    ensures { OnOk result ((k : ℕ) → row_there rows.new k ≡ either (row_there rows.old k) (if row.0 == k then Some row.1 else None)) }
{
    if rows.contains_key(&row.0) {
        return Ok(());
    }
    let _before = rows.insert(row.0, row.1)?;
    Ok(())
}

/// The rows by key.
pub(crate) fn by_key(alloc: Global, rows: &[(u64, u64)]) -> Result<BTreeMap<u64, u64>, NoMemory>
    ensures { IfOk result (λ map. (k : ℕ) → row_there map k ≡ value_of rows.now k) }
{
    let mut map = BTreeMap::new(alloc);
    for row in rows {
        put_row(&mut map, *row)?;
    }
    Ok(map)
}

/// A key gets a value, or goes.
fn change_row(rows: &mut BTreeMap<u64, u64>, change: Change) -> Result<(), NoMemory>
    ensures { OnOk result ((k : ℕ) → row_there rows.new k ≡ (if change.key == k then change.value else row_there rows.old k)) }
{
    match change.value {
        None => {
            let _value = rows.remove(&change.key);
            Ok(())
        }
        Some(value) => {
            let _before = rows.insert(change.key, value)?;
            Ok(())
        }
    }
}

/// The same of each of these; of two of one key the first counts.
pub(crate) fn change_rows(rows: &mut BTreeMap<u64, u64>, changes: &[Change]) -> Result<(), NoMemory>
    ensures { OnOk result ((k : ℕ) → row_there rows.new k ≡ left_over (left_in changes.now k) (row_there rows.old k)) }
{
    let mut n = changes.len();
    while 0 < n {
        n -= 1;
        change_row(rows, changes[n])?;
    }
    Ok(())
}

/// Whether a scan may miss a key.
fn may_miss(scan: &Scan, key: u64) -> bool
    ensures { misses_it scan.now key ≡ true → IsTrue result }
{
    covers(scan.scope, key) && !is_excepted(scan, key)
}

/// A key is among these, if a scan misses it.
fn note_missed(keys: &mut Vec<u64>, scan: &Scan, key: u64) -> Result<(), NoMemory>
    ensures kept { OnOk result ((k : ℕ) → IsAmong keys.old.items k → IsAmong keys.new.items k) }
    ensures there { OnOk result (misses_it scan.now key ≡ true → IsAmong keys.new.items key) }
{
    if may_miss(scan, key) {
        keys.push(key)?;
    }
    Ok(())
}

/// The keys of rows in a range that a scan misses.
fn missed_within(
    alloc: Global,
    rows: &BTreeMap<u64, u64>,
    scan: &Scan,
    from: u64,
    to: u64,
) -> Result<Vec<u64>, NoMemory>
    requires { from ≤ to }
    ensures { IfOk result (λ keys. (key : ℕ) → from ≤ key → key < to → misses_it scan.now key ≡ true → is_some (row_there rows.now key) ≡ true → IsAmong keys.items key) }
{
    let mut keys = Vec::new(alloc);
    for (key, _value) in rows.range(from..to) {
        note_missed(&mut keys, scan, *key)?;
    }
    Ok(keys)
}

/// The keys of rows that a scan misses.
fn missed_anywhere(
    alloc: Global,
    rows: &BTreeMap<u64, u64>,
    scan: &Scan,
) -> Result<Vec<u64>, NoMemory>
    ensures { IfOk result (λ keys. (key : ℕ) → misses_it scan.now key ≡ true → is_some (row_there rows.now key) ≡ true → IsAmong keys.items key) }
{
    let mut keys = Vec::new(alloc);
    for (key, _value) in rows {
        note_missed(&mut keys, scan, *key)?;
    }
    Ok(keys)
}

/// The keys of rows that a scan misses.
pub(crate) fn missed(
    alloc: Global,
    rows: &BTreeMap<u64, u64>,
    scan: &Scan,
) -> Result<Vec<u64>, NoMemory>
    ensures { IfOk result (λ keys. (key : ℕ) → misses_it scan.now key ≡ true → is_some (row_there rows.now key) ≡ true → IsAmong keys.items key) }
{
    match scan.scope {
        Scope::Range(from, to) if from <= to => missed_within(alloc, rows, scan, from, to),
        Scope::Range(_, _) => Ok(Vec::new(alloc)),
        Scope::Bucket(_, _) => missed_anywhere(alloc, rows, scan),
    }
}
