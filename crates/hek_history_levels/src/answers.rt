//! What operations leave at a key, and whether an answer is right.
ghost use Rattle.std.specs.Prelude.{◌≡◌};
ghost use Rattle.hek_rules.specs.Listing.{value_of as value_in};
ghost use Rattle.hek_history.specs.Answers.{fits as fits_at, same_found as same_as, tells as told_by, allows as allowed_by};
ghost use Rattle.hek_history_levels.specs.Changes.{left_of};
ghost use Rattle.hek_history_levels.specs.Reads.{need_of as need_in, need_at as need_there};

use hek_history::{Change, Operation, covers, key_of};
use hek_levels::Need;

/// What a change leaves of a key, if it changes it.
pub(crate) fn left(change: Change) -> Option<Option<u64>>
    ensures { result ≡ left_of change }
{
    match change {
        Change::Keep => None,
        Change::Remove => Some(None),
        Change::Set(x) => Some(Some(x)),
    }
}

/// A value is found, or absence.
fn need_of(found: Option<u64>) -> Need
    ensures { result ≡ need_in found }
{
    match found {
        None => Need::Absent,
        Some(x) => Need::Value(x),
    }
}

/// What an answer says of the operation's key, if it says something.
pub(crate) fn need_at(operation: &Operation) -> Option<Need>
    ensures { result ≡ need_there operation.now }
{
    match operation {
        Operation::Read(_, found) => Some(need_of(*found)),
        Operation::Put(_, _) | Operation::Scan(_, _) => None,
        Operation::Insert(_, _, done) => { Some(if *done { Need::Absent } else { Need::Present }) }
        Operation::Update(_, _, done) | Operation::Delete(_, done) => {
            Some(if *done { Need::Present } else { Need::Absent })
        }
    }
}

/// The value of a key in rows.
pub(crate) fn value_of(rows: &[(u64, u64)], key: u64) -> Option<u64>
    ensures { result ≡ value_in rows.now key }
{
    for row in rows {
        if row.0 == key {
            return Some(row.1);
        }
    }
    None
}

/// Whether two values, or their absence, are the same.
fn same_found(found: Option<u64>, value: Option<u64>) -> bool
    ensures { result ≡ same_as found value }
{
    match (found, value) {
        (None, None) => true,
        (Some(x), Some(y)) => x == y,
        (None, Some(_)) | (Some(_), None) => false,
    }
}

/// Whether the answer is right where the key has this value, or is absent.
fn fits(operation: &Operation, value: Option<u64>) -> bool
    ensures { result ≡ fits_at operation.now value }
{
    match operation {
        Operation::Read(_, found) => same_found(*found, value),
        Operation::Put(_, _) | Operation::Scan(_, _) => true,
        Operation::Insert(_, _, done) => {
            if *done {
                value.is_none()
            } else {
                value.is_some()
            }
        }
        Operation::Update(_, _, done) | Operation::Delete(_, done) => {
            if *done {
                value.is_some()
            } else {
                value.is_none()
            }
        }
    }
}

/// Whether the answer says that the key had this value, or was absent.
fn tells(key: u64, operation: &Operation, value: Option<u64>) -> bool
    ensures { result ≡ told_by key operation.now value }
{
    match operation {
        Operation::Scan(scope, pairs) => {
            let found = value_of(pairs.as_slice(), key);
            if covers(*scope, key) {
                same_found(found, value)
            } else {
                found.is_none()
            }
        }
        _ => {
            if key_of(operation) == key {
                fits(operation, value)
            } else {
                true
            }
        }
    }
}

/// Whether the answer allows that the key had this value, or was absent; a lenient one allows all where it is right of absence.
pub(crate) fn allows(lenient: bool, key: u64, operation: &Operation, value: Option<u64>) -> bool
    ensures { result ≡ allowed_by lenient key operation.now value }
{
    lenient && tells(key, operation, None) || tells(key, operation, value)
}
