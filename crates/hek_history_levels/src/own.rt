//! The changes of a transaction so far.
ghost use Rattle.std.specs.Prelude.{◌≡◌, ◌==◌, ◌++◌, ℕ, Some, None, OnOk, slice_get, if◌then◌else◌};
ghost use Rattle.std.specs.HashMap.{get as get_in};
ghost use Rattle.hek_levels.specs.declared.log.Change.{Change as TheChange};
ghost use Rattle.hek_history_levels.specs.Taking.{own_left, IsOwn, undone};

use hek_levels::Change;
use hek_rules::NoMemory;
use std::collections::HashMap;

/// The changes of a transaction so far.
#[derive(Drop)]
pub(crate) struct Own {
    /// The last change of each key.
    pub writes: Vec<Change>,
    /// Where each key's is.
    pub places: HashMap<u64, usize>,
    /// Those that a later one undid.
    pub passing: Vec<Change>,
}

/// Where the last change of a key is.
fn place_of(own: &Own, key: u64) -> Option<usize>
    ensures { result ≡ get_in ◌==◌ own.now.places key }
{
    own.places.get(&key).copied()
}

/// What the transaction has left at a key so far.
pub(crate) fn own_of(own: &Own, key: u64) -> Option<Option<u64>>
    ensures { result ≡ own_left own.now key }
{
    match place_of(own, key) {
        Some(place) => match own.writes.get(place) {
            Some(change) => Some(change.value),
            None => None,
        },
        None => None,
    }
}

/// The first change of its key.
fn add(own: &mut Own, change: Change) -> Result<(), NoMemory>
    requires own { IsOwn own.old }
    requires absent { get_in ◌==◌ own.old.places change.key ≡ None }
    ensures own { OnOk result (IsOwn own.new) }
    ensures left { OnOk result ((key : ℕ) → own_left own.new key ≡ (if change.key == key then Some change.value else own_left own.old key)) }
    ensures passing { OnOk result (own.new.passing.items ≡ own.old.passing.items) }
{
    let place = own.writes.len();
    let _before = own.places.insert(change.key, place)?;
    own.writes.push(change)?;
    Ok(())
}

/// A change of its key that undoes the one at a place.
fn replace(own: &mut Own, place: usize, change: Change) -> Result<(), NoMemory>
    requires own { IsOwn own.old }
    requires there { get_in ◌==◌ own.old.places change.key ≡ Some place }
    ensures own { OnOk result (IsOwn own.new) }
    ensures left { OnOk result ((key : ℕ) → own_left own.new key ≡ (if change.key == key then Some change.value else own_left own.old key)) }
    ensures passing { OnOk result (own.new.passing.items ≡ own.old.passing.items ++ undone change.key (own_left own.old change.key)) }
{
    let before = own.writes[place];
    own.writes[place] = change;
    own.passing.push(before)?;
    Ok(())
}

/// A change.
pub(crate) fn note(own: &mut Own, change: Change) -> Result<(), NoMemory>
    requires own { IsOwn own.old }
    ensures own { OnOk result (IsOwn own.new) }
    ensures left { OnOk result ((key : ℕ) → own_left own.new key ≡ (if change.key == key then Some change.value else own_left own.old key)) }
    ensures passing { OnOk result (own.new.passing.items ≡ own.old.passing.items ++ undone change.key (own_left own.old change.key)) }
{
    match place_of(own, change.key) {
        Some(place) => replace(own, place, change),
        None => add(own, change),
    }
}
