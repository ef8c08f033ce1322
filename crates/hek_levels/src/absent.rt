//! Keys that scans say are absent: of each that is touched before the reader the source is given, and all others have the opening.
ghost use Rattle.std.specs.Prelude.{◌≡◌, ◌==◌, ◌&&◌, ◌||◌, ◌+◌, ◌<◌, ◌≤◌, ℕ, true, Some, None, slice_get, length, is_some, IsTrue, IfOk, OnOk, if◌then◌else◌};
ghost use Rattle.std.specs.HashMap.{get as get_in};
ghost use Rattle.hek_levels.specs.declared.log.Place.TheVariants.{Missing as MissingAt};
ghost use Rattle.hek_levels.specs.declared.certificate.Writer.{Writer as TheWriter};
ghost use Rattle.hek_levels.specs.declared.certificate.Missing.{Missing as TheMissing};
ghost use Rattle.hek_levels.specs.declared.log.Scan.{Scan as TheScan};
ghost use Rattle.hek_levels.specs.Logs.{left_in};
ghost use Rattle.hek_levels.specs.Seen.{At};
ghost use Rattle.hek_levels.specs.Explanations.{given_at, given_of};
ghost use Rattle.hek_levels.specs.Places.{IsSourcedBy, AreMissingSourced, AreAllMissingSourced, AreTouched};
ghost use Rattle.hek_rules.specs.Listing.{value_of as value_in};
ghost use Rattle.hek_levels.specs.Absences.{given_in_map, AreGiven};
ghost use Rattle.hek_levels.specs.Rows.{row_of};

use crate::certificate::{Certificate, Missing, Writer};
use crate::log::{Change, Log, Place, Scan};
use crate::logged::{at, scans_of, writes_of};
use crate::rows::missed;
use crate::sourced::{is_sourced, missing_of};
use hek_rules::NoMemory;
use std::alloc::Global;
use std::collections::{BTreeMap, HashMap};

/// The source that is given of a scan and a key.
fn given(map: &HashMap<(usize, u64), Writer>, scan: usize, key: u64) -> Option<Writer>
    ensures { result ≡ given_in_map map.now scan key }
{
    map.get(&(scan, key)).copied()
}

/// One source more, unless its scan and key have one.
fn note(map: &mut HashMap<(usize, u64), Writer>, one: Missing) -> Result<(), NoMemory>
    ensures { OnOk result ((s k : ℕ) → given_in_map map.new s k ≡ (if is_some (given_in_map map.old s k) then given_in_map map.old s k else (if (one.scan == s) && (one.key == k) then Some one.writer else None))) }
{
    if given(map, one.scan, one.key).is_some() {
        return Ok(());
    }
    let _before = map.insert((one.scan, one.key), one.writer)?;
    Ok(())
}

/// The first source that is given of each scan and key.
fn by_place(alloc: Global, list: &[Missing]) -> Result<HashMap<(usize, u64), Writer>, NoMemory>
    ensures { IfOk result (λ map. (s k : ℕ) → given_in_map map s k ≡ given_at list.now s k) }
{
    let mut map = HashMap::new(alloc);
    for one in list {
        note(&mut map, *one)?;
    }
    Ok(map)
}

/// Whether the m-th of these keys has a source that is given, for the n-th scan.
fn is_given(map: &HashMap<(usize, u64), Writer>, n: usize, keys: &[u64], m: usize) -> bool
    ensures { IsTrue result → (key : ℕ) → slice_get keys.now m ≡ Some key → is_some (given_in_map map.now n key) ≡ true }
{
    match keys.get(m) {
        Some(key) => given(map, n, *key).is_some(),
        None => false,
    }
}

/// Whether each key with a row that the scan misses, which is the n-th, has a source that is given.
fn are_given(
    alloc: Global,
    rows: &BTreeMap<u64, u64>,
    map: &HashMap<(usize, u64), Writer>,
    n: usize,
    scan: &Scan,
) -> Result<bool, NoMemory>
    ensures { IfOk result (λ yes. IsTrue yes → AreGiven rows.now (given_in_map map.now) n scan.now) }
{
    let list = missed(alloc, rows, scan)?;
    let keys = list.as_slice();
    for m in 0..keys.len() {
        if !is_given(map, n, keys, m) {
            return Ok(false);
        }
    }
    Ok(true)
}

/// The same of the n-th scan.
fn are_given_at(
    alloc: Global,
    rows: &BTreeMap<u64, u64>,
    map: &HashMap<(usize, u64), Writer>,
    scans: &[Scan],
    n: usize,
) -> Result<bool, NoMemory>
    ensures { IfOk result (λ yes. IsTrue yes → (scan : TheScan) → slice_get scans.now n ≡ Some scan → AreGiven rows.now (given_in_map map.now) n scan) }
{
    match scans.get(n) {
        Some(scan) => are_given(alloc, rows, map, n, scan),
        None => Ok(true),
    }
}

/// The same of each scan.
fn are_each_given(
    alloc: Global,
    rows: &BTreeMap<u64, u64>,
    map: &HashMap<(usize, u64), Writer>,
    scans: &[Scan],
) -> Result<bool, NoMemory>
    ensures { IfOk result (λ yes. IsTrue yes → (n : ℕ) (scan : TheScan) → slice_get scans.now n ≡ Some scan → AreGiven rows.now (given_in_map map.now) n scan) }
{
    for n in 0..scans.len() {
        if !are_given_at(alloc, rows, map, scans, n)? {
            return Ok(false);
        }
    }
    Ok(true)
}

/// A key is touched from now on.
fn touch(touched: &mut BTreeMap<u64, u64>, key: u64) -> Result<(), NoMemory>
    ensures { OnOk result ((k : ℕ) → is_some (row_of touched.new k) ≡ ((key == k) || is_some (row_of touched.old k))) }
{
    let _before = touched.insert(key, key)?;
    Ok(())
}

/// The keys of rows are touched from now on.
fn touch_rows(touched: &mut BTreeMap<u64, u64>, rows: &[(u64, u64)]) -> Result<(), NoMemory>
    ensures { OnOk result ((k : ℕ) → is_some (row_of touched.new k) ≡ (is_some (value_in rows.now k) || is_some (row_of touched.old k))) }
{
    for row in rows {
        touch(touched, row.0)?;
    }
    Ok(())
}

/// The keys of changes are touched from now on.
fn touch_all(touched: &mut BTreeMap<u64, u64>, changes: &[Change]) -> Result<(), NoMemory>
    ensures { OnOk result ((k : ℕ) → is_some (row_of touched.new k) ≡ (is_some (left_in changes.now k) || is_some (row_of touched.old k))) }
{
    for change in changes {
        touch(touched, change.key)?;
    }
    Ok(())
}

/// Whether the source that is given of a scan and a key is one, before i.
fn is_right(
    log: &Log,
    places: &HashMap<usize, usize>,
    map: &HashMap<(usize, u64), Writer>,
    i: usize,
    t: usize,
    one: Missing,
) -> bool
    ensures { IsTrue result → (w : TheWriter) → given_in_map map.now one.scan one.key ≡ Some w → IsSourcedBy log.now (get_in ◌==◌ places.now) i t (MissingAt one.scan one.key) w }
{
    let place = Place::Missing {
        scan: one.scan,
        key: one.key,
    };
    match given(map, one.scan, one.key) {
        Some(source) => is_sourced(log, places, i, t, place, source),
        None => true,
    }
}

/// The same of the n-th of these.
fn is_right_at(
    log: &Log,
    places: &HashMap<usize, usize>,
    map: &HashMap<(usize, u64), Writer>,
    i: usize,
    t: usize,
    list: &[Missing],
    n: usize,
) -> bool
    ensures { IsTrue result → (one : TheMissing) (w : TheWriter) → slice_get list.now n ≡ Some one → given_in_map map.now one.scan one.key ≡ Some w → IsSourcedBy log.now (get_in ◌==◌ places.now) i t (MissingAt one.scan one.key) w }
{
    match list.get(n) {
        Some(one) => is_right(log, places, map, i, t, *one),
        None => true,
    }
}

/// The same of each of these.
fn are_right(
    log: &Log,
    places: &HashMap<usize, usize>,
    map: &HashMap<(usize, u64), Writer>,
    i: usize,
    t: usize,
    list: &[Missing],
) -> bool
    requires { (s k : ℕ) → given_in_map map.now s k ≡ given_at list.now s k }
    ensures { IsTrue result → (s k : ℕ) (w : TheWriter) → given_at list.now s k ≡ Some w → IsSourcedBy log.now (get_in ◌==◌ places.now) i t (MissingAt s k) w }
{
    for n in 0..list.len() {
        if !is_right_at(log, places, map, i, t, list, n) {
            return false;
        }
    }
    true
}

/// Whether the keys that the scans of t miss, which stands at the place i, have their sources before i: all that are touched so far
/// one that is given.
fn are_missing_sourced_at(
    alloc: Global,
    log: &Log,
    certificate: &Certificate,
    places: &HashMap<usize, usize>,
    touched: &BTreeMap<u64, u64>,
    i: usize,
    t: usize,
) -> Result<bool, NoMemory>
    requires { AreTouched log.now certificate.now.order.items i (λ k. is_some (row_of touched.now k)) }
    ensures { IfOk result (λ yes. IsTrue yes → AreMissingSourced log.now certificate.now (get_in ◌==◌ places.now) i t) }
{
    let list = missing_of(certificate, t);
    let map = by_place(alloc, list)?;
    if !are_each_given(alloc, touched, &map, scans_of(log, t))? {
        return Ok(false);
    }
    Ok(are_right(log, places, &map, i, t, list))
}

/// The same of the transaction at the place i, whose keys are touched then.
fn advance(
    alloc: Global,
    log: &Log,
    certificate: &Certificate,
    places: &HashMap<usize, usize>,
    touched: &mut BTreeMap<u64, u64>,
    i: usize,
) -> Result<bool, NoMemory>
    requires { AreTouched log.now certificate.now.order.items i (λ k. is_some (row_of touched.old k)) }
    ensures sourced { IfOk result (λ yes. IsTrue yes → (t : ℕ) → At certificate.now.order.items i t → AreMissingSourced log.now certificate.now (get_in ◌==◌ places.now) i t) }
    ensures touched { IfOk result (λ yes. IsTrue yes → AreTouched log.now certificate.now.order.items (i + 1) (λ k. is_some (row_of touched.new k))) }
{
    let Some(t) = at(certificate.order.as_slice(), i) else {
        return Ok(false);
    };
    if !are_missing_sourced_at(alloc, log, certificate, places, touched, i, t)? {
        return Ok(false);
    }
    touch_all(touched, writes_of(log, t))?;
    Ok(true)
}

/// Whether the keys that scans miss have their sources before their readers: all that are touched there one that is given.
pub(crate) fn are_missing_sourced(
    alloc: Global,
    log: &Log,
    certificate: &Certificate,
    places: &HashMap<usize, usize>,
) -> Result<bool, NoMemory>
    ensures { IfOk result (λ yes. IsTrue yes → AreAllMissingSourced log.now certificate.now (get_in ◌==◌ places.now)) }
{
    let mut touched = BTreeMap::new(alloc);
    touch_rows(&mut touched, log.rows.as_slice())?;
    for i in 0..certificate.order.len() {
        if !advance(alloc, log, certificate, places, &mut touched, i)? {
            return Ok(false);
        }
    }
    Ok(true)
}
