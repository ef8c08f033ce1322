//! Whether no read sees a writer of its key that is newer than its source.
ghost use Rattle.std.specs.Prelude.{◌≡◌, ◌==◌, ◌<◌, ◌≤◌, ◌+◌, ℕ, true, false, is_some, Some, List, slice_get, length, IsTrue, OnOk, IfOk, if◌then◌else◌};
ghost use Rattle.std.specs.HashMap.{get as get_in};
ghost use Rattle.hek_levels.specs.declared.log.Log.{Log as TheLog};
ghost use Rattle.hek_levels.specs.declared.log.Place.{Place as ThePlace};
ghost use Rattle.hek_levels.specs.declared.log.Place.TheVariants.{Listed as ListedAt, Missing as MissingAt};
ghost use Rattle.hek_levels.specs.declared.certificate.Missing.{Missing as TheMissing};
ghost use Rattle.hek_levels.specs.declared.rules.Rules.{Rules as TheRules};
ghost use Rattle.hek_levels.specs.declared.certificate.Writer.TheVariants.{Transaction as TransactionOf};
ghost use Rattle.hek_levels.specs.Logs.{left_in, does_write as writes_it, read_at as read_there};
ghost use Rattle.hek_levels.specs.Levels.{asked_of};
ghost use Rattle.hek_levels.specs.Seen.{At, TakesPlace, rank, IsOrdered};
ghost use Rattle.hek_levels.specs.Explanations.{explanation, source_at as source_there, given_of};
ghost use Rattle.hek_levels.specs.Places.{IsPlacing};
ghost use Rattle.hek_levels.specs.Sweeps.{AreLast, IsMarked, IsSwept, IsNewestFrom, IsNewestAt, IsDirect};

use crate::certificate::{Certificate, Missing, Writer};
use crate::log::{Change, Log, Place, Read};
use crate::logged::{at, does_write, has_seen_turns, read_at, reads_of, writes_of};
use crate::places::place_of;
use crate::rules::{Asked, Rules};
use crate::sourced::{missing_of, source_at};
use crate::sweep::{Sight, carry, mark_own, may_see, show};
use hek_rules::NoMemory;
use std::alloc::Global;
use std::collections::HashMap;

/// The sweep comes to the place p.
fn visit(
    rules: Rules,
    log: &Log,
    certificate: &Certificate,
    p: usize,
    t: usize,
    n: usize,
    key: u64,
    sight: &mut Sight,
) -> Result<bool, NoMemory>
    requires ordered { IsOrdered log.now (explanation certificate.now) }
    requires takes { TakesPlace (explanation certificate.now) t }
    requires swept { IsSwept rules log.now (explanation certificate.now) t n key (p + 1) (get_in ◌==◌ sight.old.marked) (get_in ◌==◌ sight.old.lanes) (get_in ◌==◌ sight.old.keys) sight.old.is_any }
    ensures { IfOk result (λ yes. IsTrue yes → IsSwept rules log.now (explanation certificate.now) t n key p (get_in ◌==◌ sight.new.marked) (get_in ◌==◌ sight.new.lanes) (get_in ◌==◌ sight.new.keys) sight.new.is_any) }
{
    let Some(y) = at(certificate.order.as_slice(), p) else {
        return Ok(false);
    };
    carry(
        rules,
        log,
        certificate,
        t,
        &mut sight.marked,
        &sight.lanes,
        y,
    )?;
    if !may_see(rules, log, t, sight, y) {
        return Ok(true);
    }
    if does_write(log, y, key) {
        return Ok(false);
    }
    show(rules, log, certificate, sight, y)?;
    Ok(true)
}

/// Nobody is seen but the sources of t by its n-th operation and those before it, as far as its own reads show them.
fn first_sight(
    alloc: Global,
    rules: Rules,
    log: &Log,
    certificate: &Certificate,
    i: usize,
    t: usize,
    n: usize,
    key: u64,
) -> Result<Sight, NoMemory>
    requires ordered { IsOrdered log.now (explanation certificate.now) }
    requires stands { At certificate.now.order.items i t }
    ensures { IfOk result (λ sight. IsSwept rules log.now (explanation certificate.now) t n key i (get_in ◌==◌ sight.marked) (get_in ◌==◌ sight.lanes) (get_in ◌==◌ sight.keys) sight.is_any) }
{
    let mut marked = HashMap::new(alloc);
    mark_own(rules.own, log, certificate, &mut marked, t, n)?;
    Ok(Sight {
        marked,
        lanes: HashMap::new(alloc),
        keys: HashMap::new(alloc),
        is_any: false,
    })
}

/// Whether no writer of a key from the place low on is seen by a read of t by its n-th operation; t stands at the place i.
fn sweep(
    alloc: Global,
    rules: Rules,
    log: &Log,
    certificate: &Certificate,
    i: usize,
    t: usize,
    n: usize,
    key: u64,
    low: usize,
) -> Result<bool, NoMemory>
    requires ordered { IsOrdered log.now (explanation certificate.now) }
    requires stands { At certificate.now.order.items i t }
    ensures { IfOk result (λ yes. IsTrue yes → IsNewestFrom rules log.now (explanation certificate.now) t n key low) }
{
    let mut sight = first_sight(alloc, rules, log, certificate, i, t, n, key)?;
    let mut p = i;
    while low < p {
        p -= 1;
        if !visit(rules, log, certificate, p, t, n, key, &mut sight)? {
            return Ok(false);
        }
    }
    Ok(true)
}

/// Whether a read of t sees nobody but sources of its own reads.
fn is_direct(rules: Rules, log: &Log, t: usize) -> bool
    ensures { IsTrue result → IsDirect rules log.now t }
{
    let first = rules.first;
    let next = rules.next;
    if rules.whole || first.writers || first.turn_reads {
        return false;
    }
    if rules.causes || rules.prefix || next.writers || next.turns || next.turn_reads {
        return false;
    }
    !first.turns || !has_seen_turns(log, t)
}

/// Whether a writer does not write a key from the place low on.
fn is_apart(log: &Log, places: &HashMap<usize, usize>, x: usize, key: u64, low: usize) -> bool
    ensures { IsTrue result → writes_it log.now x key ≡ true → (j : ℕ) → get_in ◌==◌ places.now x ≡ Some j → j < low }
{
    if !does_write(log, x, key) {
        return true;
    }
    match place_of(places, x) {
        Some(j) => j < low,
        None => true,
    }
}

/// The same of each that is marked.
fn are_apart(
    log: &Log,
    places: &HashMap<usize, usize>,
    marked: &HashMap<usize, usize>,
    key: u64,
    low: usize,
) -> bool
    ensures { IsTrue result → (x j : ℕ) → IsMarked (get_in ◌==◌ marked.now) x → writes_it log.now x key ≡ true → get_in ◌==◌ places.now x ≡ Some j → j < low }
{
    for x in marked.keys() {
        if !is_apart(log, places, *x, key, low) {
            return false;
        }
    }
    true
}

/// The same as `sweep`, where a read of t sees nobody but sources of its own reads.
fn look(
    alloc: Global,
    rules: Rules,
    log: &Log,
    certificate: &Certificate,
    places: &HashMap<usize, usize>,
    t: usize,
    n: usize,
    key: u64,
    low: usize,
) -> Result<bool, NoMemory>
    requires direct { IsDirect rules log.now t }
    requires placing { IsPlacing log.now certificate.now.order.items (length certificate.now.order.items) (get_in ◌==◌ places.now) }
    ensures { IfOk result (λ yes. IsTrue yes → IsNewestFrom rules log.now (explanation certificate.now) t n key low) }
{
    let mut marked = HashMap::new(alloc);
    mark_own(rules.own, log, certificate, &mut marked, t, n)?;
    Ok(are_apart(log, places, &marked, key, low))
}

/// A place after a writer's, or before it.
fn low_of(places: &HashMap<usize, usize>, i: usize, writer: Writer) -> usize
    ensures { (log : TheLog) (order : List ℕ) → IsPlacing log order (length order) (get_in ◌==◌ places.now) → result ≤ rank order writer }
{
    match writer {
        Writer::Opening => 0,
        Writer::Transaction(x) => match place_of(places, x) {
            Some(j) => { if j < i { j + 1 } else { 0 } }
            None => 0,
        },
    }
}

/// Whether the last place of a key is from low on.
pub(crate) fn is_written_since(last: &HashMap<u64, usize>, key: u64, low: usize) -> bool
    ensures { result ≡ false → (m : ℕ) → get_in ◌==◌ last.now key ≡ Some m → m < low }
{
    match last.get(&key).copied() {
        Some(m) => low <= m,
        None => false,
    }
}

/// Whether no writer of its key from the place low on is seen by a read of t, which stands at the place i.
fn is_newest_from(
    alloc: Global,
    rules: Rules,
    log: &Log,
    certificate: &Certificate,
    places: &HashMap<usize, usize>,
    i: usize,
    t: usize,
    read: Read,
    low: usize,
) -> Result<bool, NoMemory>
    requires ordered { IsOrdered log.now (explanation certificate.now) }
    requires placing { IsPlacing log.now certificate.now.order.items (length certificate.now.order.items) (get_in ◌==◌ places.now) }
    requires stands { At certificate.now.order.items i t }
    ensures { IfOk result (λ yes. IsTrue yes → IsNewestFrom rules log.now (explanation certificate.now) t read.operation read.key low) }
{
    if rules.whole {
        return Ok(false);
    }
    if is_direct(rules, log, t) {
        return look(
            alloc,
            rules,
            log,
            certificate,
            places,
            t,
            read.operation,
            read.key,
            low,
        );
    }
    sweep(
        alloc,
        rules,
        log,
        certificate,
        i,
        t,
        read.operation,
        read.key,
        low,
    )
}

/// Whether no writer of its key that the read of t at a place sees is newer than its source.
fn is_newest(
    alloc: Global,
    asked: &Asked,
    log: &Log,
    certificate: &Certificate,
    places: &HashMap<usize, usize>,
    last: &HashMap<u64, usize>,
    i: usize,
    t: usize,
    place: Place,
) -> Result<bool, NoMemory>
    requires ordered { IsOrdered log.now (explanation certificate.now) }
    requires placing { IsPlacing log.now certificate.now.order.items (length certificate.now.order.items) (get_in ◌==◌ places.now) }
    requires last { AreLast log.now certificate.now.order.items i (get_in ◌==◌ last.now) }
    requires stands { At certificate.now.order.items i t }
    ensures { IfOk result (λ yes. IsTrue yes → IsNewestAt (asked_of asked.now t) log.now (explanation certificate.now) t place) }
{
    let Some(read) = read_at(log, t, place) else {
        return Ok(true);
    };
    let low = low_of(places, i, source_at(certificate, t, place));
    if !is_written_since(last, read.key, low) {
        return Ok(true);
    }
    is_newest_from(
        alloc,
        asked.of(t),
        log,
        certificate,
        places,
        i,
        t,
        read,
        low,
    )
}

/// The same of each read in the list of t.
fn is_each_newest(
    alloc: Global,
    asked: &Asked,
    log: &Log,
    certificate: &Certificate,
    places: &HashMap<usize, usize>,
    last: &HashMap<u64, usize>,
    i: usize,
    t: usize,
) -> Result<bool, NoMemory>
    requires ordered { IsOrdered log.now (explanation certificate.now) }
    requires placing { IsPlacing log.now certificate.now.order.items (length certificate.now.order.items) (get_in ◌==◌ places.now) }
    requires last { AreLast log.now certificate.now.order.items i (get_in ◌==◌ last.now) }
    requires stands { At certificate.now.order.items i t }
    ensures { IfOk result (λ yes. IsTrue yes → (r : ℕ) → IsNewestAt (asked_of asked.now t) log.now (explanation certificate.now) t (ListedAt r)) }
{
    for r in 0..reads_of(log, t).len() {
        let place = Place::Listed(r);
        if !is_newest(alloc, asked, log, certificate, places, last, i, t, place)? {
            return Ok(false);
        }
    }
    Ok(true)
}

/// The n-th of keys that are missing in scans, as a read.
fn missing_at(given: &[Missing], n: usize) -> Option<Place>
    ensures { (one : TheMissing) → slice_get given.now n ≡ Some one → result ≡ Some (MissingAt one.scan one.key) }
{
    match given.get(n) {
        Some(one) => Some(Place::Missing {
            scan: one.scan,
            key: one.key,
        }),
        None => None,
    }
}

/// The same of each key that is missing in a scan of t whose source is given.
fn is_each_given_newest(
    alloc: Global,
    asked: &Asked,
    log: &Log,
    certificate: &Certificate,
    places: &HashMap<usize, usize>,
    last: &HashMap<u64, usize>,
    i: usize,
    t: usize,
) -> Result<bool, NoMemory>
    requires ordered { IsOrdered log.now (explanation certificate.now) }
    requires placing { IsPlacing log.now certificate.now.order.items (length certificate.now.order.items) (get_in ◌==◌ places.now) }
    requires last { AreLast log.now certificate.now.order.items i (get_in ◌==◌ last.now) }
    requires stands { At certificate.now.order.items i t }
    ensures { IfOk result (λ yes. IsTrue yes → (n : ℕ) (one : TheMissing) → slice_get (given_of certificate.now t) n ≡ Some one → IsNewestAt (asked_of asked.now t) log.now (explanation certificate.now) t (MissingAt one.scan one.key)) }
{
    let given = missing_of(certificate, t);
    for n in 0..given.len() {
        let Some(place) = missing_at(given, n) else {
            return Ok(false);
        };
        if !is_newest(alloc, asked, log, certificate, places, last, i, t, place)? {
            return Ok(false);
        }
    }
    Ok(true)
}

/// The last place of the key of a change is i from now on.
fn mark_write(last: &mut HashMap<u64, usize>, change: Change, i: usize) -> Result<(), NoMemory>
    ensures { OnOk result ((k : ℕ) → get_in ◌==◌ last.new k ≡ (if change.key == k then Some i else get_in ◌==◌ last.old k)) }
{
    let _before = last.insert(change.key, i)?;
    Ok(())
}

/// The same of each of these.
pub(crate) fn mark_writes(
    last: &mut HashMap<u64, usize>,
    changes: &[Change],
    i: usize,
) -> Result<(), NoMemory>
    ensures { OnOk result ((k : ℕ) → get_in ◌==◌ last.new k ≡ (if is_some (left_in changes.now k) then Some i else get_in ◌==◌ last.old k)) }
{
    for change in changes {
        mark_write(last, *change, i)?;
    }
    Ok(())
}

/// Whether no read of the transaction at the place i sees a newer writer; its writes are the last then.
fn advance(
    alloc: Global,
    asked: &Asked,
    log: &Log,
    certificate: &Certificate,
    places: &HashMap<usize, usize>,
    last: &mut HashMap<u64, usize>,
    i: usize,
) -> Result<bool, NoMemory>
    requires ordered { IsOrdered log.now (explanation certificate.now) }
    requires placing { IsPlacing log.now certificate.now.order.items (length certificate.now.order.items) (get_in ◌==◌ places.now) }
    requires last { AreLast log.now certificate.now.order.items i (get_in ◌==◌ last.old) }
    ensures listed { IfOk result (λ yes. IsTrue yes → (t r : ℕ) → At certificate.now.order.items i t → IsNewestAt (asked_of asked.now t) log.now (explanation certificate.now) t (ListedAt r)) }
    ensures given { IfOk result (λ yes. IsTrue yes → (t n : ℕ) (one : TheMissing) → At certificate.now.order.items i t → slice_get (given_of certificate.now t) n ≡ Some one → IsNewestAt (asked_of asked.now t) log.now (explanation certificate.now) t (MissingAt one.scan one.key)) }
    ensures last { IfOk result (λ yes. IsTrue yes → AreLast log.now certificate.now.order.items (i + 1) (get_in ◌==◌ last.new)) }
{
    let Some(t) = at(certificate.order.as_slice(), i) else {
        return Ok(false);
    };
    if !is_each_newest(alloc, asked, log, certificate, places, last, i, t)? {
        return Ok(false);
    }
    if !is_each_given_newest(alloc, asked, log, certificate, places, last, i, t)? {
        return Ok(false);
    }
    mark_writes(last, writes_of(log, t), i)?;
    Ok(true)
}

/// Whether no read sees a newer writer, but for keys that are missing in scans and have no source that is given.
pub(crate) fn are_newest(
    alloc: Global,
    asked: &Asked,
    log: &Log,
    certificate: &Certificate,
    places: &HashMap<usize, usize>,
) -> Result<bool, NoMemory>
    requires ordered { IsOrdered log.now (explanation certificate.now) }
    requires placing { IsPlacing log.now certificate.now.order.items (length certificate.now.order.items) (get_in ◌==◌ places.now) }
    ensures listed { IfOk result (λ yes. IsTrue yes → (i t r : ℕ) → At certificate.now.order.items i t → IsNewestAt (asked_of asked.now t) log.now (explanation certificate.now) t (ListedAt r)) }
    ensures given { IfOk result (λ yes. IsTrue yes → (i t n : ℕ) (one : TheMissing) → At certificate.now.order.items i t → slice_get (given_of certificate.now t) n ≡ Some one → IsNewestAt (asked_of asked.now t) log.now (explanation certificate.now) t (MissingAt one.scan one.key)) }
{
    let mut last = HashMap::new(alloc);
    for i in 0..certificate.order.len() {
        if !advance(alloc, asked, log, certificate, places, &mut last, i)? {
            return Ok(false);
        }
    }
    Ok(true)
}
