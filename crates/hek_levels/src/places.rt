//! The places of transactions in an order.
ghost use Rattle.std.specs.Prelude.{◌≡◌, ◌↔◌, ◌==◌, ◌<◌, ◌≤◌, ◌+◌, ℕ, true, Some, None, length, IsTrue, OnOk, IfOk, if◌then◌else◌};
ghost use Rattle.std.specs.HashMap.{get as get_in};
ghost use Rattle.hek_levels.specs.Logs.{is_committed as committed_there};
ghost use Rattle.hek_levels.specs.Seen.{At};
ghost use Rattle.hek_levels.specs.Places.{IsPlacing, IsPlacedBefore};

use crate::certificate::Writer;
use crate::log::Log;
use crate::logged::{at, is_committed, is_possible};
use hek_rules::NoMemory;
use std::collections::HashMap;

/// The place of t is i from now on.
pub(crate) fn mark(places: &mut HashMap<usize, usize>, t: usize, i: usize) -> Result<(), NoMemory>
    ensures { OnOk result ((k : ℕ) → get_in ◌==◌ places.new k ≡ (if t == k then Some i else get_in ◌==◌ places.old k)) }
{
    let _before = places.insert(t, i)?;
    Ok(())
}

/// The place of t.
pub(crate) fn place_of(places: &HashMap<usize, usize>, t: usize) -> Option<usize>
    ensures { result ≡ get_in ◌==◌ places.now t }
{
    places.get(&t).copied()
}

/// Whether t has no place.
pub(crate) fn is_absent(places: &HashMap<usize, usize>, t: usize) -> bool
    ensures { IsTrue result ↔ (get_in ◌==◌ places.now t ≡ None) }
{
    places.get(&t).is_none()
}

/// One transaction more, if it may take place and has no place yet.
fn put(
    log: &Log,
    order: &[usize],
    i: usize,
    places: &mut HashMap<usize, usize>,
) -> Result<bool, NoMemory>
    requires known { IsPlacing log.now order.now i (get_in ◌==◌ places.old) }
    ensures { IfOk result (λ yes. IsTrue yes → IsPlacing log.now order.now (i + 1) (get_in ◌==◌ places.new)) }
{
    let Some(t) = at(order, i) else {
        return Ok(false);
    };
    if !is_possible(log, t) {
        return Ok(false);
    }
    if !is_absent(places, t) {
        return Ok(false);
    }
    mark(places, t, i)?;
    Ok(true)
}

/// Finds all places, if each transaction of the order may take place and stands there once.
pub(crate) fn find_places(
    log: &Log,
    order: &[usize],
    places: &mut HashMap<usize, usize>,
) -> Result<bool, NoMemory>
    requires empty { (t : ℕ) → get_in ◌==◌ places.old t ≡ None }
    ensures { IfOk result (λ yes. IsTrue yes → IsPlacing log.now order.now (length order.now) (get_in ◌==◌ places.new)) }
{
    for i in 0..order.len() {
        if !put(log, order, i, places)? {
            return Ok(false);
        }
    }
    Ok(true)
}

/// Whether all that are known to have committed have a place.
pub(crate) fn have_all_places(log: &Log, places: &HashMap<usize, usize>) -> bool
    ensures { IsTrue result → (t : ℕ) → committed_there log.now t ≡ true → get_in ◌==◌ places.now t ≡ None → ⊥ }
{
    for t in 0..log.transactions.len() {
        if is_committed(log, t) && is_absent(places, t) {
            return false;
        }
    }
    true
}

/// Whether a writer is placed before i.
pub(crate) fn is_placed_before(places: &HashMap<usize, usize>, i: usize, writer: Writer) -> bool
    ensures { IsTrue result ↔ IsPlacedBefore (get_in ◌==◌ places.now) i writer }
{
    match writer {
        Writer::Opening => true,
        Writer::Transaction(x) => match place_of(places, x) {
            Some(j) => j < i,
            None => false,
        },
    }
}
