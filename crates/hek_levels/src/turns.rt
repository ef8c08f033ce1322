//! Whether an order keeps the turns of all lanes.
ghost use Rattle.std.specs.Prelude.{◌≡◌, ◌==◌, ◌<◌, ◌≤◌, ◌+◌, ℕ, Some, slice_get, length, IsTrue, OnOk, IfOk, if◌then◌else◌};
ghost use Rattle.std.specs.HashMap.{get as get_in};
ghost use Rattle.hek_levels.specs.declared.log.Turn.{Turn as TheTurn};
ghost use Rattle.hek_levels.specs.Logs.{turns_of as turns_there};
ghost use Rattle.hek_levels.specs.Places.{AreInTurn, AreLatest};
ghost use Rattle.hek_levels.specs.Sweeps.{IsFrom, AreRaised};

use crate::log::{Log, Turn};
use crate::logged::{at, turns_of};
use hek_rules::NoMemory;
use std::alloc::Global;
use std::collections::HashMap;

/// The latest first number of a lane is this from now on.
fn mark(latest: &mut HashMap<usize, u64>, lane: usize, first: u64) -> Result<(), NoMemory>
    ensures { OnOk result ((k : ℕ) → get_in ◌==◌ latest.new k ≡ (if lane == k then Some first else get_in ◌==◌ latest.old k)) }
{
    let _before = latest.insert(lane, first)?;
    Ok(())
}

/// The latest first number of a turn's lane, the turn's own among them.
fn latest_with(latest: &HashMap<usize, u64>, turn: Turn) -> u64
    ensures own { turn.first ≤ result }
    ensures others { (n : ℕ) → get_in ◌==◌ latest.now turn.lane ≡ Some n → n ≤ result }
{
    match latest.get(&turn.lane).copied() {
        Some(n) => n.max(turn.first),
        None => turn.first,
    }
}

/// A turn begins: the latest first number of its lane is at least its own.
pub(crate) fn begin(latest: &mut HashMap<usize, u64>, turn: Turn) -> Result<(), NoMemory>
    ensures raised { OnOk result (AreRaised (get_in ◌==◌ latest.old) (get_in ◌==◌ latest.new)) }
    ensures there { OnOk result (IsFrom (get_in ◌==◌ latest.new) turn.lane turn.first) }
{
    let first = latest_with(latest, turn);
    mark(latest, turn.lane, first)
}

/// Turns begin.
pub(crate) fn begin_all(latest: &mut HashMap<usize, u64>, turns: &[Turn]) -> Result<(), NoMemory>
    ensures raised { OnOk result (AreRaised (get_in ◌==◌ latest.old) (get_in ◌==◌ latest.new)) }
    ensures there { OnOk result ((n : ℕ) (turn : TheTurn) → slice_get turns.now n ≡ Some turn → IsFrom (get_in ◌==◌ latest.new) turn.lane turn.first) }
{
    for n in 0..turns.len() {
        begin(latest, turns[n])?;
    }
    Ok(())
}

/// Whether the latest first number of a turn's lane is not above its last number.
fn has_come(latest: &HashMap<usize, u64>, turn: Turn) -> bool
    ensures { IsTrue result → (m : ℕ) → get_in ◌==◌ latest.now turn.lane ≡ Some m → m ≤ turn.last }
{
    match latest.get(&turn.lane).copied() {
        Some(first) => first <= turn.last,
        None => true,
    }
}

/// The same of each of these turns.
pub(crate) fn have_come(latest: &HashMap<usize, u64>, turns: &[Turn]) -> bool
    ensures { IsTrue result → (n m : ℕ) (turn : TheTurn) → slice_get turns.now n ≡ Some turn → get_in ◌==◌ latest.now turn.lane ≡ Some m → m ≤ turn.last }
{
    for n in 0..turns.len() {
        if !has_come(latest, turns[n]) {
            return false;
        }
    }
    true
}

/// One transaction more, if its turns have come.
fn take_turns(
    log: &Log,
    order: &[usize],
    i: usize,
    latest: &mut HashMap<usize, u64>,
) -> Result<bool, NoMemory>
    requires latest { AreLatest log.now order.now i (get_in ◌==◌ latest.old) }
    requires before { AreInTurn log.now order.now i }
    ensures latest { IfOk result (λ yes. IsTrue yes → AreLatest log.now order.now (i + 1) (get_in ◌==◌ latest.new)) }
    ensures before { IfOk result (λ yes. IsTrue yes → AreInTurn log.now order.now (i + 1)) }
{
    let Some(t) = at(order, i) else {
        return Ok(false);
    };
    begin_all(latest, turns_of(log, t))?;
    Ok(have_come(latest, turns_of(log, t)))
}

/// Whether the order keeps all turns.
pub(crate) fn are_in_turn(alloc: Global, log: &Log, order: &[usize]) -> Result<bool, NoMemory>
    ensures { IfOk result (λ yes. IsTrue yes → AreInTurn log.now order.now (length order.now)) }
{
    let mut latest = HashMap::new(alloc);
    for i in 0..order.len() {
        if !take_turns(log, order, i, &mut latest)? {
            return Ok(false);
        }
    }
    Ok(true)
}
