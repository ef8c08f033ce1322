//! The search for a victim: candidates from the greatest down, with marks level by level. Its numbers are places of
//! rows.
ghost use Rattle.std.specs.Prelude.{◌≡◌, ◌&&◌, ◌∷◌, ◌<◌, ℕ, length, IfOk, Some};
ghost use Rattle.hek_rules.specs.Victim.{least, between, victim_of};
ghost use Rattle.hek_rules.specs.Listing.{is_among};
ghost use Rattle.hek_deadlock.specs.Places.{by_place};
ghost use Rattle.hek_deadlock.specs.Rows.{waits_by_rows, IsInRange, AreLevels, level_at, is_level};

use crate::levels::levels_to;
use hek_rules::NoMemory;
use std::alloc::Global;

/// Whether `x` is in the row, and the level of the row's number is the wanted one.
fn is_next(row: &[usize], x: usize, level: Option<usize>, wanted: usize) -> bool
    ensures { result ≡ (is_among row.now x && is_level level wanted) }
{
    match level {
        Some(level) => level == wanted && row.contains(&x),
        None => false,
    }
}

/// The least number of this level that `x` waits for.
fn next_member(
    waiters: &[Vec<usize>],
    levels: &[Option<usize>],
    x: usize,
    level: usize,
) -> Option<usize>
    requires { length levels.now ≡ length waiters.now }
    ensures { result ≡ least (λ y. waits_by_rows waiters.now x y && is_level (level_at levels.now y) level) (length waiters.now) }
{
    for y in 0..waiters.len() {
        if is_next(&waiters[y], x, levels[y], level) {
            return Some(y);
        }
    }
    None
}

/// The cycle from the victim on: at each place the least number that keeps it shortest.
fn cycle(
    alloc: Global,
    waiters: &[Vec<usize>],
    levels: &[Option<usize>],
    victim: usize,
    count: usize,
) -> Result<Vec<usize>, NoMemory>
    requires levels { AreLevels waiters.now victim levels.now }
    requires victim { victim < length waiters.now }
    requires count { level_at levels.now victim ≡ Some count }
    ensures { IfOk result (λ members.
        members.items ≡ victim ∷ between (waits_by_rows waiters.now) (length waiters.now) count victim victim) }
{
    let mut members = vec![in alloc; victim]?;
    let mut x = victim;
    let mut left = count;
    while left > 0 {
        left -= 1;
        match next_member(waiters, levels, x, left) {
            Some(y) => {
                members.push(y)?;
                x = y;
            }
            None => return Ok(members),
        }
    }
    Ok(members)
}

/// The victim and its cycle as places of rows, or None if there is no cycle.
pub(crate) fn find_victim(
    alloc: Global,
    waiters: &[Vec<usize>],
) -> Result<Option<(usize, Vec<usize>)>, NoMemory>
    requires { IsInRange waiters.now }
    ensures { IfOk result (λ answer. by_place answer ≡ victim_of (waits_by_rows waiters.now) (length waiters.now)) }
{
    let mut candidate = waiters.len();
    while candidate > 0 {
        candidate -= 1;
        if waiters[candidate].is_empty() {
            continue;
        }
        let levels = levels_to(alloc, waiters, candidate)?;
        if let Some(count) = levels[candidate] {
            let members = cycle(alloc, waiters, &levels, candidate, count)?;
            return Ok(Some((candidate, members)));
        }
    }
    Ok(None)
}
