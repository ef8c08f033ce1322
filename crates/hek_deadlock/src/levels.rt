//! The distance of each transaction from a target, level by level.
ghost use Rattle.std.specs.Prelude.{◌≡◌, ◌<◌, ℕ, ◌||◌, ◌&&◌, length, vec_len, IfOk, OnOk};
ghost use Rattle.std.specs.List.{All};
ghost use Rattle.hek_rules.specs.Listing.{is_among};
ghost use Rattle.hek_deadlock.specs.Rows.{IsInRange, level_at, marked, is_unmarked, reaches, AreLevels};

use hek_rules::NoMemory;
use std::alloc::Global;

/// Gives this level to the members of the row that have none, and adds them to `next`.
fn mark(
    levels: &mut [Option<usize>],
    next: &mut Vec<usize>,
    row: &[usize],
    level: usize,
) -> Result<(), NoMemory>
    requires { All (λ x. x < length levels.old) row.now }
    ensures levels { OnOk result ((x : ℕ) → x < length levels.old →
        level_at levels.new x ≡ marked (is_among row.now x) level (level_at levels.old x)) }
    ensures next { OnOk result ((x : ℕ) → x < length levels.old →
        is_among next.new.items x ≡ (is_among next.old.items x || (is_among row.now x && is_unmarked (level_at levels.old x)))) }
    ensures range { OnOk result (All (λ x. x < length levels.old) next.old.items → All (λ x. x < length levels.old) next.new.items) }
{
    for x in row {
        let x = *x;
        if levels[x].is_none() {
            levels[x] = Some(level);
            next.push(x)?;
        }
    }
    Ok(())
}

/// Marks the numbers that wait for the frontier and have no level yet, and returns them.
pub(crate) fn level_after(
    alloc: Global,
    waiters: &[Vec<usize>],
    frontier: &[usize],
    levels: &mut [Option<usize>],
    level: usize,
) -> Result<Vec<usize>, NoMemory>
    requires range { IsInRange waiters.now }
    requires frontier { All (λ y. y < length waiters.now) frontier.now }
    requires levels { length levels.old ≡ length waiters.now }
    ensures levels { OnOk result ((x : ℕ) → x < length waiters.now →
        level_at levels.new x ≡ marked (reaches waiters.now frontier.now x) level (level_at levels.old x)) }
    ensures next { IfOk result (λ next. (x : ℕ) → x < length waiters.now →
        is_among next.items x ≡ (reaches waiters.now frontier.now x && is_unmarked (level_at levels.old x))) }
    ensures range { IfOk result (λ next. All (λ y. y < length waiters.now) next.items) }
{
    let mut next = Vec::new(alloc);
    for y in frontier {
        mark(levels, &mut next, &waiters[*y], level)?;
    }
    Ok(next)
}

/// A list of this length in which no number has a level.
pub(crate) fn unmarked(alloc: Global, count: usize) -> Result<Vec<Option<usize>>, NoMemory>
    ensures length { IfOk result (λ levels. vec_len levels ≡ count) }
    ensures none { IfOk result (λ levels. (x : ℕ) → level_at levels.items x ≡ None) }
{
    let mut levels = Vec::new(alloc);
    for _i in 0..count {
        levels.push(None)?;
    }
    Ok(levels)
}

/// The fewest members between each transaction and the target, or None if no walk leads there.
pub(crate) fn levels_to(
    alloc: Global,
    waiters: &[Vec<usize>],
    target: usize,
) -> Result<Vec<Option<usize>>, NoMemory>
    requires range { IsInRange waiters.now }
    requires target { target < length waiters.now }
    ensures { IfOk result (λ levels. AreLevels waiters.now target levels.items) }
{
    let count = waiters.len();
    let mut levels = unmarked(alloc, count)?;
    let mut frontier = vec![in alloc; target]?;
    for level in 0..count {
        if frontier.is_empty() {
            return Ok(levels);
        }
        frontier = level_after(alloc, waiters, &frontier, &mut levels, level)?;
    }
    Ok(levels)
}
