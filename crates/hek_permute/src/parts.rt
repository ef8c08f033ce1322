//! The orders of a range in parts, which threads play side by side.
ghost use Rattle.std.specs.Prelude.{◌<◌, ◌≤◌, IfOk};
ghost use Rattle.std.specs.Thread.{IsSync};
ghost use Rattle.hek_permute.specs.Wholes.{IsWhole};

use crate::fault::OrderFault;
use crate::moves::Form;
use crate::outcome::Outcome;
use crate::tally::Tally;
use crate::whole::{Watch, play_all};
use hek_program::Rule;
use hek_rules::{Schedule, TxnId};
use std::alloc::Global;
use std::thread::{Threads, join};

/// Looks at no order.
#[derive(Drop)]
struct Unwatched;

impl Watch for Unwatched {
    fn see(&mut self, _order: &[TxnId], _outcome: &Outcome) -> bool {
        true
    }
}

/// Plays the orders that `play_all` plays, in as many parts as there are jobs. Each part has a thread, if one can be
/// started.
#[cycle(parts)]
pub fn play_parts<R: Threads + Sync>(
    rt: &R,
    alloc: Global,
    schedule: &Schedule,
    rules: &[Rule],
    form: Form,
    from: u64,
    to: u64,
    jobs: u64,
) -> Result<Tally, OrderFault>
    ensures { IfOk result (IsWhole schedule.now rules.now form from to) }
{
    if to <= from || jobs <= 1 {
        return play_all(alloc, schedule, rules, form, from, to, &mut Unwatched);
    }
    let left = jobs / 2;
    let right = jobs - left;
    let middle = middle_of(from, to, left, jobs);
    let first = move || -> Result<Tally, OrderFault>
        requires { IsSync R.row }
        ensures { IfOk result (IsWhole schedule.entry.now rules.entry.now form from middle) }
    { play_parts(rt, alloc, schedule, rules, form, from, middle, left) };
    let second = move || -> Result<Tally, OrderFault>
        requires { IsSync R.row }
        ensures { IfOk result (IsWhole schedule.entry.now rules.entry.now form middle to) }
    { play_parts(rt, alloc, schedule, rules, form, middle, to, right) };
    let (first, second) = join(rt, first, second);
    first?.plus(second?)
}

/// Where the second part of a range begins, if `left` of all its jobs are for the first.
fn middle_of(from: u64, to: u64, left: u64, jobs: u64) -> u64
    requires range { from ≤ to }
    requires jobs { left ≤ jobs }
    requires some { 0 < jobs }
    ensures { (from ≤ result) × (result ≤ to) }
{
    from + (to - from) / jobs * left
}
