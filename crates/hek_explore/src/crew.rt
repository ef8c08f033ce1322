//! Who plays the beginnings of a layer: one after another, or many threads side by side.
ghost use Rattle.std.specs.Prelude.{IfOk};
ghost use Rattle.std.specs.Thread.{IsSync};
ghost use Rattle.hek_explore.specs.Counts.{AreAllGrown};
ghost use Rattle.hek_explore.specs.Steps.{AreRuled};

use crate::class::Class;
use crate::groups::Grouped;
use crate::grow::{Grown, grow_classes};
use hek_permute::{Form, Moves, OrderFault};
use std::alloc::Global;
use std::collections::VecDeque;
use std::thread::{Threads, join};

/// Who plays the beginnings of a layer.
pub(crate) trait Crew {
    // When the crew can play.
    ghost can_play: { Self → Type 0 };

    /// What each of these classes becomes by one more move of each transaction.
    fn grow(
        &self,
        alloc: Global,
        schedule: &Grouped<'_>,
        moves: &[Moves],
        form: Form,
        classes: &[Class],
    ) -> Result<VecDeque<Grown>, OrderFault>
        requires are { AreRuled schedule.now moves.now }
        requires can { can_play self.now }
        ensures { IfOk result (λ all. AreAllGrown schedule.now form moves.now classes.now all.items) };
}

/// One thread, which plays one beginning after another.
#[derive(Drop)]
pub(crate) struct Alone;

impl Crew for Alone {
    ghost can_play = { λ _. Unit {0} };

    fn grow(
        &self,
        alloc: Global,
        schedule: &Grouped<'_>,
        moves: &[Moves],
        form: Form,
        classes: &[Class],
    ) -> Result<VecDeque<Grown>, OrderFault> {
        grow_classes(alloc, schedule, moves, form, classes)
    }
}

/// As many threads as there are jobs.
#[derive(Drop)]
pub(crate) struct Team<'a, R: Threads + Sync> {
    pub(crate) system: &'a R,
    pub(crate) jobs: u64,
}

impl<'a, R: Threads + Sync> Crew for Team<'a, R> {
    ghost can_play = { λ _. IsSync R.row };

    fn grow(
        &self,
        alloc: Global,
        schedule: &Grouped<'_>,
        moves: &[Moves],
        form: Form,
        classes: &[Class],
    ) -> Result<VecDeque<Grown>, OrderFault> {
        grow_parts(
            self.system,
            alloc,
            schedule,
            moves,
            form,
            classes,
            self.jobs,
        )
    }
}

/// What each of these classes becomes, in as many parts as there are jobs. Each part has a thread, if one can be started.
#[cycle(parts)]
fn grow_parts<R: Threads + Sync>(
    rt: &R,
    alloc: Global,
    schedule: &Grouped<'_>,
    moves: &[Moves],
    form: Form,
    classes: &[Class],
    jobs: u64,
) -> Result<VecDeque<Grown>, OrderFault>
    requires { AreRuled schedule.now moves.now }
    ensures { IfOk result (λ all. AreAllGrown schedule.now form moves.now classes.now all.items) }
{
    if classes.len() <= 1 || jobs <= 1 {
        return grow_classes(alloc, schedule, moves, form, classes);
    }
    let left = jobs / 2;
    let right = jobs - left;
    let (front, back) = classes.split_at(front_len(classes.len(), left, jobs));
    let first = move || -> Result<VecDeque<Grown>, OrderFault>
        requires { IsSync R.row × AreRuled schedule.now moves.now }
        ensures { IfOk result (λ all. AreAllGrown schedule.entry.now form moves.entry.now front.entry.now all.items) }
    { grow_parts(rt, alloc, schedule, moves, form, front, left) };
    let second = move || -> Result<VecDeque<Grown>, OrderFault>
        requires { IsSync R.row × AreRuled schedule.now moves.now }
        ensures { IfOk result (λ all. AreAllGrown schedule.entry.now form moves.entry.now back.entry.now all.items) }
    { grow_parts(rt, alloc, schedule, moves, form, back, right) };
    let (first, second) = join(rt, first, second);
    let mut all = first?;
    let mut others = second?;
    all.append(&mut others)?;
    Ok(all)
}

/// How many of so many classes come first, if `left` of all their jobs are for these.
fn front_len(count: usize, left: u64, jobs: u64) -> usize
    requires some { 0 < jobs }
    requires part { left ≤ jobs }
    ensures { result ≤ count }
{
    (count as u128 * left as u128 / jobs as u128) as usize
}

ghost use Rattle.std.specs.Prelude.{◌<◌, ◌≤◌};
