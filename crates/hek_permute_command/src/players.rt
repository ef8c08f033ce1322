//! Who plays orders: one thread, or many side by side.
ghost use Rattle.std.specs.Prelude.{IfOk, IfSome};
ghost use Rattle.std.specs.Thread.{IsSync};
ghost use Rattle.hek_permute.specs.Wholes.{IsWhole};
ghost use Rattle.hek_explore.specs.Counts.{IsCensus};

use hek_explore::{Survey, explore, explore_in_threads};
use hek_permute::{Form, OrderFault, Tally, Watch, play_all, play_parts};
use hek_program::Rule;
use hek_rules::Schedule;
use std::alloc::Global;
use std::thread::Threads;

/// Who plays orders.
pub(crate) trait Players {
    // When they can play.
    ghost can_play: { Self → Type 0 };

    /// The outcomes of all orders, counted by states; None if there are more states than the limit.
    fn explore<S: Survey>(
        &self,
        alloc: Global,
        schedule: &Schedule,
        rules: &[Rule],
        form: Form,
        limit: u64,
        survey: &mut S,
    ) -> Result<Option<Tally>, OrderFault>
        requires { can_play self.now }
        ensures { IfOk result (λ found. IfSome found (IsCensus schedule.now rules.now form)) };

    /// The outcomes of the orders from a number on, and below another.
    fn play<W: Watch>(
        &self,
        alloc: Global,
        schedule: &Schedule,
        rules: &[Rule],
        form: Form,
        from: u64,
        to: u64,
        watch: &mut W,
    ) -> Result<Tally, OrderFault>
        requires { can_play self.now }
        ensures { IfOk result (IsWhole schedule.now rules.now form from to) };
}

/// One thread.
#[derive(Drop)]
pub(crate) struct Alone;

impl Players for Alone {
    ghost can_play = { λ _. Unit {0} };

    fn explore<S: Survey>(
        &self,
        alloc: Global,
        schedule: &Schedule,
        rules: &[Rule],
        form: Form,
        limit: u64,
        survey: &mut S,
    ) -> Result<Option<Tally>, OrderFault> {
        explore(alloc, schedule, rules, form, limit, survey)
    }

    fn play<W: Watch>(
        &self,
        alloc: Global,
        schedule: &Schedule,
        rules: &[Rule],
        form: Form,
        from: u64,
        to: u64,
        watch: &mut W,
    ) -> Result<Tally, OrderFault> {
        play_all(alloc, schedule, rules, form, from, to, watch)
    }
}

/// As many threads as there are jobs. A watch sees no order.
#[derive(Drop)]
pub(crate) struct Team<'a, T: Threads + Sync> {
    pub(crate) system: &'a T,
    pub(crate) jobs: u64,
}

impl<'a, T: Threads + Sync> Players for Team<'a, T> {
    ghost can_play = { λ _. IsSync T.row };

    fn explore<S: Survey>(
        &self,
        alloc: Global,
        schedule: &Schedule,
        rules: &[Rule],
        form: Form,
        limit: u64,
        survey: &mut S,
    ) -> Result<Option<Tally>, OrderFault> {
        let jobs = self.jobs;
        explore_in_threads(
            self.system,
            jobs,
            alloc,
            schedule,
            rules,
            form,
            limit,
            survey,
        )
    }

    fn play<W: Watch>(
        &self,
        alloc: Global,
        schedule: &Schedule,
        rules: &[Rule],
        form: Form,
        from: u64,
        to: u64,
        _watch: &mut W,
    ) -> Result<Tally, OrderFault> {
        play_parts(
            self.system,
            alloc,
            schedule,
            rules,
            form,
            from,
            to,
            self.jobs,
        )
    }
}
