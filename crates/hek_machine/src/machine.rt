//! The machine.
ghost use Rattle.std.specs.Prelude.{◌≡◌, length, IfOk, OnErr, IsOk};
ghost use Rattle.hek_rules.specs.Plan.{IsPlan};
ghost use Rattle.hek_rules.specs.World.{World};
ghost use Rattle.hek_laws.specs.Runs.{IsFirstClock, IsPlaced};
ghost use Rattle.hek_machine.specs.Stands.{StandsFor};
ghost use Rattle.hek_machine.specs.Observed.{opening_of, StandsAs};
ghost use Rattle.hek_machine.specs.Steps.{NeedsNone, IsMachineStep, IsSmall};

use crate::engine::Engine;
use crate::scratch::Scratch;
use hek_rules::{Event, NoMemory, Reply, Schedule, Time};
use std::alloc::Global;
use std::marker::Model;

/// A machine that carries out the events of transactions one by one: the versions with their words, the transactions
/// with their lists and counters, the bucket locks, and the clock (sections 2 and 4 of the paper). Its contracts are
/// about the worlds of the rule table that it stands for.
#[derive(Drop)]
pub struct Machine {
    pub(crate) engine: Engine,
    pub(crate) scratch: Scratch,
}

impl Model for Machine {
    ghost use Rattle.hek_machine.specs.declared.engine.Engine.{Engine};
    ghost use Rattle.hek_machine.specs.Stands.{StandsForSome};

    ghost Value = { Engine };

    ghost view = { λ m. m.engine };

    ghost invariant = { λ m. StandsForSome m.engine };
}

impl Machine {
    /// A machine before the first event of a schedule, at clock 1. The caller runs the steps of the schedule.
    pub fn load(alloc: Global, schedule: &Schedule) -> Result<Machine, NoMemory>
        ensures plan { IfOk result (λ _. IsPlan schedule.now) }
        ensures stands { IfOk result (λ m. StandsFor m (opening_of schedule.now 1)) }
    {
        Machine::load_at(alloc, schedule, Time::new(1))
    }

    /// A machine before the first event of a schedule, at this clock, the first time to be drawn. Rows are valid from
    /// time 0 on.
    pub fn load_at(alloc: Global, schedule: &Schedule, clock: Time) -> Result<Machine, NoMemory>
        requires { IsFirstClock clock }
        ensures plan { IfOk result (λ _. IsPlan schedule.now) }
        ensures stands { IfOk result (λ m. StandsFor m (opening_of schedule.now clock)) }
    {
        Ok(Machine {
            engine: Engine::load(alloc, schedule, clock)?,
            scratch: Scratch::new(alloc),
        })
    }

    /// A machine that shows the same words, counters and lists, with separate room. A change of one does not change the
    /// other.
    pub fn copy(&self) -> Result<Machine, NoMemory>
        ensures { IfOk result (StandsAs self.now) }
    {
        Ok(Machine {
            engine: self.engine.copy()?,
            scratch: Scratch::new(self.engine.alloc),
        })
    }

    /// Carries out one event: its reply and the machine after it are those of the rule table. The bucket of a scan must
    /// exist. NoMemory changes nothing; it comes only from an event that reads or writes rows or searches for a
    /// deadlock, after it has passed the checks. An event takes time at most linear in the versions and in what its
    /// transaction holds, and `Detect` in the transactions times the waits.
    pub fn step(&mut self, event: Event) -> Result<Reply, NoMemory>
        requires { IsPlaced (length self.old.buckets) event }
        ensures step { IfOk result (IsMachineStep event self.old self.new) }
        ensures small { IfOk result (λ r. (w : World) → StandsFor self.old w → IsSmall w r) }
        ensures still { OnErr result (StandsAs self.old self.new) }
        ensures sure { NeedsNone self.old event → IsOk result }
        ensures buckets { length self.new.buckets ≡ length self.old.buckets }
    {
        self.engine.step(&event, &mut self.scratch)
    }
}
