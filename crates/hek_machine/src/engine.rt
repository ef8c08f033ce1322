//! The parts of a machine.
ghost use Rattle.std.specs.Prelude.{IfOk};
ghost use Rattle.hek_rules.specs.Plan.{IsPlan, levels_of};
ghost use Rattle.hek_rules.specs.World.{opening};
ghost use Rattle.hek_laws.specs.Runs.{IsFirstClock};
ghost use Rattle.hek_machine.specs.Stands.{StandsFor, StillShows};

use hek_buckets::Buckets;
use hek_rules::{NoMemory, Schedule, Time};
use hek_store::Store;
use hek_txn::Txns;
use std::alloc::Global;

/// The versions, the transactions, the bucket locks, and the clock.
#[derive(Drop)]
pub(crate) struct Engine {
    pub(crate) store: Store,
    pub(crate) txns: Txns,
    pub(crate) buckets: Buckets,
    pub(crate) clock: Time,
    pub(crate) alloc: Global,
}

impl Engine {
    /// The rows and transactions of a schedule, before the first event.
    pub(crate) fn load(alloc: Global, schedule: &Schedule, clock: Time) -> Result<Engine, NoMemory>
        requires { IsFirstClock clock }
        ensures plan { IfOk result (λ _. IsPlan schedule.now) }
        ensures stands { IfOk result (λ engine. StandsFor engine (opening schedule.now.buckets schedule.now.rows (levels_of schedule.now) clock)) }
    {
        Ok(Engine {
            store: Store::load(alloc, schedule)?,
            txns: Txns::load(alloc, schedule)?,
            buckets: Buckets::load(alloc, schedule)?,
            clock,
            alloc,
        })
    }

    /// Equal parts, with separate room.
    pub(crate) fn copy(&self) -> Result<Engine, NoMemory>
        ensures { IfOk result (StillShows self.now) }
    {
        Ok(Engine {
            store: self.store.copy()?,
            txns: self.txns.copy()?,
            buckets: self.buckets.copy()?,
            clock: self.clock,
            alloc: self.alloc,
        })
    }
}
