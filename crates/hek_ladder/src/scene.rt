//! A log as it was read, and as levels see it.
ghost use Rattle.std.specs.Prelude.{◌≡◌, IfOk};
ghost use Rattle.hek_ladder.specs.declared.promise.Promise.TheVariants.{Own as OwnLevels};
ghost use Rattle.hek_ladder.specs.Findings.{own_rules_of, IsAsked};

use crate::binding::Binding;
use crate::guesses::guesses_of;
use crate::turns::turns_of;
use hek_anomalies::Lanes;
use hek_history::Level as HistoryLevel;
use hek_history_levels::log_of;
use hek_history_log::Log;
use hek_levels::{Asked, Level, Rules};
use hek_levels_search::Guess;
use hek_rules::NoMemory;
use std::alloc::Global;

/// Which levels the transactions of a history are taken to have.
#[derive(Clone, Copy, PartialEq, Eq)]
pub enum Levels {
    /// One for all, by which each answer is judged.
    All,
    /// One for all, by which no answer of absence is.
    Lenient,
    /// Those of the log.
    Own,
}

/// A log with its names, and the same as levels see it.
#[derive(Drop)]
pub struct Scene {
    pub alloc: Global,
    pub log: Log,
    pub seen: hek_levels::Log,
    pub lanes: Lanes,
    pub binding: Binding,
    /// How many repairs of an order a search tries.
    pub effort: usize,
    pub(crate) guesses: Vec<Guess>,
}

/// Gives all transactions the level that they are taken to have.
fn set_levels(log: &mut Log, levels: Levels) {
    let level = match levels {
        Levels::All => HistoryLevel::Serializable,
        Levels::Lenient => HistoryLevel::Repeatable,
        Levels::Own => return,
    };
    for transaction in log.history.transactions.iter_mut() {
        transaction.level = level;
    }
}

/// A log as levels see it.
fn seen_of(
    alloc: Global,
    log: &Log,
    binding: Binding,
    lanes: &mut Lanes,
) -> Result<hek_levels::Log, NoMemory> {
    let turns = turns_of(alloc, log, binding, lanes)?;
    log_of(alloc, &log.history, turns.as_slice())
}

impl Scene {
    /// The scene of a log, in which these facts bind.
    pub fn new(
        alloc: Global,
        mut log: Log,
        levels: Levels,
        binding: Binding,
        effort: usize,
    ) -> Result<Scene, NoMemory> {
        set_levels(&mut log, levels);
        let mut lanes = Lanes::new(alloc);
        let seen = seen_of(alloc, &log, binding, &mut lanes)?;
        let guesses = guesses_of(alloc, &log)?;
        Ok(Scene {
            alloc,
            log,
            seen,
            lanes,
            binding,
            effort,
            guesses,
        })
    }

    /// The log as levels see it is made anew, after its history was changed.
    pub fn renew(&mut self) -> Result<(), NoMemory> {
        self.lanes = Lanes::new(self.alloc);
        self.seen = seen_of(self.alloc, &self.log, self.binding, &mut self.lanes)?;
        Ok(())
    }

    /// The rules of each transaction at its own level.
    pub(crate) fn own_rules(&self) -> Result<Asked, NoMemory>
        ensures { IfOk result (λ asked. IsAsked self.now OwnLevels asked) }
    {
        let mut list = Vec::new(self.alloc);
        for transaction in &self.log.history.transactions {
            list.push(own_rules_at(transaction.level))?;
        }
        Ok(Asked::Own(list))
    }
}

/// The rules of a level of a history.
fn own_rules_at(level: HistoryLevel) -> Rules
    ensures { result ≡ own_rules_of level }
{
    match level {
        HistoryLevel::Serializable | HistoryLevel::Repeatable => Level::Serializable.rules(),
        HistoryLevel::Snapshot => Level::Snapshot.rules(),
    }
}
