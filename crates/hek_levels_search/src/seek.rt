//! The search: by facts, and by repairs: the order is replayed, and what fails is repaired, one after another.
use crate::facts::{Rule, Stop};
use crate::known::Known;
use crate::lists::add;
use crate::order::Sorting;
use crate::replay::{Replay, Violation};
use hek_rules::NoMemory;

/// Within how many nodes paths are looked for at first.
const NEAR: usize = 1000;

/// What the search comes to.
#[derive(Clone, Copy)]
pub(crate) enum Outcome {
    /// The order is that of an explanation.
    Ordered,
    /// This fact says that there is a contradiction, and rests on no decision.
    Refuted(usize),
    /// It gave up, with so many violations left.
    Unknown(usize),
}

/// What is left to do: violations to repair, the last one first, and how many repairs may still be made, one for which many nodes
/// are looked at counting as several.
#[derive(Drop)]
struct Work<'a> {
    replay: &'a mut Replay,
    effort: usize,
}

impl Work<'_> {
    /// Something was done for which so many nodes were looked at.
    fn spend(&mut self, nodes: usize) {
        let cost = (nodes / NEAR).saturating_add(1);
        self.effort = self.effort.saturating_sub(cost);
    }
}

impl Known<'_> {
    /// The facts that need no decision, and an order that agrees with them.
    fn start(&mut self) -> Result<(), Stop> {
        self.begin()?;
        let mut sorting = Sorting::new(self.alloc);
        sorting.sort(&self.graph, self.node_hints.as_slice())?;
        if sorting.order.len() == self.graph.len() {
            self.graph.set_order(sorting.order.as_slice());
            return Ok(());
        }
        if !self.is_assuming {
            self.find_short_cycle(sorting.held.as_slice())?;
            self.cite_path()?;
        }
        self.contradict(Rule::Cycle)
    }

    /// What follows from the facts, and then a repair.
    fn repair_one(&mut self, next: Option<Violation>, replay: &mut Replay) -> Result<(), Stop> {
        self.activate_pending()?;
        if let Some(violation) = next {
            self.repair(violation, replay)?;
        }
        self.activate_pending()
    }

    /// At how many nodes the search has looked.
    fn looked_at(&self, work: &Work<'_>) -> usize {
        self.graph
            .looked_at
            .saturating_add(work.replay.walk.looked_at)
    }

    /// Repairs the last violation. Answers a conflict that rests on no decision, if it comes to that.
    fn step(&mut self, work: &mut Work<'_>) -> Result<Option<usize>, NoMemory> {
        let next = work.replay.failed.pop();
        let before = self.looked_at(work);
        let outcome = self.repair_one(next, work.replay);
        let after = self.looked_at(work);
        work.spend(after.saturating_sub(before));
        match outcome {
            Ok(()) => Ok(None),
            Err(Stop::NoMemory) => Err(NoMemory),
            Err(Stop::Conflict(conflict)) => self.turn_back(conflict, next, work),
        }
    }

    /// Resolves a conflict. The violation is still to be repaired, and so are those whose repairs were taken back.
    fn turn_back(
        &mut self,
        conflict: usize,
        next: Option<Violation>,
        work: &mut Work<'_>,
    ) -> Result<Option<usize>, NoMemory> {
        let refuted = self.resolve(conflict)?;
        if let Some(violation) = next {
            add(&mut work.replay.failed, violation)?;
        }
        work.replay.failed.extend_from_slice(self.again.as_slice())?;
        self.again.clear();
        Ok(refuted)
    }

    /// Repairs violations until none is left, or nothing is left of the effort. Answers a conflict that rests on no decision.
    fn repair_all(&mut self, work: &mut Work<'_>) -> Result<Option<usize>, NoMemory> {
        for _ in 0..work.effort {
            let is_done = work.replay.failed.is_empty() && self.pending.is_empty();
            if is_done || work.effort == 0 {
                break;
            }
            if let Some(conflict) = self.step(work)? {
                return Ok(Some(conflict));
            }
        }
        Ok(None)
    }

    /// Replays and repairs until nothing fails.
    fn repair_until(&mut self, effort: usize, replay: &mut Replay) -> Result<Outcome, NoMemory> {
        let mut work = Work { replay, effort };
        for _ in 0..effort {
            let before = self.looked_at(&work);
            work.replay.run(self)?;
            let looked_at = self.looked_at(&work).saturating_sub(before);
            work.spend(self.graph.len().saturating_add(looked_at));
            if work.replay.failed.is_empty() && self.pending.is_empty() {
                return Ok(Outcome::Ordered);
            }
            if let Some(conflict) = self.repair_all(&mut work)? {
                return Ok(Outcome::Refuted(conflict));
            }
            if work.effort == 0 {
                break;
            }
        }
        Ok(Outcome::Unknown(work.replay.failed.len()))
    }

    /// Searches from the start. The replay is that of the last order.
    pub(crate) fn seek(&mut self, effort: usize, replay: &mut Replay) -> Result<Outcome, NoMemory> {
        self.sight = NEAR;
        match self.start() {
            Ok(()) => self.repair_until(effort, replay),
            Err(Stop::NoMemory) => Err(NoMemory),
            Err(Stop::Conflict(conflict)) => Ok(Outcome::Refuted(conflict)),
        }
    }
}
