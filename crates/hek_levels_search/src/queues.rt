//! Who comes next by turns: in each lane whoever has no other before it that still has to take place.
use crate::lists::{add, at, put};
use crate::problem::Problem;
use hek_levels::Turn;
use hek_rules::NoMemory;
use std::alloc::Global;
use std::collections::BTreeSet;

/// A turn of a lane.
#[derive(Clone, Copy)]
struct Turned {
    lane: usize,
    last: u64,
    transaction: usize,
}

/// The turn past the end.
const NOBODY: Turned = Turned {
    lane: usize::MAX,
    last: u64::MAX,
    transaction: usize::MAX,
};

/// The turns of all who have to take place, by lanes and last numbers.
#[derive(Drop)]
pub(crate) struct Queues {
    turned: Vec<Turned>,
    is_placed: Vec<bool>,
    /// The place of the first in each lane that still has to take place, by lanes.
    heads: Vec<(usize, usize)>,
    /// Those that wait in a lane, with the first numbers of their turns.
    waiting: BTreeSet<(usize, u64, usize)>,
}

impl Queues {
    pub(crate) fn new(alloc: Global) -> Queues {
        Queues {
            turned: Vec::new(alloc),
            is_placed: Vec::new(alloc),
            heads: Vec::new(alloc),
            waiting: BTreeSet::new(alloc),
        }
    }

    /// Takes the turns of all who are known to have committed.
    pub(crate) fn fill(&mut self, problem: &Problem) -> Result<(), NoMemory> {
        for t in 0..problem.transactions() {
            add(&mut self.is_placed, false)?;
            if problem.is_committed(t) {
                for turn in problem.turns(t) {
                    let turned = Turned {
                        lane: turn.lane,
                        last: turn.last,
                        transaction: t,
                    };
                    add(&mut self.turned, turned)?;
                }
            }
        }
        self.turned
            .sort_unstable_by_key(|one| (one.lane, one.last, one.transaction));
        let mut lane = usize::MAX;
        for (place, one) in self.turned.iter().enumerate() {
            if one.lane != lane {
                lane = one.lane;
                self.heads.push((lane, place))?;
            }
        }
        Ok(())
    }

    /// The place of a lane among the heads.
    fn head(&self, lane: usize) -> usize {
        self.heads.partition_point(|one| one.0 < lane)
    }

    /// The first in a lane that still has to take place.
    fn first(&self, lane: usize) -> Turned {
        let head = at(self.heads.as_slice(), self.head(lane), (lane, usize::MAX));
        let first = at(self.turned.as_slice(), head.1, NOBODY);
        if first.lane == lane { first } else { NOBODY }
    }

    /// Whether nobody is before a turn that still has to take place.
    fn has_come(&self, turn: Turn) -> bool {
        self.first(turn.lane).last >= turn.first
    }

    /// Whether nobody is before a transaction by turns that still has to take place.
    pub(crate) fn is_next(&self, problem: &Problem, t: usize) -> bool {
        for turn in problem.turns(t) {
            if !self.has_come(*turn) {
                return false;
            }
        }
        true
    }

    /// A transaction waits in the first lane where its turn has not come.
    pub(crate) fn wait(&mut self, problem: &Problem, t: usize) -> Result<(), NoMemory> {
        for turn in problem.turns(t) {
            if !self.has_come(*turn) {
                let _is_new = self.waiting.insert((turn.lane, turn.first, t))?;
                return Ok(());
            }
        }
        Ok(())
    }

    /// A transaction takes place. Adds those that waited for it.
    pub(crate) fn take(
        &mut self,
        problem: &Problem,
        t: usize,
        woken: &mut Vec<usize>,
    ) -> Result<(), NoMemory> {
        put(&mut self.is_placed, t, true);
        for turn in problem.turns(t) {
            self.advance(turn.lane);
            self.wake(turn.lane, woken)?;
        }
        Ok(())
    }

    /// The head of a lane goes on to the first that still has to take place.
    fn advance(&mut self, lane: usize) {
        let place = self.head(lane);
        let mut head = at(self.heads.as_slice(), place, (lane, usize::MAX));
        for _ in 0..self.turned.len() {
            let one = at(self.turned.as_slice(), head.1, NOBODY);
            if one.lane != lane || !at(self.is_placed.as_slice(), one.transaction, false) {
                break;
            }
            head.1 = head.1.saturating_add(1);
        }
        put(&mut self.heads, place, head);
    }

    /// Those may be tried who waited in a lane until their turn came.
    fn wake(&mut self, lane: usize, woken: &mut Vec<usize>) -> Result<(), NoMemory> {
        let last = self.first(lane).last;
        for _ in 0..self.waiting.len() {
            let Some(one) = self.first_waiting(lane, last) else {
                break;
            };
            let _was_there = self.waiting.remove(&one);
            add(woken, one.2)?;
        }
        Ok(())
    }

    /// The first who waits in a lane until a number.
    fn first_waiting(&self, lane: usize, last: u64) -> Option<(usize, u64, usize)> {
        let least = (lane, 0, 0);
        let first = *self.waiting.range(least..).next()?;
        if first.0 == lane && first.1 <= last {
            Some(first)
        } else {
            None
        }
    }
}
