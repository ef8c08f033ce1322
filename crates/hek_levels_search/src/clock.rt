//! The clock: a transaction's commit is before the tick of the last number of its turn, each tick of a lane before the next one, and
//! the last tick before the first number of a turn is before the transaction of that.
use crate::facts::{Rule, Stop};
use crate::known::Known;
use crate::lists::{add, at};
use crate::nodes::Nodes;
use crate::problem::Problem;
use hek_levels::Turn;
use hek_rules::NoMemory;
use std::alloc::Global;

/// A lane, and a last number of a turn there.
type Tick = (usize, u64);

/// The ticks in order. Their nodes are in order too, from the first one on.
#[derive(Drop)]
pub(crate) struct Clock {
    ticks: Vec<Tick>,
    first: usize,
}

/// The turn past the end.
const NO_TURN: Turn = Turn {
    lane: usize::MAX,
    first: 0,
    last: 0,
    seen: false,
};

/// The turn of a transaction at a place of its list.
pub(crate) fn turn_at(problem: &Problem, t: usize, place: usize) -> Turn {
    at(problem.turns(t), place, NO_TURN)
}

/// The node that comes after those whose turns are before one of its transaction: where that sees them, it begins after them.
fn node_after(problem: &Problem, nodes: &Nodes, t: usize, turn: Turn) -> usize {
    if turn.seen && problem.rules(t).first.turns {
        nodes.begin(t)
    } else {
        nodes.commit(t)
    }
}

impl Clock {
    /// A clock without a tick.
    pub(crate) fn new(alloc: Global) -> Clock {
        Clock {
            ticks: Vec::new(alloc),
            first: 0,
        }
    }

    /// Adds the ticks of a problem, and their nodes.
    pub(crate) fn fill(&mut self, problem: &Problem, nodes: &mut Nodes) -> Result<(), NoMemory> {
        for t in 0..problem.transactions() {
            if problem.is_possible(t) {
                for turn in problem.turns(t) {
                    add(&mut self.ticks, (turn.lane, turn.last))?;
                }
            }
        }
        self.ticks.sort_unstable();
        self.ticks.dedup();
        self.first = nodes.len();
        for _ in 0..self.ticks.len() {
            nodes.add(None)?;
        }
        Ok(())
    }

    /// The place of the first tick that isn't before another.
    fn place_of(&self, tick: Tick) -> usize {
        self.ticks.as_slice().partition_point(|one| *one < tick)
    }

    /// The node of the tick at a place.
    fn node(&self, place: usize) -> usize {
        self.first.saturating_add(place)
    }

    /// The place of the last tick before another, in its lane.
    fn last_before(&self, tick: Tick) -> Option<usize> {
        let place = self.place_of(tick);
        if place == 0 {
            return None;
        }
        let before = self.ticks.get(place - 1)?;
        if before.0 == tick.0 {
            Some(place - 1)
        } else {
            None
        }
    }
}

impl Known<'_> {
    /// The clock runs.
    fn add_ticks(&mut self) -> Result<(), NoMemory> {
        for place in 0..self.clock.ticks.len() {
            let tick = at(self.clock.ticks.as_slice(), place, (0, 0));
            if let Some(before) = self.clock.last_before(tick) {
                let first = self.clock.node(before);
                let second = self.clock.node(place);
                self.begin_with(first, second, Rule::Later)?;
            }
        }
        Ok(())
    }

    /// What the turns of a transaction that takes place say.
    pub(crate) fn enter(&mut self, t: usize) -> Result<(), Stop> {
        for place in 0..self.problem.turns(t).len() {
            let turn = turn_at(self.problem, t, place);
            self.enter_tick(t, turn)?;
            self.leave_tick(t, place, turn)?;
        }
        Ok(())
    }

    /// A transaction is before the tick of the last number of its turn.
    fn enter_tick(&mut self, t: usize, turn: Turn) -> Result<(), Stop> {
        let first = self.nodes.commit(t);
        let second = self.clock.node(self.clock.place_of((turn.lane, turn.last)));
        self.tie(t, first, second, Rule::Enter)
    }

    /// A transaction is after the last tick before the first number of its turn.
    fn leave_tick(&mut self, t: usize, place: usize, turn: Turn) -> Result<(), Stop> {
        let Some(before) = self.clock.last_before((turn.lane, turn.first)) else {
            return Ok(());
        };
        let first = self.clock.node(before);
        let second = node_after(self.problem, &self.nodes, t, turn);
        self.tie(t, first, second, Rule::Leave(place))
    }

    /// A node of a transaction that takes place is before one of the clock, or after it.
    fn tie(&mut self, t: usize, first: usize, second: usize, rule: Rule) -> Result<(), Stop> {
        if self.taken_by(t).is_none() {
            return Ok(self.begin_with(first, second, rule)?);
        }
        self.cite_taken(t)?;
        self.force(first, second, rule, 0)
    }

    /// What the turns of those say who are known to have committed.
    pub(crate) fn add_clock(&mut self) -> Result<(), Stop> {
        self.add_ticks()?;
        for t in 0..self.problem.transactions() {
            if self.problem.is_committed(t) && self.problem.is_possible(t) {
                self.enter(t)?;
            }
        }
        Ok(())
    }
}
