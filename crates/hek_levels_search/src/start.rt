//! What is known before any decision, and what follows where one of unknown status takes place by a fact.
use crate::clock::Clock;
use crate::facts::{Facts, Rule, Says, Stop};
use crate::graph::Graph;
use crate::judging::Hint;
use crate::known::Known;
use crate::lists::add;
use crate::nodes::{Moment, Nodes};
use crate::problem::{Problem, Source};
use hek_rules::NoMemory;
use std::alloc::Global;
use std::collections::HashMap;

/// How many candidates a reading has, its own transaction left out.
#[derive(Clone, Copy)]
pub(crate) enum Choice {
    None,
    One(Source),
    Several,
}

/// The candidates of a reading, its own transaction left out.
pub(crate) fn choice_of(problem: &Problem, place: usize) -> Choice {
    let reading = problem.reading(place);
    let candidates = problem.candidates(reading);
    let mut found = if candidates.opening {
        Choice::One(Source::Opening)
    } else {
        Choice::None
    };
    for row in candidates.from..candidates.to {
        if problem.writer_of(row) != Some(reading.reader) {
            match found {
                Choice::None => found = Choice::One(Source::Row(row)),
                Choice::One(_) | Choice::Several => return Choice::Several,
            }
        }
    }
    found
}

/// The state of a search before its first fact.
pub(crate) fn prepared<'a>(
    alloc: Global,
    problem: &'a Problem<'a>,
    hints: &'a [Hint],
    is_assuming: bool,
) -> Known<'a> {
    Known {
        alloc,
        problem,
        hints,
        is_assuming,
        node_hints: Vec::new(alloc),
        nodes: Nodes::new(alloc),
        clock: Clock::new(alloc),
        graph: Graph::new(alloc),
        facts: Facts::new(alloc),
        only: Vec::new(alloc),
        sources: HashMap::new(alloc),
        nots: HashMap::new(alloc),
        taken: Vec::new(alloc),
        pending: Vec::new(alloc),
        decisions: Vec::new(alloc),
        trail: Vec::new(alloc),
        again: Vec::new(alloc),
        conflicts: 0,
        chances: Vec::new(alloc),
        rested_on: Vec::new(alloc),
        is_seen: Vec::new(alloc),
        todo: Vec::new(alloc),
        sight: 0,
        hops: Vec::new(alloc),
    }
}

impl Known<'_> {
    /// The hint of a node; a tick comes as early as may be.
    fn node_hint(&self, node: usize) -> u64 {
        match self.nodes.moment(node) {
            Some(Moment::Opening) => 0,
            Some(Moment::Begin(t)) => self.hint(t).begin,
            Some(Moment::Commit(t)) => self.hint(t).commit,
            None => 0,
        }
    }

    /// The only candidate of a reading, if it has one.
    fn only_source(&self, place: usize) -> Option<Source> {
        match choice_of(self.problem, place) {
            Choice::One(source) => Some(source),
            Choice::None | Choice::Several => None,
        }
    }

    /// Makes room for what will be known of each transaction and node.
    fn fill(&mut self) -> Result<(), NoMemory> {
        for _ in 0..self.problem.transactions() {
            add(&mut self.taken, None)?;
        }
        self.nodes.fill(self.problem)?;
        self.clock.fill(self.problem, &mut self.nodes)?;
        for node in 0..self.nodes.len() {
            self.graph.add_node(self.alloc)?;
            let hint = self.node_hint(node);
            add(&mut self.node_hints, hint)?;
        }
        Ok(())
    }

    /// Makes room for what will be known of each reading.
    fn fill_readings(&mut self) -> Result<(), NoMemory> {
        for place in 0..self.problem.readings.len() {
            let only = self.only_source(place);
            add(&mut self.only, only)?;
        }
        Ok(())
    }

    /// Adds a contradiction that rests on what was cited.
    pub(crate) fn contradict(&mut self, rule: Rule) -> Result<(), Stop> {
        let conflict = self.facts.add(Says::Contradiction, rule, 0)?;
        Err(Stop::Conflict(conflict))
    }

    /// Each snapshot transaction begins before it commits.
    fn add_own(&mut self) -> Result<(), NoMemory> {
        for t in 0..self.problem.transactions() {
            let begin = self.nodes.begin(t);
            let commit = self.nodes.commit(t);
            if begin != commit {
                self.begin_with(begin, commit, Rule::Own)?;
            }
        }
        Ok(())
    }

    /// The only source of a reading of a committed transaction is before it, and there is a conflict if it has none.
    fn add_read(&mut self, place: usize) -> Result<(), Stop> {
        let reader = self.problem.reading(place).reader;
        if !self.problem.is_committed(reader) {
            return Ok(());
        }
        match choice_of(self.problem, place) {
            Choice::Several => Ok(()),
            Choice::None => self.contradict(Rule::NoSource(place)),
            Choice::One(source) => {
                let commit = self.nodes.of_source(self.problem, source);
                let begin = self.nodes.begin(reader);
                self.begin_with(commit, begin, Rule::Read(place))?;
                Ok(self.take(source, reader)?)
            }
        }
    }

    /// Adds the facts that need no decision.
    pub(crate) fn begin(&mut self) -> Result<(), Stop> {
        self.fill()?;
        self.fill_readings()?;
        for t in 0..self.problem.transactions() {
            if self.problem.is_committed(t) && !self.problem.is_possible(t) {
                self.contradict(Rule::Impossible(t))?;
            }
        }
        self.add_own()?;
        for place in 0..self.problem.readings.len() {
            self.add_read(place)?;
        }
        self.add_clock()
    }

    /// What follows from all that take place by facts.
    pub(crate) fn activate_pending(&mut self) -> Result<(), Stop> {
        for _ in 0..usize::MAX {
            let Some(t) = self.pending.pop() else {
                break;
            };
            if self.taken_by(t).is_some() {
                if let Err(stop) = self.activate(t) {
                    add(&mut self.pending, t)?;
                    return Err(stop);
                }
            }
        }
        Ok(())
    }

    /// What follows where a transaction takes place by a fact.
    fn activate(&mut self, t: usize) -> Result<(), Stop> {
        if !self.problem.is_possible(t) {
            self.cite_taken(t)?;
            self.contradict(Rule::Impossible(t))?;
        }
        self.enter(t)?;
        for place in self.problem.first_reading(t)..self.problem.end_reading(t) {
            if self.source(place).is_none() {
                match choice_of(self.problem, place) {
                    Choice::One(source) => self.settle(place, source, Rule::LastSource, 0)?,
                    Choice::Several => {}
                    Choice::None => {
                        self.cite_taken(t)?;
                        self.contradict(Rule::NoSource(place))?;
                    }
                }
            }
        }
        Ok(())
    }
}
