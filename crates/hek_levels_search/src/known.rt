//! What the search knows and assumes: facts, the graph of those that order moments, sources, and who takes place.
use crate::clock::Clock;
use crate::facts::{Facts, Rule, Says, Stop};
use crate::graph::Graph;
use crate::judging::Hint;
use crate::lists::{add, at, put};
use crate::nodes::{Nodes, OPENING};
use crate::problem::{Problem, Source};
use crate::replay::Violation;
use crate::sight::{Hop, NO_HOP};
use hek_rules::NoMemory;
use std::alloc::Global;
use std::collections::HashMap;

/// A source that a fact excludes for a reading.
#[derive(Clone, Copy)]
pub(crate) struct Excluded {
    pub source: Source,
    pub fact: usize,
}

/// A source that is settled for a reading: by a fact, if it isn't known from the start.
#[derive(Clone, Copy)]
pub(crate) struct Settled {
    pub source: Source,
    pub fact: Option<usize>,
}

/// A decision that is open: what it was made for, and how many facts were to be taken back before it.
#[derive(Clone, Copy)]
pub(crate) struct Decision {
    pub violation: Violation,
    pub mark: usize,
}

/// Where a candidate is in the order: before its reader, after it, or nowhere yet.
pub(crate) const BEFORE: u8 = 0;

pub(crate) const AFTER: u8 = 1;

pub(crate) const DOUBTFUL: u8 = 2;

/// A candidate for the source of a reading, where it is, and how far from its reader.
#[derive(Clone, Copy)]
pub(crate) struct Chance {
    pub source: Source,
    pub node: usize,
    pub standing: u8,
    pub distance: usize,
}

/// The candidate past the end.
pub(crate) const NO_CHANCE: Chance = Chance {
    source: Source::Opening,
    node: OPENING,
    standing: DOUBTFUL,
    distance: 0,
};

/// The state of the search.
#[derive(Drop)]
pub(crate) struct Known<'a> {
    pub alloc: Global,
    pub problem: &'a Problem<'a>,
    pub hints: &'a [Hint],
    /// Whether something is assumed: then nobody asks why there is no order.
    pub is_assuming: bool,
    pub node_hints: Vec<u64>,
    pub nodes: Nodes,
    pub clock: Clock,
    pub graph: Graph,
    pub facts: Facts,
    /// The only candidate of each reading, its own transaction left out.
    pub only: Vec<Option<Source>>,
    /// The fact that settles the source of a reading.
    pub sources: HashMap<usize, usize>,
    /// The sources that are excluded for a reading.
    pub nots: HashMap<usize, Vec<Excluded>>,
    /// The fact by which a transaction takes place that isn't known to have committed.
    pub taken: Vec<Option<usize>>,
    /// Those that take place by a fact, and of which not all that follows is known.
    pub pending: Vec<usize>,
    pub decisions: Vec<Decision>,
    /// The facts that rest on decisions, in order.
    pub trail: Vec<usize>,
    /// What decisions were made for that were taken back.
    pub again: Vec<Violation>,
    pub conflicts: usize,
    /// The candidates of the last reading whose source was looked for.
    pub chances: Vec<Chance>,
    /// The decisions on which the last conflict rests; which facts were seen, and are to be, to find them.
    pub rested_on: Vec<usize>,
    pub is_seen: Vec<bool>,
    pub todo: Vec<usize>,
    /// Within how many nodes paths are looked for.
    pub sight: usize,
    /// The hops by which readings see, of facts that rest on them.
    pub hops: Vec<Hop>,
}

impl Known<'_> {
    /// Where a transaction is expected; without a hint by its place.
    pub(crate) fn hint(&self, t: usize) -> Hint {
        let by_place = Hint {
            begin: t as u64,
            commit: t as u64,
        };
        at(self.hints, t, by_place)
    }

    /// A hop of a fact.
    pub(crate) fn hop(&self, place: usize) -> Hop {
        at(self.hops.as_slice(), place, NO_HOP)
    }

    /// The fact by which a transaction takes place, if it isn't known to have committed.
    pub(crate) fn taken_by(&self, t: usize) -> Option<usize> {
        at(self.taken.as_slice(), t, None)
    }

    pub(crate) fn is_present(&self, t: usize) -> bool {
        self.problem.is_committed(t) || self.taken_by(t).is_some()
    }

    /// Whether the writer takes place; the opening does.
    pub(crate) fn is_present_writer(&self, writer: Option<usize>) -> bool {
        match writer {
            Some(t) => self.is_present(t),
            None => true,
        }
    }

    /// The sources that are excluded for a reading.
    pub(crate) fn excluded(&self, reading: usize) -> &[Excluded] {
        match self.nots.get(&reading) {
            Some(list) => list.as_slice(),
            None => &[],
        }
    }

    pub(crate) fn is_excluded(&self, reading: usize, source: Source) -> bool {
        for one in self.excluded(reading) {
            if one.source == source {
                return true;
            }
        }
        false
    }

    /// The source of a reading, if it is settled.
    pub(crate) fn source(&self, reading: usize) -> Option<Settled> {
        if let Some(fact) = self.sources.get(&reading).copied() {
            if let Says::Source { source, .. } = self.facts.get(fact).says {
                return Some(Settled {
                    source,
                    fact: Some(fact),
                });
            }
        }
        let source = at(self.only.as_slice(), reading, None)?;
        if self
            .problem
            .is_committed(self.problem.reading(reading).reader)
        {
            Some(Settled { source, fact: None })
        } else {
            None
        }
    }

    /// Adds a fact of the start, with its edge.
    pub(crate) fn begin_with(
        &mut self,
        first: usize,
        second: usize,
        rule: Rule,
    ) -> Result<(), NoMemory> {
        if first == OPENING {
            // the opening is before all else without a fact
            return Ok(());
        }
        let fact = self.facts.add(Says::Before { first, second }, rule, 0)?;
        self.graph.link(first, second, fact)
    }

    /// Notes that a fact is to be taken back with the decision of its level.
    fn note(&mut self, fact: usize) -> Result<(), NoMemory> {
        if self.facts.get(fact).level > 0 {
            return add(&mut self.trail, fact);
        }
        Ok(())
    }

    /// The only fact of a path from the opening.
    fn path_from_opening(&mut self, node: usize) -> Result<(), NoMemory> {
        let says = Says::Before {
            first: OPENING,
            second: node,
        };
        let fact = self.facts.add_apart(says, Rule::First)?;
        self.graph.path.clear();
        add(&mut self.graph.path, fact)
    }

    /// Whether a path from a node to another was found; from the opening there is one to each.
    pub(crate) fn has_path(&mut self, from: usize, to: usize) -> Result<bool, NoMemory> {
        if from == OPENING && to != OPENING {
            self.path_from_opening(to)?;
            return Ok(true);
        }
        self.graph.find_path(from, to, self.sight)
    }

    /// Whether a path from a node to another was found, however far it leads.
    pub(crate) fn has_path_far(&mut self, from: usize, to: usize) -> Result<bool, NoMemory> {
        if from == OPENING && to != OPENING {
            self.path_from_opening(to)?;
            return Ok(true);
        }
        self.graph.find_path(from, to, usize::MAX)
    }

    /// Cites the path that was found last.
    pub(crate) fn cite_path(&mut self) -> Result<(), NoMemory> {
        self.facts.cite_all(self.graph.path.as_slice())
    }

    /// Cites the fact by which a transaction takes place, if it isn't known to have committed.
    pub(crate) fn cite_taken(&mut self, t: usize) -> Result<(), NoMemory> {
        let taken = self.taken_by(t);
        self.facts.cite_option(taken)
    }

    /// Makes room for an edge. Answers whether a path from the second to the first forbids it.
    pub(crate) fn is_forbidden(&mut self, first: usize, second: usize) -> Result<bool, NoMemory> {
        if first == second {
            self.graph.path.clear();
            return Ok(true);
        }
        if second == OPENING {
            self.path_from_opening(first)?;
            return Ok(true);
        }
        if first == OPENING {
            return Ok(false);
        }
        self.graph.make_room(first, second)
    }

    /// Adds that a moment is before another, which follows from what was cited.
    pub(crate) fn force(
        &mut self,
        first: usize,
        second: usize,
        rule: Rule,
        least: usize,
    ) -> Result<(), Stop> {
        let fact = self.facts.add(Says::Before { first, second }, rule, least)?;
        if self.is_forbidden(first, second)? {
            self.cite_path()?;
            self.facts.cite(fact)?;
            return self.contradict(Rule::Cycle);
        }
        Ok(self.link_noted(first, second, fact)?)
    }

    /// Adds the edge of a fact, unless it is from the opening, and notes that it is to be taken back with the decision of its level.
    fn link_noted(&mut self, first: usize, second: usize, fact: usize) -> Result<(), NoMemory> {
        if first == OPENING {
            return Ok(());
        }
        self.graph.link(first, second, fact)?;
        self.note(fact)
    }

    /// Adds a fact that follows from what was cited, and notes that it is to be taken back with the decision of its level.
    fn add_noted(&mut self, says: Says, rule: Rule, least: usize) -> Result<usize, NoMemory> {
        let fact = self.facts.add(says, rule, least)?;
        self.note(fact)?;
        Ok(fact)
    }

    /// Opens a decision. Answers its level.
    fn open_decision(&mut self, violation: Violation) -> Result<usize, NoMemory> {
        let decision = Decision {
            violation,
            mark: self.trail.len(),
        };
        add(&mut self.decisions, decision)?;
        Ok(self.decisions.len())
    }

    /// Decides that a moment is before another. Answers whether a path forbids it.
    pub(crate) fn decide(
        &mut self,
        first: usize,
        second: usize,
        violation: Violation,
    ) -> Result<bool, Stop> {
        if self.is_forbidden(first, second)? {
            return Ok(true);
        }
        let level = self.open_decision(violation)?;
        self.force(first, second, Rule::Assumed, level)?;
        Ok(false)
    }

    /// Decides on the source of a reading.
    pub(crate) fn decide_source(
        &mut self,
        reading: usize,
        source: Source,
        violation: Violation,
    ) -> Result<(), Stop> {
        let level = self.open_decision(violation)?;
        self.settle(reading, source, Rule::Assumed, level)
    }

    /// Notes the fact that settles the source of a reading.
    fn note_settled(&mut self, reading: usize, fact: usize) -> Result<(), NoMemory> {
        let _before = self.sources.insert(reading, fact)?;
        Ok(())
    }

    /// Adds the source of a reading, and that it is before the reader.
    pub(crate) fn settle(
        &mut self,
        reading: usize,
        source: Source,
        rule: Rule,
        least: usize,
    ) -> Result<(), Stop> {
        let reader = self.problem.reading(reading).reader;
        self.cite_taken(reader)?;
        let fact = self.add_noted(Says::Source { reading, source }, rule, least)?;
        self.note_settled(reading, fact)?;
        self.read_from(reading, source, fact)
    }

    /// Adds that the source of a reading is before the reader, by the fact that settles it, and so takes place.
    pub(crate) fn read_from(
        &mut self,
        reading: usize,
        source: Source,
        settled: usize,
    ) -> Result<(), Stop> {
        let reader = self.problem.reading(reading).reader;
        let commit = self.nodes.of_source(self.problem, source);
        let begin = self.nodes.begin(reader);
        self.facts.cite(settled)?;
        self.force(commit, begin, Rule::Read(reading), 0)?;
        Ok(self.take(source, reader)?)
    }

    /// Adds that the transaction of a source takes place, since by the last fact it is before a reader that does.
    pub(crate) fn take(&mut self, source: Source, reader: usize) -> Result<(), NoMemory> {
        if let Some(t) = self.problem.transaction_of(source) {
            if !self.is_present(t) {
                return self.add_taken(t, reader);
            }
        }
        Ok(())
    }

    /// Adds that a transaction takes place, since by the last fact it is before a reader that does.
    fn add_taken(&mut self, t: usize, reader: usize) -> Result<(), NoMemory> {
        let read = self.facts.last();
        self.facts.cite(read)?;
        self.cite_taken(reader)?;
        let fact = self.add_noted(Says::Taken(t), Rule::Inside, 0)?;
        put(&mut self.taken, t, Some(fact));
        add(&mut self.pending, t)
    }

    /// Adds that a source is not that of a reading, which follows from what was cited.
    pub(crate) fn exclude(
        &mut self,
        reading: usize,
        source: Source,
        rule: Rule,
        least: usize,
    ) -> Result<(), NoMemory> {
        let fact = self.add_noted(Says::Not { reading, source }, rule, least)?;
        if let Some(list) = self.nots.get_mut(&reading) {
            return add(list, Excluded { source, fact });
        }
        let mut list = Vec::new(self.alloc);
        add(&mut list, Excluded { source, fact })?;
        let _before = self.nots.insert(reading, list)?;
        Ok(())
    }

    /// Takes back that a source is not that of a reading.
    fn include(&mut self, reading: usize, fact: usize) {
        if let Some(list) = self.nots.get_mut(&reading) {
            for place in 0..list.len() {
                if place < list.len() && list[place].fact == fact {
                    let _excluded = list.remove(place);
                    return;
                }
            }
        }
    }

    /// Takes a fact back.
    fn forget(&mut self, fact: usize) {
        match self.facts.get(fact).says {
            Says::Before { first, second } => self.graph.unlink(first, second, fact),
            Says::Source { reading, .. } => {
                let _settled = self.sources.remove(&reading);
            }
            Says::Not { reading, .. } => self.include(reading, fact),
            Says::Taken(t) => put(&mut self.taken, t, None),
            Says::Contradiction => {}
        }
    }

    /// Closes all decisions above a level. Answers how many facts were to be taken back before them.
    fn close_decisions(&mut self, level: usize) -> Result<usize, NoMemory> {
        let mut mark = self.trail.len();
        for _ in level..self.decisions.len() {
            if let Some(decision) = self.decisions.pop() {
                mark = decision.mark;
                add(&mut self.again, decision.violation)?;
            }
        }
        Ok(mark)
    }

    /// Takes all decisions above a level back, and the facts that rest on them.
    pub(crate) fn undo(&mut self, level: usize) -> Result<(), NoMemory> {
        let mark = self.close_decisions(level)?;
        let mut end = mark;
        for place in mark..self.trail.len() {
            let fact = at(self.trail.as_slice(), place, 0);
            if self.facts.get(fact).level > level {
                self.forget(fact);
            } else {
                put(&mut self.trail, end, fact);
                end = end.saturating_add(1);
            }
        }
        self.trail.truncate(end);
        Ok(())
    }
}
