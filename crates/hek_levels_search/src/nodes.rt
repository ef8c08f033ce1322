//! The nodes of the graph: the moments of the transactions, and ticks of a clock.
use crate::lists::{add, at};
use crate::problem::{Problem, Source};
use hek_levels::scans_of;
use hek_rules::NoMemory;
use std::alloc::Global;

/// A moment of an explanation: the opening rows are there, a transaction reads, or its writes come to be.
#[derive(Clone, Copy, PartialEq, Eq)]
pub(crate) enum Moment {
    Opening,
    Begin(usize),
    Commit(usize),
}

/// The node of the opening.
pub(crate) const OPENING: usize = 0;

/// The nodes of a transaction.
#[derive(Clone, Copy)]
struct Ends {
    begin: usize,
    commit: usize,
}

/// The nodes past the end.
const NO_ENDS: Ends = Ends {
    begin: OPENING,
    commit: OPENING,
};

/// The nodes of each transaction. A transaction that reads and commits at once has one.
#[derive(Drop)]
pub(crate) struct Nodes {
    ends: Vec<Ends>,
    /// The moment of each node; a tick of the clock has none.
    moments: Vec<Option<Moment>>,
}

impl Nodes {
    /// No node.
    pub(crate) fn new(alloc: Global) -> Nodes {
        Nodes {
            ends: Vec::new(alloc),
            moments: Vec::new(alloc),
        }
    }

    /// Adds the nodes of all transactions that may have committed.
    pub(crate) fn fill(&mut self, problem: &Problem) -> Result<(), NoMemory> {
        self.add(Some(Moment::Opening))?;
        for t in 0..problem.transactions() {
            self.add_transaction(problem, t)?;
        }
        Ok(())
    }

    /// Adds a node.
    pub(crate) fn add(&mut self, moment: Option<Moment>) -> Result<(), NoMemory> {
        add(&mut self.moments, moment)
    }

    /// Adds the nodes of a transaction. One that reads before it commits has one for each, unless it reads nothing, or writes nothing
    /// and has no turns.
    fn add_transaction(&mut self, problem: &Problem, t: usize) -> Result<(), NoMemory> {
        if !problem.is_possible(t) {
            return add(&mut self.ends, NO_ENDS);
        }
        let begin = self.moments.len();
        let reads = problem.first_reading(t) < problem.end_reading(t)
            || !scans_of(problem.log, t).is_empty();
        let reads_before = reads && problem.reads_before(t);
        if reads_before {
            self.add(Some(Moment::Begin(t)))?;
        }
        let leaves = !problem.left_by(t).is_empty() || !problem.turns(t).is_empty();
        if !reads_before || leaves {
            self.add(Some(Moment::Commit(t)))?;
        }
        let commit = self.moments.len().saturating_sub(1);
        add(&mut self.ends, Ends { begin, commit })
    }

    pub(crate) fn len(&self) -> usize {
        self.moments.len()
    }

    pub(crate) fn begin(&self, t: usize) -> usize {
        at(self.ends.as_slice(), t, NO_ENDS).begin
    }

    pub(crate) fn commit(&self, t: usize) -> usize {
        at(self.ends.as_slice(), t, NO_ENDS).commit
    }

    /// The commit of a transaction, or the opening.
    pub(crate) fn commit_of(&self, writer: Option<usize>) -> usize {
        match writer {
            Some(t) => self.commit(t),
            None => OPENING,
        }
    }

    /// When the rows of a source come to be.
    pub(crate) fn of_source(&self, problem: &Problem, source: Source) -> usize {
        self.commit_of(problem.transaction_of(source))
    }

    pub(crate) fn moment(&self, node: usize) -> Option<Moment> {
        at(self.moments.as_slice(), node, None)
    }

    /// The transaction of a node.
    pub(crate) fn transaction(&self, node: usize) -> Option<usize> {
        match self.moment(node) {
            Some(Moment::Begin(t)) | Some(Moment::Commit(t)) => Some(t),
            _ => None,
        }
    }
}
