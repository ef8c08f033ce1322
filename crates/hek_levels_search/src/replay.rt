//! The order of the moments is replayed, to see where it fails.
use crate::known::Known;
use crate::lanes::Lanes;
use crate::lists::{add, at, put};
use crate::problem::{Problem, meets};
use crate::sight::Walk;
use crate::sourcing::Sourcing;
use hek_history::Point;
use hek_rules::NoMemory;
use std::alloc::Global;

/// Where a replay of the order fails.
#[derive(Clone, Copy)]
pub(crate) enum Violation {
    /// What the reader finds isn't what the reading tells of: the last writer of the key, `None` for the opening, left it.
    Found {
        reading: usize,
        writer: Option<usize>,
    },
    /// A reading sees another writer of its key that is after its source.
    Seen {
        reading: usize,
        other: usize,
    },
    /// No candidate of a reading is before its reader.
    Unsourced(usize),
    /// Another who writes the key committed between the begin and the commit of the first.
    Both {
        first: usize,
        second: usize,
        key: usize,
    },
}

/// A key in a replay: its value, and who wrote it last.
#[derive(Clone, Copy)]
struct Cell {
    value: Option<u64>,
    writer: Option<usize>,
}

/// What no key has.
const NO_CELL: Cell = Cell {
    value: None,
    writer: None,
};

/// The rows while the order is replayed, and where it fails, the last one first.
#[derive(Drop)]
pub(crate) struct Replay {
    cells: Vec<Cell>,
    pub failed: Vec<Violation>,
    /// Where readings need not find what the last writer left: their sources, who is just before whom by turns, and whom they see.
    pub sourcing: Sourcing,
    pub lanes: Lanes,
    pub walk: Walk,
}

impl Replay {
    /// Nothing is replayed yet.
    pub(crate) fn new(alloc: Global) -> Replay {
        Replay {
            cells: Vec::new(alloc),
            failed: Vec::new(alloc),
            sourcing: Sourcing::new(alloc),
            lanes: Lanes::new(alloc),
            walk: Walk::new(alloc),
        }
    }

    /// A transaction reads.
    fn read(&mut self, problem: &Problem, t: usize) -> Result<(), NoMemory> {
        for place in problem.first_reading(t)..problem.end_reading(t) {
            let reading = problem.reading(place);
            let cell = at(self.cells.as_slice(), reading.key, NO_CELL);
            if !meets(reading.need, cell.value) {
                let found = Violation::Found {
                    reading: place,
                    writer: cell.writer,
                };
                add(&mut self.failed, found)?;
            }
        }
        Ok(())
    }

    /// The writes of a transaction come to be.
    fn write(&mut self, known: &Known, t: usize) -> Result<(), NoMemory> {
        for left in known.problem.left_by(t) {
            let before = at(self.cells.as_slice(), left.key, NO_CELL);
            if let Some(violation) = known.overlap(t, before.writer, left.key) {
                add(&mut self.failed, violation)?;
            }
            let cell = Cell {
                value: left.value,
                writer: Some(t),
            };
            put(&mut self.cells, left.key, cell);
        }
        Ok(())
    }

    /// Finds where the order fails.
    pub(crate) fn run(&mut self, known: &Known) -> Result<(), NoMemory> {
        self.failed.clear();
        if known.problem.is_by_points {
            return self.run_points(known);
        }
        self.lanes.fill(known)?;
        self.walk
            .fill(known.problem.transactions(), known.problem.all_turns())?;
        self.sourcing
            .run(known, &self.lanes, &mut self.walk, &mut self.failed)?;
        self.failed.reverse();
        Ok(())
    }

    /// Finds the sources that are left in an order in which nothing fails.
    pub(crate) fn finish(&mut self, known: &Known) -> Result<(), NoMemory> {
        self.sourcing.finish(known, &self.lanes, &mut self.walk)
    }

    /// Replays the order.
    fn run_points(&mut self, known: &Known) -> Result<(), NoMemory> {
        self.cells.clear();
        for value in &known.problem.opening {
            let cell = Cell {
                value: *value,
                writer: None,
            };
            add(&mut self.cells, cell)?;
        }
        for node in known.graph.order() {
            if let Some(t) = known.reader_at(*node) {
                self.read(known.problem, t)?;
            }
            if let Some(t) = known.committer_at(*node) {
                self.write(known, t)?;
            }
        }
        self.failed.reverse();
        Ok(())
    }
}

impl Known<'_> {
    /// The transaction that reads at a node, if it takes place.
    pub(crate) fn reader_at(&self, node: usize) -> Option<usize> {
        let t = self.nodes.transaction(node)?;
        if self.is_present(t) && self.nodes.begin(t) == node {
            Some(t)
        } else {
            None
        }
    }

    /// The transaction that commits at a node, if it takes place.
    pub(crate) fn committer_at(&self, node: usize) -> Option<usize> {
        let t = self.nodes.transaction(node)?;
        if self.is_present(t) && self.nodes.commit(t) == node {
            Some(t)
        } else {
            None
        }
    }

    /// The violation that a transaction commits which writes a key, if the last writer of the key committed after it began.
    fn overlap(&self, t: usize, last: Option<usize>, key: usize) -> Option<Violation> {
        let second = last?;
        if !self.problem.rules(t).first.writers {
            return None;
        }
        let commit = self.nodes.commit(second);
        if self.graph.place_of(commit) > self.graph.place_of(self.nodes.begin(t)) {
            Some(Violation::Both {
                first: t,
                second,
                key,
            })
        } else {
            None
        }
    }

    /// The points of those who take place, in order.
    pub(crate) fn points(&self) -> Result<Vec<Point>, NoMemory> {
        let mut points = Vec::new(self.alloc);
        for node in self.graph.order() {
            if let Some(t) = self.reader_at(*node) {
                add(&mut points, Point::Begin(t))?;
            }
            if let Some(t) = self.committer_at(*node) {
                add(&mut points, Point::Commit(t))?;
            }
        }
        Ok(points)
    }
}
