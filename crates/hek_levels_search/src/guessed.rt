//! Points by a guess: transactions commit as they are expected to, and each begins as late as its answers let it.
use crate::judging::{Hint, hint_at};
use crate::lists::{add, at, put};
use crate::problem::{Problem, meets};
use hek_history::Point;
use hek_levels::{Log, is_committed};
use hek_rules::NoMemory;
use std::alloc::Global;

/// How often the readings of a transaction are gone over, at most.
const ROUNDS: usize = 64;

/// A version of a key: where its writer commits, and what it leaves.
#[derive(Clone, Copy)]
struct Version {
    place: usize,
    value: Option<u64>,
}

/// The version past the end.
const NO_VERSION: Version = Version {
    place: usize::MAX,
    value: None,
};

/// An order of commits, and the versions of each key in it.
#[derive(Drop)]
struct Guessed<'a> {
    problem: &'a Problem<'a>,
    order: Vec<usize>,
    /// The versions by key, each key's from its first row in the table on, and how many each has.
    versions: Vec<Version>,
    counts: Vec<usize>,
}

impl Guessed<'_> {
    /// Takes the versions that those in the order leave.
    fn fill(&mut self) -> Result<(), NoMemory> {
        let problem = self.problem;
        self.versions.resize(problem.table.len(), NO_VERSION)?;
        self.counts.resize(problem.keys.len(), 0)?;
        for place in 0..self.order.len() {
            let t = at(self.order.as_slice(), place, 0);
            for left in problem.left_by(t) {
                let count = at(self.counts.as_slice(), left.key, 0);
                let here = problem.first_row(left.key).saturating_add(count);
                let version = Version {
                    place,
                    value: left.value,
                };
                put(&mut self.versions, here, version);
                put(&mut self.counts, left.key, count.saturating_add(1));
            }
        }
        Ok(())
    }

    /// A version of a key by its number.
    fn version(&self, key: usize, number: usize) -> Version {
        let place = self.problem.first_row(key).saturating_add(number);
        at(self.versions.as_slice(), place, NO_VERSION)
    }

    /// How many versions of a key there are before a place.
    fn count_before(&self, key: usize, place: usize) -> usize {
        let from = self.problem.first_row(key);
        let count = at(self.counts.as_slice(), key, 0);
        match self.versions.get(from..from.saturating_add(count)) {
            Some(list) => list.partition_point(|one| one.place < place),
            None => 0,
        }
    }

    /// The latest place up to another where a reading finds what it tells of, if there is one.
    fn latest_for(&self, u: usize, end: usize) -> Option<usize> {
        let reading = self.problem.reading(u);
        let count = self.count_before(reading.key, end);
        let mut latest = end;
        for number in (0..count).rev() {
            let version = self.version(reading.key, number);
            if meets(reading.need, version.value) {
                return Some(latest);
            }
            latest = version.place;
        }
        if meets(reading.need, self.problem.opening_at(reading.key)) {
            return Some(latest);
        }
        None
    }

    /// The latest place up to that of its commit where a transaction finds all that it tells of; or else that of its commit.
    fn begin_of(&self, t: usize, commit: usize) -> usize {
        if self.problem.rules(t).whole {
            return commit;
        }
        let mut begin = commit;
        for _ in 0..ROUNDS {
            let before = begin;
            for u in self.problem.first_reading(t)..self.problem.end_reading(t) {
                match self.latest_for(u, begin) {
                    Some(place) => begin = place,
                    None => return commit,
                }
            }
            if begin == before {
                break;
            }
        }
        begin
    }

    /// The points: each begins before the commit at its place.
    fn points(&self, alloc: Global) -> Result<Vec<Point>, NoMemory> {
        let mut begins = Vec::with_capacity(alloc, self.order.len())?;
        for place in 0..self.order.len() {
            let t = at(self.order.as_slice(), place, 0);
            begins.push((self.begin_of(t, place), t))?;
        }
        begins.sort_unstable();
        let mut points = Vec::new(alloc);
        let mut next: usize = 0;
        for (place, t) in self.order.iter().enumerate() {
            for _ in next..begins.len() {
                let (begin, other) = at(begins.as_slice(), next, (usize::MAX, 0));
                if begin > place {
                    break;
                }
                add(&mut points, Point::Begin(other))?;
                next = next.saturating_add(1);
            }
            add(&mut points, Point::Commit(*t))?;
        }
        Ok(points)
    }
}

/// All who are known to have committed, as they are expected to.
fn order_of(alloc: Global, log: &Log, hints: &[Hint]) -> Result<Vec<usize>, NoMemory> {
    let mut order = Vec::new(alloc);
    for t in 0..log.transactions.len() {
        if is_committed(log, t) {
            add(&mut order, t)?;
        }
    }
    order.sort_unstable_by_key(|t| (hint_at(hints, *t).commit, *t));
    Ok(order)
}

/// The points by a guess of where transactions are, each of which reads where it commits.
pub(crate) fn points_in_order(
    alloc: Global,
    log: &Log,
    hints: &[Hint],
) -> Result<Vec<Point>, NoMemory> {
    let order = order_of(alloc, log, hints)?;
    let mut points = Vec::with_capacity(alloc, order.len().saturating_mul(2))?;
    for t in order.iter() {
        add(&mut points, Point::Begin(*t))?;
        add(&mut points, Point::Commit(*t))?;
    }
    Ok(points)
}

/// The points by a guess of where transactions are.
pub(crate) fn points_by_guess(
    alloc: Global,
    problem: &Problem,
    hints: &[Hint],
) -> Result<Vec<Point>, NoMemory> {
    let mut guessed = Guessed {
        problem,
        order: order_of(alloc, problem.log, hints)?,
        versions: Vec::new(alloc),
        counts: Vec::new(alloc),
    };
    guessed.fill()?;
    guessed.points(alloc)
}
