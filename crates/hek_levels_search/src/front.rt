//! An order from the front: a transaction takes place as soon as the rows have what it found, unless it overwrites what another
//! still has to find and nobody leaves again. Nothing is taken back. Where each value is written once, by one that found the
//! value before it, this finds an order if there is one, in time that grows with the log alone.
use crate::judging::{Hint, hint_at};
use crate::lists::{add, at, part, put};
use crate::problem::{Counted, Problem, Reading};
use crate::queues::Queues;
use crate::rows_within::RowsWithin;
use hek_history::{Point, Scope};
use hek_levels::{Need, scans_of};
use hek_rules::NoMemory;
use std::alloc::Global;
use std::cmp::Reverse;
use std::collections::BinaryHeap;

/// What keeps a transaction from taking place now.
#[derive(Clone, Copy)]
enum Obstacle {
    /// It waits until a key has the value by this number, or until fewer still have to find that value.
    Value(usize),
    /// It waits until a row comes or goes.
    Row,
    /// It waits for those who are before it by turns.
    Turn,
    /// It found what nobody left.
    Lasting,
}

/// How many times all transactions are tried, at most, in the mean.
const TRIES: usize = 64;

/// The rows, and who still has to take place. Values are named by their numbers (`Problem::value_number`).
#[derive(Drop)]
struct Front<'a> {
    alloc: Global,
    problem: &'a Problem<'a>,
    hints: &'a [Hint],
    /// The scans whose rows are counted, by transaction.
    counted: Vec<Counted>,
    /// Who comes next by turns.
    queues: Queues,
    /// The value that each key has.
    now: Vec<usize>,
    /// How many found each value, and how many leave it, of those that still have to take place.
    finders: Vec<u32>,
    leavers: Vec<u32>,
    /// The one that waits for each value, and the one that waits for the same after each transaction.
    first_waiting: Vec<Option<usize>>,
    next_waiting: Vec<Option<usize>>,
    /// Those who wait until a row comes or goes.
    waiting_for_rows: Vec<usize>,
    /// Those who write nothing and may be tried, and those who write, by hint.
    readers: Vec<usize>,
    writers: BinaryHeap<Reverse<(u64, usize)>>,
    /// Which keys have a row: by their places, and by their places in buckets.
    by_key: RowsWithin,
    by_bucket: RowsWithin,
    /// Who took place, in order, and how many will.
    placed: Vec<usize>,
    all: usize,
}

impl Front<'_> {
    /// Counts one who finds a value more, or less.
    fn count_finder(&mut self, value: usize, comes: bool) {
        count(&mut self.finders, value, comes);
    }

    /// Counts what a transaction finds and leaves, which still has to take place.
    fn count_all(&mut self, t: usize) {
        for place in self.problem.first_reading(t)..self.problem.end_reading(t) {
            if let Some(value) = self.problem.value_found(self.problem.reading(place)) {
                self.count_finder(value, true);
            }
        }
        for left in self.problem.left_by(t) {
            if let Some(value) = self.problem.value_number(left.key, left.value) {
                count(&mut self.leavers, value, true);
            }
        }
    }

    /// A transaction may be tried.
    fn offer(&mut self, t: usize) -> Result<(), NoMemory> {
        if self.problem.left_by(t).is_empty() {
            return add(&mut self.readers, t);
        }
        self.writers
            .push(Reverse((hint_at(self.hints, t).commit, t)))?;
        Ok(())
    }

    /// Begins with the opening rows, and all who are known to have committed.
    fn fill(&mut self) -> Result<(), NoMemory> {
        let problem = self.problem;
        for _ in 0..problem.values() {
            add(&mut self.finders, 0)?;
            add(&mut self.leavers, 0)?;
            add(&mut self.first_waiting, None)?;
        }
        self.by_key.fill(problem.keys.len())?;
        self.by_bucket.fill(problem.keys.bucketed_len())?;
        for key in 0..problem.keys.len() {
            let opening = problem.opening_at(key);
            let value = problem.value_number(key, opening).unwrap_or(usize::MAX);
            add(&mut self.now, value)?;
            if opening.is_some() {
                self.change_row(key, true);
            }
        }
        for t in 0..problem.transactions() {
            add(&mut self.next_waiting, None)?;
            if problem.is_committed(t) {
                self.all = self.all.saturating_add(1);
                self.count_all(t);
                self.offer(t)?;
                self.count_scans(t)?;
            }
        }
        self.queues.fill(problem)?;
        self.readers.reverse();
        Ok(())
    }

    /// Takes the scans of a transaction whose rows are counted.
    fn count_scans(&mut self, t: usize) -> Result<(), NoMemory> {
        for scan in scans_of(self.problem.log, t) {
            if let Some(counted) = self.problem.counted(t, scan) {
                add(&mut self.counted, counted)?;
            }
        }
        Ok(())
    }

    /// The scans of a transaction whose rows are counted.
    fn counted_by(&self, t: usize) -> &[Counted] {
        let all = self.counted.as_slice();
        let from = all.partition_point(|one| one.reader < t);
        let to = all.partition_point(|one| one.reader <= t);
        part(all, from, to)
    }

    /// A key gets a row, or loses its row.
    fn change_row(&mut self, key: usize, comes: bool) {
        self.by_key.change(key, comes);
        let problem = self.problem;
        for buckets in problem.keys.divisions() {
            let place = problem.keys.place_in_bucket(*buckets, key);
            self.by_bucket.change(place, comes);
        }
    }

    /// The value that a key has.
    fn value_now(&self, key: usize) -> usize {
        at(self.now.as_slice(), key, usize::MAX)
    }

    /// What keeps a reading from finding what it tells of.
    fn obstacle_to_reading(&self, reading: Reading) -> Option<Obstacle> {
        let now = self.value_now(reading.key);
        if matches!(reading.need, Need::Present) {
            return match self.problem.value_of(now) {
                Some(_) => None,
                None => Some(Obstacle::Row),
            };
        }
        match self.problem.value_found(reading) {
            Some(value) if value == now => None,
            Some(value) => Some(Obstacle::Value(value)),
            None => Some(Obstacle::Lasting),
        }
    }

    /// Whether as many keys of a scan have rows as it found.
    fn is_complete(&self, counted: Counted) -> bool {
        let there = match counted.scope {
            Scope::Range(_, _) => self.by_key.between(counted.from, counted.to),
            Scope::Bucket(_, _) => self.by_bucket.between(counted.from, counted.to),
        };
        there == counted.found as u64
    }

    /// How many of the others found a value and still have to take place.
    fn other_finders(&self, t: usize, key: usize, value: usize) -> u32 {
        let all = at(self.finders.as_slice(), value, 0);
        for place in self.problem.first_reading(t)..self.problem.end_reading(t) {
            let reading = self.problem.reading(place);
            if reading.key == key && self.problem.value_found(reading) == Some(value) {
                return all.saturating_sub(1);
            }
        }
        all
    }

    /// The value that a transaction overwrites for ever though others still have to find it.
    fn spoils(&self, t: usize) -> Option<usize> {
        for left in self.problem.left_by(t) {
            let now = self.value_now(left.key);
            let is_same = self.problem.value_number(left.key, left.value) == Some(now);
            let is_last = at(self.leavers.as_slice(), now, 0) == 0;
            if !is_same && is_last && self.other_finders(t, left.key, now) > 0 {
                return Some(now);
            }
        }
        None
    }

    /// What keeps a transaction from taking place now.
    fn obstacle(&self, t: usize) -> Option<Obstacle> {
        if !self.queues.is_next(self.problem, t) {
            return Some(Obstacle::Turn);
        }
        for place in self.problem.first_reading(t)..self.problem.end_reading(t) {
            if let Some(obstacle) = self.obstacle_to_reading(self.problem.reading(place)) {
                return Some(obstacle);
            }
        }
        for counted in self.counted_by(t) {
            if !self.is_complete(*counted) {
                return Some(Obstacle::Row);
            }
        }
        match self.spoils(t) {
            Some(value) => Some(Obstacle::Value(value)),
            None => None,
        }
    }

    /// A transaction waits for a value.
    fn wait(&mut self, t: usize, value: usize) {
        let next = at(self.first_waiting.as_slice(), value, None);
        put(&mut self.next_waiting, t, next);
        put(&mut self.first_waiting, value, Some(t));
    }

    /// Those who wait for a value may be tried.
    fn wake(&mut self, value: usize) -> Result<(), NoMemory> {
        let mut next = at(self.first_waiting.as_slice(), value, None);
        put(&mut self.first_waiting, value, None);
        for _ in 0..self.all {
            let Some(t) = next else {
                break;
            };
            next = at(self.next_waiting.as_slice(), t, None);
            self.offer(t)?;
        }
        Ok(())
    }

    /// Those who wait for rows may be tried.
    fn wake_for_rows(&mut self) -> Result<(), NoMemory> {
        for _ in 0..self.waiting_for_rows.len() {
            if let Some(t) = self.waiting_for_rows.pop() {
                self.offer(t)?;
            }
        }
        Ok(())
    }

    /// What a transaction found was there.
    fn find(&mut self, t: usize) -> Result<(), NoMemory> {
        for place in self.problem.first_reading(t)..self.problem.end_reading(t) {
            if let Some(value) = self.problem.value_found(self.problem.reading(place)) {
                self.count_finder(value, false);
                // of one that is left and waits there, the last finding may be its own
                if at(self.finders.as_slice(), value, 0) <= 1 {
                    self.wake(value)?;
                }
            }
        }
        Ok(())
    }

    /// A key has another value.
    fn set(&mut self, key: usize, value: usize) -> Result<(), NoMemory> {
        let before = self.value_now(key);
        if before == value {
            return Ok(());
        }
        put(&mut self.now, key, value);
        let is_there = self.problem.value_of(value).is_some();
        if self.problem.value_of(before).is_some() != is_there {
            self.change_row(key, is_there);
            self.wake_for_rows()?;
        }
        self.wake(value)
    }

    /// A transaction takes place.
    fn place(&mut self, t: usize) -> Result<(), NoMemory> {
        add(&mut self.placed, t)?;
        self.find(t)?;
        let mut woken = Vec::new(self.alloc);
        self.queues.take(self.problem, t, &mut woken)?;
        for other in woken {
            self.offer(other)?;
        }
        let problem = self.problem;
        for left in problem.left_by(t) {
            if let Some(value) = problem.value_number(left.key, left.value) {
                count(&mut self.leavers, value, false);
                self.set(left.key, value)?;
            }
        }
        Ok(())
    }

    /// A transaction takes place, or waits.
    fn meet(&mut self, t: usize) -> Result<(), NoMemory> {
        match self.obstacle(t) {
            None => self.place(t),
            Some(Obstacle::Value(value)) => {
                self.wait(t, value);
                Ok(())
            }
            Some(Obstacle::Row) => add(&mut self.waiting_for_rows, t),
            Some(Obstacle::Turn) => self.queues.wait(self.problem, t),
            Some(Obstacle::Lasting) => Ok(()),
        }
    }

    /// The next one that may be tried: one that writes nothing first.
    fn next(&mut self) -> Option<usize> {
        if let Some(t) = self.readers.pop() {
            return Some(t);
        }
        let Reverse((_, t)) = self.writers.pop()?;
        Some(t)
    }

    /// Tries transactions while there are some. Answers whether all took place.
    fn run(&mut self) -> Result<bool, NoMemory> {
        for _ in 0..self.all.saturating_mul(TRIES) {
            let Some(t) = self.next() else {
                break;
            };
            self.meet(t)?;
        }
        Ok(self.placed.len() == self.all)
    }
}

/// Counts one more, or one less.
fn count(counts: &mut Vec<u32>, place: usize, comes: bool) {
    let before = at(counts.as_slice(), place, 0);
    let after = if comes {
        before.saturating_add(1)
    } else {
        before.saturating_sub(1)
    };
    put(counts, place, after);
}

/// The points of transactions in this order, each of which reads and commits at once.
fn points_of(alloc: Global, placed: &[usize]) -> Result<Vec<Point>, NoMemory> {
    let mut points = Vec::new(alloc);
    for t in placed {
        add(&mut points, Point::Begin(*t))?;
        add(&mut points, Point::Commit(*t))?;
    }
    Ok(points)
}

/// The points of an order from the front, if all who are known to have committed found a place there. Of scans rows are counted.
pub(crate) fn points_from_front(
    alloc: Global,
    problem: &Problem,
    hints: &[Hint],
) -> Result<Option<Vec<Point>>, NoMemory> {
    let mut front = Front {
        alloc,
        problem,
        hints,
        counted: Vec::new(alloc),
        queues: Queues::new(alloc),
        now: Vec::new(alloc),
        finders: Vec::new(alloc),
        leavers: Vec::new(alloc),
        first_waiting: Vec::new(alloc),
        next_waiting: Vec::new(alloc),
        waiting_for_rows: Vec::new(alloc),
        readers: Vec::new(alloc),
        writers: BinaryHeap::new(alloc),
        by_key: RowsWithin::new(alloc),
        by_bucket: RowsWithin::new(alloc),
        placed: Vec::new(alloc),
        all: 0,
    };
    front.fill()?;
    if front.run()? {
        return Ok(Some(points_of(alloc, front.placed.as_slice())?));
    }
    Ok(None)
}
