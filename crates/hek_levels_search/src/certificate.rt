//! An order in which nothing fails, as what the checkers take; and which keys that scans miss are to be looked at first.
use crate::known::Known;
use crate::lists::add;
use crate::problem::{Absence, Problem, Source};
use crate::sight::NONE;
use crate::sourcing::Sourcing;
use hek_history::{Point, Scope};
use hek_levels::{
    Certificate, Missing, Need, Place, Read, Scan, Sources, Writer, misses, reads_of, scans_of,
};
use hek_rules::NoMemory;
use std::alloc::Global;
use std::collections::{BTreeSet, HashMap};

/// The sources of a transaction of keys that it found absent, by key.
type Absents = HashMap<usize, Writer>;

/// The writer of a source.
fn writer_of(problem: &Problem, source: Option<Source>) -> Writer {
    match source {
        Some(Source::Row(row)) => match problem.writer_of(row) {
            Some(t) => Writer::Transaction(t),
            None => Writer::Opening,
        },
        Some(Source::Opening) | None => Writer::Opening,
    }
}

/// Whether two needs are one.
fn is_same(one: Need, other: Need) -> bool {
    match (one, other) {
        (Need::Absent, Need::Absent) | (Need::Present, Need::Present) => true,
        (Need::Value(x), Need::Value(y)) => x == y,
        _ => false,
    }
}

/// The reading of a transaction that a read is: at its place, or one that says the same.
fn reading_of(problem: &Problem, t: usize, place: usize, read: Read, from: usize) -> usize {
    let end = problem.end_reading(t);
    for u in from..end {
        if problem.reading(u).place == Place::Listed(place) {
            return u;
        }
        if let Place::Listed(other) = problem.reading(u).place {
            if other > place {
                break;
            }
        }
    }
    let key = problem.keys.place_of(read.key);
    for u in problem.first_reading(t)..end {
        let reading = problem.reading(u);
        if Some(reading.key) == key && is_same(reading.need, read.need) {
            return u;
        }
    }
    NONE
}

/// The sources of the reads in the list of a transaction.
fn listed(
    problem: &Problem,
    sourcing: &Sourcing,
    t: usize,
    writers: &mut Vec<Writer>,
) -> Result<(), NoMemory> {
    let mut from = problem.first_reading(t);
    for (place, read) in reads_of(problem.log, t).iter().enumerate() {
        let u = reading_of(problem, t, place, *read, from);
        if problem.reading(u).place == Place::Listed(place) {
            from = u;
        }
        writers.push(writer_of(problem, sourcing.source(u)))?;
    }
    Ok(())
}

/// The sources of the keys that a transaction found absent.
fn absents(
    alloc: Global,
    problem: &Problem,
    sourcing: &Sourcing,
    t: usize,
) -> Result<Absents, NoMemory> {
    let mut map = HashMap::new(alloc);
    for u in problem.first_reading(t)..problem.end_reading(t) {
        let reading = problem.reading(u);
        if let Need::Absent = reading.need {
            let _before = map.insert(reading.key, writer_of(problem, sourcing.source(u)))?;
        }
    }
    Ok(map)
}

/// What is made of an order.
#[derive(Drop)]
pub(crate) struct Making {
    pub certificate: Certificate,
    /// The keys that scans miss, were written before, and have no source yet.
    pub left: Vec<Absence>,
}

impl Known<'_> {
    /// The sources of keys that a scan of a transaction misses and that were written before it, or had a row at the opening.
    fn missing(
        &self,
        sourcing: &Sourcing,
        map: &Absents,
        t: usize,
        place: usize,
        scan: &Scan,
        missing: &mut Vec<Missing>,
        left: &mut Vec<Absence>,
    ) -> Result<(), NoMemory> {
        let problem = self.problem;
        let end = self.place_in_order(t);
        let (from, to) = problem.keys.places_of(scan.scope);
        for there in from..to {
            let key = problem.keys.key_at(scan.scope, there);
            let is_touched = problem.opening_at(key).is_some()
                || sourcing.is_written_before(self, key, end);
            let name = problem.keys.name(key);
            if is_touched && misses(scan, name) {
                match map.get(&key).copied() {
                    Some(writer) => missing.push(Missing {
                        scan: place,
                        key: name,
                        writer,
                    })?,
                    None => add(
                        left,
                        Absence {
                            transaction: t,
                            scan: place,
                            key: name,
                        },
                    )?,
                }
            }
        }
        Ok(())
    }

    /// The sources of a transaction.
    fn sources_of(
        &self,
        sourcing: &Sourcing,
        t: usize,
        left: &mut Vec<Absence>,
    ) -> Result<Sources, NoMemory> {
        let mut sources = Sources {
            writers: Vec::new(self.alloc),
            missing: Vec::new(self.alloc),
        };
        if !self.is_present(t) {
            return Ok(sources);
        }
        listed(self.problem, sourcing, t, &mut sources.writers)?;
        let scans = scans_of(self.problem.log, t);
        if !scans.is_empty() {
            let map = absents(self.alloc, self.problem, sourcing, t)?;
            for (place, scan) in scans.iter().enumerate() {
                self.missing(sourcing, &map, t, place, scan, &mut sources.missing, left)?;
            }
        }
        Ok(sources)
    }

    /// The present order with its sources.
    pub(crate) fn certificate(&self, sourcing: &Sourcing) -> Result<Making, NoMemory> {
        let mut making = Making {
            certificate: Certificate {
                order: Vec::new(self.alloc),
                sources: Vec::new(self.alloc),
            },
            left: Vec::new(self.alloc),
        };
        for node in self.graph.order() {
            if let Some(t) = self.committer_at(*node) {
                making.certificate.order.push(t)?;
            }
        }
        for t in 0..self.problem.transactions() {
            let sources = self.sources_of(sourcing, t, &mut making.left)?;
            making.certificate.sources.push(sources)?;
        }
        Ok(making)
    }
}

/// The keys that have rows in the present order, by their places among the keys, and by those in buckets.
#[derive(Drop)]
struct Present {
    keys: BTreeSet<usize>,
}

impl Problem<'_> {
    /// The keys that scans miss though they have rows where the scans read, at most so many of each scan.
    pub(crate) fn missed(
        &self,
        alloc: Global,
        points: &[Point],
        most: usize,
    ) -> Result<Vec<Absence>, NoMemory> {
        let mut left = Vec::new(alloc);
        let mut present = Present {
            keys: BTreeSet::new(alloc),
        };
        for key in 0..self.keys.len() {
            if self.opening_at(key).is_some() {
                let _is_new = present.keys.insert(key)?;
            }
        }
        for point in points {
            match *point {
                Point::Begin(t) => self.missed_by(&present, t, most, &mut left)?,
                Point::Commit(t) => self.change(&mut present, t)?,
            }
        }
        Ok(left)
    }

    /// A transaction commits.
    fn change(&self, present: &mut Present, t: usize) -> Result<(), NoMemory> {
        for left in self.left_by(t) {
            if left.value.is_some() {
                let _is_new = present.keys.insert(left.key)?;
            } else {
                let _was_there = present.keys.remove(&left.key);
            }
        }
        Ok(())
    }

    /// A transaction reads.
    fn missed_by(
        &self,
        present: &Present,
        t: usize,
        most: usize,
        left: &mut Vec<Absence>,
    ) -> Result<(), NoMemory> {
        for (place, scan) in scans_of(self.log, t).iter().enumerate() {
            self.missed_in(present, t, place, scan, most, left)?;
        }
        Ok(())
    }

    /// A scan of a transaction reads.
    fn missed_in(
        &self,
        present: &Present,
        t: usize,
        place: usize,
        scan: &Scan,
        most: usize,
        left: &mut Vec<Absence>,
    ) -> Result<(), NoMemory> {
        let mut room = most;
        let (from, to) = self.keys.places_of(scan.scope);
        if let Scope::Range(_, _) = scan.scope {
            for key in present.keys.range(from..) {
                if *key >= to || room == 0 {
                    break;
                }
                if self.note_missed(t, place, scan, *key, left)? {
                    room = room.saturating_sub(1);
                }
            }
            return Ok(());
        }
        for there in from..to {
            let key = self.keys.key_at(scan.scope, there);
            if room > 0 && self.note_present(present, t, place, scan, key, left)? {
                room = room.saturating_sub(1);
            }
        }
        Ok(())
    }

    /// Notes a key, if it has a row and the scan misses it.
    fn note_present(
        &self,
        present: &Present,
        t: usize,
        scan: usize,
        one: &Scan,
        key: usize,
        left: &mut Vec<Absence>,
    ) -> Result<bool, NoMemory> {
        if present.keys.contains(&key) {
            return self.note_missed(t, scan, one, key, left);
        }
        Ok(false)
    }

    /// Notes a key with a row, if the scan misses it.
    fn note_missed(
        &self,
        t: usize,
        scan: usize,
        one: &Scan,
        key: usize,
        left: &mut Vec<Absence>,
    ) -> Result<bool, NoMemory> {
        let name = self.keys.name(key);
        if one.except.binary_search(&name).is_ok() {
            return Ok(false);
        }
        add(
            left,
            Absence {
                transaction: t,
                scan,
                key: name,
            },
        )?;
        Ok(true)
    }
}
