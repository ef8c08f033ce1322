//! The source of each reading in the present order, where readings need not find what the last writer left.
use crate::known::Known;
use crate::lanes::Lanes;
use crate::lists::{add, at, put};
use crate::problem::{Source, meets};
use crate::replay::Violation;
use crate::sight::{Ground, NONE, Walk};
use hek_levels::Own;
use hek_rules::NoMemory;
use std::alloc::Global;

/// A writer of a key, with its place in the order.
#[derive(Clone, Copy)]
struct Written {
    place: usize,
    writer: usize,
}

/// The writer past the end.
const NOT_WRITTEN: Written = Written {
    place: NONE,
    writer: NONE,
};

/// Of how many writers of a key it is looked at first whether one of them is seen, where each would do as the source; and how many times
/// as many then.
const LOOKED_AT: usize = 4;

const TIMES: usize = 8;

/// The sources of readings, and the writers of each key in the order.
#[derive(Drop)]
pub(crate) struct Sourcing {
    sources: Vec<Option<Source>>,
    /// The writer of each source, as a transaction.
    writers: Vec<usize>,
    /// The writers by key, each key's from its first row in the table on, and how many each has.
    written: Vec<Written>,
    counts: Vec<usize>,
}

impl Sourcing {
    pub(crate) fn new(alloc: Global) -> Sourcing {
        Sourcing {
            sources: Vec::new(alloc),
            writers: Vec::new(alloc),
            written: Vec::new(alloc),
            counts: Vec::new(alloc),
        }
    }

    /// The source of a reading.
    pub(crate) fn source(&self, reading: usize) -> Option<Source> {
        at(self.sources.as_slice(), reading, None)
    }

    /// The transaction that is the source of a reading, if one is.
    pub(crate) fn writer_of(&self, reading: usize) -> usize {
        at(self.writers.as_slice(), reading, NONE)
    }

    /// A reading has a source.
    fn set(&mut self, known: &Known, reading: usize, source: Source) {
        put(&mut self.sources, reading, Some(source));
        let writer = known.problem.transaction_of(source).unwrap_or(NONE);
        put(&mut self.writers, reading, writer);
    }

    /// A writer of a key by its number.
    fn written(&self, known: &Known, key: usize, number: usize) -> Written {
        let place = known.problem.first_row(key).saturating_add(number);
        at(self.written.as_slice(), place, NOT_WRITTEN)
    }

    /// How many writers of a key are before a place.
    fn count_before(&self, known: &Known, key: usize, place: usize) -> usize {
        let from = known.problem.first_row(key);
        let count = at(self.counts.as_slice(), key, 0);
        match self.written.get(from..from.saturating_add(count)) {
            Some(list) => list.partition_point(|one| one.place < place),
            None => 0,
        }
    }

    /// The last writer of a key before a place.
    pub(crate) fn writer_before(&self, known: &Known, key: usize, place: usize) -> usize {
        let count = self.count_before(known, key, place);
        if count == 0 {
            return NONE;
        }
        self.written(known, key, count - 1).writer
    }

    /// Whether a key is written before a place.
    pub(crate) fn is_written_before(&self, known: &Known, key: usize, place: usize) -> bool {
        self.count_before(known, key, place) > 0
    }

    /// Makes room.
    fn clear(&mut self, known: &Known) -> Result<(), NoMemory> {
        self.sources.clear();
        self.sources.resize(known.problem.readings.len(), None)?;
        self.writers.clear();
        self.writers.resize(known.problem.readings.len(), NONE)?;
        self.written.clear();
        self.written.resize(known.problem.table.len(), NOT_WRITTEN)?;
        self.counts.clear();
        self.counts.resize(known.problem.keys.len(), 0)?;
        Ok(())
    }

    /// Notes who writes what, in the order.
    fn note_writers(&mut self, known: &Known) {
        for node in known.graph.order() {
            if let Some(t) = known.committer_at(*node) {
                let place = known.graph.place_of(*node);
                for left in known.problem.left_by(t) {
                    let count = at(self.counts.as_slice(), left.key, 0);
                    let here = known.problem.first_row(left.key).saturating_add(count);
                    put(&mut self.written, here, Written { place, writer: t });
                    put(&mut self.counts, left.key, count.saturating_add(1));
                }
            }
        }
    }

    /// Finds the source of each reading, and which see a newer writer than that.
    pub(crate) fn run(
        &mut self,
        known: &Known,
        lanes: &Lanes,
        walk: &mut Walk,
        failed: &mut Vec<Violation>,
    ) -> Result<(), NoMemory> {
        self.clear(known)?;
        self.note_writers(known);
        for t in 0..known.problem.transactions() {
            if known.is_present(t) {
                self.settle(known, t);
            }
        }
        for node in known.graph.order() {
            if let Some(t) = known.committer_at(*node) {
                self.choose_all(known, t, failed)?;
            }
        }
        for node in known.graph.order() {
            if let Some(t) = known.committer_at(*node) {
                self.check(known, lanes, walk, t, failed)?;
            }
        }
        Ok(())
    }

    /// The readings of a transaction whose sources are settled have these.
    fn settle(&mut self, known: &Known, t: usize) {
        for u in known.problem.first_reading(t)..known.problem.end_reading(t) {
            if let Some(settled) = known.source(u) {
                self.set(known, u, settled.source);
            }
        }
    }

    /// Chooses the sources of the other readings of a transaction, but of those for which each writer would do: they have the latest that
    /// is seen, or the opening, in the end.
    fn choose_all(
        &mut self,
        known: &Known,
        t: usize,
        failed: &mut Vec<Violation>,
    ) -> Result<(), NoMemory> {
        for u in known.problem.first_reading(t)..known.problem.end_reading(t) {
            if self.source(u).is_none() && !known.problem.is_free(known.problem.reading(u)) {
                match self.choice(known, u) {
                    Some(source) => self.set(known, u, source),
                    None => add(failed, Violation::Unsourced(u))?,
                }
            }
        }
        Ok(())
    }

    /// A source for a reading in the present order: the last writer before it that may be that.
    fn choice(&self, known: &Known, u: usize) -> Option<Source> {
        let reading = known.problem.reading(u);
        let place = known.place_in_order(reading.reader);
        for number in (0..self.count_before(known, reading.key, place)).rev() {
            if let Some(source) = self.candidate(known, u, number) {
                return Some(source);
            }
        }
        let candidates = known.problem.candidates(reading);
        if candidates.opening && !known.is_excluded(u, Source::Opening) {
            return Some(Source::Opening);
        }
        None
    }

    /// The readings for which each writer would do have the latest that is seen, or the opening.
    pub(crate) fn finish(
        &mut self,
        known: &Known,
        lanes: &Lanes,
        walk: &mut Walk,
    ) -> Result<(), NoMemory> {
        for u in 0..known.problem.readings.len() {
            let reading = known.problem.reading(u);
            if self.source(u).is_none() && known.is_present(reading.reader) {
                let source = self.latest_seen(known, lanes, walk, u)?;
                self.set(known, u, source);
            }
        }
        Ok(())
    }

    /// The latest writer of the key of a reading that is seen, or the opening.
    fn latest_seen(
        &self,
        known: &Known,
        lanes: &Lanes,
        walk: &mut Walk,
        u: usize,
    ) -> Result<Source, NoMemory> {
        let reading = known.problem.reading(u);
        if !known.sees_any(reading.reader) {
            return Ok(Source::Opening);
        }
        let place = known.place_in_order(reading.reader);
        let mut end = self.count_before(known, reading.key, place);
        let ground = Ground {
            known,
            sourcing: self,
            lanes,
        };
        let mut many = LOOKED_AT;
        for _ in 0..end {
            if end == 0 {
                break;
            }
            let from = end.saturating_sub(many);
            let low = self.written(known, reading.key, from).place;
            walk.walk(ground, u, low, NONE)?;
            if let Some(source) = self.last_seen(known, walk, reading.key, from, end) {
                return Ok(source);
            }
            end = from;
            many = many.saturating_mul(TIMES);
        }
        Ok(Source::Opening)
    }

    /// The last of the writers of a key from a number up to another that a walk has seen, as a source.
    fn last_seen(
        &self,
        known: &Known,
        walk: &Walk,
        key: usize,
        from: usize,
        to: usize,
    ) -> Option<Source> {
        for number in (from..to).rev() {
            let writer = self.written(known, key, number).writer;
            if walk.has_seen(writer) {
                if let Some(row) = known.problem.row_of(writer, key) {
                    return Some(Source::Row(row));
                }
            }
        }
        None
    }

    /// The writer of a number as a source of a reading, if it may be that.
    fn candidate(&self, known: &Known, u: usize, number: usize) -> Option<Source> {
        let reading = known.problem.reading(u);
        let writer = self.written(known, reading.key, number).writer;
        let row = known.problem.row_of(writer, reading.key)?;
        let source = Source::Row(row);
        let value = known.problem.table.get(row)?.value;
        if writer == reading.reader || !meets(reading.need, value) || known.is_excluded(u, source) {
            return None;
        }
        Some(source)
    }

    /// The writers of the key of a reading between its source and its reader, by their numbers.
    fn between(&self, known: &Known, u: usize) -> (usize, usize) {
        let reading = known.problem.reading(u);
        let Some(source) = self.source(u) else {
            return (0, 0);
        };
        let to = self.count_before(known, reading.key, known.place_in_order(reading.reader));
        let from = match known.problem.transaction_of(source) {
            Some(t) => {
                let after = known.place_in_order(t).saturating_add(1);
                self.count_before(known, reading.key, after)
            }
            None => 0,
        };
        (from, to)
    }

    /// Notes which readings of a transaction see a writer of their key between their source and their reader.
    fn check(
        &self,
        known: &Known,
        lanes: &Lanes,
        walk: &mut Walk,
        t: usize,
        failed: &mut Vec<Violation>,
    ) -> Result<(), NoMemory> {
        if !known.sees_any(t) {
            return Ok(());
        }
        let (from, to) = (known.problem.first_reading(t), known.problem.end_reading(t));
        if let Own::Earlier = known.problem.rules(t).own {
            for u in from..to {
                self.check_some(known, lanes, walk, u, u.saturating_add(1), failed)?;
            }
            return Ok(());
        }
        self.check_some(known, lanes, walk, from, to, failed)
    }

    /// The same of readings that see the same.
    fn check_some(
        &self,
        known: &Known,
        lanes: &Lanes,
        walk: &mut Walk,
        from: usize,
        to: usize,
        failed: &mut Vec<Violation>,
    ) -> Result<(), NoMemory> {
        let low = self.lowest_between(known, from, to);
        if low == NONE {
            return Ok(());
        }
        let ground = Ground {
            known,
            sourcing: self,
            lanes,
        };
        walk.walk(ground, from, low, NONE)?;
        for u in from..to {
            if let Some(other) = self.newer_seen(known, walk, u) {
                add(failed, Violation::Seen { reading: u, other })?;
            }
        }
        Ok(())
    }

    /// The lowest place in the order of a writer of the key of one of some readings between its source and its reader.
    fn lowest_between(&self, known: &Known, from: usize, to: usize) -> usize {
        let mut low = NONE;
        for u in from..to {
            let (first, last) = self.between(known, u);
            if first < last {
                let key = known.problem.reading(u).key;
                low = low.min(self.written(known, key, first).place);
            }
        }
        low
    }

    /// The last writer of the key of a reading between its source and its reader that a walk has seen.
    fn newer_seen(&self, known: &Known, walk: &Walk, u: usize) -> Option<usize> {
        let (first, last) = self.between(known, u);
        let key = known.problem.reading(u).key;
        for number in (first..last).rev() {
            let other = self.written(known, key, number).writer;
            if walk.has_seen(other) {
                return Some(other);
            }
        }
        None
    }
}

impl Known<'_> {
    /// The place of a transaction's commit in the order.
    pub(crate) fn place_in_order(&self, t: usize) -> usize {
        self.graph.place_of(self.nodes.commit(t))
    }

    /// Whether a reading of a transaction sees anybody.
    pub(crate) fn sees_any(&self, t: usize) -> bool {
        let rules = self.problem.rules(t);
        match rules.own {
            Own::Nothing => rules.first.writers || rules.first.turns || rules.first.turn_reads,
            Own::Earlier | Own::All => true,
        }
    }
}
