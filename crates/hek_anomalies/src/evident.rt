//! What answers show by themselves: the reads that have one source, and who takes place.
use crate::cause::Answer;
use crate::lanes::Lanes;
use crate::links::{NONE, turn_between};
use hek_history::History;
use hek_levels::{Need, Writer, misses, scans_of};
use hek_levels_search::{Problem, Reading, add, at, put};
use hek_rules::NoMemory;
use std::alloc::Global;

/// How many writers a read may be of.
#[derive(Clone, Copy, PartialEq, Eq)]
pub(crate) enum Choice {
    None,
    One(Writer),
    Several,
}

/// What a search of anomalies goes over: the only source of each reading, where it has one and counts.
#[derive(Drop)]
pub(crate) struct Evident<'a> {
    pub alloc: Global,
    pub problem: &'a Problem<'a>,
    pub lanes: &'a Lanes,
    pub history: &'a History,
    sources: Vec<Option<Writer>>,
    /// Who takes place: those that are known to have committed, and of the others those that alone can have written what one read
    /// that takes place.
    present: Vec<bool>,
    /// Of each of the others the reading that shows it.
    shown_by: Vec<usize>,
}

impl<'a> Evident<'a> {
    pub(crate) fn new(
        alloc: Global,
        problem: &'a Problem<'a>,
        lanes: &'a Lanes,
        history: &'a History,
    ) -> Evident<'a> {
        Evident {
            alloc,
            problem,
            lanes,
            history,
            sources: Vec::new(alloc),
            present: Vec::new(alloc),
            shown_by: Vec::new(alloc),
        }
    }
}

impl Evident<'_> {
    /// Finds who takes place, and the only source of each reading of theirs among all who may take place.
    pub(crate) fn fill(&mut self) -> Result<(), NoMemory> {
        self.present.clear();
        self.shown_by.clear();
        for t in 0..self.problem.transactions() {
            let present = self.problem.is_committed(t) && self.problem.is_possible(t);
            add(&mut self.present, present)?;
            add(&mut self.shown_by, NONE)?;
        }
        for _ in 0..self.problem.transactions() {
            if !self.find_present() {
                break;
            }
        }
        self.sources.clear();
        for place in 0..self.problem.readings.len() {
            let source = self.sole_source(place);
            add(&mut self.sources, source)?;
        }
        Ok(())
    }

    /// Finds more who take place. Answers whether there are some.
    fn find_present(&mut self) -> bool {
        let mut found = false;
        for place in 0..self.problem.readings.len() {
            if let Some(Writer::Transaction(t)) = self.sole_source(place) {
                if !self.is_present(t) {
                    put(&mut self.present, t, true);
                    put(&mut self.shown_by, t, place);
                    found = true;
                }
            }
        }
        found
    }

    pub(crate) fn is_present(&self, t: usize) -> bool {
        at(self.present.as_slice(), t, false)
    }

    /// The reading that shows that a transaction of unknown status takes place, if one does.
    pub(crate) fn shown_by(&self, t: usize) -> Option<usize> {
        let place = at(self.shown_by.as_slice(), t, NONE);
        (place != NONE).then_some(place)
    }

    /// Who may have written what a reading found. Of several only those count whose turn isn't after the reader's.
    pub(crate) fn choice_of(&self, reading: Reading) -> Choice {
        match self.choice_among(reading, false) {
            Choice::Several => match self.choice_among(reading, true) {
                Choice::None => Choice::Several,
                choice => choice,
            },
            choice => choice,
        }
    }

    /// Who may have written what a reading found, without those whose turns are after the reader's if that is wanted.
    fn choice_among(&self, reading: Reading, by_turns: bool) -> Choice {
        let candidates = self.problem.candidates(reading);
        let mut choice = if candidates.opening {
            Choice::One(Writer::Opening)
        } else {
            Choice::None
        };
        for row in candidates.from..candidates.to {
            let Some(t) = self.problem.writer_of(row) else {
                continue;
            };
            let is_later = by_turns && turn_between(self.problem, reading.reader, t).is_some();
            if t != reading.reader && !is_later {
                if choice != Choice::None {
                    return Choice::Several;
                }
                choice = Choice::One(Writer::Transaction(t));
            }
        }
        choice
    }

    /// The only source of a reading of one that takes place.
    fn sole_source(&self, place: usize) -> Option<Writer> {
        let reading = self.problem.reading(place);
        if !self.is_present(reading.reader) {
            return None;
        }
        match self.choice_of(reading) {
            Choice::One(writer) => Some(writer),
            Choice::None | Choice::Several => None,
        }
    }

    pub(crate) fn readings(&self) -> usize {
        self.sources.len()
    }

    /// The only source of a reading that counts.
    pub(crate) fn source(&self, place: usize) -> Option<Writer> {
        at(self.sources.as_slice(), place, None)
    }

    /// A reading counts no more.
    pub(crate) fn forget(&mut self, place: usize) {
        put(&mut self.sources, place, None);
    }

    /// Whether a reading is by a scan, or says what a scan of its transaction says too: that a key is absent.
    pub(crate) fn is_scanned(&self, reading: Reading) -> bool {
        let key = self.problem.keys.name(reading.key);
        let is_absent = matches!(reading.need, Need::Absent);
        for scan in scans_of(self.problem.log, reading.reader) {
            if scan.operation == reading.operation {
                return true;
            }
            if is_absent && misses(scan, key) {
                return true;
            }
        }
        false
    }

    /// Whether a scan shows by a reading that its key is absent.
    pub(crate) fn is_missed(&self, reading: Reading) -> bool {
        matches!(reading.need, Need::Absent) && self.is_scanned(reading)
    }

    /// The answer of a reading.
    pub(crate) fn answer_of(&self, place: usize) -> Answer {
        let reading = self.problem.reading(place);
        Answer {
            transaction: reading.reader,
            key: Some(self.problem.keys.name(reading.key)),
        }
    }
}
