//! The claims of the sources of readings: of all candidates one is left.
use crate::facts::Says;
use crate::lists::{add, at};
use crate::problem::Source;
use crate::steps::Writing;
use hek_levels::Writer;
use hek_levels_refutation::Step;
use hek_rules::NoMemory;

/// A source with its number.
type Numbered = (usize, Source);

impl Writing<'_, '_> {
    /// The claim of the source of a reading: of a fact among the premises, or of its only candidate.
    pub(crate) fn source(&mut self, fact: usize, reading: usize) -> Result<usize, NoMemory> {
        if let Some(settled) = self.known.facts.settled_in(fact, reading) {
            return Ok(self.claim(settled));
        }
        if let Some(place) = self.narrowed(reading) {
            return Ok(place);
        }
        let only = at(self.known.only.as_slice(), reading, None);
        let place = self.narrow(fact, reading, only)?;
        self.note_narrowed(reading, place)?;
        Ok(place)
    }

    /// The writer that a fact has for the source of a reading.
    pub(crate) fn source_named(&self, fact: usize, reading: usize) -> Option<Writer> {
        if let Some(settled) = self.known.facts.settled_in(fact, reading) {
            if let Says::Source { source, .. } = self.known.facts.get(settled).says {
                return Some(self.writer_of(source));
            }
        }
        let only = at(self.known.only.as_slice(), reading, None)?;
        Some(self.writer_of(only))
    }

    /// The claim that excludes a source, by one of the premises of a fact.
    fn exclusion(&self, fact: usize, source: Source) -> usize {
        let premise = self.known.facts.exclusion(fact, source);
        self.claim(premise)
    }

    /// Adds the steps that leave one candidate of a reading, or none, by the premises of a fact.
    pub(crate) fn narrow(
        &mut self,
        fact: usize,
        reading: usize,
        kept: Option<Source>,
    ) -> Result<usize, NoMemory> {
        let reader = self.reader(reading);
        let place = self.place(reading);
        let taken = self.taken(fact, reader);
        let start = self.put(Step::Start {
            reader,
            place,
            taken,
        })?;
        let mut excluded = Vec::new(self.known.alloc);
        self.find_excluded(reading, kept, &mut excluded)?;
        let Some(source) = kept else {
            return self.drop_below(fact, start, excluded.as_slice(), usize::MAX);
        };
        let number = self.number_of(source);
        let from = self.drop_below(fact, start, excluded.as_slice(), number)?;
        let from = self.drop_above(fact, from, excluded.as_slice(), number)?;
        let from = self.put(Step::Skip { from, number })?;
        self.put(Step::Only { from })
    }

    /// Adds the steps that leave out the candidates whose numbers are below one, the first of them first. Answers the last claim.
    fn drop_below(
        &mut self,
        fact: usize,
        start: usize,
        excluded: &[Numbered],
        kept: usize,
    ) -> Result<usize, NoMemory> {
        let mut from = start;
        for one in excluded {
            let number = one.0;
            if number < kept {
                let not = self.exclusion(fact, one.1);
                let skipped = self.put(Step::Skip { from, number })?;
                from = self.put(Step::Drop { from: skipped, not })?;
            }
        }
        Ok(from)
    }

    /// Adds the steps that leave out the candidates whose numbers are above one, the last of them first. Answers the last claim.
    fn drop_above(
        &mut self,
        fact: usize,
        start: usize,
        excluded: &[Numbered],
        kept: usize,
    ) -> Result<usize, NoMemory> {
        let mut from = start;
        for one in excluded.iter().rev() {
            if one.0 > kept {
                let number = one.0.saturating_add(1);
                let not = self.exclusion(fact, one.1);
                let skipped = self.put(Step::SkipBack { from, number })?;
                from = self.put(Step::DropBack { from: skipped, not })?;
            }
        }
        Ok(from)
    }

    /// The number of a source: that of the opening is 0.
    fn number_of(&self, source: Source) -> usize {
        match self.known.problem.transaction_of(source) {
            Some(t) => t.saturating_add(1),
            None => 0,
        }
    }

    /// Finds the candidates of a reading but the one that is kept, by their numbers.
    fn find_excluded(
        &self,
        reading: usize,
        kept: Option<Source>,
        excluded: &mut Vec<Numbered>,
    ) -> Result<(), NoMemory> {
        let one = self.known.problem.reading(reading);
        let candidates = self.known.problem.candidates(one);
        if candidates.opening && kept != Some(Source::Opening) {
            add(excluded, (0, Source::Opening))?;
        }
        for row in candidates.from..candidates.to {
            let source = Source::Row(row);
            let is_own = self.known.problem.writer_of(row) == Some(one.reader);
            if !is_own && kept != Some(source) {
                add(excluded, (self.number_of(source), source))?;
            }
        }
        excluded.sort_unstable_by_key(|one| one.0);
        Ok(())
    }
}
