//! A violation is repaired: by what follows from known facts, or else by a decision.
use crate::facts::{Rule, Stop};
use crate::known::{AFTER, BEFORE, Chance, DOUBTFUL, Known, NO_CHANCE, Settled};
use crate::lists::{add, at};
use crate::problem::Source;
use crate::replay::{Replay, Violation};
use hek_rules::NoMemory;

/// One moment before another: one of two ways to repair a violation, by a rule where a path forbids the other way, and by the fact
/// that settles a source.
#[derive(Clone, Copy)]
struct Repair {
    first: usize,
    second: usize,
    rule: Rule,
    source: Option<usize>,
    t: usize,
}

impl Known<'_> {
    /// A way holds, since the path that was found last forbids the other.
    fn follow(&mut self, way: Repair) -> Result<(), Stop> {
        self.cite_path()?;
        self.facts.cite_option(way.source)?;
        self.cite_taken(way.t)?;
        if let Rule::Winner { first, .. } = way.rule {
            self.cite_taken(first)?;
        }
        self.force(way.first, way.second, way.rule, 0)
    }

    /// Repairs a violation, if it is still one.
    pub(crate) fn repair(&mut self, violation: Violation, replay: &mut Replay) -> Result<(), Stop> {
        match violation {
            Violation::Found { reading, writer } => self.repair_found(reading, writer, violation),
            Violation::Both { first, second, key } => {
                self.repair_both(first, second, key, violation)
            }
            Violation::Seen { reading, other } => {
                self.repair_seen(reading, other, violation, replay)
            }
            Violation::Unsourced(reading) => self.repair_unsourced(reading, violation),
        }
    }

    /// Whether a moment is before another in the order.
    pub(crate) fn is_in_order(&self, first: usize, second: usize) -> bool {
        self.graph.place_of(first) < self.graph.place_of(second)
    }

    /// A reader finds what another than its source wrote.
    fn repair_found(
        &mut self,
        place: usize,
        writer: Option<usize>,
        violation: Violation,
    ) -> Result<(), Stop> {
        let reading = self.problem.reading(place);
        let begin = self.nodes.begin(reading.reader);
        let is_late = self.is_in_order(begin, self.nodes.commit_of(writer));
        if is_late || !self.is_present(reading.reader) || !self.is_present_writer(writer) {
            return Ok(());
        }
        match self.source(place) {
            Some(settled) => self.repair_settled(place, settled, writer, violation),
            None => self.find_source(place, writer, violation),
        }
    }

    /// The source is known: the other writer is after the reader, or before the source.
    fn repair_settled(
        &mut self,
        place: usize,
        settled: Settled,
        writer: Option<usize>,
        violation: Violation,
    ) -> Result<(), Stop> {
        let source = self.problem.transaction_of(settled.source);
        let its = self.nodes.commit_of(source);
        let others = self.nodes.commit_of(writer);
        let begin = self.nodes.begin(self.problem.reading(place).reader);
        if let Some(fact) = settled.fact {
            // a conflict kept from being added what follows from the source
            if !self.is_in_order(its, begin) || !self.is_present_writer(source) {
                return self.read_from(place, settled.source, fact);
            }
        }
        if source == writer || self.is_in_order(others, its) {
            return Ok(());
        }
        self.repair_newer(place, settled, writer, violation)
    }

    /// The other writer is between the source and the reader in the order, where it can't be.
    fn repair_newer(
        &mut self,
        place: usize,
        settled: Settled,
        writer: Option<usize>,
        violation: Violation,
    ) -> Result<(), Stop> {
        let source = self.problem.transaction_of(settled.source);
        let after = self.way_after(place, settled, writer);
        let before = self.way_before(place, settled, writer);
        let (its, others) = (before.second, before.first);
        if self.has_path(others, after.first)? {
            return self.follow(before);
        }
        if self.has_path(its, others)? {
            return self.follow(after);
        }
        if !self.problem.reads_before(after.t) {
            let is_after = self.is_expected_first(source, writer);
            return self.choose(after, before, is_after, violation);
        }
        if self.is_decided_after(source, writer, its, others, violation)? {
            return self.follow(after);
        }
        Ok(())
    }

    /// A way by which the other writer is after the reader.
    fn way_after(&self, place: usize, settled: Settled, writer: Option<usize>) -> Repair {
        let reader = self.problem.reading(place).reader;
        Repair {
            first: self.nodes.begin(reader),
            second: self.nodes.commit_of(writer),
            rule: Rule::After(place),
            source: settled.fact,
            t: reader,
        }
    }

    /// A way by which the other writer is before the source.
    fn way_before(&self, place: usize, settled: Settled, writer: Option<usize>) -> Repair {
        let source = self.problem.transaction_of(settled.source);
        Repair {
            first: self.nodes.commit_of(writer),
            second: self.nodes.commit_of(source),
            rule: Rule::Precedes(place),
            source: settled.fact,
            t: self.problem.reading(place).reader,
        }
    }

    /// One of two ways holds: the one that is expected is decided on, unless a path forbids it.
    fn choose(
        &mut self,
        after: Repair,
        before: Repair,
        is_after: bool,
        violation: Violation,
    ) -> Result<(), Stop> {
        if is_after {
            if self.decide(after.first, after.second, violation)? {
                return self.follow(before);
            }
            return Ok(());
        }
        if self.decide(before.first, before.second, violation)? {
            return self.follow(after);
        }
        Ok(())
    }

    /// Decides which is first, the source of a reading or another writer of its key: the one that is expected, or else the other. Answers
    /// whether it is the source: then the path that was found last says so.
    fn is_decided_after(
        &mut self,
        source: Option<usize>,
        writer: Option<usize>,
        its: usize,
        others: usize,
        violation: Violation,
    ) -> Result<bool, Stop> {
        if self.is_expected_first(source, writer) {
            let is_forbidden = self.decide(its, others, violation)?;
            return Ok(!is_forbidden && self.has_path(its, others)?);
        }
        self.decide(others, its, violation)
    }

    /// Whether a writer is expected before another, or with it.
    fn is_expected_first(&self, source: Option<usize>, writer: Option<usize>) -> bool {
        match (source, writer) {
            (None, _) => true,
            (Some(_), None) => false,
            (Some(x), Some(y)) => self.hint(x).commit <= self.hint(y).commit,
        }
    }

    /// A way by which the first of two that write a key commits before the second begins.
    fn winner(&self, first: usize, second: usize, key: usize) -> Repair {
        Repair {
            first: self.nodes.commit(first),
            second: self.nodes.begin(second),
            rule: Rule::Winner { first, second, key },
            source: None,
            t: second,
        }
    }

    /// Whether a path says that the first of two writers of a key commits before the second, or begins before it commits.
    fn is_led(&mut self, first: usize, second: usize) -> Result<bool, NoMemory> {
        let end = self.nodes.commit(second);
        let (commit, begin) = (self.nodes.commit(first), self.nodes.begin(first));
        if self.has_path(commit, end)? {
            return Ok(true);
        }
        if begin == commit {
            return Ok(false);
        }
        self.has_path(begin, end)
    }

    /// Two write a key, and neither commits before the other begins.
    fn repair_both(
        &mut self,
        t: usize,
        x: usize,
        key: usize,
        violation: Violation,
    ) -> Result<(), Stop> {
        let one = self.winner(t, x, key);
        let other = self.winner(x, t, key);
        let is_right = self.is_in_order(one.first, one.second)
            || self.is_in_order(other.first, other.second);
        if is_right || !self.is_present(t) || !self.is_present(x) {
            return Ok(());
        }
        if self.is_led(t, x)? {
            return self.follow(one);
        }
        if self.is_led(x, t)? {
            return self.follow(other);
        }
        let (first, second) = if self.expects_other(t, x, key) {
            (x, t)
        } else {
            (t, x)
        };
        let (its, others) = (self.nodes.commit(first), self.nodes.commit(second));
        if self.decide(its, others, violation)? {
            let way = self.winner(second, first, key);
            return self.follow(way);
        }
        if self.has_path(its, others)? {
            let way = self.winner(first, second, key);
            return self.follow(way);
        }
        Ok(())
    }

    /// Whether x is expected before t: unless t read a version from before x, or by their hints.
    fn expects_other(&self, t: usize, x: usize, key: usize) -> bool {
        if self.read_before(t, x, key) {
            return false;
        }
        self.read_before(x, t, key) || self.is_expected_first(Some(x), Some(t))
    }

    /// Whether a transaction read the key from a writer that is expected before another.
    fn read_before(&self, t: usize, other: usize, key: usize) -> bool {
        for place in self.problem.first_reading(t)..self.problem.end_reading(t) {
            if self.problem.reading(place).key == key {
                if let Some(settled) = self.source(place) {
                    let source = self.problem.transaction_of(settled.source);
                    return source != Some(other) && !self.is_expected_first(Some(other), source);
                }
            }
        }
        false
    }

    /// Adds a candidate, unless it is excluded or the reader's own.
    fn add_chance(&mut self, place: usize, source: Source) -> Result<(), NoMemory> {
        let reader = self.problem.reading(place).reader;
        let writer = self.problem.transaction_of(source);
        if writer == Some(reader) || self.is_excluded(place, source) {
            return Ok(());
        }
        let node = self.nodes.commit_of(writer);
        let begin = self.nodes.begin(reader);
        let chance = Chance {
            source,
            node,
            standing: self.standing(writer, begin),
            distance: self
                .graph
                .place_of(begin)
                .abs_diff(self.graph.place_of(node)),
        };
        add(&mut self.chances, chance)
    }

    /// Where a candidate's writer is, for a reader that begins at a node.
    fn standing(&self, writer: Option<usize>, begin: usize) -> u8 {
        if !self.is_present_writer(writer) {
            DOUBTFUL
        } else if self.is_in_order(self.nodes.commit_of(writer), begin) {
            BEFORE
        } else {
            AFTER
        }
    }

    /// Finds the candidates of a reading that are left, the nearest first.
    fn find_chances(&mut self, place: usize) -> Result<(), NoMemory> {
        let candidates = self.problem.candidates(self.problem.reading(place));
        self.chances.clear();
        if candidates.opening {
            self.add_chance(place, Source::Opening)?;
        }
        for row in candidates.from..candidates.to {
            self.add_chance(place, Source::Row(row))?;
        }
        self.chances
            .sort_unstable_by_key(|chance| (chance.standing, chance.distance));
        Ok(())
    }

    /// A reading with several candidates gets one of them as its source: the only one that is left, or by a decision.
    fn find_source(
        &mut self,
        place: usize,
        writer: Option<usize>,
        violation: Violation,
    ) -> Result<(), Stop> {
        let last = self.nodes.commit_of(writer);
        self.find_chances(place)?;
        for turn in 0..self.chances.len() {
            let chance = at(self.chances.as_slice(), turn, NO_CHANCE);
            if chance.standing == BEFORE && self.is_in_order(last, chance.node) {
                return Ok(());
            }
            if !self.excludes(place, last, chance)? {
                if turn.saturating_add(1) < self.chances.len() {
                    return self.decide_source(place, chance.source, violation);
                }
                self.cite_exclusions(place)?;
                return self.settle(place, chance.source, Rule::LastSource, 0);
            }
        }
        self.cite_exclusions(place)?;
        let reader = self.problem.reading(place).reader;
        self.cite_taken(reader)?;
        self.contradict(Rule::NoSource(place))
    }

    /// Cites the facts that exclude sources of a reading.
    fn cite_exclusions(&mut self, place: usize) -> Result<(), NoMemory> {
        let nots = &self.nots;
        if let Some(list) = nots.get(&place) {
            for one in list {
                self.facts.cite(one.fact)?;
            }
        }
        Ok(())
    }

    /// Whether known facts exclude a candidate, where another wrote the key last; then that is a fact too.
    fn excludes(&mut self, place: usize, last: usize, chance: Chance) -> Result<bool, Stop> {
        let begin = self.nodes.begin(self.problem.reading(place).reader);
        if chance.standing == BEFORE && self.has_path(chance.node, last)? {
            let count = self.graph.path.len();
            self.cite_path()?;
            if self.has_path(last, begin)? {
                self.cite_path()?;
                let reader = self.problem.reading(place).reader;
                self.cite_taken(reader)?;
                self.exclude(place, chance.source, Rule::NotCovered(count), 0)?;
                return Ok(true);
            }
            self.facts.cite_nothing();
        }
        let is_after = chance.standing == AFTER && self.has_path(begin, chance.node)?;
        if is_after || self.is_forbidden(chance.node, begin)? {
            self.cite_path()?;
            self.exclude(place, chance.source, Rule::NotLater, 0)?;
            return Ok(true);
        }
        Ok(false)
    }

    /// No candidate of a reading is before its reader: the nearest after it is tried as its source, of those that no path forbids.
    fn repair_unsourced(&mut self, place: usize, violation: Violation) -> Result<(), Stop> {
        let reader = self.problem.reading(place).reader;
        if !self.is_present(reader) || self.source(place).is_some() {
            return Ok(());
        }
        self.find_chances(place)?;
        let begin = self.nodes.begin(reader);
        for turn in 0..self.chances.len() {
            let chance = at(self.chances.as_slice(), turn, NO_CHANCE);
            if !self.is_excluded_after(place, begin, chance)? {
                if turn.saturating_add(1) < self.chances.len() {
                    return self.decide_source(place, chance.source, violation);
                }
                self.cite_exclusions(place)?;
                return self.settle(place, chance.source, Rule::LastSource, 0);
            }
        }
        self.cite_exclusions(place)?;
        self.cite_taken(reader)?;
        self.contradict(Rule::NoSource(place))
    }

    /// Whether a path from where the reader begins to a candidate excludes that; then this is a fact too.
    fn is_excluded_after(
        &mut self,
        place: usize,
        begin: usize,
        chance: Chance,
    ) -> Result<bool, Stop> {
        let is_after = chance.standing == AFTER && self.has_path(begin, chance.node)?;
        if is_after || self.is_forbidden(chance.node, begin)? {
            self.cite_path()?;
            self.exclude(place, chance.source, Rule::NotLater, 0)?;
            return Ok(true);
        }
        Ok(false)
    }
}
