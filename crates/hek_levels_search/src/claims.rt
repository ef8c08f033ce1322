//! The steps of each fact, over the claims of those on which it rests. A premise that isn't there makes the certificate wrong.
use crate::facts::{Rule, Says};
use crate::lists::add;
use crate::nodes::Moment;
use crate::problem::Source;
use crate::steps::Writing;
use hek_levels::{Place, Writer};
use hek_levels_refutation::{Link, Step};
use hek_rules::NoMemory;

/// No claim.
pub(crate) const NOWHERE: usize = usize::MAX;

/// How a path comes to a node: by a fact, which may leave the clock that another entered.
#[derive(Clone, Copy)]
pub(crate) struct Arrival {
    pub fact: usize,
    pub entered: usize,
}

/// A path so far: the claim that its first node is before its last commit, how it comes to the begin at which it is, and where it
/// entered the clock.
#[derive(Clone, Copy)]
struct Chain {
    joined: Option<usize>,
    came: Option<Arrival>,
    entered: usize,
}

/// No path.
const NO_CHAIN: Chain = Chain {
    joined: None,
    came: None,
    entered: NOWHERE,
};

impl Writing<'_, '_> {
    /// Adds a step whose claim is added to those that are shown. Answers the place of the claim.
    pub(crate) fn put(&mut self, step: Step) -> Result<usize, NoMemory> {
        add(&mut self.steps, step)?;
        let place = self.height;
        self.height = place.saturating_add(1);
        Ok(place)
    }

    /// The claim of a fact.
    pub(crate) fn claim(&self, fact: usize) -> usize {
        match self.place_of(fact) {
            Some(place) => place,
            None => NOWHERE,
        }
    }

    /// The claim among the premises of a fact that a transaction takes place.
    pub(crate) fn taken(&self, fact: usize, t: usize) -> Option<usize> {
        let taken = self.known.facts.taken_of(fact, t)?;
        self.place_of(taken)
    }

    /// The writer of a node.
    fn writer(&self, node: usize) -> Writer {
        match self.known.nodes.transaction(node) {
            Some(t) => Writer::Transaction(t),
            None => Writer::Opening,
        }
    }

    /// The transaction of a node; the opening has none.
    pub(crate) fn transaction(&self, node: usize) -> usize {
        match self.known.nodes.transaction(node) {
            Some(t) => t,
            None => NOWHERE,
        }
    }

    pub(crate) fn key(&self, key: usize) -> u64 {
        self.known.problem.keys.name(key)
    }

    pub(crate) fn reader(&self, reading: usize) -> usize {
        self.known.problem.reading(reading).reader
    }

    pub(crate) fn place(&self, reading: usize) -> Place {
        self.known.problem.reading(reading).place
    }

    /// The writer of a source.
    pub(crate) fn writer_of(&self, source: Source) -> Writer {
        match self.known.problem.transaction_of(source) {
            Some(t) => Writer::Transaction(t),
            None => Writer::Opening,
        }
    }

    /// The transaction whose begin a node is, if it isn't its commit too.
    pub(crate) fn begins(&self, node: usize) -> Option<usize> {
        match self.known.nodes.moment(node) {
            Some(Moment::Begin(t)) => Some(t),
            _ => None,
        }
    }

    /// The assumption of a decision.
    pub(crate) fn assumption(&self, decision: usize) -> Option<Step> {
        match self.known.facts.get(decision).says {
            Says::Before { first, second } => Some(Step::AssumeBefore {
                first: self.writer(first),
                second: self.writer(second),
            }),
            Says::Source { reading, source } => Some(Step::AssumeSource {
                reader: self.reader(reading),
                place: self.place(reading),
                writer: self.writer_of(source),
            }),
            Says::Not { .. } | Says::Taken(_) | Says::Contradiction => None,
        }
    }

    /// Adds the steps of a fact; one of the clock, and that a transaction begins before it commits, have none.
    pub(crate) fn build(&mut self, fact: usize) -> Result<(), NoMemory> {
        let found = self.known.facts.get(fact);
        let place = match found.says {
            Says::Before { first, second } => self.build_before(fact, found.rule, first, second)?,
            Says::Source { reading, source } => Some(self.narrow(fact, reading, Some(source))?),
            Says::Not { reading, source } => Some(self.build_not(
                fact, found.rule, reading, source,
            )?),
            Says::Taken(_) => {
                let read = self.known.facts.premise(fact, 0);
                let premise = self.claim(read);
                let second = self.known.facts.ends(read).1;
                let reader = self.transaction(second);
                let taken = self.taken(fact, reader);
                Some(self.put(Step::In { premise, taken })?)
            }
            Says::Contradiction => None,
        };
        match place {
            Some(place) => self.remember(fact, place),
            None => Ok(()),
        }
    }

    /// Adds the steps by which one node is before another.
    fn build_before(
        &mut self,
        fact: usize,
        rule: Rule,
        first: usize,
        second: usize,
    ) -> Result<Option<usize>, NoMemory> {
        match rule {
            Rule::First => Ok(Some(self.put(Step::First {
                second: self.transaction(second),
            })?)),
            Rule::Read(reading) => {
                let source = self.source(fact, reading)?;
                Ok(Some(self.put(Step::Read { source })?))
            }
            Rule::After(reading) => Ok(Some(self.build_after(fact, reading, first, second)?)),
            Rule::Precedes(reading) => {
                let visible = self.visible(fact, reading)?;
                let source = self.source(fact, reading)?;
                Ok(Some(self.put(Step::Newest { visible, source })?))
            }
            Rule::Seen { reading, from, to } => {
                let visible = self.visible_by_hops(fact, reading, from, to)?;
                let source = self.source(fact, reading)?;
                Ok(Some(self.put(Step::Newest { visible, source })?))
            }
            Rule::Winner { first, second, key } => {
                Ok(Some(self.build_winner(fact, first, second, key)?))
            }
            _ => Ok(None),
        }
    }

    /// Adds the steps by which a reader is before a writer of a key that is after its source. Where it begins before it commits the
    /// claim is that the source is before the writer.
    fn build_after(
        &mut self,
        fact: usize,
        reading: usize,
        first: usize,
        second: usize,
    ) -> Result<usize, NoMemory> {
        let later = self.path_claim(fact)?;
        if self.begins(first).is_some() {
            return Ok(later);
        }
        let (t, x) = (self.writer(first), self.writer(second));
        let source = self.source(fact, reading)?;
        let case = self.put(Step::AssumeBefore {
            first: x,
            second: t,
        })?;
        let reader = self.reader(reading);
        let visible = self.put(Step::Whole {
            before: case,
            place: self.place(reading),
            taken: self.taken(fact, reader),
        })?;
        self.refute_newer(case, visible, source, later)
    }

    /// Ends the case of an assumption: a writer is seen that is after the source, by claims. Answers the place of the contrary.
    fn refute_newer(
        &mut self,
        case: usize,
        visible: usize,
        source: usize,
        later: usize,
    ) -> Result<usize, NoMemory> {
        let newest = self.put(Step::Newest { visible, source })?;
        let premise = self.put(Step::Chain {
            first: newest,
            second: later,
        })?;
        self.end_case(case, premise)
    }

    /// Ends the case of an assumption by a writer that is before itself. Answers the place of the contrary.
    fn end_case(&mut self, case: usize, premise: usize) -> Result<usize, NoMemory> {
        add(&mut self.steps, Step::Contra { premise })?;
        self.forget_from(case);
        self.height = case.saturating_add(1);
        Ok(case)
    }

    /// Adds the claim that the first of two writers of a key is before the second. Where the path on which it rests begins where the
    /// first begins to read, the contrary comes to a contradiction.
    fn build_winner(
        &mut self,
        fact: usize,
        first: usize,
        second: usize,
        key: usize,
    ) -> Result<usize, NoMemory> {
        let begin = self.known.facts.ends(self.known.facts.premise(fact, 0)).0;
        if self.begins(begin).is_none() {
            return self.path_claim(fact);
        }
        let case = self.put(Step::AssumeBefore {
            first: Writer::Transaction(second),
            second: Writer::Transaction(first),
        })?;
        let out = self.known.facts.premise(fact, 0);
        let link = Link::Writers {
            other: second,
            key: self.key(key),
            before: case,
        };
        let count = self.known.facts.path_len(fact);
        let rest = self.chain(fact, 1, count)?;
        self.refute_return(fact, case, out, rest, first, second, link)
    }

    /// Ends the case that a transaction sees another by a link, though a path leads from its begin to that: by a first fact and a claim
    /// from there on.
    fn refute_return(
        &mut self,
        fact: usize,
        case: usize,
        out: usize,
        rest: Option<usize>,
        t: usize,
        other: usize,
        link: Link,
    ) -> Result<usize, NoMemory> {
        let Rule::After(reading) = self.known.facts.get(out).rule else {
            // the transaction itself is before the other
            let premise = match rest {
                Some(rest) => self.put(Step::Chain {
                    first: rest,
                    second: case,
                })?,
                None => NOWHERE,
            };
            return self.end_case(case, premise);
        };
        let visible = self.put(Step::Linked {
            reader: t,
            place: self.place(reading),
            taken: self.taken(fact, t),
            link,
        })?;
        self.refute_visible(case, out, reading, rest, visible)
    }

    /// Ends the case that a read sees a transaction, though its reader begins before that: by a first fact, that it begins before a
    /// writer of its key, and a claim from there on.
    fn refute_visible(
        &mut self,
        case: usize,
        out: usize,
        reading: usize,
        rest: Option<usize>,
        visible: usize,
    ) -> Result<usize, NoMemory> {
        let shown = match rest {
            Some(before) => self.put(Step::ShowsBefore { visible, before })?,
            None => visible,
        };
        let source = self.source(out, reading)?;
        let later = self.claim(out);
        self.refute_newer(case, shown, source, later)
    }

    /// Adds the steps that exclude a source.
    fn build_not(
        &mut self,
        fact: usize,
        rule: Rule,
        reading: usize,
        source: Source,
    ) -> Result<usize, NoMemory> {
        if let Rule::NotCovered(count) = rule {
            return self.build_not_covered(fact, count, reading);
        }
        let out = self.known.facts.premise(fact, 0);
        let begin = self.known.facts.ends(out).0;
        let count = self.known.facts.path_len(fact);
        if self.begins(begin).is_none() {
            let before = self.path_claim(fact)?;
            return self.put(Step::NotLater {
                place: self.place(reading),
                before,
            });
        }
        let rest = self.chain(fact, 1, count)?;
        let Rule::After(overwritten) = self.known.facts.get(out).rule else {
            // the reader itself is before the writer
            return self.put(Step::NotLater {
                place: self.place(reading),
                before: rest.unwrap_or(NOWHERE),
            });
        };
        let case = self.put(Step::AssumeSource {
            reader: self.reader(reading),
            place: self.place(reading),
            writer: self.writer_of(source),
        })?;
        let visible = self.put(Step::Own {
            source: case,
            place: self.place(overwritten),
        })?;
        self.refute_visible(case, out, overwritten, rest, visible)
    }

    /// Adds the steps that exclude a source since another is after it, by so many facts, and before the reader.
    fn build_not_covered(
        &mut self,
        fact: usize,
        count: usize,
        reading: usize,
    ) -> Result<usize, NoMemory> {
        let rest = self.known.facts.path_len(fact);
        let before = self.chain(fact, 0, count)?.unwrap_or(NOWHERE);
        let visible = self.visible_from(fact, count, rest, reading)?;
        self.put(Step::NotOlder { visible, before })
    }

    /// The claim of the path on which a fact rests.
    fn path_claim(&mut self, fact: usize) -> Result<usize, NoMemory> {
        let count = self.known.facts.path_len(fact);
        Ok(self.chain(fact, 0, count)?.unwrap_or(NOWHERE))
    }

    /// Adds the claim that the first node of a path is before the last; none, if the path is empty. The path is the premises of a fact
    /// from a place up to another; after the last one comes the first again. It begins and ends at commits.
    pub(crate) fn chain(
        &mut self,
        fact: usize,
        from: usize,
        to: usize,
    ) -> Result<Option<usize>, NoMemory> {
        let mut chain = NO_CHAIN;
        for turn in from..to {
            let premise = self.known.facts.premise(fact, turn);
            chain = self.go_along(chain, premise)?;
        }
        Ok(chain.joined)
    }

    /// Adds a fact to a chain.
    fn go_along(&mut self, chain: Chain, premise: usize) -> Result<Chain, NoMemory> {
        match self.known.facts.get(premise).rule {
            Rule::Enter => Ok(Chain {
                entered: premise,
                ..chain
            }),
            Rule::Later => Ok(chain),
            _ => self.go_over(chain, premise),
        }
    }

    /// Adds a fact between two transactions to a chain, or one that leaves the clock.
    fn go_over(&mut self, chain: Chain, premise: usize) -> Result<Chain, NoMemory> {
        let here = Arrival {
            fact: premise,
            entered: chain.entered,
        };
        let second = self.known.facts.ends(premise).1;
        let came = if self.begins(second).is_some() {
            Some(here)
        } else {
            None
        };
        let claim = match chain.came {
            Some(arrival) => self.cross(arrival, premise)?,
            None if came.is_some() => return Ok(Chain { came, ..chain }),
            None => self.arrive(here)?,
        };
        let joined = Some(self.join(chain.joined, claim)?);
        Ok(Chain {
            joined,
            came,
            ..chain
        })
    }

    /// Adds a claim to that of the path before it.
    fn join(&mut self, joined: Option<usize>, second: usize) -> Result<usize, NoMemory> {
        match joined {
            None => Ok(second),
            Some(first) => self.put(Step::Chain { first, second }),
        }
    }

    /// The claim that a transaction is before the one at which a path arrives.
    fn arrive(&mut self, arrival: Arrival) -> Result<usize, NoMemory> {
        match self.known.facts.get(arrival.fact).rule {
            Rule::Leave(_) => self.turn_claim(arrival),
            _ => Ok(self.claim(arrival.fact)),
        }
    }

    /// Adds the claim that a transaction is before another by turns.
    pub(crate) fn turn_claim(&mut self, arrival: Arrival) -> Result<usize, NoMemory> {
        let first = self.known.facts.ends(arrival.entered).0;
        let second = self.known.facts.ends(arrival.fact).1;
        let x = self.transaction(first);
        let t = self.transaction(second);
        self.put(Step::Turn {
            first: x,
            second: t,
            first_taken: self.taken(arrival.entered, x),
            second_taken: self.taken(arrival.fact, t),
        })
    }

    /// The claim that a transaction is before another, where a path arrives at the begin of a third and leaves it by a fact.
    fn cross(&mut self, arrival: Arrival, out: usize) -> Result<usize, NoMemory> {
        let Rule::After(reading) = self.known.facts.get(out).rule else {
            return self.arrive(arrival);
        };
        let second = self.known.facts.ends(out).1;
        let x = self.seen_by(arrival);
        let z = self.writer(second);
        if self.source_named(out, reading) == Some(x) {
            return Ok(self.claim(out));
        }
        let visible = self.see(arrival, reading)?;
        let source = self.source(out, reading)?;
        if z == x {
            // the reader sees who wrote over what it read
            let first = self.put(Step::Newest { visible, source })?;
            let second = self.claim(out);
            return self.put(Step::Chain { first, second });
        }
        let case = self.put(Step::AssumeBefore {
            first: z,
            second: x,
        })?;
        self.refute_visible(case, out, reading, Some(case), visible)
    }

    /// Whom a path comes from where it arrives at a begin.
    fn seen_by(&self, arrival: Arrival) -> Writer {
        let from = match self.known.facts.get(arrival.fact).rule {
            Rule::Leave(_) => arrival.entered,
            _ => arrival.fact,
        };
        self.writer(self.known.facts.ends(from).0)
    }

    /// Adds the steps of a conflict, the last of which is a contradiction.
    pub(crate) fn conclude(&mut self, conflict: usize) -> Result<(), NoMemory> {
        let step = match self.known.facts.get(conflict).rule {
            Rule::NoSource(reading) => Step::Exhausted {
                from: self.narrow(conflict, reading, None)?,
            },
            Rule::Impossible(transaction) => Step::Impossible {
                transaction,
                taken: self.taken(conflict, transaction),
            },
            _ => Step::Contra {
                premise: self.chain_of_cycle(conflict)?,
            },
        };
        add(&mut self.steps, step)
    }

    /// Adds the claim that a transaction of a cycle is before itself, or before the opening.
    fn chain_of_cycle(&mut self, conflict: usize) -> Result<usize, NoMemory> {
        let count = self.known.facts.path_len(conflict);
        let start = self.cycle_start(conflict, count);
        let end = start.saturating_add(count);
        Ok(self.chain(conflict, start, end)?.unwrap_or(NOWHERE))
    }

    /// The place in a cycle of the first fact that leads from a commit, or from the opening.
    fn cycle_start(&self, conflict: usize, count: usize) -> usize {
        for turn in 0..count {
            let first = self
                .known
                .facts
                .ends(self.known.facts.premise(conflict, turn))
                .0;
            let is_commit = matches!(
                self.known.nodes.moment(first),
                Some(Moment::Commit(_)) | Some(Moment::Opening)
            );
            if is_commit {
                return turn;
            }
        }
        0
    }
}
