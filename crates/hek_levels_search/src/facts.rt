//! What the search has found or assumed, each fact with its rule and the facts on which it rests.
use crate::lists::{add, at, part};
use crate::nodes::OPENING;
use crate::problem::Source;
use hek_rules::NoMemory;
use std::alloc::Global;

/// What a fact says.
#[derive(Clone, Copy)]
pub(crate) enum Says {
    /// The moment of a node is before that of another.
    Before { first: usize, second: usize },
    /// The source of a reading.
    Source { reading: usize, source: Source },
    /// What isn't the source of a reading.
    Not { reading: usize, source: Source },
    /// A transaction takes place.
    Taken(usize),
    /// The facts on which it rests contradict each other.
    Contradiction,
}

/// By which rule a fact follows from those on which it rests. Where a transaction isn't known to have committed, the fact that
/// it takes place is one of them.
#[derive(Clone, Copy)]
pub(crate) enum Rule {
    /// The opening is before all else.
    First,
    /// A transaction begins before it commits.
    Own,
    /// From a transaction to the tick of the last number of its turn.
    Enter,
    /// From a tick to the next.
    Later,
    /// From a tick to a transaction, by its turn at this place.
    Leave(usize),
    /// The source of a reading is before the reader.
    Read(usize),
    /// A path goes from the source of a reading to another writer of its key: the reader begins before that.
    After(usize),
    /// A path goes from another writer of a reading's key to where the reader begins: that writer is before the source.
    Precedes(usize),
    /// A reading sees another writer of its key, by these hops: that writer is before the source.
    Seen {
        reading: usize,
        from: usize,
        to: usize,
    },
    /// Both write the key, and a path goes from the commit of the first, or its begin, to the commit of the second: the first commits
    /// before the second begins.
    Winner {
        first: usize,
        second: usize,
        key: usize,
    },
    /// A decision.
    Assumed,
    /// The decision came to a conflict, together with others.
    Case {
        decision: usize,
        conflict: usize,
    },
    /// All other sources are excluded.
    LastSource,
    /// A path goes from the reader to the writer.
    NotLater,
    /// A path of so many facts goes from the writer to another one of the key, and one from that to the reader.
    NotCovered(usize),
    /// The transaction is before one that takes place.
    Inside,
    /// Each fact says that a moment is before that of the next, and the last one's before that of the first.
    Cycle,
    /// No candidate of a reading is left.
    NoSource(usize),
    /// A transaction takes place whose own answers contradict its changes.
    Impossible(usize),
}

/// What is known, since when, and why.
#[derive(Clone, Copy)]
pub(crate) struct Fact {
    pub says: Says,
    pub rule: Rule,
    /// How many decisions were open: those below 1 rest on none.
    pub level: usize,
    /// The part of the list of premises.
    from: usize,
    to: usize,
}

/// What is said past the end of the list.
const NOTHING: Fact = Fact {
    says: Says::Before {
        first: OPENING,
        second: OPENING,
    },
    rule: Rule::First,
    level: 0,
    from: 0,
    to: 0,
};

/// All facts, each named by its place, and those that are cited for the next one.
#[derive(Drop)]
pub(crate) struct Facts {
    facts: Vec<Fact>,
    premises: Vec<usize>,
    cited: usize,
}

impl Facts {
    pub(crate) fn new(alloc: Global) -> Facts {
        Facts {
            facts: Vec::new(alloc),
            premises: Vec::new(alloc),
            cited: 0,
        }
    }

    pub(crate) fn len(&self) -> usize {
        self.facts.len()
    }

    /// The fact that was added last.
    pub(crate) fn last(&self) -> usize {
        self.facts.len().saturating_sub(1)
    }

    pub(crate) fn get(&self, place: usize) -> Fact {
        at(self.facts.as_slice(), place, NOTHING)
    }

    /// The facts on which a fact rests.
    pub(crate) fn premises(&self, place: usize) -> &[usize] {
        let fact = self.get(place);
        part(self.premises.as_slice(), fact.from, fact.to)
    }

    /// Cites a fact for the next one.
    pub(crate) fn cite(&mut self, fact: usize) -> Result<(), NoMemory> {
        add(&mut self.premises, fact)
    }

    /// Cites a fact for the next one, if there is one.
    pub(crate) fn cite_option(&mut self, fact: Option<usize>) -> Result<(), NoMemory> {
        match fact {
            Some(place) => self.cite(place),
            None => Ok(()),
        }
    }

    /// Cites facts for the next one.
    pub(crate) fn cite_all(&mut self, facts: &[usize]) -> Result<(), NoMemory> {
        self.premises.extend_from_slice(facts)?;
        Ok(())
    }

    /// Cites nothing any more.
    pub(crate) fn cite_nothing(&mut self) {
        self.premises.truncate(self.cited);
    }

    /// Adds a fact that rests on those that were cited, and needs so many open decisions at least. Answers its place.
    pub(crate) fn add(&mut self, says: Says, rule: Rule, least: usize) -> Result<usize, NoMemory> {
        let from = self.cited;
        let to = self.premises.len();
        let mut level = least;
        for premise in part(self.premises.as_slice(), from, to) {
            level = level.max(self.get(*premise).level);
        }
        self.cited = to;
        self.push(Fact {
            says,
            rule,
            level,
            from,
            to,
        })
    }

    /// Adds a fact. Answers its place.
    fn push(&mut self, fact: Fact) -> Result<usize, NoMemory> {
        let place = self.facts.len();
        add(&mut self.facts, fact)?;
        Ok(place)
    }

    /// Adds a fact that rests on no other, while others are cited for the next one.
    pub(crate) fn add_apart(&mut self, says: Says, rule: Rule) -> Result<usize, NoMemory> {
        self.push(Fact {
            says,
            rule,
            ..NOTHING
        })
    }

    /// The first of the premises that says that a transaction takes place.
    pub(crate) fn taken_of(&self, place: usize, t: usize) -> Option<usize> {
        for premise in self.premises(place) {
            if let Says::Taken(other) = self.get(*premise).says {
                if other == t {
                    return Some(*premise);
                }
            }
        }
        None
    }

    /// The first of the premises that says what the source of a reading is.
    pub(crate) fn settled_in(&self, place: usize, reading: usize) -> Option<usize> {
        for premise in self.premises(place) {
            if let Says::Source { reading: other, .. } = self.get(*premise).says {
                if other == reading {
                    return Some(*premise);
                }
            }
        }
        None
    }

    /// How many of the first premises of a fact say that one node is before another: the path on which it rests.
    pub(crate) fn path_len(&self, place: usize) -> usize {
        let mut count: usize = 0;
        for premise in self.premises(place) {
            let Says::Before { .. } = self.get(*premise).says else {
                return count;
            };
            count = count.saturating_add(1);
        }
        count
    }

    /// A premise by its place; after the last one comes the first again.
    pub(crate) fn premise(&self, fact: usize, place: usize) -> usize {
        let all = self.premises(fact);
        let turned = if place < all.len() {
            place
        } else {
            place.saturating_sub(all.len())
        };
        at(all, turned, usize::MAX)
    }

    /// The nodes of a fact that one moment is before another.
    pub(crate) fn ends(&self, fact: usize) -> (usize, usize) {
        match self.get(fact).says {
            Says::Before { first, second } => (first, second),
            _ => (OPENING, OPENING),
        }
    }

    /// The first of the premises of a fact that excludes a source.
    pub(crate) fn exclusion(&self, fact: usize, source: Source) -> usize {
        for premise in self.premises(fact) {
            if let Says::Not { source: other, .. } = self.get(*premise).says {
                if other == source {
                    return *premise;
                }
            }
        }
        usize::MAX
    }

    /// Whether a fact leads to a tick of the clock.
    pub(crate) fn leads_to_tick(&self, place: usize) -> bool {
        match self.get(place).rule {
            Rule::Enter | Rule::Later => true,
            _ => false,
        }
    }
}

/// A step of the search goes no further: facts contradict each other, as this one says, or the memory is full.
#[derive(Clone, Copy)]
pub(crate) enum Stop {
    Conflict(usize),
    NoMemory,
}

impl From<NoMemory> for Stop {
    fn from(_error: NoMemory) -> Stop {
        Stop::NoMemory
    }
}
