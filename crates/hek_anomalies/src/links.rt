//! Who came before whom, by an answer alone, by two answers, or by turns.
use crate::evident::Evident;
use crate::lanes::Lane;
use hek_levels::{Own, Turn, Writer};
use hek_levels_search::{Problem, Reading, add, at};
use hek_rules::NoMemory;
use std::alloc::Global;

/// What shows that a link is so.
#[derive(Clone, Copy, PartialEq, Eq, PartialOrd, Ord)]
pub(crate) enum Shown {
    /// The second read what the first wrote.
    Read,
    /// The first read what the second read too and wrote over.
    OverwroteSame,
    /// The first read the opening, and the second writes the key.
    OverwroteOpening,
    /// The first read what the second wrote over after another answer of the writer of that.
    OverwroteSeen,
    /// The first read what the second wrote over, by a turn.
    OverwroteByTurn,
    /// A reader of what the second wrote had read of the first.
    WroteSeen,
    /// By the versions of a key.
    WroteByTurn,
    Session,
    RealTime,
}

/// No reading.
pub(crate) const NONE: usize = usize::MAX;

/// One transaction is before another. Its ends are points: see `begin_of` and `commit_of`.
#[derive(Clone, Copy)]
pub(crate) struct Link {
    pub first: usize,
    pub second: usize,
    pub shown: Shown,
    /// The key, by its place.
    pub key: usize,
    /// The reading that it is by, and another one.
    pub reading: usize,
    pub other: usize,
    /// Whether a read was written over by one that its transaction need not see.
    pub plain: bool,
    /// Whether the second sees the first.
    pub seen: bool,
}

impl Link {
    /// Its transactions.
    pub(crate) fn ends(self) -> (usize, usize) {
        (transaction_of(self.first), transaction_of(self.second))
    }

    /// What it is by.
    fn by(self) -> (Shown, usize, usize, usize) {
        (self.shown, self.reading, self.other, self.key)
    }
}

/// The link past the end.
pub(crate) const NO_LINK: Link = Link {
    first: 0,
    second: 0,
    shown: Shown::RealTime,
    key: NONE,
    reading: NONE,
    other: NONE,
    plain: false,
    seen: false,
};

/// The transaction of a point.
pub(crate) fn transaction_of(point: usize) -> usize {
    point / 2
}

/// The point at which a transaction commits.
pub(crate) fn commit_of(t: usize) -> usize {
    t.saturating_mul(2).saturating_add(1)
}

/// The point at which a transaction reads: before it commits, but where it sees all that is before it.
fn begin_of(problem: &Problem, t: usize) -> usize {
    point_of(problem, t, true)
}

/// The point before which a transaction sees what is before it, if it sees it, or else the one at which it commits.
fn point_of(problem: &Problem, t: usize, sees: bool) -> usize {
    if sees && !problem.rules(t).whole {
        t.saturating_mul(2)
    } else {
        commit_of(t)
    }
}

/// Whether a point is one of its transaction.
pub(crate) fn is_point(problem: &Problem, point: usize) -> bool {
    let t = transaction_of(point);
    point == commit_of(t) || point == begin_of(problem, t)
}

/// Whether a point that is reached leads to what a link leaves from: the begin of a transaction leads to its commit.
pub(crate) fn leads_to(reached: usize, left: usize) -> bool {
    reached <= left
}

/// Whether a transaction sees who wrote before it a key that it writes.
fn sees_writers(problem: &Problem, t: usize) -> bool {
    let rules = problem.rules(t);
    rules.whole || rules.first.writers
}

/// A reader of what a writer left at a key, in the order of their writers and keys.
#[derive(Clone, Copy)]
struct Found {
    /// 0 for the opening.
    writer: usize,
    key: usize,
    reading: usize,
}

/// The found past the end.
const NO_FOUND: Found = Found {
    writer: 0,
    key: 0,
    reading: NONE,
};

/// A turn of a transaction.
#[derive(Clone, Copy)]
struct Turned {
    turn: Turn,
    transaction: usize,
}

/// The place of a writer: 0 for the opening.
fn rank_of(writer: Writer) -> usize {
    match writer {
        Writer::Opening => 0,
        Writer::Transaction(t) => t.saturating_add(1),
    }
}

/// Of so many readings of a transaction pairs are looked at, of so many readers of one value links are made to each of so many that wrote
/// over it, so many where nobody is known to have read it first, and of so many turns of a transaction each is looked at.
const READINGS: usize = 64;

const READERS: usize = 64;

const OVERWRITERS: usize = 3;

const WRITERS: usize = 32;

const TURNS: usize = 64;

/// All links that answers and turns show.
#[derive(Drop)]
pub(crate) struct Links {
    pub all: Vec<Link>,
    found: Vec<Found>,
    turned: Vec<Turned>,
}

impl Links {
    pub(crate) fn new(alloc: Global) -> Links {
        Links {
            all: Vec::new(alloc),
            found: Vec::new(alloc),
            turned: Vec::new(alloc),
        }
    }

    /// Finds all links, sorted by their transactions.
    pub(crate) fn fill(&mut self, evident: &Evident) -> Result<(), NoMemory> {
        self.all.clear();
        self.gather(evident)?;
        self.gather_turns(evident)?;
        for place in 0..self.found.len() {
            let found = self.found_at(place);
            if found.writer > 0 {
                self.add_read(evident, found)?;
                self.add_next_of(evident, found)?;
            }
        }
        self.add_groups(evident)?;
        for t in 0..evident.problem.transactions() {
            if evident.is_present(t) {
                self.add_pairs(evident, t)?;
            }
        }
        self.add_backs(evident)?;
        for place in 0..self.turned.len() {
            self.add_next(evident, place)?;
        }
        self.sort();
        Ok(())
    }

    /// Sorts the links by their transactions, each once.
    fn sort(&mut self) {
        self.all
            .sort_unstable_by_key(|link| (link.ends(), link.by()));
        self.all
            .dedup_by_key(|link| (link.first, link.second, link.by()));
    }

    /// Gathers the readings that count by their sources and keys.
    fn gather(&mut self, evident: &Evident) -> Result<(), NoMemory> {
        self.found.clear();
        for reading in 0..evident.readings() {
            if let Some(writer) = evident.source(reading) {
                let found = Found {
                    writer: rank_of(writer),
                    key: evident.problem.reading(reading).key,
                    reading,
                };
                add(&mut self.found, found)?;
            }
        }
        self.found
            .sort_unstable_by_key(|one| (one.writer, one.key, one.reading));
        Ok(())
    }

    /// Adds a link, if it is between two transactions.
    fn add_between(&mut self, link: Link) -> Result<(), NoMemory> {
        let (first, second) = link.ends();
        if first == second {
            return Ok(());
        }
        add(&mut self.all, link)
    }

    /// Adds that who read is after whose value it found.
    fn add_read(&mut self, evident: &Evident, found: Found) -> Result<(), NoMemory> {
        let reader = evident.problem.reading(found.reading).reader;
        self.add_between(Link {
            first: commit_of(found.writer.saturating_sub(1)),
            second: begin_of(evident.problem, reader),
            shown: Shown::Read,
            key: found.key,
            reading: found.reading,
            seen: true,
            ..NO_LINK
        })
    }

    /// Where the readers of what a writer left at a key stand.
    fn group(&self, writer: usize, key: usize) -> (usize, usize) {
        let from = self
            .found
            .partition_point(|one| (one.writer, one.key) < (writer, key));
        let to = self
            .found
            .partition_point(|one| (one.writer, one.key) <= (writer, key));
        (from, to)
    }

    fn found_at(&self, place: usize) -> Found {
        at(self.found.as_slice(), place, NO_FOUND)
    }

    /// Adds who read what another wrote over, for each value that was read.
    fn add_groups(&mut self, evident: &Evident) -> Result<(), NoMemory> {
        let mut from: usize = 0;
        for place in 0..self.found.len() {
            let here = self.found_at(place);
            let next = self.found_at(place.saturating_add(1));
            let is_last = next.reading == NONE
                || next.writer != here.writer
                || next.key != here.key;
            if is_last {
                self.add_group(evident, from, place.saturating_add(1))?;
                from = place.saturating_add(1);
            }
        }
        Ok(())
    }

    /// Adds who read what another wrote over, among the readers of one value.
    fn add_group(&mut self, evident: &Evident, from: usize, to: usize) -> Result<(), NoMemory> {
        let here = self.found_at(from);
        let mut overwriters: usize = 0;
        for place in from..to {
            let over = self.found_at(place);
            let writer = evident.problem.reading(over.reading).reader;
            if overwriters < OVERWRITERS && evident.problem.left_at(writer, here.key).is_some() {
                overwriters = overwriters.saturating_add(1);
                for reader in from..to {
                    let reading = self.found_at(reader).reading;
                    self.add_over(evident, reading, writer, Shown::OverwroteSame, over.reading)?;
                }
            }
        }
        if here.writer == 0 {
            return self.add_over_opening(evident, from, to, here.key);
        }
        Ok(())
    }

    /// Adds that a reader is before a transaction that wrote over what it read, if it would see that one were it before. Where the reader
    /// writes the key too, and sees those who wrote it before, the other is after it altogether.
    fn add_over(
        &mut self,
        evident: &Evident,
        reading: usize,
        writer: usize,
        shown: Shown,
        other: usize,
    ) -> Result<(), NoMemory> {
        let problem = evident.problem;
        let Reading { reader, key, .. } = problem.reading(reading);
        let rules = problem.rules(reader);
        if !rules.whole && matches!(rules.own, Own::Nothing) {
            return Ok(());
        }
        let is_rival = sees_writers(problem, reader) && problem.left_at(reader, key).is_some();
        let sees = is_rival && sees_writers(problem, writer);
        self.add_between(Link {
            first: point_of(problem, reader, !is_rival),
            second: point_of(problem, writer, sees),
            shown,
            key,
            reading,
            other,
            plain: !is_rival,
            seen: is_rival,
        })
    }

    /// Adds that readers of the opening are before those that write the key.
    fn add_over_opening(
        &mut self,
        evident: &Evident,
        from: usize,
        to: usize,
        key: usize,
    ) -> Result<(), NoMemory> {
        let problem = evident.problem;
        let mut writers: usize = 0;
        for row in problem.first_row(key)..problem.first_row(key.saturating_add(1)) {
            let Some(writer) = problem.writer_of(row) else {
                continue;
            };
            if writers < WRITERS && evident.is_present(writer) {
                writers = writers.saturating_add(1);
                for place in from..to.min(from.saturating_add(READERS)) {
                    let reading = self.found_at(place).reading;
                    self.add_over(evident, reading, writer, Shown::OverwroteOpening, NONE)?;
                }
            }
        }
        Ok(())
    }

    /// Adds what two answers of a transaction show.
    fn add_pairs(&mut self, evident: &Evident, t: usize) -> Result<(), NoMemory> {
        let from = evident.problem.first_reading(t);
        let to = evident
            .problem
            .end_reading(t)
            .min(from.saturating_add(READINGS));
        for place in from..to {
            if let Some(Writer::Transaction(writer)) = evident.source(place) {
                self.add_seen(evident, t, place, writer)?;
                for other in from..to {
                    self.add_pair(evident, place, writer, other)?;
                }
            }
        }
        Ok(())
    }

    /// Adds what two answers of a transaction show: one of what the writer left, and one of what another did, which writes the key of
    /// the first too.
    fn add_pair(
        &mut self,
        evident: &Evident,
        place: usize,
        writer: usize,
        other: usize,
    ) -> Result<(), NoMemory> {
        let Some(Writer::Transaction(x)) = evident.source(other) else {
            return Ok(());
        };
        let problem = evident.problem;
        let Reading { reader, key, .. } = problem.reading(place);
        let both_write = x != writer && problem.left_at(x, key).is_some();
        if !both_write || !sees_both(problem, reader, place, other) {
            return Ok(());
        }
        let seen = sees_writers(problem, writer);
        self.add_between(Link {
            first: commit_of(x),
            second: point_of(problem, writer, seen),
            shown: Shown::WroteSeen,
            key,
            reading: place,
            other,
            plain: false,
            seen,
        })
    }

    /// Adds that readers of what a writer left at a key are before a transaction that writes the key, and read something else that the
    /// writer left.
    fn add_seen(
        &mut self,
        evident: &Evident,
        x: usize,
        other: usize,
        writer: usize,
    ) -> Result<(), NoMemory> {
        let problem = evident.problem;
        for left in problem.left_by(writer) {
            if problem.left_at(x, left.key).is_some() && !has_read(evident, x, left.key, writer) {
                let (from, to) = self.group(rank_of(Writer::Transaction(writer)), left.key);
                for place in from..to.min(from.saturating_add(READERS)) {
                    let reading = self.found_at(place).reading;
                    self.add_over(evident, reading, x, Shown::OverwroteSeen, other)?;
                }
            }
        }
        Ok(())
    }

    /// Adds, for each link, those back that turns show.
    fn add_backs(&mut self, evident: &Evident) -> Result<(), NoMemory> {
        for place in 0..self.all.len() {
            let link = at(self.all.as_slice(), place, NO_LINK);
            let (first, second) = link.ends();
            if let Some(turn) = turn_between(evident.problem, second, first) {
                self.add_turn(evident, turn, second, first)?;
            }
            self.add_over_back(evident, first, second)?;
        }
        Ok(())
    }

    /// Adds that a transaction wrote over what another read, where the turns of the writers say that.
    fn add_over_back(&mut self, evident: &Evident, x: usize, t: usize) -> Result<(), NoMemory> {
        let problem = evident.problem;
        let from = problem.first_reading(t);
        let to = problem.end_reading(t).min(from.saturating_add(READINGS));
        for place in from..to {
            let Some(Writer::Transaction(w)) = evident.source(place) else {
                continue;
            };
            let is_written = w != x && problem.left_at(x, problem.reading(place).key).is_some();
            if is_written && turn_between(problem, w, x).is_some() {
                self.add_over(evident, place, x, Shown::OverwroteByTurn, NONE)?;
            }
        }
        Ok(())
    }

    /// Adds that a reader of a version is before who wrote the next ones.
    fn add_next_of(&mut self, evident: &Evident, found: Found) -> Result<(), NoMemory> {
        let problem = evident.problem;
        let key = problem.keys.name(found.key);
        let writer = found.writer.saturating_sub(1);
        for (n, turn) in problem.turns(writer).iter().enumerate() {
            if n >= TURNS {
                return Ok(());
            }
            let lane = evident.lanes.get(turn.lane);
            if lane != Some(Lane::Versions(key)) && lane != Some(Lane::Ends(key)) {
                continue;
            }
            let from = self.turned.partition_point(|one| (one.turn.lane, one.turn.first)
                <= (turn.lane, turn.last));
            for place in from..from.saturating_add(OVERWRITERS) {
                let Some(next) = self.turned.get(place).copied() else {
                    break;
                };
                if next.turn.lane == turn.lane {
                    let x = next.transaction;
                    self.add_over(evident, found.reading, x, Shown::OverwroteByTurn, NONE)?;
                }
            }
        }
        Ok(())
    }

    /// Adds that a transaction is before another by a turn.
    fn add_turn(
        &mut self,
        evident: &Evident,
        turn: Turn,
        x: usize,
        t: usize,
    ) -> Result<(), NoMemory> {
        let problem = evident.problem;
        let (shown, key, seen) = match evident.lanes.get(turn.lane) {
            Some(Lane::Versions(key) | Lane::Ends(key)) => {
                let place = problem.keys.place_of(key).unwrap_or(NONE);
                (Shown::WroteByTurn, place, sees_writers(problem, t))
            }
            Some(Lane::Session(_)) => (Shown::Session, NONE, sees_turns(problem, t)),
            Some(Lane::RealTime) | None => (Shown::RealTime, NONE, sees_turns(problem, t)),
        };
        self.add_between(Link {
            first: commit_of(x),
            second: point_of(problem, t, seen),
            shown,
            key,
            seen,
            ..NO_LINK
        })
    }

    /// Gathers the turns of all who take place, by lanes.
    fn gather_turns(&mut self, evident: &Evident) -> Result<(), NoMemory> {
        self.turned.clear();
        for t in 0..evident.problem.transactions() {
            if evident.is_present(t) {
                for turn in evident.problem.turns(t) {
                    let turned = Turned {
                        turn: *turn,
                        transaction: t,
                    };
                    add(&mut self.turned, turned)?;
                }
            }
        }
        self.turned
            .sort_unstable_by_key(|one| (one.turn.lane, one.turn.first, one.transaction));
        Ok(())
    }

    /// Adds that one of a lane is before the next ones: those of whom none is before another, up to some.
    fn add_next(&mut self, evident: &Evident, place: usize) -> Result<(), NoMemory> {
        let Some(here) = self.turned.get(place).copied() else {
            return Ok(());
        };
        let lane = here.turn.lane;
        let from = self.turned.partition_point(|one| (one.turn.lane, one.turn.first)
            <= (lane, here.turn.last));
        let mut least = u64::MAX;
        for n in from..from.saturating_add(OVERWRITERS) {
            let Some(next) = self.turned.get(n).copied() else {
                break;
            };
            if next.turn.lane != lane || next.turn.first > least {
                break;
            }
            least = least.min(next.turn.last);
            self.add_turn(evident, next.turn, here.transaction, next.transaction)?;
        }
        Ok(())
    }
}

/// Whether a transaction sees those whose turns are before its own.
fn sees_turns(problem: &Problem, t: usize) -> bool {
    let rules = problem.rules(t);
    rules.whole || rules.first.turns
}

/// Whether the first of two readings of a transaction sees what the other does.
fn sees_both(problem: &Problem, t: usize, place: usize, other: usize) -> bool {
    let rules = problem.rules(t);
    match rules.own {
        Own::All => true,
        Own::Earlier => problem.reading(other).operation <= problem.reading(place).operation,
        Own::Nothing => rules.whole,
    }
}

/// Whether a transaction has read at a key what a writer left there.
fn has_read(evident: &Evident, t: usize, key: usize, writer: usize) -> bool {
    let problem = evident.problem;
    for place in problem.first_reading(t)..problem.end_reading(t) {
        let source = evident.source(place);
        if problem.reading(place).key == key && source == Some(Writer::Transaction(writer)) {
            return true;
        }
    }
    false
}

/// The turn of the second by which a transaction is before another, if one of its first turns is.
pub(crate) fn turn_between(problem: &Problem, x: usize, t: usize) -> Option<Turn> {
    for (n, turn) in problem.turns(x).iter().enumerate() {
        if n >= TURNS {
            return None;
        }
        for (m, other) in problem.turns(t).iter().enumerate() {
            if m < TURNS && turn.lane == other.lane && turn.last < other.first {
                return Some(*other);
            }
        }
    }
    None
}
