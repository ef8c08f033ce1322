//! Whom a reading sees: a walk back from its reader, not below a place of the order.
use crate::known::Known;
use crate::lanes::Lanes;
use crate::lists::{add, at, put};
use crate::sourcing::Sourcing;
use hek_levels::{Links, Own, Turn};
use hek_rules::NoMemory;
use std::alloc::Global;

/// Nobody, or nothing.
pub(crate) const NONE: usize = usize::MAX;

/// How a transaction sees another.
#[derive(Clone, Copy)]
pub(crate) enum Way {
    /// By the source of this reading of its own.
    Own(usize),
    /// By turns.
    Turn,
    /// By this reading of one that is before it by turns.
    Brought(usize, usize),
    /// Both write this key, and the other is before it.
    Writer(usize),
}

/// A hop from one transaction to another, which it sees, or shows. Of the premises of its fact so many are the path by which the other
/// is before it, where both write a key.
#[derive(Clone, Copy)]
pub(crate) struct Hop {
    pub way: Way,
    pub to: usize,
    pub path: usize,
}

/// The hop past the end.
pub(crate) const NO_HOP: Hop = Hop {
    way: Way::Turn,
    to: NONE,
    path: 0,
};

/// What is known of a transaction to which the walk comes.
#[derive(Clone, Copy)]
enum Kind {
    /// It is seen.
    Seen,
    /// It is seen, and so are those before it by turns.
    Turned,
    /// Its sources are seen, and those of the ones before it by turns.
    Brings,
}

/// A step of the walk: to whom, by which of its turns, from which stop, or from the reader, and how.
#[derive(Clone, Copy)]
struct Stop {
    kind: Kind,
    transaction: usize,
    turn: usize,
    from: usize,
    way: Way,
}

/// The stop past the end.
const NO_STOP: Stop = Stop {
    kind: Kind::Seen,
    transaction: NONE,
    turn: NONE,
    from: NONE,
    way: Way::Turn,
};

/// A walk.
#[derive(Drop)]
pub(crate) struct Walk {
    /// The turn in which each was last come to as seen, and each turn of all, for those before it and for what these bring.
    seen: Vec<usize>,
    turned: Vec<usize>,
    brings: Vec<usize>,
    turn: usize,
    /// The first place of the order that counts.
    low: usize,
    stops: Vec<Stop>,
    /// How many stops there were in all.
    pub looked_at: usize,
}

/// What the walk goes over.
#[derive(Clone, Copy)]
pub(crate) struct Ground<'a, 'b> {
    pub known: &'a Known<'b>,
    pub sourcing: &'a Sourcing,
    pub lanes: &'a Lanes,
}

/// Notes the turn in which a place was come to. Answers whether it wasn't noted before, and the list has that place.
fn note_turn(list: &mut Vec<usize>, place: usize, turn: usize) -> bool {
    if at(list.as_slice(), place, turn) == turn {
        return false;
    }
    put(list, place, turn);
    true
}

impl Walk {
    pub(crate) fn new(alloc: Global) -> Walk {
        Walk {
            seen: Vec::new(alloc),
            turned: Vec::new(alloc),
            brings: Vec::new(alloc),
            turn: 0,
            low: 0,
            stops: Vec::new(alloc),
            looked_at: 0,
        }
    }

    /// Makes room for so many transactions and turns.
    pub(crate) fn fill(&mut self, transactions: usize, turns: usize) -> Result<(), NoMemory> {
        self.seen.resize(transactions, 0)?;
        self.turned.resize(turns, 0)?;
        self.brings.resize(turns, 0)?;
        Ok(())
    }

    /// Whether a transaction is seen.
    pub(crate) fn has_seen(&self, t: usize) -> bool {
        at(self.seen.as_slice(), t, 0) == self.turn
    }

    fn stop(&self, n: usize) -> Stop {
        at(self.stops.as_slice(), n, NO_STOP)
    }

    /// Notes a stop. Answers whether it is a new one.
    fn note(&mut self, stop: Stop) -> bool {
        let turn = self.turn;
        match stop.kind {
            Kind::Seen => note_turn(&mut self.seen, stop.transaction, turn),
            Kind::Turned => note_turn(&mut self.turned, stop.turn, turn),
            Kind::Brings => note_turn(&mut self.brings, stop.turn, turn),
        }
    }

    /// Comes to a transaction.
    fn come(&mut self, ground: Ground<'_, '_>, stop: Stop) -> Result<(), NoMemory> {
        let t = stop.transaction;
        if t == NONE || ground.known.place_in_order(t) < self.low || !self.note(stop) {
            return Ok(());
        }
        add(&mut self.stops, stop)
    }

    /// Comes to the sources of the readings of a transaction, up to an operation.
    fn come_to_sources(
        &mut self,
        ground: Ground<'_, '_>,
        t: usize,
        from: usize,
        last: usize,
    ) -> Result<(), NoMemory> {
        let problem = ground.known.problem;
        for q in problem.first_reading(t)..problem.end_reading(t) {
            if problem.reading(q).operation <= last {
                let stop = Stop {
                    transaction: ground.sourcing.writer_of(q),
                    from,
                    way: Way::Own(q),
                    ..NO_STOP
                };
                self.come(ground, stop)?;
            }
        }
        Ok(())
    }

    /// Comes to the sources of the readings of one that is before another by turns, which it brings.
    fn come_to_brought(
        &mut self,
        ground: Ground<'_, '_>,
        through: usize,
        from: usize,
    ) -> Result<(), NoMemory> {
        let problem = ground.known.problem;
        for q in problem.first_reading(through)..problem.end_reading(through) {
            let stop = Stop {
                transaction: ground.sourcing.writer_of(q),
                from,
                way: Way::Brought(through, q),
                ..NO_STOP
            };
            self.come(ground, stop)?;
        }
        Ok(())
    }

    /// Comes to those who wrote the keys of a transaction last before it.
    fn come_to_writers(
        &mut self,
        ground: Ground<'_, '_>,
        t: usize,
        from: usize,
    ) -> Result<(), NoMemory> {
        let place = ground.known.place_in_order(t);
        for left in ground.known.problem.left_by(t) {
            let stop = Stop {
                transaction: ground.sourcing.writer_before(ground.known, left.key, place),
                from,
                way: Way::Writer(left.key),
                ..NO_STOP
            };
            self.come(ground, stop)?;
        }
        Ok(())
    }

    /// Comes to those just before a transaction by a turn, as the one at a stop or the reader sees them.
    fn come_by_turn(
        &mut self,
        ground: Ground<'_, '_>,
        kind: Kind,
        turn: Turn,
        from: usize,
    ) -> Result<(), NoMemory> {
        for x in ground.lanes.before(turn) {
            let stop = Stop {
                kind,
                transaction: x.transaction,
                turn: x.turn,
                from,
                way: Way::Turn,
            };
            self.come(ground, stop)?;
        }
        Ok(())
    }

    /// The same by all turns of a transaction that are seen.
    fn come_by_turns(
        &mut self,
        ground: Ground<'_, '_>,
        kind: Kind,
        t: usize,
        from: usize,
    ) -> Result<(), NoMemory> {
        for turn in ground.known.problem.turns(t) {
            if turn.seen {
                self.come_by_turn(ground, kind, *turn, from)?;
            }
        }
        Ok(())
    }

    /// The same by the turn at a stop.
    fn go_back(&mut self, ground: Ground<'_, '_>, stop: Stop) -> Result<(), NoMemory> {
        match ground.known.problem.turn(stop.turn) {
            Some(turn) => self.come_by_turn(ground, stop.kind, turn, stop.from),
            None => Ok(()),
        }
    }

    /// Comes to those that a transaction sees by writes or by its turns.
    fn come_by_links(
        &mut self,
        ground: Ground<'_, '_>,
        links: Links,
        t: usize,
        from: usize,
    ) -> Result<(), NoMemory> {
        if links.turns {
            self.come_by_turns(ground, Kind::Turned, t, from)?;
        }
        if links.turn_reads {
            self.come_by_turns(ground, Kind::Brings, t, from)?;
        }
        if links.writers {
            self.come_to_writers(ground, t, from)?;
        }
        Ok(())
    }

    /// Begins a walk at a reading.
    fn begin(&mut self, ground: Ground<'_, '_>, u: usize, low: usize) -> Result<(), NoMemory> {
        self.turn = self.turn.saturating_add(1);
        self.low = low;
        self.stops.clear();
        let reading = ground.known.problem.reading(u);
        let rules = ground.known.problem.rules(reading.reader);
        match rules.own {
            Own::Nothing => {}
            Own::Earlier => {
                self.come_to_sources(ground, reading.reader, NONE, reading.operation)?;
            }
            Own::All => self.come_to_sources(ground, reading.reader, NONE, NONE)?,
        }
        self.come_by_links(ground, rules.first, reading.reader, NONE)
    }

    /// Goes on from a stop.
    fn go_on(&mut self, ground: Ground<'_, '_>, reader: usize, n: usize) -> Result<(), NoMemory> {
        let stop = self.stop(n);
        let t = stop.transaction;
        let rules = ground.known.problem.rules(reader);
        match stop.kind {
            Kind::Seen => {
                if rules.causes {
                    self.come_to_sources(ground, t, n, NONE)?;
                }
                self.come_by_links(ground, rules.next, t, n)
            }
            Kind::Turned => {
                let seen = Stop {
                    kind: Kind::Seen,
                    ..stop
                };
                self.come(ground, seen)?;
                self.go_back(ground, stop)
            }
            Kind::Brings => {
                self.come_to_brought(ground, t, stop.from)?;
                self.go_back(ground, stop)
            }
        }
    }

    /// Walks from a reading, not below a place of the order, until another is seen.
    pub(crate) fn walk(
        &mut self,
        ground: Ground<'_, '_>,
        u: usize,
        low: usize,
        until: usize,
    ) -> Result<(), NoMemory> {
        self.begin(ground, u, low)?;
        let reader = ground.known.problem.reading(u).reader;
        for n in 0..usize::MAX {
            if n >= self.stops.len() || (until != NONE && self.has_seen(until)) {
                break;
            }
            self.looked_at = self.looked_at.saturating_add(1);
            self.go_on(ground, reader, n)?;
        }
        Ok(())
    }

    /// The stop at which a transaction is seen.
    fn stop_of(&self, t: usize) -> usize {
        for (n, stop) in self.stops.iter().enumerate() {
            if let (Kind::Seen, true) = (stop.kind, stop.transaction == t) {
                return n;
            }
        }
        NONE
    }

    /// The hops by which the last walk came to a transaction, from the reader on.
    pub(crate) fn hops_to(&self, t: usize, hops: &mut Vec<Hop>) -> Result<(), NoMemory> {
        let mut n = self.stop_of(t);
        for _ in 0..self.stops.len() {
            if n == NONE {
                break;
            }
            let stop = self.stop(n);
            add(
                hops,
                Hop {
                    way: stop.way,
                    to: stop.transaction,
                    path: 0,
                },
            )?;
            n = stop.from;
        }
        hops.reverse();
        Ok(())
    }
}
