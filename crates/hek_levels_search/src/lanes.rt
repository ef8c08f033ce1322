//! Who is just before whom by turns that are seen.
use crate::known::Known;
use crate::lists::{add, at, part};
use hek_levels::Turn;
use hek_rules::NoMemory;
use std::alloc::Global;

/// A transaction, and which of all turns is its turn.
#[derive(Clone, Copy)]
pub(crate) struct Member {
    pub transaction: usize,
    pub turn: usize,
}

/// A turn of somebody who takes place, in the order of lanes and last numbers.
#[derive(Clone, Copy)]
struct Turned {
    lane: usize,
    last: u64,
    member: Member,
    /// The greatest first number of this one and those before it in the lane.
    first: u64,
}

/// The turned past the end.
const NOBODY: Turned = Turned {
    lane: usize::MAX,
    last: 0,
    member: Member {
        transaction: usize::MAX,
        turn: usize::MAX,
    },
    first: 0,
};

/// The turns in lanes where they are seen.
#[derive(Drop)]
pub(crate) struct Lanes {
    turned: Vec<Turned>,
    members: Vec<Member>,
}

impl Lanes {
    pub(crate) fn new(alloc: Global) -> Lanes {
        Lanes {
            turned: Vec::new(alloc),
            members: Vec::new(alloc),
        }
    }

    /// Takes the turns of a transaction.
    fn take(&mut self, t: usize, from: usize, turns: &[Turn]) -> Result<(), NoMemory> {
        for (place, turn) in turns.iter().enumerate() {
            if turn.seen {
                let turned = Turned {
                    lane: turn.lane,
                    last: turn.last,
                    member: Member {
                        transaction: t,
                        turn: from.saturating_add(place),
                    },
                    first: turn.first,
                };
                add(&mut self.turned, turned)?;
            }
        }
        Ok(())
    }

    /// Takes the turns of all who take place.
    pub(crate) fn fill(&mut self, known: &Known) -> Result<(), NoMemory> {
        self.turned.clear();
        self.members.clear();
        for t in 0..known.problem.transactions() {
            if known.is_present(t) {
                self.take(t, known.problem.first_turn(t), known.problem.turns(t))?;
            }
        }
        self.turned
            .sort_unstable_by_key(|one| (one.lane, one.last, one.member.transaction));
        let mut before = NOBODY;
        for one in self.turned.iter_mut() {
            if one.lane == before.lane {
                one.first = one.first.max(before.first);
            }
            before = *one;
        }
        for one in &self.turned {
            self.members.push(one.member)?;
        }
        Ok(())
    }

    /// How many stand before those of a lane whose last numbers are this one or greater.
    fn count_below(&self, lane: usize, number: u64) -> usize {
        self.turned
            .partition_point(|one| (one.lane, one.last) < (lane, number))
    }

    /// Those just before a turn: of whom none is before another.
    pub(crate) fn before(&self, turn: Turn) -> &[Member] {
        let to = self.count_below(turn.lane, turn.first);
        let latest = at(self.turned.as_slice(), to.wrapping_sub(1), NOBODY);
        if latest.lane != turn.lane {
            return &[];
        }
        let from = self.count_below(turn.lane, latest.first);
        part(self.members.as_slice(), from, to)
    }
}
