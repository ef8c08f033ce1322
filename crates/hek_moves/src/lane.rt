//! What is known of each transaction's moves.
use crate::moves::Kind;
use hek_rules::{NoMemory, TxnId};
use std::alloc::Global;

/// What is known of a transaction's moves: the place of the last one, that of the wait that goes on, and whether it has ended.
#[derive(Clone, Copy)]
pub(crate) struct Lane {
    pub(crate) last: Option<usize>,
    pub(crate) wait: Option<usize>,
    pub(crate) is_over: bool,
    pub(crate) has_committed: bool,
}

/// The lanes of a schedule's transactions.
#[derive(Drop)]
pub(crate) struct Lanes {
    items: Vec<Lane>,
}

impl Lane {
    /// A transaction that has made no move.
    fn new() -> Lane {
        Lane {
            last: None,
            wait: None,
            is_over: false,
            has_committed: false,
        }
    }

    /// Notes its move at a place.
    fn note(&mut self, place: usize, kind: &Kind) {
        self.last = Some(place);
        match kind {
            Kind::Waits(_) => self.wait = Some(place),
            Kind::Commits => {
                self.is_over = true;
                self.has_committed = true;
            }
            Kind::Aborts(_) => self.is_over = true,
            Kind::Begins
            | Kind::Reads(_, _)
            | Kind::Scans(_)
            | Kind::Writes(_)
            | Kind::Misses
            | Kind::Skips
            | Kind::Precommits(_)
            | Kind::Refused(_)
            | Kind::Idles => {}
        }
    }
}

impl Lanes {
    /// Those of so many transactions, none of which has made a move.
    pub(crate) fn new(alloc: Global, count: usize) -> Result<Lanes, NoMemory> {
        let mut items = Vec::new(alloc);
        for _ in 0..count {
            items.push(Lane::new())?;
        }
        Ok(Lanes { items })
    }

    /// That of a transaction; one without moves where it isn't the schedule's.
    pub(crate) fn of(&self, txn: TxnId) -> Lane {
        let Some(place) = place_of(txn) else {
            return Lane::new();
        };
        match self.items.get(place) {
            Some(lane) => *lane,
            None => Lane::new(),
        }
    }

    /// Notes a transaction's move at a place.
    pub(crate) fn note(&mut self, txn: TxnId, place: usize, kind: &Kind) {
        let Some(at) = place_of(txn) else {
            return;
        };
        if let Some(lane) = self.items.get_mut(at) {
            lane.note(place, kind);
        }
    }

    /// Notes that a transaction's wait has ended.
    pub(crate) fn end_wait(&mut self, txn: TxnId) {
        let Some(at) = place_of(txn) else {
            return;
        };
        if let Some(lane) = self.items.get_mut(at) {
            lane.wait = None;
        }
    }
}

/// The place of a transaction among the schedule's.
fn place_of(txn: TxnId) -> Option<usize> {
    let place = txn.number().checked_sub(1)?;
    Some(place as usize)
}
