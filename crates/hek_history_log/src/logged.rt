//! A log that was read.
ghost use Rattle.std.specs.Prelude.{◌≡◌, ◌<◌, ◌^◌, [], None, Ok, OnOk};
ghost use Rattle.hek_history_log.specs.Kept.{KeepsTurns};
ghost use Rattle.hek_history_log.specs.declared.shown.Label.TheVariants.{Number};

use crate::numbering::Labels;
use crate::shown::Label;
use hek_history::History;
use hek_rules::NoMemory;
use std::alloc::Global;

/// A history, with the names, keys and values that its numbers stand for.
#[derive(Drop)]
pub struct Log {
    pub history: History,
    pub(crate) names: Names,
    pub(crate) keys: KeyLabels,
    pub(crate) values: Labels,
    pub(crate) versions: Vec<Version>,
}

/// The number of the version that a transaction writes at a key.
#[derive(Clone, Copy, Debug, PartialEq, Eq)]
pub struct Version {
    pub transaction: usize,
    pub key: u64,
    pub number: u64,
}

/// A place in a session: the number that stands for its name, and the number of the place.
#[derive(Clone, Copy, Debug, PartialEq, Eq)]
pub struct Turn {
    pub session: u64,
    pub number: u64,
}

/// Who a transaction is: the number that stands for its name, and its turn if it is of a session.
#[derive(Clone, Copy)]
pub(crate) struct Identity {
    pub name: u64,
    pub turn: Option<Turn>,
}

/// The names of transactions and of sessions. `named` has the number of each transaction's name, and `twins` the pairs of
/// transactions that are one in the log. `turns` has each one's turn, up to the last that is of a session.
#[derive(Drop)]
pub(crate) struct Names {
    pub labels: Labels,
    pub named: Vec<u64>,
    pub twins: Vec<(usize, usize)>,
    pub sessions: Labels,
    pub turns: Vec<Option<Turn>>,
}

impl Names {
    /// No name.
    pub(crate) fn new(alloc: Global) -> Names
        ensures { (result.twins.items ≡ []) × (result.turns.items ≡ []) }
    {
        Names {
            labels: Labels::new(alloc),
            named: Vec::new(alloc),
            twins: Vec::new(alloc),
            sessions: Labels::new(alloc),
            turns: Vec::new(alloc),
        }
    }

    /// Adds who the next transaction is.
    pub(crate) fn add(&mut self, who: Identity) -> Result<(), NoMemory>
        ensures { who.turn ≡ None → OnOk result (KeepsTurns self.old self.new) }
    {
        self.add_turn(who.turn)?;
        self.named.push(who.name)?;
        Ok(())
    }

    /// Adds the turn of the next transaction, if it is of a session.
    fn add_turn(&mut self, turn: Option<Turn>) -> Result<(), NoMemory>
        ensures { turn ≡ None → (result ≡ Ok tt) × (self.new ≡ self.old) }
    {
        if turn.is_none() {
            return Ok(());
        }
        for _ in self.turns.len()..self.named.len() {
            self.turns.push(None)?;
        }
        self.turns.push(turn)?;
        Ok(())
    }
}

/// Which numbers stand for the texts among the keys: those from `first` on, in the order of the texts. `order` has the
/// places of the texts in `labels` in that order.
#[derive(Drop)]
pub(crate) struct KeyLabels {
    pub labels: Labels,
    pub first: u64,
    pub order: Vec<usize>,
}

impl Log {
    /// The name of the transaction at a place of the history, from 0.
    pub fn name(&self, transaction: usize) -> Label<'_> {
        match self.names.named.get(transaction) {
            Some(number) => self.names.labels.label(*number),
            None => Label::Number(transaction as u64),
        }
    }

    /// The pairs of transactions, by their places, that are one in the log: its last write has no answer, and each of the
    /// two has one of the answers. At most one of them takes place.
    pub fn twins(&self) -> &[(usize, usize)] {
        self.names.twins.as_slice()
    }

    /// Where in a session the transaction at a place of the history is, if it is in one. Its number is that of its line
    /// where the log gives none.
    pub fn turn(&self, transaction: usize) -> Option<Turn> {
        match self.names.turns.get(transaction) {
            Some(turn) => *turn,
            None => None,
        }
    }

    /// Whether a transaction of the log is in a session.
    pub fn has_sessions(&self) -> bool {
        !self.names.turns.is_empty()
    }

    /// The version numbers of the writes of the transaction at a place of the history.
    pub fn versions_of(&self, transaction: usize) -> &[Version] {
        let from = self
            .versions
            .partition_point(|one| one.transaction < transaction);
        let to = self
            .versions
            .partition_point(|one| one.transaction <= transaction);
        match self.versions.get(from..to) {
            Some(list) => list,
            None => &[],
        }
    }

    /// Forgets when a transaction took place: its times, the version numbers of its writes, and its place in a session.
    pub fn forget_turns(&mut self, transaction: usize) {
        self.versions.retain(|one| one.transaction != transaction);
        if let Some(turn) = self.names.turns.get_mut(transaction) {
            *turn = None;
        }
        if let Some(there) = self.history.transactions.get_mut(transaction) {
            there.begin = None;
            there.end = None;
            there.invoked = None;
            there.answered = None;
        }
    }

    /// Whether a write of the log has a version number.
    pub fn has_versions(&self) -> bool {
        !self.versions.is_empty()
    }

    /// The name of the session that a number of a turn stands for.
    pub fn session(&self, number: u64) -> Label<'_> {
        self.names.sessions.label(number)
    }

    /// The key with a number of the history.
    pub fn key(&self, number: u64) -> Label<'_> {
        if number < self.keys.first {
            return Label::Number(number);
        }
        let rank = (number - self.keys.first) as usize;
        let text = match self.keys.order.get(rank) {
            Some(place) => self.keys.labels.texts().get(*place),
            None => None,
        };
        match text {
            Some(text) => Label::Text(text.as_str()),
            None => Label::Number(number),
        }
    }

    /// The value with a number of the history. A number below 2^63 stands for itself.
    pub fn value(&self, number: u64) -> Label<'_>
        ensures { number < 2 ^ 63 → result ≡ Number number }
    {
        self.values.label(number)
    }
}
