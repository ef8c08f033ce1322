//! A log as levels see it: what each transaction found that it had not itself changed, and what it left.

use hek_history::{Scope, Status};

/// What an answer says of a key.
#[derive(Clone, Copy)]
pub enum Need {
    Absent,
    /// There is a value, whichever.
    Present,
    Value(u64),
}

/// What an operation says of a key that no earlier operation of its transaction changes.
#[derive(Clone, Copy)]
pub struct Read {
    /// The place of the operation in its transaction.
    pub operation: usize,
    pub key: u64,
    pub need: Need,
}

/// A scan says of each key of its scope that it is absent, but of these: those that it found, of each of which there is a read,
/// and those that earlier operations of its transaction changed. They rise.
#[derive(Drop)]
pub struct Scan {
    pub operation: usize,
    pub scope: Scope,
    pub except: Vec<u64>,
}

/// A read of a transaction: the one at this place of its list, or that a key is missing in one of its scans.
#[derive(Clone, Copy, PartialEq, Eq)]
pub enum Place {
    Listed(usize),
    Missing { scan: usize, key: u64 },
}

/// A key gets a value, or goes.
#[derive(Clone, Copy)]
pub struct Change {
    pub key: u64,
    pub value: Option<u64>,
}

/// The part of a lane that a transaction has, from its first number to its last. Lanes are sessions, real time, and the versions
/// of each key. Of two turns of one lane that one is before whose last number is below the first of the other. Those whose
/// numbers overlap have no order.
#[derive(Clone, Copy)]
pub struct Turn {
    pub lane: usize,
    pub first: u64,
    pub last: u64,
    /// Whether the transaction sees those before it, at the levels at which that is asked for.
    pub seen: bool,
}

/// A transaction.
#[derive(Drop)]
pub struct Transaction {
    pub status: Status,
    /// Whether each answer on a key that the transaction itself had changed is that of its own last change.
    pub fits: bool,
    pub turns: Vec<Turn>,
    pub reads: Vec<Read>,
    pub scans: Vec<Scan>,
    /// Its last change of each key.
    pub writes: Vec<Change>,
    /// Its changes that a later one of its own undoes.
    pub passing: Vec<Change>,
}

/// The rows at the beginning, and the transactions. Each is named by its place, from 0.
#[derive(Drop)]
pub struct Log {
    pub rows: Vec<(u64, u64)>,
    pub transactions: Vec<Transaction>,
}
