//! Who comes before whom in a run, by the names of its schedule.
use crate::anomaly_words::Teller;
use crate::cycle::value_in;
use hek_anomalies::{Cause, CycleEdge, EdgeKind};
use hek_history_log::{Label, Log};
use hek_levels::Writer;
use hek_rules::{NoMemory, Schedule, TxnId};
use std::alloc::Global;

/// Who comes first, or second.
#[derive(Clone, Copy)]
pub enum Side {
    /// The opening rows.
    Opening,
    Txn(TxnId),
}

/// Why one transaction is before another.
#[derive(Drop)]
pub struct Before {
    pub first: Side,
    pub second: Side,
    pub kind: EdgeKind,
    /// The key that it is by, if it is by one.
    pub key: Option<u64>,
    /// The value that was read, if one was.
    pub read: Option<u64>,
    /// The value that was written: by the second where it wrote over what was read, and otherwise by the first.
    pub written: Option<u64>,
    /// The reason in words.
    pub words: Vec<u8>,
}

/// The edges of a cycle in the log of a run; None if one of its names is none of the schedule.
pub(crate) fn befores_of(
    alloc: Global,
    schedule: &Schedule,
    log: &Log,
    cause: &Cause,
) -> Result<Option<Vec<Before>>, NoMemory> {
    let mut befores = Vec::with_capacity(alloc, cause.cycle.len())?;
    for edge in cause.cycle.as_slice() {
        let first = side_of(schedule, log, edge.first);
        let second = side_of(schedule, log, edge.second);
        let (Some(first), Some(second)) = (first, second) else {
            return Ok(None);
        };
        let words = Teller { alloc, log }.words_of(cause.anomaly, *edge)?;
        befores.push(before_of(log, *edge, first, second, words))?;
    }
    Ok(Some(befores))
}

/// An edge between these sides.
fn before_of(log: &Log, edge: CycleEdge, first: Side, second: Side, words: Vec<u8>) -> Before {
    Before {
        first,
        second,
        kind: edge.kind,
        key: edge.key,
        read: number_of(log, value_in(edge.read)),
        written: number_of(log, edge.written.unwrap_or(None)),
        words,
    }
}

/// A value of a run, which is a number.
fn number_of(log: &Log, value: Option<u64>) -> Option<u64> {
    match log.value(value?) {
        Label::Number(number) => Some(number),
        Label::Negative(_) | Label::Text(_) => None,
    }
}

/// A side of an edge; None if its name is none of the schedule.
fn side_of(schedule: &Schedule, log: &Log, writer: Writer) -> Option<Side> {
    match writer {
        Writer::Opening => Some(Side::Opening),
        Writer::Transaction(place) => named(schedule, log.name(place)).map(Side::Txn),
    }
}

/// The transaction that a name of the log is of.
pub(crate) fn named(schedule: &Schedule, name: Label<'_>) -> Option<TxnId> {
    match name {
        Label::Text(text) => schedule.id_of(text.as_bytes()),
        Label::Number(number) => Some(TxnId::new(number)),
        Label::Negative(_) => None,
    }
}
