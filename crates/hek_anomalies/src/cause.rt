//! What keeps a log from a level: its name, and the cycle that shows it.
use crate::anomaly::Anomaly;
use crate::own::OwnFault;
use hek_levels::{Need, Read, Writer};

/// Why one transaction is before another.
#[derive(Clone, Copy)]
pub enum EdgeKind {
    /// The second read what the first wrote.
    Read,
    /// The first read what the second wrote over.
    Overwritten,
    /// The second wrote the key after the first.
    Version,
    /// The first is before the second in their session.
    Session,
    /// The first was answered before the second was invoked.
    RealTime,
    /// A transaction's own answers contradict each other: it is both ends.
    Own(OwnFault),
}

/// An answer that shows who came before whom, beside the one that an edge is by.
#[derive(Clone, Copy)]
pub struct Sighting {
    pub reader: usize,
    pub key: u64,
    pub read: Need,
    pub writer: Writer,
}

/// What shows that an edge is so.
#[derive(Clone, Copy)]
pub enum Evidence {
    /// The answer that the edge is by, or the times; for a read that was overwritten, the opening was read.
    Answer,
    /// The transaction that wrote over what was read had read the same.
    SameVersion,
    /// Another answer.
    Seen(Sighting),
    /// The numbers of the versions.
    Versions,
    /// The end times of the writers.
    EndTimes,
    /// The session, or real time, has the writers in this order.
    Turns,
}

/// An edge of a cycle: one transaction is before another. The key and the values are those of the kind.
#[derive(Clone, Copy)]
pub struct CycleEdge {
    pub kind: EdgeKind,
    pub first: Writer,
    pub second: Writer,
    pub key: Option<u64>,
    /// What was read, where the edge is by a read.
    pub read: Option<Need>,
    /// What was written: by the second transaction where it wrote over what was read, and otherwise by the first.
    pub written: Option<Option<u64>>,
    /// Whether it was read by a scan.
    pub scanned: bool,
    pub evidence: Evidence,
    /// Who wrote what was read and then written over.
    pub source: Option<Writer>,
}

impl CycleEdge {
    /// An edge of a kind from one to a transaction, by an answer or times alone.
    pub(crate) fn new(kind: EdgeKind, first: Writer, second: usize) -> CycleEdge {
        CycleEdge {
            kind,
            first,
            second: Writer::Transaction(second),
            key: None,
            read: None,
            written: None,
            scanned: false,
            evidence: Evidence::Answer,
            source: None,
        }
    }

    /// The edge of a read of what the first left.
    pub(crate) fn of_read(first: Writer, reader: usize, read: Read, scanned: bool) -> CycleEdge {
        CycleEdge {
            key: Some(read.key),
            read: Some(read.need),
            scanned,
            ..CycleEdge::new(EdgeKind::Read, first, reader)
        }
    }
}

/// What a transaction was answered at a key, or at all keys.
#[derive(Clone, Copy)]
pub struct Answer {
    pub transaction: usize,
    pub key: Option<u64>,
}

/// A read from which steps start, with who may have written what it found: of those that are known to have taken place some.
#[derive(Drop)]
pub struct Told {
    pub reader: usize,
    pub key: u64,
    pub need: Need,
    pub writers: Vec<Writer>,
    /// Whether others may have written it too.
    pub others: bool,
}

/// What keeps a log from a level, with its cycle. Where a single transaction is at fault it is both ends of the only edge. Where steps
/// alone show it there is no cycle.
#[derive(Drop)]
pub struct Cause {
    pub anomaly: Anomaly,
    pub cycle: Vec<CycleEdge>,
    /// Of each transaction of unknown status that is named a read that only it can have written, if no edge of the cycle is that.
    pub shown: Vec<CycleEdge>,
    /// How many steps show it, if no cycle does, and the reads from which they start.
    pub steps: usize,
    pub told: Vec<Told>,
    /// The answers on which it rests, as far as they are known.
    pub answers: Vec<Answer>,
}
