//! The name of a cycle, and which of two cycles is the lighter one.
use crate::anomaly::Anomaly;
use crate::cause::{CycleEdge, EdgeKind, Evidence};
use crate::evident::Evident;
use hek_history::Operation;
use hek_levels::{Need, Writer};
use hek_levels_search::{Problem, at};

/// How many edges of a kind a cycle has.
#[derive(Clone, Copy, Default)]
struct Kinds {
    reads: usize,
    overwritten: usize,
    /// Edges of a read that was written over, too, but by one whose reader writes the key itself, where of two writers
    /// of a key one sees the other. They are no part of `overwritten`.
    rivals: usize,
    /// Versions that follow from what one transaction saw of both.
    seen: usize,
    sessions: usize,
    real: usize,
    /// Reads that were written over in which a scan shows that a key is absent.
    missed: usize,
}

/// Whether an edge is by a scan that shows that a key is absent.
fn is_missed(edge: CycleEdge) -> bool {
    edge.scanned && is_of_absence(edge)
}

/// Whether an edge is by an answer that a key is absent.
fn is_of_absence(edge: CycleEdge) -> bool {
    matches!(edge.read, Some(Need::Absent))
}

/// One more.
fn count(number: &mut usize) {
    *number = number.saturating_add(1);
}

/// Whether the reader of a value that was written over writes the key too, where of two writers of a key one sees the other.
fn is_of_writers(problem: &Problem, edge: CycleEdge) -> bool {
    let (Writer::Transaction(t), Some(key)) = (edge.first, edge.key) else {
        return false;
    };
    let Some(place) = problem.keys.place_of(key) else {
        return false;
    };
    problem.rules(t).first.writers && problem.left_at(t, place).is_some()
}

impl Kinds {
    fn add(&mut self, problem: &Problem, edge: CycleEdge) {
        match edge.kind {
            EdgeKind::Read => count(&mut self.reads),
            EdgeKind::Overwritten if is_of_writers(problem, edge) => count(&mut self.rivals),
            EdgeKind::Overwritten => {
                count(&mut self.overwritten);
                if is_missed(edge) {
                    count(&mut self.missed);
                }
            }
            EdgeKind::Version => {
                if let Evidence::Seen(_) = edge.evidence {
                    count(&mut self.seen);
                }
            }
            EdgeKind::Session => count(&mut self.sessions),
            EdgeKind::RealTime => count(&mut self.real),
            EdgeKind::Own(_) => {}
        }
    }
}

/// How many edges of each kind a cycle has.
fn kinds_of(problem: &Problem, cycle: &[CycleEdge]) -> Kinds {
    let mut kinds = Kinds::default();
    for edge in cycle {
        kinds.add(problem, *edge);
    }
    kinds
}

/// The key of a cycle of two edges, if both have one.
fn one_key(cycle: &[CycleEdge]) -> Option<u64> {
    match cycle {
        [one, other] if one.key == other.key => one.key,
        _ => None,
    }
}

/// Whether the first transaction of each edge writes a key.
fn are_writers(problem: &Problem, cycle: &[CycleEdge], key: u64) -> bool {
    let Some(place) = problem.keys.place_of(key) else {
        return false;
    };
    for edge in cycle {
        let writes = match edge.first {
            Writer::Opening => false,
            Writer::Transaction(t) => problem.left_at(t, place).is_some(),
        };
        if !writes {
            return false;
        }
    }
    true
}

/// Whether a transaction inserts a key that was absent.
fn has_insert(evident: &Evident, t: usize, wanted: u64) -> bool {
    let Some(transaction) = evident.history.transactions.get(t) else {
        return false;
    };
    for operation in &transaction.operations {
        if let Operation::Insert(key, _, true) = operation {
            if *key == wanted {
                return true;
            }
        }
    }
    false
}

/// Whether each edge says that its transaction inserted the key, which it found absent.
fn are_inserts(evident: &Evident, cycle: &[CycleEdge], key: u64) -> bool {
    for edge in cycle {
        let Writer::Transaction(t) = edge.first else {
            return false;
        };
        if !is_of_absence(*edge) || !has_insert(evident, t, key) {
            return false;
        }
    }
    true
}

/// Whether each transaction that read from the one before it in the cycle writes nothing.
fn readers_only_read(problem: &Problem, cycle: &[CycleEdge]) -> bool {
    for edge in cycle {
        if let (EdgeKind::Read, Writer::Transaction(reader)) = (edge.kind, edge.second) {
            if !problem.left_by(reader).is_empty() {
                return false;
            }
        }
    }
    true
}

/// Whether an edge is a read that was written over by one that need not be seen.
fn is_overwritten(problem: &Problem, edge: CycleEdge) -> bool {
    matches!(edge.kind, EdgeKind::Overwritten) && !is_of_writers(problem, edge)
}

/// Whether two reads that were written over follow one another in a cycle.
fn is_adjacent(problem: &Problem, cycle: &[CycleEdge]) -> bool {
    let Some(last) = cycle.last() else {
        return false;
    };
    let mut before = is_overwritten(problem, *last);
    for edge in cycle {
        let is_so = is_overwritten(problem, *edge);
        if before && is_so {
            return true;
        }
        before = is_so;
    }
    false
}

/// The names of a cycle with an edge of real time, and with one of a session: without a read that was written over, and with one.
const BY_REAL_TIME: [Anomaly; 2] = [Anomaly::AgainstRealTime, Anomaly::StaleRead];

const BY_SESSION: [Anomaly; 2] = [Anomaly::AgainstSession, Anomaly::SessionRead];

/// The name of a cycle.
pub(crate) fn name_of(evident: &Evident, cycle: &[CycleEdge]) -> Anomaly {
    let kinds = kinds_of(evident.problem, cycle);
    let over = kinds.overwritten.saturating_add(kinds.rivals);
    if let Some(name) = name_of_rivals(evident, cycle) {
        name
    } else if kinds.real > 0 {
        at(&BY_REAL_TIME, over, Anomaly::RealTimeSkew)
    } else if kinds.sessions > 0 {
        at(&BY_SESSION, over, Anomaly::SessionSkew)
    } else if kinds.overwritten > 0 {
        name_of_reads(evident, cycle, kinds)
    } else if kinds.rivals > 0 {
        name_of_writers(cycle, kinds)
    } else if kinds.seen > 0 {
        Anomaly::BothOrders
    } else if kinds.reads == 0 {
        Anomaly::DirtyWrite
    } else {
        Anomaly::CircularInformationFlow
    }
}

/// The name of a cycle of two who write one key, of which one wrote over what the other had not seen.
fn name_of_rivals(evident: &Evident, cycle: &[CycleEdge]) -> Option<Anomaly> {
    let key = one_key(cycle)?;
    let has_read = cycle
        .iter()
        .any(|edge| matches!(edge.kind, EdgeKind::Overwritten));
    if !has_read || !are_writers(evident.problem, cycle, key) {
        return None;
    }
    if are_inserts(evident, cycle, key) {
        return Some(Anomaly::InsertThatExists);
    }
    Some(Anomaly::LostUpdate)
}

/// The name of a cycle in which each read that was written over is one of a key that its reader writes too.
fn name_of_writers(cycle: &[CycleEdge], kinds: Kinds) -> Anomaly {
    match (cycle.len(), kinds.rivals) {
        (2, _) => Anomaly::LostUpdate,
        (_, 1) => Anomaly::SingleAntiDependency,
        _ => Anomaly::AntiDependencyCycle,
    }
}

/// The name of a cycle in which something that was read is written over, and that isn't one of rivals.
fn name_of_reads(evident: &Evident, cycle: &[CycleEdge], kinds: Kinds) -> Anomaly {
    if kinds.reads == 1 && one_key(cycle).is_some() {
        return name_within(cycle.iter().any(|edge| is_missed(*edge)));
    }
    if kinds.missed > 0 {
        return Anomaly::Phantom;
    }
    let shape = (cycle.len(), kinds.overwritten, kinds.reads);
    match shape {
        (2, 2, _) => Anomaly::WriteSkew,
        (2, _, 1) => Anomaly::ReadSkew,
        (2, _, _) | (_, 1, _) => Anomaly::SingleAntiDependency,
        _ => {
            let only_read = readers_only_read(evident.problem, cycle);
            if shape == (3, 2, 1) && only_read {
                Anomaly::ReadOnlyAnomaly
            } else if is_adjacent(evident.problem, cycle) {
                Anomaly::AntiDependencyCycle
            } else if shape == (4, 2, 2) && only_read {
                Anomaly::LongFork
            } else {
                Anomaly::Nonadjacent
            }
        }
    }
}

/// The name of two answers of one transaction about one key, of which a scan may show that it is absent.
pub(crate) fn name_within(is_missed: bool) -> Anomaly {
    if is_missed {
        Anomaly::PhantomWithin
    } else {
        Anomaly::NonRepeatableRead
    }
}

/// The anomalies of cycles of one weight, the one that is told first at the front.
const FIRST_TOLD: [Anomaly; 9] = [
    Anomaly::InsertThatExists,
    Anomaly::LostUpdate,
    Anomaly::ReadSkew,
    Anomaly::CircularInformationFlow,
    Anomaly::WriteSkew,
    Anomaly::DirtyWrite,
    Anomaly::SingleAntiDependency,
    Anomaly::ReadOnlyAnomaly,
    Anomaly::LongFork,
];

/// The place of an anomaly among those of one weight.
fn rank_of(anomaly: Anomaly) -> usize {
    let place = FIRST_TOLD.iter().position(|one| *one == anomaly);
    place.unwrap_or(FIRST_TOLD.len())
}

/// How much there is to a cycle: the lighter one is told first.
#[derive(Clone, Copy, PartialEq, Eq, PartialOrd, Ord)]
pub(crate) struct Weight {
    weight: usize,
    rank: usize,
    keys: usize,
}

/// How many keys a cycle is of. It puts the edges in the order of their keys.
fn keys_of(cycle: &mut Vec<CycleEdge>) -> usize {
    cycle.sort_unstable_by_key(|edge| edge.key);
    let mut keys: usize = 0;
    let mut before = None;
    for edge in cycle.iter() {
        if edge.key.is_some() && edge.key != before {
            count(&mut keys);
        }
        before = edge.key;
    }
    keys
}

/// What an edge weighs: four for a transaction, and three for a second answer; as much again as for a transaction where that is of
/// another one.
fn weight_of_edge(edge: CycleEdge) -> usize {
    match (edge.evidence, edge.kind) {
        (Evidence::Seen(_), EdgeKind::Version) => 11,
        (Evidence::Seen(_), _) => 7,
        _ => 4,
    }
}

/// The weight of a cycle: of its edges, and two for each of up to two keys.
pub(crate) fn weight_of(evident: &Evident, mut cycle: Vec<CycleEdge>) -> Weight {
    let rank = rank_of(name_of(evident, cycle.as_slice()));
    let keys = keys_of(&mut cycle);
    let mut weight = keys.min(2).saturating_mul(2);
    for edge in cycle.iter() {
        weight = weight.saturating_add(weight_of_edge(*edge));
    }
    Weight { weight, rank, keys }
}
