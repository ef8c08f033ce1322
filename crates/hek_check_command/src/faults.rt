//! All events of a trace that are at fault.
use crate::verdict::serial_at;
use hek_rules::{Event, Level, NoMemory, Pairs, Reply, Transcript, TxnId};
use std::alloc::Global;
use std::collections::{BTreeMap, BTreeSet};

/// An event at fault: its place in the trace, from 0, and the reply that it would have had in the serial order, if
/// there is one.
#[derive(Drop)]
pub struct Fault {
    pub place: usize,
    pub serial: Option<Reply>,
}

/// The events at fault from a place on, at which the first one is; without `all` only that one. A `level` replaces each
/// transaction's own level. Each event that is judged takes time linear in the trace.
pub fn faults_of(
    alloc: Global,
    transcript: &Transcript,
    level: Option<Level>,
    first: usize,
    all: bool,
) -> Result<Vec<Fault>, NoMemory> {
    let committed = committed_in(alloc, transcript)?;
    let mut times = Times::new(alloc);
    let mut faults = Vec::new(alloc);
    for (place, event) in transcript.events().iter().enumerate() {
        let Some(reply) = transcript.replies().get(place) else {
            break;
        };
        let is_late = !times.is_in_time(*event, reply)?;
        if place < first {
            continue;
        }
        let serial = serial_at(alloc, transcript, level, place)?;
        let is_wrong = is_judged(&committed, *event)
            && is_wrong(level_of(transcript, level, *event), *event, reply, &serial);
        if place == first || is_late || is_wrong {
            faults.push(Fault { place, serial })?;
            if !all {
                break;
            }
        }
    }
    Ok(faults)
}

/// The transactions that commit.
fn committed_in(alloc: Global, transcript: &Transcript) -> Result<BTreeSet<u64>, NoMemory> {
    let mut committed = BTreeSet::new(alloc);
    for (place, event) in transcript.events().iter().enumerate() {
        let Some(reply) = transcript.replies().get(place) else {
            break;
        };
        if let Some(t) = committed_by(*event, reply) {
            committed.insert(t)?;
        }
    }
    Ok(committed)
}

/// The number of the transaction that an event commits.
fn committed_by(event: Event, reply: &Reply) -> Option<u64> {
    if !matches!(reply, Reply::Committed) {
        return None;
    }
    match event {
        Event::Commit(t) => Some(t.number()),
        _ => None,
    }
}

/// The number of the transaction that an event gives an end time, and the time.
fn drawn_by(event: Event, reply: &Reply) -> Option<(u64, u64)> {
    let time = match reply {
        Reply::Precommitted(time) => time.number(),
        _ => return None,
    };
    match event {
        Event::Precommit(t) => Some((t.number(), time)),
        _ => None,
    }
}

/// Whether the transaction of an event commits.
fn is_judged(committed: &BTreeSet<u64>, event: Event) -> bool {
    match event.txn() {
        Some(t) => committed.contains(&t.number()),
        None => false,
    }
}

/// The level at which an event is judged.
fn level_of(transcript: &Transcript, level: Option<Level>, event: Event) -> Level {
    if let Some(level) = level {
        return level;
    }
    match event.txn() {
        Some(t) => own_level(transcript.levels(), t),
        None => Level::Serializable,
    }
}

fn own_level(levels: &[Level], t: TxnId) -> Level {
    let place = t.number().wrapping_sub(1) as usize;
    match levels.get(place) {
        Some(level) => *level,
        None => Level::Serializable,
    }
}

/// The end times that transactions drew, and those with which one has committed.
#[derive(Drop)]
struct Times {
    ends: BTreeMap<u64, u64>,
    taken: BTreeSet<u64>,
}

impl Times {
    fn new(alloc: Global) -> Times {
        Times {
            ends: BTreeMap::new(alloc),
            taken: BTreeSet::new(alloc),
        }
    }

    /// Notes an event. Whether it commits no transaction, or one with an end time that no earlier commit has.
    fn is_in_time(&mut self, event: Event, reply: &Reply) -> Result<bool, NoMemory> {
        let made = event;
        self.note_draw(event, reply)?;
        match committed_by(made, reply) {
            None => Ok(true),
            Some(t) => self.take(t),
        }
    }

    /// Notes the end time that an event draws, if it draws one.
    fn note_draw(&mut self, event: Event, reply: &Reply) -> Result<(), NoMemory> {
        match drawn_by(event, reply) {
            Some((t, time)) => self.note_end(t, time),
            None => Ok(()),
        }
    }

    /// Notes the first end time of a transaction.
    fn note_end(&mut self, t: u64, time: u64) -> Result<(), NoMemory> {
        if !self.ends.contains_key(&t) {
            self.ends.insert(t, time)?;
        }
        Ok(())
    }

    /// Whether a transaction has an end time that no earlier commit has. It counts as taken from then on.
    fn take(&mut self, t: u64) -> Result<bool, NoMemory> {
        match self.ends.get(&t) {
            None => Ok(false),
            Some(time) => Ok(self.taken.insert(*time)?),
        }
    }
}

/// Whether a reply is not right at a level, beside the serial one.
fn is_wrong(level: Level, event: Event, reply: &Reply, serial: &Option<Reply>) -> bool {
    let Some(serial) = serial else {
        return false;
    };
    if matches!(reply, Reply::Refused(_)) {
        return false;
    }
    match level {
        Level::Serializable => !reply.same(serial),
        Level::Snapshot => is_reading(event) && !reply.same(serial),
        Level::Repeatable => is_reading(event) && !is_among(reply, serial),
    }
}

fn is_reading(event: Event) -> bool {
    matches!(event, Event::Read(_, _) | Event::Scan(_, _))
}

/// Whether what a repeatable transaction found or listed is what the serial reply has too. A list is compared with the
/// serial list of its bucket.
fn is_among(reply: &Reply, serial: &Reply) -> bool {
    match (reply, serial) {
        (Reply::Found(_), serial) => reply.same(serial),
        (Reply::Rows(pairs), Reply::Rows(others)) => has_all(others, pairs),
        _ => true,
    }
}

/// Whether some pairs have all of others.
fn has_all(pairs: &Pairs, others: &Pairs) -> bool {
    others
        .items()
        .iter()
        .all(|other| pairs.items().contains(other))
}
