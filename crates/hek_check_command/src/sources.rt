//! Where the pairs of a reply come from.
use crate::faults::Fault;
use hek_rules::{Event, NoMemory, Reply, Transcript};
use std::alloc::Global;

/// Where a pair of a key and a value comes from.
#[derive(Clone, Copy)]
pub(crate) enum Source {
    /// The write at this place of the trace.
    Write(usize),
    /// The loaded rows.
    Loaded,
    Nowhere,
}

/// The pairs of a reply that its serial reply lacks, and those of the serial reply that it lacks, each with its source.
#[derive(Drop)]
pub(crate) struct Missing {
    pub(crate) read: Vec<((u64, u64), Source)>,
    pub(crate) missed: Vec<((u64, u64), Source)>,
}

/// What the reply of an event at fault and its serial reply don't share.
pub(crate) fn missing_reads(
    alloc: Global,
    transcript: &Transcript,
    fault: &Fault,
) -> Result<Missing, NoMemory> {
    let place = fault.place;
    let mut missing = Missing {
        read: Vec::new(alloc),
        missed: Vec::new(alloc),
    };
    let Some(event) = transcript.events().get(place) else {
        return Ok(missing);
    };
    let had = pairs_of(alloc, *event, transcript.replies().get(place))?;
    let wanted = pairs_of(alloc, *event, fault.serial.as_ref())?;
    let (had, wanted) = (had.as_slice(), wanted.as_slice());
    push_lacked(transcript, place, had, wanted, &mut missing.read)?;
    push_lacked(transcript, place, wanted, had, &mut missing.missed)?;
    Ok(missing)
}

/// Adds each of some pairs that others lack, with its source.
fn push_lacked(
    transcript: &Transcript,
    place: usize,
    pairs: &[(u64, u64)],
    others: &[(u64, u64)],
    lacked: &mut Vec<((u64, u64), Source)>,
) -> Result<(), NoMemory> {
    for pair in pairs {
        if !others.contains(pair) {
            lacked.push((*pair, source_of(transcript, place, *pair)))?;
        }
    }
    Ok(())
}

/// The pairs that a reply to an event has: of a read its key with the value, of a scan all.
fn pairs_of(
    alloc: Global,
    event: Event,
    reply: Option<&Reply>,
) -> Result<Vec<(u64, u64)>, NoMemory> {
    let mut pairs = Vec::new(alloc);
    match (event, reply) {
        (Event::Read(_, key), Some(Reply::Found(value))) => pairs.push((key, *value))?,
        (Event::Scan(_, _), Some(Reply::Rows(rows))) => pairs.extend_from_slice(rows.items())?,
        _ => {}
    }
    Ok(pairs)
}

/// Where a pair comes from, for an event at a place: the last write of it before, or else the loaded rows, or else the
/// first write of it after.
fn source_of(transcript: &Transcript, place: usize, pair: (u64, u64)) -> Source {
    let mut found = Source::Nowhere;
    if transcript.rows().contains(&pair) {
        found = Source::Loaded;
    }
    for (other, event) in transcript.events().iter().enumerate() {
        if is_write_of(*event, transcript.replies().get(other), pair) {
            let is_first = matches!(found, Source::Nowhere);
            if other < place || is_first {
                found = Source::Write(other);
            }
        }
    }
    found
}

/// Whether an event wrote a pair.
fn is_write_of(event: Event, reply: Option<&Reply>, pair: (u64, u64)) -> bool {
    if !matches!(reply, Some(Reply::Done)) {
        return false;
    }
    match event {
        Event::Insert(_, key, value) | Event::Update(_, key, value) => (key, value) == pair,
        Event::Begin(_)
        | Event::Read(_, _)
        | Event::Scan(_, _)
        | Event::Delete(_, _)
        | Event::Finish(_)
        | Event::Precommit(_)
        | Event::Release(_)
        | Event::Commit(_)
        | Event::Fail(_)
        | Event::Stamp(_)
        | Event::End(_)
        | Event::Detect => false,
    }
}
