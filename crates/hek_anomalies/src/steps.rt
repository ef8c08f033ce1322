//! What is told where steps alone show that there is no explanation: from which reads they start, and who may have written what these
//! found.
use crate::alone::cause_of;
use crate::anomaly::Anomaly;
use crate::cause::{Answer, Cause, Told};
use crate::evident::Evident;
use hek_levels::{Log, Place, Read, Writer, is_possible, offers, read_at};
use hek_levels_refutation::Step;
use hek_levels_search::{Absence, add};
use hek_rules::NoMemory;
use std::alloc::Global;

/// How many reads are told at most, and how many writers of each.
const MOST_TOLD: usize = 12;

const MOST_WRITERS: usize = 6;

/// The keys that scans miss from which steps start.
pub(crate) fn absences_in(alloc: Global, steps: &[Step]) -> Result<Vec<Absence>, NoMemory> {
    let mut absences = Vec::new(alloc);
    for step in steps {
        if let Step::Start {
            reader,
            place: Place::Missing { scan, key },
            ..
        } = step
        {
            let absence = Absence {
                transaction: *reader,
                scan: *scan,
                key: *key,
            };
            add(&mut absences, absence)?;
        }
    }
    absences.sort_unstable();
    absences.dedup();
    Ok(absences)
}

/// The readers and reads from which steps start, each key of a reader once.
fn starts_in(alloc: Global, log: &Log, steps: &[Step]) -> Result<Vec<(usize, Read)>, NoMemory> {
    let mut starts = Vec::new(alloc);
    for step in steps {
        if let Step::Start { reader, place, .. } = step {
            if let Some(read) = read_at(log, *reader, *place) {
                starts.push((*reader, read))?;
            }
        }
    }
    starts.sort_unstable_by_key(|one| (one.0, one.1.operation, one.1.key));
    starts.dedup_by_key(|one| (one.0, one.1.operation, one.1.key));
    Ok(starts)
}

/// Who may have written what a read found, up to some: of those that are known to have taken place. Answers whether there are others.
fn writers_of(
    evident: &Evident,
    reader: usize,
    read: Read,
    writers: &mut Vec<Writer>,
) -> Result<bool, NoMemory> {
    let log = evident.problem.log;
    let mut others = false;
    if offers(log, Writer::Opening, read) {
        add(writers, Writer::Opening)?;
    }
    for t in 0..log.transactions.len() {
        let writer = Writer::Transaction(t);
        if t == reader || !is_possible(log, t) || !offers(log, writer, read) {
            continue;
        }
        if writers.len() >= MOST_WRITERS || !evident.is_present(t) {
            others = true;
        } else {
            add(writers, writer)?;
        }
    }
    Ok(others)
}

/// What steps show.
pub(crate) fn cause_of_steps(evident: &Evident, steps: &[Step]) -> Result<Cause, NoMemory> {
    let alloc = evident.alloc;
    let mut cause = cause_of(alloc, Anomaly::NoOrder, Vec::new(alloc));
    cause.steps = steps.len();
    for (reader, read) in starts_in(alloc, evident.problem.log, steps)?.iter() {
        let answer = Answer {
            transaction: *reader,
            key: Some(read.key),
        };
        add(&mut cause.answers, answer)?;
        if cause.told.len() < MOST_TOLD && evident.is_present(*reader) {
            let mut writers = Vec::new(alloc);
            let others = writers_of(evident, *reader, *read, &mut writers)?;
            cause.told.push(Told {
                reader: *reader,
                key: read.key,
                need: read.need,
                writers,
                others,
            })?;
        }
    }
    Ok(cause)
}
