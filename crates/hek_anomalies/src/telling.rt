//! What is told of a log that fails: what its answers show, the lightest first, or else its steps.
use crate::alone::unread_cause;
use crate::cause::{Cause, CycleEdge, EdgeKind, Evidence};
use crate::cycles::Cycles;
use crate::evident::Evident;
use crate::lanes::Lanes;
use crate::steps::{absences_in, cause_of_steps};
use hek_history::History;
use hek_levels::{Asked, Log, Place, Writer, misses, read_at, scans_of, writes_of};
use hek_levels_refutation::Step;
use hek_levels_search::{Absence, Problem, add, reduced};
use hek_rules::NoMemory;
use std::alloc::Global;

/// A log that has no explanation by some rules, as steps show.
#[derive(Clone, Copy)]
pub struct Telling<'a> {
    pub history: &'a History,
    pub log: &'a Log,
    pub lanes: &'a Lanes,
    pub asked: &'a Asked,
    pub steps: &'a [Step],
    /// A read of a transaction of what was never there, if that is all.
    pub lost: Option<(usize, Place)>,
}

/// How many keys all scans miss together, at most, where each of them is looked at.
const MOST_ABSENCES: usize = 20_000;

/// For how many pairs of a scan and a transaction that is done at most.
const MOST_PAIRS: usize = 1_000_000;

/// What keeps a log from an explanation: what its answers show by themselves, the lightest first, each without the answers of those before
/// it; without `all` the first alone. Where they show nothing, what the steps do.
pub fn causes_at(alloc: Global, telling: Telling<'_>, all: bool) -> Result<Vec<Cause>, NoMemory> {
    let mut causes = Vec::new(alloc);
    if let Some((reader, place)) = telling.lost {
        if let Some(read) = read_at(telling.log, reader, place) {
            causes.push(unread_cause(alloc, telling.log, reader, read)?)?;
        }
        return Ok(causes);
    }
    let mut listed = absences_in(alloc, telling.steps)?;
    list_few(telling.log, &mut listed)?;
    let problem = reduced(alloc, telling.log, telling.asked, listed.as_slice(), &[])?;
    let mut evident = Evident::new(alloc, &problem, telling.lanes, telling.history);
    evident.fill()?;
    show_all(&mut evident, all, &mut causes)?;
    if causes.is_empty() {
        let mut cause = cause_of_steps(&evident, telling.steps)?;
        evident.show_taken(&mut cause)?;
        causes.push(cause)?;
    }
    Ok(causes)
}

/// Adds the keys that scans miss and that somebody names, if they are few.
fn list_few(log: &Log, listed: &mut Vec<Absence>) -> Result<(), NoMemory> {
    let before = listed.len();
    let mut scans: usize = 0;
    for t in 0..log.transactions.len() {
        scans = scans.saturating_add(scans_of(log, t).len());
    }
    if scans.saturating_mul(log.transactions.len()) > MOST_PAIRS {
        return Ok(());
    }
    for t in 0..log.transactions.len() {
        for (place, scan) in scans_of(log, t).iter().enumerate() {
            for other in 0..log.transactions.len() {
                for change in writes_of(log, other) {
                    if misses(scan, change.key) {
                        let absence = Absence {
                            transaction: t,
                            scan: place,
                            key: change.key,
                        };
                        add(listed, absence)?;
                    }
                }
                if listed.len() > MOST_ABSENCES {
                    listed.truncate(before);
                    return Ok(());
                }
            }
        }
    }
    listed.sort_unstable();
    listed.dedup();
    Ok(())
}

/// Adds the anomalies that answers show: of single transactions, or else of cycles.
fn show_all(evident: &mut Evident<'_>, all: bool, causes: &mut Vec<Cause>) -> Result<(), NoMemory> {
    for disagree in [false, true] {
        if causes.is_empty() {
            evident.tell_alone(disagree, all, causes)?;
        }
    }
    if causes.is_empty() {
        let mut cycles = Cycles::new(evident.alloc);
        cycles.tell(evident, all, causes)?;
    }
    Ok(())
}

/// Adds a transaction, if it isn't there.
fn add_once(named: &mut Vec<usize>, writer: Writer) -> Result<(), NoMemory> {
    match writer {
        Writer::Transaction(t) if !named.contains(&t) => add(named, t),
        Writer::Transaction(_) | Writer::Opening => Ok(()),
    }
}

/// Whom a cause names.
fn named_in(alloc: Global, cause: &Cause) -> Result<Vec<usize>, NoMemory> {
    let mut named = Vec::new(alloc);
    for edge in cause.cycle.iter() {
        add_once(&mut named, edge.first)?;
        if let Some(source) = edge.source {
            add_once(&mut named, source)?;
        }
        if let Evidence::Seen(seen) = edge.evidence {
            add_once(&mut named, Writer::Transaction(seen.reader))?;
            add_once(&mut named, seen.writer)?;
        }
    }
    for told in cause.told.iter() {
        add_once(&mut named, Writer::Transaction(told.reader))?;
        for writer in told.writers.iter() {
            add_once(&mut named, *writer)?;
        }
    }
    Ok(named)
}

impl Evident<'_> {
    /// Adds, of each transaction of unknown status that a cause names, the read that shows that it took place; and of its reader, if that
    /// is one too.
    pub(crate) fn show_taken(&self, cause: &mut Cause) -> Result<(), NoMemory> {
        let mut named = named_in(self.alloc, cause)?;
        for n in 0..self.problem.transactions() {
            let Some(t) = named.get(n).copied() else {
                break;
            };
            let Some(place) = self.shown_by(t) else {
                continue;
            };
            if self.is_read_in(cause, t) {
                continue;
            }
            let reading = self.problem.reading(place);
            let scanned = self.is_scanned(reading);
            let writer = Writer::Transaction(t);
            let edge = CycleEdge::of_read(writer, reading.reader, self.read_of(reading), scanned);
            add(&mut cause.shown, edge)?;
            add_once(&mut named, Writer::Transaction(reading.reader))?;
        }
        Ok(())
    }

    /// Whether an edge of a cause's cycle says that one who is known to have committed read what only a transaction can have written.
    fn is_read_in(&self, cause: &Cause, t: usize) -> bool {
        for edge in cause.cycle.iter() {
            if let (EdgeKind::Read, Writer::Transaction(writer), Writer::Transaction(reader)) = (
                edge.kind,
                edge.first,
                edge.second,
            ) {
                if writer == t && self.problem.is_committed(reader) {
                    return true;
                }
            }
        }
        false
    }
}
