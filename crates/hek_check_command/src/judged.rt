//! How much of a trace is judged.
use hek_report::HekFault;
use std::alloc::Global;
use std::collections::BTreeSet;
use std::fmt::{Display, Formatter};
use std::io::Write;
use std::{fmt, str};

/// How many transactions of a trace have committed, and how many events these have: the events that are judged.
#[derive(Clone, Copy, Debug, PartialEq, Eq)]
pub struct Judged {
    /// How many transactions have committed.
    pub committed: usize,
    /// How many events these have.
    pub events: usize,
}

impl Judged {
    /// What is judged of a text that is a trace. Of another text it says nothing.
    pub fn of<'a>(alloc: Global, trace: &[u8]) -> Result<Judged, HekFault<'a>> {
        let trace = str::from_utf8(trace).map_err(|_| HekFault::NotText)?;
        let names = committed_in(alloc, trace)?;
        let mut events: usize = 0;
        for line in trace.lines() {
            if is_of(&names, line) {
                events = events.saturating_add(1);
            }
        }
        Ok(Judged {
            committed: names.len(),
            events,
        })
    }

    /// Notes that nothing is judged, if no transaction has committed.
    pub fn note<E: Write>(self, faults: &mut E) {
        if self.committed == 0 {
            let _ = writeln!(faults, "hek: note: no committed transaction in this trace");
        }
    }
}

impl Display for Judged {
    fn fmt<W: fmt::Write>(&self, f: &mut Formatter<W>) -> fmt::Result {
        write!(
            f,
            "{} committed, {} events judged",
            self.committed, self.events
        )
    }
}

/// Notes in `faults` that nothing is judged, if no transaction of a trace has committed. Without the memory to find out
/// it says nothing.
pub fn note_nothing<E: Write>(alloc: Global, trace: &[u8], faults: &mut E) {
    if let Ok(judged) = Judged::of(alloc, trace) {
        judged.note(faults);
    }
}

/// The names of the transactions that commit in a trace.
fn committed_in<'t, 'a>(alloc: Global, trace: &'t str) -> Result<BTreeSet<&'t str>, HekFault<'a>> {
    let mut names = BTreeSet::new(alloc);
    for line in trace.lines() {
        if let Some((name, rest)) = event_of(line) {
            if rest == "commit -> committed" && names.insert(name).is_err() {
                return Err(HekFault::NoMemory);
            }
        }
    }
    Ok(names)
}

/// Whether a line of a trace has an event of one of these transactions.
fn is_of(names: &BTreeSet<&str>, line: &str) -> bool {
    match event_of(line) {
        Some((name, _)) => names.contains(name),
        None => false,
    }
}

/// The name of the transaction in a line of a trace, `N NAME EVENT -> REPLY`, and what is after it.
fn event_of(line: &str) -> Option<(&str, &str)> {
    let (_, rest) = line.split_once(' ')?;
    rest.split_once(' ')
}
