//! What is wrong with the answers of one transaction: they contradict each other, or are of what nobody left.
use crate::anomaly::Anomaly;
use crate::cause::{Answer, Cause, CycleEdge, EdgeKind};
use crate::evident::{Choice, Evident};
use crate::naming::name_within;
use crate::own::{OwnFault, fault_in};
use hek_history::Status;
use hek_levels::{Change, Log, Need, Own, Read, Transaction, Writer};
use hek_levels_search::{Reading, add, at, meets};
use hek_rules::NoMemory;
use std::alloc::Global;

/// A cause of these edges.
pub(crate) fn cause_of(alloc: Global, anomaly: Anomaly, cycle: Vec<CycleEdge>) -> Cause {
    Cause {
        anomaly,
        cycle,
        shown: Vec::new(alloc),
        steps: 0,
        told: Vec::new(alloc),
        answers: Vec::new(alloc),
    }
}

/// A cause of one edge, which rests on one answer.
pub(crate) fn cause_of_edge(
    alloc: Global,
    anomaly: Anomaly,
    edge: CycleEdge,
    answer: Answer,
) -> Result<Cause, NoMemory> {
    let mut cycle = Vec::new(alloc);
    add(&mut cycle, edge)?;
    let mut cause = cause_of(alloc, anomaly, cycle);
    add(&mut cause.answers, answer)?;
    Ok(cause)
}

/// Why a read has no source, with who wrote its value and left something else, or aborted; the opening, if nobody did.
fn why_unread(log: &Log, reader: usize, read: Read) -> (Anomaly, Writer) {
    let mut found = (Anomaly::UnwrittenRead, Writer::Opening);
    for (t, transaction) in log.transactions.iter().enumerate() {
        let is_last = has(transaction.writes.as_slice(), read);
        let is_any = is_last || has(transaction.passing.as_slice(), read);
        if t == reader && is_any {
            found = (Anomaly::LaterWriteRead, Writer::Opening);
        } else if is_any {
            return (name_of_other(transaction, is_last), Writer::Transaction(t));
        }
    }
    found
}

/// What the read of another's change is.
fn name_of_other(transaction: &Transaction, is_last: bool) -> Anomaly {
    match transaction.status {
        Status::Aborted => Anomaly::AbortedRead,
        Status::Committed | Status::Unknown if is_last => Anomaly::ReadOfContradiction,
        Status::Committed | Status::Unknown => Anomaly::IntermediateRead,
    }
}

/// Whether one of these changes leaves what was found.
fn has(changes: &[Change], read: Read) -> bool {
    for change in changes {
        if change.key == read.key && meets(read.need, change.value) {
            return true;
        }
    }
    false
}

/// The cause that a read found what nobody left.
pub(crate) fn unread_cause(
    alloc: Global,
    log: &Log,
    reader: usize,
    read: Read,
) -> Result<Cause, NoMemory> {
    let (anomaly, writer) = why_unread(log, reader, read);
    let edge = CycleEdge::of_read(writer, reader, read, false);
    let answer = Answer {
        transaction: reader,
        key: Some(read.key),
    };
    cause_of_edge(alloc, anomaly, edge, answer)
}

/// The edge of a transaction whose own answers contradict each other.
fn own_edge(t: usize, fault: OwnFault) -> CycleEdge {
    CycleEdge {
        key: fault.key(),
        ..CycleEdge::new(EdgeKind::Own(fault), Writer::Transaction(t), t)
    }
}

/// The name of a contradiction within a transaction.
fn name_of_fault(fault: OwnFault) -> Anomaly {
    match fault {
        OwnFault::Contradicted { .. } => Anomaly::OwnWriteLost,
        OwnFault::Disagree { missed, .. } => name_within(missed),
        OwnFault::Unordered { .. } | OwnFault::Outside { .. } => Anomaly::OwnAnswers,
    }
}

impl Evident<'_> {
    /// Adds what is wrong with transactions alone, or those that disagree: that see all that they read, and found two values of a key
    /// which they didn't change between; without `all` the first.
    pub(crate) fn tell_alone(
        &self,
        disagree: bool,
        all: bool,
        causes: &mut Vec<Cause>,
    ) -> Result<(), NoMemory> {
        for t in 0..self.problem.transactions() {
            if !all && !causes.is_empty() {
                return Ok(());
            }
            if !self.problem.is_committed(t) {
                continue;
            }
            if !disagree {
                self.tell_own(t, causes)?;
                self.tell_unread(t, causes)?;
            } else if self.sees_all(t) {
                self.tell_two_values(t, causes)?;
            }
        }
        Ok(())
    }

    /// Adds that a transaction's answers contradict what it had done itself.
    fn tell_own(&self, t: usize, causes: &mut Vec<Cause>) -> Result<(), NoMemory> {
        if self.problem.is_possible(t) {
            return Ok(());
        }
        let Some(transaction) = self.history.transactions.get(t) else {
            return Ok(());
        };
        match fault_in(self.alloc, transaction.operations.as_slice())? {
            Some(fault) => self.tell_fault(t, fault, None, causes),
            None => Ok(()),
        }
    }

    fn tell_fault(
        &self,
        t: usize,
        fault: OwnFault,
        key: Option<u64>,
        causes: &mut Vec<Cause>,
    ) -> Result<(), NoMemory> {
        let answer = Answer {
            transaction: t,
            key,
        };
        let anomaly = name_of_fault(fault);
        causes.push(cause_of_edge(self.alloc, anomaly, own_edge(t, fault), answer)?)?;
        Ok(())
    }

    /// Adds the readings of a transaction of what nobody left.
    fn tell_unread(&self, t: usize, causes: &mut Vec<Cause>) -> Result<(), NoMemory> {
        for place in self.problem.first_reading(t)..self.problem.end_reading(t) {
            let reading = self.problem.reading(place);
            if self.choice_of(reading) == Choice::None {
                let cause = unread_cause(self.alloc, self.problem.log, t, self.read_of(reading))?;
                causes.push(cause)?;
            }
        }
        Ok(())
    }

    /// What a reading says, by the key's name.
    pub(crate) fn read_of(&self, reading: Reading) -> Read {
        Read {
            operation: reading.operation,
            key: self.problem.keys.name(reading.key),
            need: reading.need,
        }
    }

    /// Whether each read of a transaction sees the sources of all its reads.
    fn sees_all(&self, t: usize) -> bool {
        let rules = self.problem.rules(t);
        rules.whole || matches!(rules.own, Own::All)
    }

    /// Adds that a transaction found two values of a key, the first of such.
    fn tell_two_values(&self, t: usize, causes: &mut Vec<Cause>) -> Result<(), NoMemory> {
        let mut places = Vec::new(self.alloc);
        for place in self.problem.first_reading(t)..self.problem.end_reading(t) {
            let reading = self.problem.reading(place);
            add(&mut places, (reading.key, reading.operation, place))?;
        }
        places.sort_unstable();
        for n in 1..places.len() {
            let (key, _, first) = at(places.as_slice(), n - 1, (0, 0, 0));
            let (other, _, second) = at(places.as_slice(), n, (0, 0, 0));
            if key == other {
                let one = self.problem.reading(first);
                let next = self.problem.reading(second);
                if are_apart(one.need, next.need) {
                    let key = self.problem.keys.name(key);
                    let fault = OwnFault::Disagree {
                        first: one.operation,
                        second: next.operation,
                        key,
                        before: one.need,
                        after: next.need,
                        missed: self.is_missed(one) || self.is_missed(next),
                    };
                    return self.tell_fault(t, fault, Some(key), causes);
                }
            }
        }
        Ok(())
    }
}

/// Whether nothing meets both needs.
fn are_apart(first: Need, second: Need) -> bool {
    match (first, second) {
        (Need::Value(x), Need::Value(y)) => x != y,
        _ => matches!(first, Need::Absent) != matches!(second, Need::Absent),
    }
}
