//! Which operation of the log each one is that is left where answers were forgotten.
use hek_anomalies::{Cause, EdgeKind, OwnFault};
use hek_levels::Writer;
use hek_levels_search::at;
use hek_rules::NoMemory;
use std::alloc::Global;
use std::mem;

/// Of each transaction the places in the log of the operations that it has left; none, if these are all.
#[derive(Drop)]
pub(crate) struct Numbers {
    alloc: Global,
    of: Vec<Vec<usize>>,
}

impl Numbers {
    pub(crate) fn new(alloc: Global) -> Numbers {
        Numbers {
            alloc,
            of: Vec::new(alloc),
        }
    }

    /// The place in the log of an operation of a transaction.
    pub(crate) fn in_log(&self, t: usize, operation: usize) -> usize {
        match self.of.get(t) {
            Some(places) => at(places.as_slice(), operation, operation),
            None => operation,
        }
    }

    /// Notes the places in the log of the operations that a transaction has now.
    pub(crate) fn set(&mut self, t: usize, places: Vec<usize>) -> Result<(), NoMemory> {
        for _ in self.of.len()..t.saturating_add(1) {
            self.of.push(Vec::new(self.alloc))?;
        }
        if let Some(known) = self.of.get_mut(t) {
            let _old = mem::replace(known, places);
        }
        Ok(())
    }

    /// Gives the operations that a cause names the places that they have in the log.
    pub(crate) fn restore(&self, cause: &mut Cause) {
        for edge in cause.cycle.iter_mut() {
            if let (EdgeKind::Own(fault), Writer::Transaction(t)) = (edge.kind, edge.second) {
                edge.kind = EdgeKind::Own(self.fault_in_log(t, fault));
            }
        }
    }

    fn fault_in_log(&self, t: usize, fault: OwnFault) -> OwnFault {
        match fault {
            OwnFault::Contradicted {
                operation,
                key,
                left,
                found,
            } => OwnFault::Contradicted {
                operation: self.in_log(t, operation),
                key,
                left,
                found,
            },
            OwnFault::Disagree {
                first,
                second,
                key,
                before,
                after,
                missed,
            } => OwnFault::Disagree {
                first: self.in_log(t, first),
                second: self.in_log(t, second),
                key,
                before,
                after,
                missed,
            },
            OwnFault::Unordered { operation } => OwnFault::Unordered {
                operation: self.in_log(t, operation),
            },
            OwnFault::Outside { operation, key } => OwnFault::Outside {
                operation: self.in_log(t, operation),
                key,
            },
        }
    }
}
