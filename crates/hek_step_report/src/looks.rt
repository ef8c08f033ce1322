//! The time at which a transaction looks at versions.
use hek_machine::Machine;
use hek_rules::{Time, TxnId};
use hek_why::read_time;

/// The time at which a transaction looks; the clock, if there is no such transaction.
pub(crate) fn looks_at(machine: &Machine, t: TxnId) -> Time {
    if machine.is_declared(t) {
        read_time(machine, t)
    } else {
        machine.clock()
    }
}
