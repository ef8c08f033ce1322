//! Transactions that a reason names, with their states.
use hek_machine::Machine;
use hek_report::{Lines, StateText};
use hek_rules::{Schedule, TxnId};

/// A transaction with its state and its end time. One that is not declared has neither.
pub(crate) fn put_party(
    name: &str,
    schedule: &Schedule,
    machine: &Machine,
    txn: TxnId,
    out: &mut Lines,
) {
    out.put_key(name);
    out.begin_object();
    out.put_name("txn", schedule, txn);
    if machine.is_declared(txn) {
        out.put_shown("state", &StateText(machine.state(txn)));
        out.put_time("end", machine.end_time(txn));
    }
    out.end_object();
}
