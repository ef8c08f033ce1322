//! Waits, and where they end.
use crate::moves::Moves;
use hek_machine::Machine;
use hek_rules::{Event, NoMemory, State, TxnId};

/// Notes the waits that end with a step, which belongs to the move at this place.
pub(crate) fn end_waits(machine: &Machine, by: usize, moves: &mut Moves) -> Result<(), NoMemory> {
    for place in 0..machine.txns() {
        let txn = TxnId::new(place + 1);
        if let Some(wait) = moves.lanes.of(txn).wait {
            if !still_waits(machine, txn, moves.is_for_commits(wait)) {
                moves.end_wait(txn, wait, by)?;
            }
        }
    }
    Ok(())
}

impl Moves {
    /// Whether a wait is one for commits of others: it began with `commit`, and not with `precommit`.
    fn is_for_commits(&self, wait: usize) -> bool {
        match self.items.get(wait) {
            Some(it) => matches!(it.event, Event::Commit(_)),
            None => false,
        }
    }
}

/// Whether a transaction still has something to wait for.
fn still_waits(machine: &Machine, txn: TxnId, is_commit: bool) -> bool {
    if !machine.is_declared(txn) {
        return false;
    }
    match machine.state(txn) {
        State::Active => !is_commit && machine.waits(txn) > 0,
        State::Preparing => is_commit && machine.commit_deps(txn) > 0,
        _ => false,
    }
}
