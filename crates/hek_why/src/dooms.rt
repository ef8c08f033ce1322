//! Which abort doomed which transaction, noted during a run: a machine shows only that a transaction is doomed.
ghost use Rattle.std.specs.Prelude.{◌≡◌, [], ◌∷◌, ◌++◌, IfOk, OnOk, OnErr};
ghost use Rattle.hek_rules.specs.Listing.{firsts_of};

use crate::kept::keep_if;
use hek_machine::Machine;
use hek_rules::{Event, NoMemory, Reply, State, TxnId};
use std::alloc::Global;
use std::marker::Model;

/// Which transaction's abort set which one's AbortNow, in the order of the run so far.
#[derive(Debug, Drop)]
pub struct Dooms {
    /// A transaction that aborted, and one that its abort doomed.
    dooms: Vec<(TxnId, TxnId)>,
}

impl Model for Dooms {
    ghost use Rattle.std.specs.Prelude.{ℕ, List};

    ghost Value = { List (ℕ × ℕ) };

    ghost view = { λ d. d.dooms.items };
}

impl Dooms {
    /// The notes before the first event: none.
    pub fn new(alloc: Global) -> Dooms
        ensures { result ≡ [] }
    {
        Dooms {
            dooms: Vec::new(alloc),
        }
    }

    /// Takes note of an event and its reply. `before` is the machine before the event.
    pub fn note(&mut self, before: &Machine, event: Event, reply: &Reply) -> Result<(), NoMemory> {
        match aborted_by(before, event, reply) {
            None => Ok(()),
            Some(aborted) => self.add_all(before, aborted),
        }
    }

    /// Takes note that the abort of a transaction dooms those whose commit depends on it.
    fn add_all(&mut self, before: &Machine, aborted: TxnId) -> Result<(), NoMemory> {
        if !before.is_declared(aborted) {
            return Ok(());
        }
        for doomed in before.dependents(aborted)?.as_slice() {
            self.add(aborted, *doomed)?;
        }
        Ok(())
    }

    /// Takes note of one transaction that aborted, and of one that its abort doomed.
    pub fn add(&mut self, aborted: TxnId, doomed: TxnId) -> Result<(), NoMemory>
        ensures ok { OnOk result (self.new ≡ self.old ++ (aborted, doomed) ∷ []) }
        ensures err { OnErr result (self.new ≡ self.old) }
    {
        self.dooms.push((aborted, doomed))?;
        Ok(())
    }

    /// The transactions whose aborts doomed this one, in the order in which they aborted.
    pub fn of(&self, alloc: Global, t: TxnId) -> Result<Vec<TxnId>, NoMemory>
        ensures { IfOk result (λ txns. txns.items ≡ firsts_of self.now t) }
    {
        let mut txns = Vec::new(alloc);
        for doom in self.dooms.as_slice() {
            keep_if(doom.1 == t, doom.0, &mut txns)?;
        }
        Ok(txns)
    }
}

/// The transaction that an event aborted, if it aborted one.
fn aborted_by(before: &Machine, event: Event, reply: &Reply) -> Option<TxnId> {
    match reply {
        Reply::Victim(t, _) => Some(*t),
        Reply::Failed => event.txn(),
        Reply::Aborted(_) => {
            let t = event.txn()?;
            let was_aborted = before.is_declared(t) && is_aborted(before.state(t));
            if was_aborted { None } else { Some(t) }
        }
        _ => None,
    }
}

fn is_aborted(state: State) -> bool {
    matches!(state, State::Aborted(_))
}
