//! What a transaction sees of the versions that an event is about.
ghost use Rattle.std.specs.Prelude.{IfOk};
ghost use Rattle.hek_txn.specs.TxnTable.{Declared};
ghost use Rattle.hek_machine.specs.Judgements.{IsShown};
ghost use Rattle.hek_why.specs.Explained.{walked};
ghost use Rattle.hek_why.specs.Looks.{looked_reasons};

use crate::explain::walked;
use crate::reason::Reason;
use crate::walked::looks;
use hek_machine::Machine;
use hek_rules::{Event, NoMemory, TxnId};
use std::alloc::Global;

/// What a transaction sees of each version that the walk of an event goes over, in order of creation: a reason `Looked`
/// for each. The walk goes over the versions of the event's key, or of all keys of its bucket; an event that has neither
/// walks over none.
pub fn sights(
    alloc: Global,
    machine: &Machine,
    t: TxnId,
    event: &Event,
) -> Result<Vec<Reason>, NoMemory>
    requires { Declared machine.now.txns t }
    ensures { IfOk result (λ list. IsShown machine.now (λ w. looked_reasons w t (walked w event.now)) list.items) }
{
    let versions = walked(alloc, machine, event)?;
    looks(alloc, machine, t, versions.as_slice())
}
