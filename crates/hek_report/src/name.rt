//! Which transactions have a name, and what comes of writing to a list of bytes.
ghost use Rattle.std.specs.Prelude.{length, IsTrue};
ghost use Rattle.hek_rules.specs.Plan.{IsDeclared};

use hek_rules::{NoMemory, Schedule, TxnId};
use std::io;

/// Writing to a list of bytes fails only if there is no memory.
pub fn put(written: io::Result<()>) -> Result<(), NoMemory> {
    match written {
        Ok(()) => Ok(()),
        Err(_) => Err(NoMemory),
    }
}

/// Whether a schedule declares a transaction, so that it has a name.
pub fn is_named(schedule: &Schedule, t: TxnId) -> bool
    ensures { IsTrue result → IsDeclared (length schedule.now.txns) t }
{
    t.number() > 0 && t.number() <= schedule.txn_count() as u64
}
