//! Deadlock detection (section 4 of the paper).
ghost use Rattle.std.specs.Prelude.{IfOk, OnErr};
ghost use Rattle.hek_rules.specs.WaitGraph.{victim};
ghost use Rattle.hek_rules.specs.Table.{detect_rule};
ghost use Rattle.hek_machine.specs.Stands.{StandsForSome, IsRule, StillShows};

use crate::engine::Engine;
use hek_rules::{Cause, NoMemory, Reply};

impl Engine {
    /// The event `detect`: the victim of a cycle aborts, if there is a cycle.
    pub(crate) fn detect(&mut self) -> Result<Reply, NoMemory>
        requires ordered { StandsForSome self.old }
        ensures rule { IfOk result (IsRule (λ w. detect_rule w (victim w)) self.old self.new) }
        ensures still { OnErr result (StillShows self.old self.new) }
    {
        match hek_deadlock::detect(self.alloc, &self.store, &self.txns)? {
            None => Ok(Reply::NoCycle),
            Some(found) => {
                let (t, cycle) = found;
                let _ = self.abort(t, Cause::Deadlock);
                Ok(Reply::Victim(t, cycle))
            }
        }
    }
}
