//! What is committed after a step.
ghost use Rattle.std.specs.Prelude.{◌≡◌, IfOk};
ghost use Rattle.hek_rules.specs.Shown.{committed_rows};
ghost use Rattle.hek_machine.specs.Judgements.{IsShown};
ghost use Rattle.hek_program.specs.Conditions.{all_hold};
ghost use Rattle.hek_program.specs.Told.{at_end};
ghost use Rattle.hek_moves.specs.Moves.{IsJudged, judged};

use hek_machine::Machine;
use hek_program::{Always, AtEnd};
use hek_rules::{NoMemory, Pairs};
use std::alloc::Global;

/// The committed rows, who has committed, and whether each invariant holds of them; and the move after which it is so, none before
/// the first step.
#[derive(Drop)]
pub struct After {
    pub made_by: Option<usize>,
    pub rows: Pairs,
    pub committed: Vec<bool>,
    pub holds: Vec<bool>,
}

impl After {
    /// Nothing is committed, of nobody.
    pub(crate) fn nothing(alloc: Global) -> After {
        After {
            made_by: None,
            rows: Pairs::new(Vec::new(alloc)),
            committed: Vec::new(alloc),
            holds: Vec::new(alloc),
        }
    }

    /// Whether the same is committed.
    pub(crate) fn same(&self, other: &After) -> bool {
        let committed = self.committed == other.committed;
        self.rows.same(&other.rows) && committed
    }
}

/// What is committed on a machine, of whose transactions the flags say who has committed.
pub(crate) fn after_of(
    alloc: Global,
    machine: &Machine,
    always: &[Always],
    committed: &[bool],
    made_by: Option<usize>,
) -> Result<After, NoMemory>
    ensures shown { IfOk result (λ after. IsShown machine.now committed_rows after.rows) }
    ensures judged { IfOk result (IsJudged always.now) }
{
    let rows = machine.rows()?;
    let holds = judged(alloc, always, rows.items(), committed)?;
    Ok(After {
        made_by,
        rows,
        committed: Vec::from_slice(alloc, committed)?,
        holds,
    })
}

/// Whether each invariant holds of these rows, where these have committed.
fn judged(
    alloc: Global,
    always: &[Always],
    rows: &[(u64, u64)],
    committed: &[bool],
) -> Result<Vec<bool>, NoMemory>
    ensures { IfOk result (λ holds. holds.items ≡ judged always.now rows.now committed.now) }
{
    let mut holds = Vec::new(alloc);
    for one in always {
        holds.push(holds_of(one, rows, committed))?;
    }
    Ok(holds)
}

/// Whether an invariant holds of these rows, where these have committed.
fn holds_of(one: &Always, rows: &[(u64, u64)], committed: &[bool]) -> bool
    ensures { result ≡ all_hold (at_end rows.now committed.now) one.now.condition }
{
    one.condition.holds(&AtEnd { rows, committed })
}
