//! Schedules made of schedules: with all transactions at one level, or with other steps.
ghost use Rattle.std.specs.Prelude.{◌≡◌, ◌-◌, [], IfOk, OnOk, Some, length, slice_get};
ghost use Rattle.std.specs.List.{zip};
ghost use Rattle.hek_rules.specs.Plan.{IsDeclared, names_of};
ghost use Rattle.hek_permute.specs.Leveled.{levels_at, leveled};

use crate::fault::OrderFault;
use hek_rules::{Event, Level, Schedule, TxnId};
use std::alloc::Global;

/// The schedule with its transactions at this level, or at their own where none is given, and with these steps. Answers
/// TooLong if the steps don't fit into a schedule.
pub fn schedule_with(
    alloc: Global,
    schedule: &Schedule,
    level: Option<Level>,
    steps: &[Event],
) -> Result<Schedule, OrderFault>
    ensures { IfOk result (λ made. made ≡ leveled schedule.now level steps.now) }
{
    schedule.known();
    let mut made = Schedule::new(alloc, schedule.buckets());
    copy_rows(schedule, &mut made)?;
    copy_txns(schedule, level, &mut made)?;
    copy_steps(steps, &mut made)?;
    Ok(made)
}

fn copy_rows(schedule: &Schedule, made: &mut Schedule) -> Result<(), OrderFault>
    requires { made.old.rows ≡ [] }
    ensures { OnOk result (made.new ≡ record made.old { rows = schedule.now.rows }) }
{
    for place in 0..schedule.row_count() {
        let (key, value) = schedule.row(place);
        if !made.row_fits(key) {
            return Err(OrderFault::TooLong);
        }
        made.add_row(key, value)?;
    }
    Ok(())
}

fn copy_txns(
    schedule: &Schedule,
    level: Option<Level>,
    made: &mut Schedule,
) -> Result<(), OrderFault>
    requires { made.old.txns ≡ [] }
    ensures { OnOk result (made.new ≡ record made.old { txns = zip (names_of schedule.now) (levels_at level schedule.now) }) }
{
    for place in 0..schedule.txn_count() {
        let txn = TxnId::new(place as u64 + 1);
        let name = schedule.name_of(txn);
        let level = level_at(schedule, level, txn);
        if !made.txn_fits(name) {
            return Err(OrderFault::TooLong);
        }
        made.add_txn(name, level)?;
    }
    Ok(())
}

/// The level of a transaction, or the one that is given for all.
fn level_at(schedule: &Schedule, level: Option<Level>, txn: TxnId) -> Level
    requires { IsDeclared (length schedule.now.txns) txn }
    ensures { slice_get (levels_at level schedule.now) (txn - 1) ≡ Some result }
{
    match level {
        Some(level) => level,
        None => schedule.level_of(txn),
    }
}

fn copy_steps(steps: &[Event], made: &mut Schedule) -> Result<(), OrderFault>
    requires { made.old.steps ≡ [] }
    ensures { OnOk result (made.new ≡ record made.old { steps = steps.now }) }
{
    for step in steps {
        let tried = *step;
        let taken = *step;
        if !made.step_fits(tried) {
            return Err(OrderFault::TooLong);
        }
        made.add_step(taken)?;
    }
    Ok(())
}
