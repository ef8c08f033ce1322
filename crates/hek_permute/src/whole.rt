//! All orders of a schedule's moves, played one after another.
ghost use Rattle.std.specs.Prelude.{IfOk, OnOk};
ghost use Rattle.hek_permute.specs.Found.{Found};
ghost use Rattle.hek_permute.specs.Tallies.{IsNoted, IsPlayed};
ghost use Rattle.hek_permute.specs.Wholes.{IsWhole};

use crate::fault::OrderFault;
use crate::moves::{Form, Moves, moves_of};
use crate::number::order_at;
use crate::order::advance;
use crate::outcome::{Outcome, outcome_of};
use crate::play::play_order;
use crate::tally::Tally;
use hek_program::Rule;
use hek_rules::{Schedule, TxnId};
use std::alloc::Global;

/// Looks at each order with its outcome. No contract says what a watcher sees: tests alone show it.
pub trait Watch {
    /// `play_all` calls this for each order that it plays, in turn. After `false` it plays no more.
    fn see(&mut self, order: &[TxnId], outcome: &Outcome) -> bool;
}

/// Plays all orders of a schedule's moves with a number from `from` on and below `to`, each on a new machine. The first
/// order in a dictionary has the number 0. The first rule is that of the first step. If there are too many orders to count, none is played.
pub fn play_all<W: Watch>(
    alloc: Global,
    schedule: &Schedule,
    rules: &[Rule],
    form: Form,
    from: u64,
    to: u64,
    watch: &mut W,
) -> Result<Tally, OrderFault>
    ensures { IfOk result (IsWhole schedule.now rules.now form from to) }
{
    let moves = moves_of(alloc, schedule, rules)?;
    let mut tally = Tally::new(alloc);
    let Some(mut order) = order_at(alloc, moves.as_slice(), form, from)? else {
        return Ok(tally);
    };
    for _ in from..to {
        play_one(
            alloc,
            schedule,
            moves.as_slice(),
            form,
            order.as_slice(),
            &mut tally,
            watch,
        )?;
        if !advance(&mut order) {
            return Ok(tally);
        }
    }
    Ok(tally)
}

/// Plays an order and notes its outcome.
fn play_one<W: Watch>(
    alloc: Global,
    schedule: &Schedule,
    moves: &[Moves],
    form: Form,
    order: &[TxnId],
    tally: &mut Tally,
    watch: &mut W,
) -> Result<(), OrderFault>
    ensures { OnOk result ((o : Found) × IsPlayed schedule.now form moves.now order.now o × IsNoted tally.old tally.new o order.now) }
{
    let played = play_order(alloc, schedule, moves, form, order)?;
    let outcome = outcome_of(alloc, schedule, played)?;
    if !watch.see(order, &outcome) {
        return Err(OrderFault::Stopped);
    }
    tally.note(outcome, order)
}
