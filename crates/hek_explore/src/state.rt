//! The state to which the first moves of an order lead.
ghost use Rattle.std.specs.Prelude.{IfOk};
ghost use Rattle.hek_explore.specs.Steps.{IsKeyAfter};

use crate::groups::Grouped;
use crate::grow::play_from;
use crate::key::Key;
use hek_permute::{Form, Moves, OrderFault};
use hek_rules::{Schedule, TxnId};
use std::alloc::Global;

/// The key of the play of these moves of a schedule, in this order. `moves` are those of all its transactions. Plays with
/// equal keys, after which each transaction has as many moves left, go on alike: the same moves lead to equal keys, and
/// in the end to one outcome.
pub fn key_after(
    alloc: Global,
    schedule: &Schedule,
    moves: &[Moves],
    form: Form,
    order: &[TxnId],
) -> Result<Key, OrderFault>
    ensures { IfOk result (IsKeyAfter schedule.now form moves.now order.now) }
{
    let grouped = Grouped::of(alloc, schedule)?;
    let (book, places) = play_from(alloc, &grouped, moves, form, order)?;
    let key = Key::of(alloc, grouped.groups(), &book, places.as_slice())?;
    Ok(key)
}
