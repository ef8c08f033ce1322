//! In which other order the committed transactions of an order's play can follow one another, or why they can't.
use crate::given::Given;
use crate::one::fault_of;
use hek_history_report::{Together, together_of};
use hek_permute::{Form, Moves, moves_of, play_order};
use hek_program::Rule;
use hek_report::HekFault;
use hek_rules::{Schedule, TxnId};
use hek_serial::Serializability;
use hek_worker::transcript_of;
use std::alloc::Global;

/// What is said of a verdict beside its word: nothing where the order of end times is serial.
pub(crate) fn details_of<'a>(
    alloc: Global,
    given: &Given<'_>,
    form: Form,
    order: &[TxnId],
    verdict: Serializability,
) -> Result<Together, HekFault<'a>> {
    let schedule = given.schedule;
    let rules = given.rules;
    if verdict == Serializability::ByEndTime {
        return Ok(Together::ByEndTime);
    }
    together_by_rules(alloc, schedule, rules, form, order)
}

/// Whether the committed transactions of an order's play can follow one another, by the rules of the steps.
fn together_by_rules<'a>(
    alloc: Global,
    schedule: &Schedule,
    rules: &[Rule],
    form: Form,
    order: &[TxnId],
) -> Result<Together, HekFault<'a>> {
    let moves = moves_of(alloc, schedule, rules)?;
    together_in_play(alloc, schedule, moves.as_slice(), form, order)
}

/// Whether the committed transactions of an order's play can follow one another.
pub(crate) fn together_in_play<'a>(
    alloc: Global,
    schedule: &Schedule,
    moves: &[Moves],
    form: Form,
    order: &[TxnId],
) -> Result<Together, HekFault<'a>> {
    match play_order(alloc, schedule, moves, form, order) {
        Ok(play) => {
            let told = transcript_of(alloc, schedule, play.history)?;
            Ok(together_of(alloc, schedule, &told)?)
        }
        Err(fault) => Err(fault_of(fault)),
    }
}
