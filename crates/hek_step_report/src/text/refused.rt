//! Why an event was refused.
use crate::phase::phase_text;
use hek_report::{Hole, StateText, Text};
use hek_rules::{Refusal, Schedule, State, TxnId};
use hek_why::Phase;

/// The state of the transaction, and the phase that the event wants.
pub(crate) fn put_refused(
    schedule: &Schedule,
    t: TxnId,
    refusal: Refusal,
    phase: Phase,
    state: State,
    finished: bool,
    text: &mut Text<'_>,
) {
    if refusal == Refusal::ClockFull {
        return text.put("no time is left to draw");
    }
    let name = Hole::txn(schedule, t);
    if refusal == Refusal::UnknownTxn {
        return text.form("@ is not declared", &[name]);
    }
    text.form("@ is ", &[name]);
    text.show(&StateText(state));
    let more = match (state, finished) {
        (State::Active, true) => " and finished",
        (State::Active, false) => " and not finished",
        _ => "",
    };
    text.form(
        "@, and the event is for one that is @",
        &[Hole::Word(more), Hole::Word(phase_text(phase))],
    );
}
