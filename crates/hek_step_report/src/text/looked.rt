//! What a transaction saw of a version, and why: both words, and the states of the transactions that they name.
use crate::looks::looks_at;
use hek_machine::Machine;
use hek_report::{Hole, Text};
use hek_rules::{BeginRecord, Schedule, Sight, State, Time, TxnId, VersionId};
use hek_word::EndWord;

/// `version 0 is seen at 3: made at 0, held by nobody (0000000000000000, 807FFFFFFFFFFFFF)`.
pub(crate) fn put_looked(
    schedule: &Schedule,
    machine: &Machine,
    t: TxnId,
    v: VersionId,
    sight: Sight,
    text: &mut Text<'_>,
) {
    let (Some(begin), Some(end)) = (machine.begin_word(v), machine.end_word(v)) else {
        return;
    };
    put_sight(schedule, v, sight, text);
    text.form(" at @: ", &[Hole::Number(looks_at(machine, t).number())]);
    put_made(schedule, machine, t, begin.content(), text);
    text.put(", ");
    put_ended(schedule, machine, t, end, text);
    text.form(
        " (@, @)",
        &[Hole::Bits(begin.bits()), Hole::Bits(end.bits())],
    );
}

fn put_sight(schedule: &Schedule, v: VersionId, sight: Sight, text: &mut Text<'_>) {
    text.form("version @ is ", &[Hole::Number(v.index())]);
    match sight {
        Sight::Seen => text.put("seen"),
        Sight::Hidden | Sight::HiddenActive(_) => text.put("passed over"),
        Sight::SeenIf(u) => text.form("seen if @ commits", &[Hole::txn(schedule, u)]),
        Sight::HiddenIf(u) => text.form("passed over if @ commits", &[Hole::txn(schedule, u)]),
    }
}

fn put_made(
    schedule: &Schedule,
    machine: &Machine,
    t: TxnId,
    begin: BeginRecord,
    text: &mut Text<'_>,
) {
    match begin {
        BeginRecord::At(time) => put_time("never made", "made at @", time, text),
        BeginRecord::By(u) => {
            text.form("made by @", &[Hole::txn(schedule, u)]);
            put_party(machine, t, u, text);
        }
    }
}

/// A time, or what is said in place of infinity.
fn put_time(never: &str, pattern: &str, time: Time, text: &mut Text<'_>) {
    match time.number() {
        Time::INFINITY => text.put(never),
        ticks => text.form(pattern, &[Hole::Number(ticks)]),
    }
}

fn put_ended(schedule: &Schedule, machine: &Machine, t: TxnId, end: EndWord, text: &mut Text<'_>) {
    if let Some(u) = end.writer() {
        text.form("written over by @", &[Hole::txn(schedule, u)]);
        return put_party(machine, t, u, text);
    }
    match end.time() {
        Some(time) => put_time("not written over", "ended at @", time, text),
        None => text.put("not written over"),
    }
}

/// What is said of the transaction that a word names: its state, or `itself` if it is the one that looks.
fn put_party(machine: &Machine, t: TxnId, u: TxnId, text: &mut Text<'_>) {
    if u == t {
        return text.put(" itself");
    }
    if !machine.is_declared(u) {
        return;
    }
    let end = Hole::Number(machine.end_time(u).number());
    match machine.state(u) {
        State::Preparing => text.form(" (preparing, end @)", &[end]),
        State::Committed => text.form(" (committed, end @)", &[end]),
        State::Aborted(_) => text.put(" (aborted)"),
        _ => text.put(" (active)"),
    }
}
