//! Where a transaction was stopped, and by what.
use hek_machine::Machine;
use hek_report::{Hole, Text};
use hek_rules::{Cause, Schedule, State, TxnId, VersionId};
use hek_why::Met;

/// A stop at a version: what the transaction met there, and the word that says so.
pub(crate) fn put_stopped(
    schedule: &Schedule,
    machine: &Machine,
    t: TxnId,
    v: VersionId,
    cause: Cause,
    met: Met,
    text: &mut Text<'_>,
) {
    match met {
        Met::Writer(u) => {
            put_version("@ writes over version @", Hole::txn(schedule, u), v, text);
            text.put(writer_words(cause));
            put_end_word(machine, v, text);
        }
        Met::Creator(u) => {
            put_version("@ made version @", Hole::txn(schedule, u), v, text);
            put_creator(machine, cause, u, text);
            put_begin_word(machine, v, text);
        }
        Met::Readers(count) => {
            text.form("version @ has @ readers", &[v.index(), u64::from(count)]);
            put_end_word(machine, v, text);
        }
        Met::EndedAt(time) => {
            let numbers = [v.index(), time.number()];
            text.form("version @ was written over, at @", &numbers);
            put_end_word(machine, v, text);
        }
        Met::MadeAt(time) => {
            let numbers = [v.index(), time.number()];
            text.form("version @ of the key was made at @, after ", &numbers);
            text.form("@ began", &[Hole::txn(schedule, t)]);
            put_begin_word(machine, v, text);
        }
    }
}

/// A pattern with a name and a version.
fn put_version(pattern: &str, name: Hole<'_>, v: VersionId, text: &mut Text<'_>) {
    text.form(pattern, &[name, Hole::Number(v.index())]);
}

/// What the cause says of the writer of a version.
fn writer_words(cause: Cause) -> &'static str {
    match cause {
        Cause::NoMoreReads => ", which takes no more readers",
        Cause::NoMoreWaits => ", and has finished",
        _ => "",
    }
}

/// What is said of the transaction that made the version. For an active one it is what the cause rests on: that it has
/// finished, or that it is active.
fn put_creator(machine: &Machine, cause: Cause, u: TxnId, text: &mut Text<'_>) {
    if !machine.is_declared(u) {
        return;
    }
    let end = Hole::Number(machine.end_time(u).number());
    match (machine.state(u), cause) {
        (State::Active, Cause::NoMoreWaits) => text.put(", and has finished"),
        (State::Active, _) => text.put(", and is active"),
        _ => text.form(", and has end time @", &[end]),
    }
}

/// The End word of a version, in parentheses.
pub(crate) fn put_end_word(machine: &Machine, v: VersionId, text: &mut Text<'_>) {
    if let Some(word) = machine.end_word(v) {
        text.form(" (@)", &[Hole::Bits(word.bits())]);
    }
}

fn put_begin_word(machine: &Machine, v: VersionId, text: &mut Text<'_>) {
    if let Some(word) = machine.begin_word(v) {
        text.form(" (@)", &[Hole::Bits(word.bits())]);
    }
}
