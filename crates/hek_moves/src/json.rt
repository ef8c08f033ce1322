//! Moves as objects of JSON.
use crate::after::After;
use crate::moves::{Hold, Holder, Kind, Move, Moves};
use crate::say::{key_of, say, value_of};
use crate::sentence::Sentence;
use crate::text::line_of;
use hek_program::Always;
use hek_report::Lines;
use hek_rules::{Event, Schedule, TxnId};
use std::alloc::Global;

/// Puts the member `moves`, an array with an object for each move, and the member `always`: whether each invariant holds of the opening
/// rows. `lines` has the line in the text of each of its steps.
pub fn put_moves(
    alloc: Global,
    schedule: &Schedule,
    moves: &Moves,
    lines: &[u64],
    always: &[Always],
    out: &mut Lines,
) {
    put_always(always, moves.opening(), out);
    out.put_key("moves");
    out.begin_array();
    for (place, made) in moves.items().iter().enumerate() {
        out.begin_object();
        put_move(schedule, made, lines, out);
        put_details(schedule, moves, made, out);
        put_steps(moves, place, out);
        put_ends(moves, place, out);
        put_after(moves, place, always, out);
        put_words(alloc, schedule, moves, made, lines, out);
        out.end_object();
    }
    out.end_array();
}

/// What a move is called.
fn word(kind: &Kind) -> &'static str {
    match kind {
        Kind::Begins => "begin",
        Kind::Reads(_, _) => "read",
        Kind::Scans(_) => "scan",
        Kind::Writes(_) => "write",
        Kind::Misses => "miss",
        Kind::Skips => "skip",
        Kind::Waits(_) => "wait",
        Kind::Precommits(_) => "precommit",
        Kind::Commits => "commit",
        Kind::Aborts(_) => "abort",
        Kind::Refused(_) => "refused",
        Kind::Idles => "idle",
    }
}

/// Who moves, what it does, and the line of the text.
fn put_move(schedule: &Schedule, made: &Move, lines: &[u64], out: &mut Lines) {
    out.put_name("txn", schedule, made.txn);
    out.put_text("kind", word(&made.kind));
    put_event(made, out);
    if let Some(line) = line_of(made, lines) {
        out.put_number("line", line);
    }
}

/// The operation of a read or a write, with its key and the value that it writes; what was left out has none.
fn put_event(made: &Move, out: &mut Lines) {
    let place = match made.event {
        Event::Scan(_, _) => "bucket",
        Event::Read(_, _) | Event::Insert(_, _, _) | Event::Update(_, _, _) | Event::Delete(_, _) =>
            "key",
        _ => return,
    };
    out.put_text("op", made.event.kind().word());
    out.put_number(place, key_of(made.event));
    match value_of(made.event) {
        Some(value) if !matches!(made.kind, Kind::Skips) => out.put_number("value", value),
        _ => {}
    }
}

/// What a kind has beside its word.
fn put_details(schedule: &Schedule, moves: &Moves, made: &Move, out: &mut Lines) {
    match &made.kind {
        Kind::Reads(value, writer) => put_read(schedule, moves, *value, *writer, out),
        Kind::Scans(rows) => out.put_rows(rows.items()),
        Kind::Waits(holders) => put_holders(schedule, holders.as_slice(), out),
        Kind::Precommits(time) => out.put_time("time", *time),
        Kind::Aborts(cause) => out.put_text("cause", cause.word()),
        Kind::Refused(refusal) => out.put_text("refusal", refusal.name()),
        _ => {}
    }
}

/// The value that a read found, and who wrote it: its transaction, and the number of its move.
fn put_read(
    schedule: &Schedule,
    moves: &Moves,
    value: Option<u64>,
    writer: Option<usize>,
    out: &mut Lines,
) {
    out.put_maybe("value", value);
    match writer {
        Some(place) => put_writer(schedule, moves, place, out),
        None => out.put_null("writer"),
    }
}

fn put_writer(schedule: &Schedule, moves: &Moves, place: usize, out: &mut Lines) {
    out.put_key("writer");
    out.begin_object();
    if let Some(it) = moves.items().get(place) {
        out.put_name("txn", schedule, it.txn);
    }
    put_place("move", place, out);
    out.end_object();
}

/// The number of a move, from 1.
fn put_place(name: &str, place: usize, out: &mut Lines) {
    out.put_number(name, (place as u64).saturating_add(1));
}

fn put_holders(schedule: &Schedule, holders: &[Holder], out: &mut Lines) {
    out.put_key("for");
    out.begin_array();
    for holder in holders {
        out.begin_object();
        out.put_name("txn", schedule, holder.txn);
        match holder.hold {
            Hold::Read(key) => out.put_number("key", key),
            Hold::Looked => out.put_flag("looked", true),
            Hold::Uncommitted => out.put_flag("uncommitted", true),
        }
        out.end_object();
    }
    out.end_array();
}

/// The numbers of a move's steps.
fn put_steps(moves: &Moves, place: usize, out: &mut Lines) {
    out.put_key("steps");
    out.begin_array();
    for (step, at) in moves.of_step().iter().enumerate() {
        if *at == place {
            out.write_number((step as u64).saturating_add(1));
        }
    }
    out.end_array();
}

/// The numbers of the waits that a move's steps ended.
fn put_ends(moves: &Moves, place: usize, out: &mut Lines) {
    out.put_key("ends");
    out.begin_array();
    for end in moves.ends() {
        if end.by == place {
            out.write_number((end.wait as u64).saturating_add(1));
        }
    }
    out.end_array();
}

/// The committed rows after a move that changed them, or what has committed, and whether each invariant holds.
fn put_after(moves: &Moves, place: usize, always: &[Always], out: &mut Lines) {
    for past in moves.past() {
        put_if_made(past, place, always, out);
    }
    put_if_made(moves.now(), place, always, out);
}

fn put_if_made(after: &After, place: usize, always: &[Always], out: &mut Lines) {
    if after.made_by == Some(place) {
        put_committed(after.rows.items(), out);
        put_always(always, after, out);
    }
}

fn put_committed(rows: &[(u64, u64)], out: &mut Lines) {
    out.put_key("committed");
    out.begin_array();
    for (key, value) in rows {
        out.begin_array();
        out.write_number(*key);
        out.write_number(*value);
        out.end_array();
    }
    out.end_array();
}

/// Of each invariant its line, and whether it holds.
fn put_always(always: &[Always], after: &After, out: &mut Lines) {
    out.put_key("always");
    out.begin_array();
    for (one, holds) in always.iter().zip(after.holds.iter()) {
        out.begin_object();
        out.put_number("line", one.line);
        out.put_flag("holds", *holds);
        out.end_object();
    }
    out.end_array();
}

/// What is said of a move, and why it is so. Names of transactions stand in braces.
fn put_words(
    alloc: Global,
    schedule: &Schedule,
    moves: &Moves,
    made: &Move,
    lines: &[u64],
    out: &mut Lines,
) {
    let mut said = Vec::new(alloc);
    let mut words = Sentence::new(schedule, &mut said);
    say(made, moves, line_of(made, lines), &mut words);
    match words.text.done() {
        Ok(()) => out.put_bytes("say", said.as_slice()),
        Err(_) => out.lack_memory(),
    }
    out.put_bytes("why", made.why.as_slice());
}
