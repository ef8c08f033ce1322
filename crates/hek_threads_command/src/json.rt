//! Histories and outcomes as objects of JSON.
use crate::outcome::Outcome;
use hek_history_report::{put_members, put_short};
use hek_report::{Lines, StateText};
use hek_rules::{NoMemory, Reply, Schedule, State, TxnId};
use hek_threads::Entry;
use std::alloc::Global;

/// The object of each entry of a history.
pub(crate) fn history_lines(
    alloc: Global,
    schedule: &Schedule,
    history: &[Entry],
) -> Result<Vec<u8>, NoMemory> {
    let mut lines = Lines::new(alloc);
    let mut number = 0u64;
    for entry in history {
        number = number.saturating_add(1);
        lines.begin_step(schedule, number, &entry.event, &entry.reply);
        lines.end_line();
    }
    lines.take()
}

/// How many runs there were and how many outcomes they had.
pub(crate) fn put_heading(outcomes: usize, runs: u64, out: &mut Lines) {
    out.begin_line();
    out.put_number("runs", runs);
    out.put_number("outcomes", outcomes as u64);
    out.end_line();
}

/// The line of an outcome, and of how many runs had it.
pub(crate) fn put_seen(schedule: &Schedule, runs: u64, outcome: &Outcome, out: &mut Lines) {
    put_outcome(schedule, runs, outcome, out);
    put_members(schedule, &outcome.together, out);
    out.end_line();
}

/// The line of an outcome by which it is told from others: without who comes before whom.
pub(crate) fn put_key(schedule: &Schedule, outcome: &Outcome, out: &mut Lines) {
    put_outcome(schedule, 0, outcome, out);
    put_short(&outcome.together, out);
    out.end_line();
}

/// The members of an outcome up to the verdict.
fn put_outcome(schedule: &Schedule, runs: u64, outcome: &Outcome, out: &mut Lines) {
    out.begin_line();
    out.put_number("runs", runs);
    put_ends(schedule, outcome.ends.as_slice(), out);
    out.put_rows(outcome.rows.items());
}

/// How each transaction ended, by ID.
fn put_ends(schedule: &Schedule, ends: &[Reply], out: &mut Lines) {
    out.put_key("ends");
    out.begin_array();
    for (place, end) in ends.iter().enumerate() {
        let txn = TxnId::new((place as u64).saturating_add(1));
        out.begin_object();
        out.put_name("txn", schedule, txn);
        match end {
            Reply::Committed => out.put_text("end", "committed"),
            Reply::Aborted(cause) => out.put_shown("end", &StateText(State::Aborted(*cause))),
            _ => out.put_text("end", "unended"),
        }
        out.end_object();
    }
    out.end_array();
}
