//! Orders and outcomes as objects of JSON.
use crate::counts::{count_of, first_of, is_first, orders_of};
use crate::details::details_of;
use crate::find::Found;
use crate::given::Given;
use crate::one::Played;
use hek_history_report::{Together, put_members, put_verdict};
use hek_permute::{Ending, Form, Outcome, Row, Tally};
use hek_report::{HekFault, Lines, Printing, StateText};
use hek_rules::{Level, NoMemory, Schedule, State, TxnId};
use hek_run_command::put_run;
use hek_step_report::Extras;
use std::alloc::Global;

/// How each transaction ended, and the rows.
fn put_outcome(schedule: &Schedule, outcome: &Outcome, out: &mut Lines) {
    put_ends(schedule, outcome.ends(), out);
    out.put_rows(outcome.rows().items());
}

/// How each transaction ended, the rows, the word of the verdict, and the line of the first invariant that the outcome breaks.
pub fn put_judged(
    alloc: Global,
    given: &Given<'_>,
    outcome: &Outcome,
    out: &mut Lines,
) -> Result<(), NoMemory> {
    put_outcome(given.schedule, outcome, out);
    put_verdict(outcome.verdict(), out);
    put_broken(given.broken_by(alloc, outcome)?, out);
    Ok(())
}

/// How each transaction ended, by ID.
fn put_ends(schedule: &Schedule, ends: &[Ending], out: &mut Lines) {
    out.put_key("ends");
    out.begin_array();
    for (place, end) in ends.iter().enumerate() {
        let txn = TxnId::new((place as u64).saturating_add(1));
        out.begin_object();
        out.put_name("txn", schedule, txn);
        match *end {
            Ending::Committed => out.put_text("end", "committed"),
            Ending::Aborted(cause) => out.put_shown("end", &StateText(State::Aborted(cause))),
            Ending::Unended => out.put_text("end", "unended"),
        }
        out.end_object();
    }
    out.end_array();
}

/// The lines of a tally: how many orders were played and how many outcomes they have, then each row.
pub(crate) fn put_tally<'a>(
    alloc: Global,
    given: &Given<'_>,
    form: Form,
    tally: &Tally,
    out: &mut Lines,
) -> Result<(), HekFault<'a>> {
    out.begin_line();
    out.put_number("orders", orders_of(tally));
    out.put_number("outcomes", tally.rows().len() as u64);
    out.end_line();
    for row in tally.rows() {
        let verdict = row.outcome().verdict();
        let details = details_of(alloc, given, form, row.first(), verdict)?;
        put_row(alloc, given, row, &details, out)?;
    }
    Ok(())
}

/// A row of the tally, with what is said of the verdict of its first order.
fn put_row(
    alloc: Global,
    given: &Given<'_>,
    row: &Row,
    details: &Together,
    out: &mut Lines,
) -> Result<(), NoMemory> {
    out.begin_line();
    out.put_number("orders", row.orders());
    put_outcome(given.schedule, row.outcome(), out);
    put_members(given.schedule, details, out);
    put_broken(given.broken_by(alloc, row.outcome())?, out);
    out.put_number("waited", row.waited());
    out.put_names("first", given.schedule, row.first());
    out.end_line();
    Ok(())
}

/// The line of the first invariant that an outcome breaks, if there is one.
fn put_broken(breaks: Option<u64>, out: &mut Lines) {
    if let Some(line) = breaks {
        out.put_number("breaks", line);
    }
}

/// The line of an order with its outcome.
pub(crate) fn put_order(
    alloc: Global,
    given: &Given<'_>,
    order: &[TxnId],
    outcome: &Outcome,
    out: &mut Lines,
) -> Result<(), NoMemory> {
    out.begin_line();
    out.put_names("order", given.schedule, order);
    put_judged(alloc, given, outcome, out)?;
    out.put_flag("waited", outcome.waited());
    out.end_line();
    Ok(())
}

/// Each outcome, with the number of orders that have it at each level. There is one tally for each level, in the order of
/// the levels.
pub(crate) fn put_levels(
    alloc: Global,
    given: &Given<'_>,
    tallies: &[Tally],
    out: &mut Lines,
) -> Result<(), NoMemory> {
    for (column, tally) in tallies.iter().enumerate() {
        for row in tally.rows() {
            if is_first(tallies, column, row.outcome()) {
                put_leveled(alloc, given, tallies, row.outcome(), out)?;
            }
        }
    }
    Ok(())
}

/// The line of an outcome, with the number of orders that have it at each level.
fn put_leveled(
    alloc: Global,
    given: &Given<'_>,
    tallies: &[Tally],
    outcome: &Outcome,
    out: &mut Lines,
) -> Result<(), NoMemory> {
    out.begin_line();
    out.put_key("levels");
    out.begin_object();
    for (tally, level) in tallies.iter().zip(Level::ALL.iter()) {
        out.put_number((*level).word(), count_of(tally, outcome));
    }
    out.end_object();
    put_judged(alloc, given, outcome, out)?;
    put_firsts(given.schedule, tallies, outcome, out);
    out.end_line();
    Ok(())
}

/// For each level the first order that has an outcome, or null.
fn put_firsts(schedule: &Schedule, tallies: &[Tally], outcome: &Outcome, out: &mut Lines) {
    out.put_key("first");
    out.begin_object();
    for (tally, level) in tallies.iter().zip(Level::ALL.iter()) {
        match first_of(tally, outcome) {
            Some(order) => out.put_names((*level).word(), schedule, order),
            None => out.put_null((*level).word()),
        }
    }
    out.end_object();
}

/// The moves of an order, and the steps of their play.
pub(crate) fn put_played(
    alloc: Global,
    played: &Played,
    lines: &mut Vec<u8>,
) -> Result<(), NoMemory> {
    let mut objects = Lines::after(alloc, lines);
    objects.begin_line();
    objects.put_names("moves", &played.schedule, played.moves.as_slice());
    objects.put_number("of", played.most as u64);
    objects.end_line();
    objects.put_back(lines)?;
    put_run(alloc, &played.schedule, Extras::NONE, Printing::Json, lines)
}

/// The moves of the beginning that was found, with the verdict if one was looked for, and the steps of their play with the
/// reasons of the last one.
pub(crate) fn put_found(alloc: Global, found: &Found, lines: &mut Vec<u8>) -> Result<(), NoMemory> {
    let played = &found.played;
    let mut objects = Lines::after(alloc, lines);
    objects.begin_line();
    objects.put_names("moves", &played.schedule, played.moves.as_slice());
    objects.put_number("of", played.most as u64);
    if let Some(together) = &found.together {
        put_members(&played.schedule, together, &mut objects);
    }
    if let Some(line) = found.breaks {
        objects.put_number("breaks", line);
    }
    objects.end_line();
    objects.put_back(lines)?;
    put_run(
        alloc,
        &played.schedule,
        Extras::REASONS,
        Printing::Json,
        lines,
    )
}

/// The line that says that none of these orders has what was looked for.
pub(crate) fn put_none(orders: u64, out: &mut Lines) {
    out.begin_line();
    out.put_null("moves");
    out.put_number("orders", orders);
    out.end_line();
}
