//! Orders and outcomes as text.
use crate::counts::{count_of, is_first, orders_of};
use crate::details::details_of;
use crate::find::Found;
use crate::given::Given;
use crate::one::Played;
use hek_asm::canonical;
use hek_history_report::{Together, put_details, put_phrase, verdict_word};
use hek_permute::{Ending, Form, Outcome, Row, Tally};
use hek_report::{HekFault, Hole, Printing, Text};
use hek_rules::{Level, NoMemory, Schedule, TxnId};
use hek_run_command::put_run;
use hek_step_report::Extras;
use std::alloc::Global;

/// An outcome: how each transaction ended, the rows and the verdict, as a line of `hek permute` has them.
fn put_outcome(schedule: &Schedule, outcome: &Outcome, text: &mut Text<'_>) {
    for (place, end) in outcome.ends().iter().enumerate() {
        let txn = TxnId::new((place as u64).saturating_add(1));
        put_end(Hole::txn(schedule, txn), *end, text);
    }
    text.put("rows");
    for (key, value) in outcome.rows().items() {
        text.form(" @=@", &[Hole::Number(*key), Hole::Number(*value)]);
    }
    text.form("; @", &[Hole::Word(verdict_word(outcome.verdict()))]);
}

fn put_end(name: Hole<'_>, end: Ending, text: &mut Text<'_>) {
    match end {
        Ending::Committed => text.form("@ committed; ", &[name]),
        Ending::Aborted(cause) => text.form("@ aborted @; ", &[name, Hole::Word(cause.word())]),
        Ending::Unended => text.form("@ unended; ", &[name]),
    }
}

/// An order: the names, with one space between them.
fn put_names(schedule: &Schedule, order: &[TxnId], text: &mut Text<'_>) {
    for (place, txn) in order.iter().enumerate() {
        let pattern = if place > 0 { " @" } else { "@" };
        text.form(pattern, &[Hole::txn(schedule, *txn)]);
    }
}

/// The line of an order with its outcome.
pub(crate) fn put_order(
    alloc: Global,
    given: &Given<'_>,
    order: &[TxnId],
    outcome: &Outcome,
    lines: &mut Vec<u8>,
) -> Result<(), NoMemory> {
    let mut text = Text::after(lines);
    put_names(given.schedule, order, &mut text);
    text.put(" -> ");
    put_judged(alloc, given, outcome, &mut text)?;
    text.put(if outcome.waited() { "; waited\n" } else { "\n" });
    text.done()
}

/// An outcome, and the line of the first invariant that it breaks.
fn put_judged(
    alloc: Global,
    given: &Given<'_>,
    outcome: &Outcome,
    text: &mut Text<'_>,
) -> Result<(), NoMemory> {
    put_outcome(given.schedule, outcome, text);
    if let Some(line) = given.broken_by(alloc, outcome)? {
        put_broken(line, text);
    }
    Ok(())
}

fn put_broken(line: u64, text: &mut Text<'_>) {
    text.form("; breaks line @", &[Hole::Number(line)]);
}

/// A line with the number of orders, and a line for each outcome.
pub(crate) fn put_tally<'a>(
    alloc: Global,
    given: &Given<'_>,
    form: Form,
    tally: &Tally,
    lines: &mut Vec<u8>,
) -> Result<(), HekFault<'a>> {
    let mut text = Text::after(lines);
    text.form(
        "orders @ outcomes @\n",
        &[
            Hole::Number(orders_of(tally)),
            Hole::Number(tally.rows().len() as u64),
        ],
    );
    for row in tally.rows() {
        let verdict = row.outcome().verdict();
        let details = details_of(alloc, given, form, row.first(), verdict)?;
        put_row(alloc, given, row, &details, &mut text)?;
    }
    text.done()?;
    Ok(())
}

/// A row of the tally, with what is said of the verdict of its first order.
fn put_row(
    alloc: Global,
    given: &Given<'_>,
    row: &Row,
    details: &Together,
    text: &mut Text<'_>,
) -> Result<(), NoMemory> {
    text.form("@ ", &[Hole::Number(row.orders())]);
    put_judged(alloc, given, row.outcome(), text)?;
    text.form("; waited @; first ", &[Hole::Number(row.waited())]);
    put_names(given.schedule, row.first(), text);
    put_details(given.schedule, details, text);
    text.put("\n");
    Ok(())
}

/// A line of the levels, and a line for each outcome: how many orders have it at each level, and the outcome. There is
/// one tally for each level, in the order of the levels.
pub(crate) fn put_levels(
    alloc: Global,
    given: &Given<'_>,
    tallies: &[Tally],
    lines: &mut Vec<u8>,
) -> Result<(), NoMemory> {
    let mut text = Text::after(lines);
    put_level_words(&mut text);
    for (column, tally) in tallies.iter().enumerate() {
        for row in tally.rows() {
            if is_first(tallies, column, row.outcome()) {
                put_counts(tallies, row.outcome(), &mut text);
                put_judged(alloc, given, row.outcome(), &mut text)?;
                text.put("\n");
            }
        }
    }
    text.done()
}

fn put_level_words(text: &mut Text<'_>) {
    for (place, level) in Level::ALL.iter().enumerate() {
        let pattern = if place > 0 { " @" } else { "@" };
        text.form(pattern, &[Hole::Word(level.word())]);
    }
    text.put("\n");
}

fn put_counts(tallies: &[Tally], outcome: &Outcome, text: &mut Text<'_>) {
    for tally in tallies {
        text.form("@ ", &[Hole::Number(count_of(tally, outcome))]);
    }
}

/// The schedule whose steps are the events of one order.
pub(crate) fn put_played(
    alloc: Global,
    played: &Played,
    text: &mut Vec<u8>,
) -> Result<(), NoMemory> {
    let schedule = canonical(alloc, &played.schedule)?;
    text.extend_from_slice(schedule.as_bytes())?;
    Ok(())
}

/// `none of N orders`.
pub(crate) fn put_none(orders: u64, lines: &mut Vec<u8>) -> Result<(), NoMemory> {
    let mut text = Text::after(lines);
    text.form("none of @ orders\n", &[Hole::Number(orders)]);
    text.done()
}

/// A comment with the moves, `# after M of N moves: NAMES`, and the schedule of their play. If a reply was looked for, its
/// line of the trace and its reasons are before the last step, as comments; if a verdict was, it is after the moves.
pub(crate) fn put_found(alloc: Global, found: &Found, text: &mut Vec<u8>) -> Result<(), NoMemory> {
    let played = &found.played;
    put_heading(played, text)?;
    put_together(found, text)?;
    let schedule = canonical(alloc, &played.schedule)?;
    let (front, last) = at_last_step(schedule.as_bytes());
    text.extend_from_slice(front)?;
    if found.together.is_none() {
        put_reasons(alloc, &played.schedule, text)?;
    }
    text.extend_from_slice(last)?;
    Ok(())
}

fn put_heading(played: &Played, lines: &mut Vec<u8>) -> Result<(), NoMemory> {
    let mut text = Text::after(lines);
    let (made, most) = (played.moves.len() as u64, played.most as u64);
    text.form(
        "# after @ of @ moves: ",
        &[Hole::Number(made), Hole::Number(most)],
    );
    put_names(&played.schedule, played.moves.as_slice(), &mut text);
    text.put("\n");
    text.done()
}

/// The verdict on what was found, as a comment, if a verdict was looked for.
fn put_together(found: &Found, lines: &mut Vec<u8>) -> Result<(), NoMemory> {
    let Some(together) = &found.together else {
        return Ok(());
    };
    let mut text = Text::after(lines);
    text.put("# ");
    put_phrase(&found.played.schedule, together, &mut text);
    if let Some(line) = found.breaks {
        put_broken(line, &mut text);
    }
    text.put("\n");
    text.done()
}

/// The last step of a schedule's trace with its reasons, as comments.
fn put_reasons(alloc: Global, schedule: &Schedule, text: &mut Vec<u8>) -> Result<(), NoMemory> {
    let mut trace = Vec::new(alloc);
    put_run(alloc, schedule, Extras::REASONS, Printing::Text, &mut trace)?;
    let (_, last) = at_last_step(trace.as_slice());
    put_comments(last, text)
}

/// Lines as comments.
fn put_comments(lines: &[u8], text: &mut Vec<u8>) -> Result<(), NoMemory> {
    let mut is_start = true;
    for byte in lines {
        if is_start {
            text.extend_from_slice(b"# ")?;
        }
        text.push(*byte)?;
        is_start = *byte == b'\n';
    }
    Ok(())
}

/// A text before and from its last line that doesn't begin with a space.
fn at_last_step(text: &[u8]) -> (&[u8], &[u8]) {
    let mut last = 0;
    let mut is_start = true;
    for (place, byte) in text.iter().enumerate() {
        if is_start && *byte != b' ' {
            last = place;
        }
        is_start = *byte == b'\n';
    }
    text.split_at(last.min(text.len()))
}
