//! Plays as objects of JSON: one order, move by move.
use crate::given::Given;
use crate::one::{fault_of, leveled};
use crate::origin::{Sources, sources_of};
use hek_history_report::{Together, put_members, together_of};
use hek_moves::{Moves as Told, Origin, moves_of as told_of, put_moves, serial_order};
use hek_permute::{Form, Moves, Play, moves_of, play_order};
use hek_report::{HekFault, Lines};
use hek_rules::{Event, Level, NoMemory, Schedule, TxnId};
use std::alloc::Global;

/// What is told of a play: the schedule of its events, its moves, the order and the level that were asked for, and the line in the text of each of
/// its steps.
#[derive(Clone, Copy)]
struct Telling<'a> {
    schedule: &'a Schedule,
    told: &'a Told,
    order: &'a [TxnId],
    level: Option<Level>,
    lines: &'a [u64],
}

/// A play: the schedule of its events, and where these come from.
#[derive(Drop)]
pub(crate) struct Played {
    pub(crate) schedule: Schedule,
    pub(crate) sources: Sources,
}

/// The play of an order of the moves of what is given.
pub(crate) fn played_in<'a>(
    alloc: Global,
    given: &Given<'_>,
    form: Form,
    order: &[TxnId],
) -> Result<Played, HekFault<'a>> {
    let moves = moves_of(alloc, given.schedule, given.rules)?;
    match play_order(alloc, given.schedule, moves.as_slice(), form, order) {
        Ok(play) => schedule_of(alloc, given, moves.as_slice(), &play),
        Err(fault) => Err(fault_of(fault)),
    }
}

fn schedule_of<'a>(
    alloc: Global,
    given: &Given<'_>,
    moves: &[Moves],
    play: &Play,
) -> Result<Played, HekFault<'a>> {
    let history = play.history.as_slice();
    let events = events_in(alloc, play)?;
    Ok(Played {
        schedule: leveled(alloc, given.schedule, None, events.as_slice())?,
        sources: sources_of(alloc, given, moves, history)?,
    })
}

fn events_in(alloc: Global, play: &Play) -> Result<Vec<Event>, NoMemory> {
    let mut events = Vec::new(alloc);
    for entry in play.history.as_slice() {
        events.push(entry.event)?;
    }
    Ok(events)
}

/// The moves of a play.
pub(crate) fn told_in(alloc: Global, given: &Given<'_>, played: &Played) -> Result<Told, NoMemory> {
    let origin = Origin {
        makes: played.sources.makes.as_slice(),
        skips: played.sources.skips.as_slice(),
        unwritten: played.sources.unwritten.as_slice(),
    };
    told_of(alloc, &played.schedule, origin, given.always())
}

/// Puts the play of an order at each level.
pub(crate) fn put_at_levels<'a>(
    alloc: Global,
    given: &Given<'_>,
    form: Form,
    order: &[TxnId],
    lines: &[u64],
    out: &mut Lines,
) -> Result<(), HekFault<'a>> {
    for level in Level::ALL {
        put_order_play(alloc, given, form, order, Some(level), lines, out)?;
    }
    Ok(())
}

/// Puts the object of the play of an order at a level, or at the levels of what is given.
pub(crate) fn put_order_play<'a>(
    alloc: Global,
    given: &Given<'_>,
    form: Form,
    order: &[TxnId],
    level: Option<Level>,
    lines: &[u64],
    out: &mut Lines,
) -> Result<(), HekFault<'a>> {
    let at_level = leveled(alloc, given.schedule, level, given.schedule.steps())?;
    put_leveled_play(
        alloc,
        &given.over(&at_level),
        form,
        order,
        level,
        lines,
        out,
    )
}

fn put_leveled_play<'a>(
    alloc: Global,
    given: &Given<'_>,
    form: Form,
    order: &[TxnId],
    level: Option<Level>,
    lines: &[u64],
    out: &mut Lines,
) -> Result<(), HekFault<'a>> {
    let played = played_in(alloc, given, form, order)?;
    put_told(alloc, given, &played, order, level, lines, out)?;
    Ok(())
}

/// Puts the object of what was played: of an order, at a level if one was asked for.
pub(crate) fn put_told(
    alloc: Global,
    given: &Given<'_>,
    played: &Played,
    order: &[TxnId],
    level: Option<Level>,
    lines: &[u64],
    out: &mut Lines,
) -> Result<(), NoMemory> {
    let told = told_in(alloc, given, played)?;
    let telling = Telling {
        schedule: &played.schedule,
        told: &told,
        order,
        level,
        lines,
    };
    put_play(alloc, given, telling, out)
}

/// Puts the object of a play.
fn put_play(
    alloc: Global,
    given: &Given<'_>,
    telling: Telling<'_>,
    out: &mut Lines,
) -> Result<(), NoMemory> {
    let Telling {
        schedule,
        told,
        order,
        level,
        lines,
    } = telling;
    let together = together_of(alloc, schedule, told.transcript())?;
    out.begin_line();
    out.put_text("kind", "play");
    put_level(level, out);
    put_schedule(schedule, out);
    out.put_names("order", schedule, order);
    put_moves(alloc, schedule, told, lines, given.always(), out);
    put_together(alloc, schedule, told, &together, out)?;
    if let Some(line) = told.broken(given.always()) {
        out.put_number("breaks", line);
    }
    out.end_line();
    Ok(())
}

fn put_level(level: Option<Level>, out: &mut Lines) {
    match level {
        Some(level) => out.put_text("level", level.word()),
        None => out.put_null("level"),
    }
}

/// The names and the levels of the transactions, and the opening rows.
fn put_schedule(schedule: &Schedule, out: &mut Lines) {
    out.put_key("names");
    out.begin_array();
    for place in 0..schedule.txn_count() {
        out.write_text(schedule.name_of(TxnId::new(place as u64 + 1)));
    }
    out.end_array();
    out.put_key("levels");
    out.begin_array();
    for place in 0..schedule.txn_count() {
        out.write_text(schedule.level_of(TxnId::new(place as u64 + 1)).word());
    }
    out.end_array();
    out.put_key("rows");
    out.begin_array();
    for place in 0..schedule.row_count() {
        let (key, value) = schedule.row(place);
        out.begin_array();
        out.write_number(key);
        out.write_number(value);
        out.end_array();
    }
    out.end_array();
}

/// The verdict: with the order of end times where the committed transactions follow one another in it.
fn put_together(
    alloc: Global,
    schedule: &Schedule,
    told: &Told,
    together: &Together,
    out: &mut Lines,
) -> Result<(), NoMemory> {
    out.put_key("together");
    out.begin_object();
    put_members(schedule, together, out);
    if let Together::ByEndTime = together {
        let order = serial_order(alloc, told)?;
        out.put_names("order", schedule, order.as_slice());
    }
    out.end_object();
    Ok(())
}
