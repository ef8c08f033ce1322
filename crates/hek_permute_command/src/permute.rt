//! The command `permute`: plays the orders that are asked for, and writes their outcomes.
use crate::choice::{Choice, Extent, range_of};
use crate::each::write_each;
use crate::find::{Answer, found_in};
use crate::given::{Given, program_in};
use crate::lines::step_lines_in;
use crate::one::{fault_of, leveled, one_order};
use crate::play::{put_at_levels, put_order_play};
use crate::players::{Alone, Players, Team};
use crate::printed::{put_found, put_levels, put_none, put_played, put_tally};
use crate::progress::{Census, Progress};
use hek_permute::{Form, OrderFault, Tally, moves_of, order_count};
use hek_report::{HekFault, Lines, Printing, ScheduleFile, send};
use hek_rules::Level;
use std::alloc::Global;
use std::io::{Read, Write};
use std::thread::Threads;

/// Plays all orders of the moves of the schedule in a file, or does what else the choice asks for, and writes the
/// outcomes. Answers the exit status. The line of each order is written as it is over, and else nothing before the last
/// order is. If there are more orders or states than the limit, `faults` says so, and the status is 1. If the choice says so, `faults` is a terminal, and has a
/// line with the number of orders that have been played, until the last is over.
pub fn permute_command<'a, R: Read + Drop, W: Write, E: Write>(
    alloc: Global,
    file: ScheduleFile<R>,
    choice: Choice<'_>,
    out: &mut W,
    faults: &mut E,
) -> Result<u8, HekFault<'a>> {
    permute_with(&Alone, alloc, file, choice, out, faults)
}

/// `permute_command`, where as many threads of the system as there are jobs play the orders that are counted, if they can be
/// started. Of a part, or where each order is played, `faults` does not show how many orders have been played.
pub fn permute_in_threads<'a, T: Threads + Sync, R: Read + Drop, W: Write, E: Write>(
    system: &T,
    jobs: u64,
    alloc: Global,
    file: ScheduleFile<R>,
    choice: Choice<'_>,
    out: &mut W,
    faults: &mut E,
) -> Result<u8, HekFault<'a>> {
    permute_with(&Team { system, jobs }, alloc, file, choice, out, faults)
}

/// `permute_command`, where these players play the orders that are counted.
fn permute_with<'a, P: Players, R: Read + Drop, W: Write, E: Write>(
    players: &P,
    alloc: Global,
    file: ScheduleFile<R>,
    choice: Choice<'_>,
    out: &mut W,
    faults: &mut E,
) -> Result<u8, HekFault<'a>>
    requires { P.can_play players.now }
{
    let lines = step_lines_in(alloc, &file)?;
    let program = program_in(alloc, file)?;
    let given = Given::of(&program);
    match choice.order {
        Some(names) => at_order(alloc, &given, choice, names, lines.as_slice(), out),
        None => permute(players, alloc, &given, choice, out, faults),
    }
}

fn permute<'a, P: Players, W: Write, E: Write>(
    players: &P,
    alloc: Global,
    given: &Given<'_>,
    choice: Choice<'_>,
    out: &mut W,
    faults: &mut E,
) -> Result<u8, HekFault<'a>>
    requires { P.can_play players.now }
{
    let Some(extent) = extent_of(alloc, given, choice, faults)? else {
        return Ok(choice.status_unplayed());
    };
    if let (true, Extent::Orders(from, to)) = (choice.each, extent) {
        return write_each(alloc, given, choice, (from, to), out);
    }
    let most = most_plays(choice, extent);
    let mut progress = Progress::new(faults, choice.progress, choice.stats, most);
    let mut lines = Vec::new(alloc);
    let played = put_asked(
        players,
        alloc,
        given,
        choice,
        extent,
        &mut progress,
        &mut lines,
    );
    progress.clear();
    let census = progress.census();
    let status = played?;
    if status.is_none() {
        put_too_many(choice, census, faults);
    }
    send(&mut lines, out)?;
    Ok(status.unwrap_or(choice.status_unplayed()))
}

/// Says that there are more states than the limit, and how far the orders were played.
fn put_too_many<E: Write>(choice: Choice<'_>, census: Census, faults: &mut E) {
    let most = choice.most_states();
    let _ = writeln!(faults, "hek: permute: more than {most} states");
    let Census {
        moves,
        played,
        states,
        last,
        ..
    } = census;
    let _ = writeln!(
        faults,
        "  moves played in every order: {played} of {moves}; states so far: {states}, {last} of them after these moves; --limit N allows N states"
    );
}

/// Plays orders, and appends what the choice asks for. Answers the exit status, or None if there are more states than the
/// limit.
fn put_asked<'a, P: Players, E: Write>(
    players: &P,
    alloc: Global,
    given: &Given<'_>,
    choice: Choice<'_>,
    extent: Extent,
    progress: &mut Progress<'_, E>,
    lines: &mut Vec<u8>,
) -> Result<Option<u8>, HekFault<'a>>
    requires { P.can_play players.now }
{
    if choice.levels {
        return put_leveled(players, alloc, given, choice, extent, progress, lines);
    }
    let leveled = leveled(alloc, given.schedule, choice.level, given.schedule.steps())?;
    let given = given.over(&leveled);
    match choice.find {
        Some(wanted) => put_search(players, alloc, &given, choice, wanted, progress, lines),
        None => put_counts(players, alloc, &given, choice, extent, progress, lines),
    }
}

/// How many plays the orders take, if that is known.
fn most_plays(choice: Choice<'_>, extent: Extent) -> Option<u64> {
    match extent {
        Extent::Orders(from, to) if choice.levels => {
            Some((to.saturating_sub(from)).saturating_mul(Level::ALL.len() as u64))
        }
        Extent::Orders(from, to) => Some(to.saturating_sub(from)),
        Extent::States(_) => None,
    }
}

/// The events of one order, or its plays at all levels.
fn at_order<'a, W: Write>(
    alloc: Global,
    given: &Given<'_>,
    choice: Choice<'_>,
    names: &str,
    lines: &[u64],
    out: &mut W,
) -> Result<u8, HekFault<'a>> {
    if choice.levels && choice.printing == Printing::Text {
        return Err(HekFault::BadArgument);
    }
    let mut said = Vec::new(alloc);
    if !choice.levels {
        put_events(alloc, given, choice, names, &mut said)?;
    }
    if choice.printing == Printing::Json {
        put_plays(alloc, given, choice, names, lines, &mut said)?;
    }
    send(&mut said, out)?;
    Ok(0)
}

/// The schedule of one order's events, or an object for each of them.
fn put_events<'a>(
    alloc: Global,
    given: &Given<'_>,
    choice: Choice<'_>,
    names: &str,
    said: &mut Vec<u8>,
) -> Result<(), HekFault<'a>> {
    let leveled = leveled(alloc, given.schedule, choice.level, given.schedule.steps())?;
    let played = one_order(alloc, &given.over(&leveled), choice.form, names)?;
    put_played(alloc, choice.printing, &played, said)?;
    Ok(())
}

/// The play of one order as an object: at the level that is asked for, or at the levels of what is given and then at each.
fn put_plays<'a>(
    alloc: Global,
    given: &Given<'_>,
    choice: Choice<'_>,
    names: &str,
    lines: &[u64],
    said: &mut Vec<u8>,
) -> Result<(), HekFault<'a>> {
    let mut objects = Lines::after(alloc, said);
    put_plays_named(alloc, given, choice, names, lines, &mut objects)?;
    objects.put_back(said)?;
    Ok(())
}

fn put_plays_named<'a>(
    alloc: Global,
    given: &Given<'_>,
    choice: Choice<'_>,
    names: &str,
    lines: &[u64],
    out: &mut Lines,
) -> Result<(), HekFault<'a>> {
    let played = one_order(alloc, given, choice.form, names)?;
    let (form, order) = (choice.form, played.moves.as_slice());
    put_order_play(alloc, given, form, order, choice.level, lines, out)?;
    if choice.levels {
        put_at_levels(alloc, given, form, order, lines, out)?;
    }
    Ok(())
}

/// How the outcomes that a choice asks for are counted; None if there are too many orders.
fn extent_of<'a, E: Write>(
    alloc: Global,
    given: &Given<'_>,
    choice: Choice<'_>,
    faults: &mut E,
) -> Result<Option<Extent>, HekFault<'a>> {
    if choice.plays_each() {
        let part = range(alloc, given, choice, faults)?;
        return Ok(part.map(|(from, to)| Extent::Orders(from, to)));
    }
    let moves = moves_of(alloc, given.schedule, given.rules)?;
    if order_count(moves.as_slice(), choice.form).is_none() {
        let _ = writeln!(faults, "hek: permute: too many orders to count");
        return Ok(None);
    }
    Ok(Some(Extent::States(choice.most_states())))
}

/// The orders of the part: the number of the first and the number after the last; None if there are too many.
fn range<'a, E: Write>(
    alloc: Global,
    given: &Given<'_>,
    choice: Choice<'_>,
    faults: &mut E,
) -> Result<Option<(u64, u64)>, HekFault<'a>> {
    let moves = moves_of(alloc, given.schedule, given.rules)?;
    let limit = choice.most_orders();
    let Some(count) = order_count(moves.as_slice(), choice.form) else {
        let _ = writeln!(
            faults,
            "hek: permute: too many orders to count, more than {limit}"
        );
        return Ok(None);
    };
    let (from, to) = range_of(count, choice.part);
    let many = to.saturating_sub(from);
    if many > limit {
        let _ = writeln!(faults, "hek: permute: {many} orders, more than {limit}");
        return Ok(None);
    }
    Ok(Some((from, to)))
}

/// Appends the shortest beginning of an order in which a reply or a verdict comes, or that it comes in no order. Answers
/// the exit status, 1 for none; or None if there are more states than the limit.
fn put_search<'a, P: Players, E: Write>(
    players: &P,
    alloc: Global,
    given: &Given<'_>,
    choice: Choice<'_>,
    wanted: &str,
    progress: &mut Progress<'_, E>,
    lines: &mut Vec<u8>,
) -> Result<Option<u8>, HekFault<'a>>
    requires { P.can_play players.now }
{
    let limit = choice.most_states();
    match found_in(players, alloc, given, choice.form, wanted, limit, progress)? {
        Answer::Found(found) => {
            put_found(alloc, choice.printing, &found, lines)?;
            Ok(Some(0))
        }
        Answer::Nowhere => {
            let count = count_of(alloc, given, choice.form)?;
            put_none(alloc, choice.printing, count, lines)?;
            Ok(Some(1))
        }
        Answer::TooMany => Ok(None),
    }
}

/// How many orders there are, which are fewer than 2^64.
fn count_of<'a>(alloc: Global, given: &Given<'_>, form: Form) -> Result<u64, HekFault<'a>> {
    let moves = moves_of(alloc, given.schedule, given.rules)?;
    order_count(moves.as_slice(), form).ok_or(HekFault::BadArgument)
}

/// The lines of a tally. Answers the exit status, or None if there are more states than the limit.
fn put_counts<'a, P: Players, E: Write>(
    players: &P,
    alloc: Global,
    given: &Given<'_>,
    choice: Choice<'_>,
    extent: Extent,
    progress: &mut Progress<'_, E>,
    lines: &mut Vec<u8>,
) -> Result<Option<u8>, HekFault<'a>>
    requires { P.can_play players.now }
{
    let Some(tally) = tally_of(players, alloc, given, choice.form, extent, progress)? else {
        return Ok(None);
    };
    put_tally(alloc, choice.printing, given, choice.form, &tally, lines)?;
    Ok(Some(0))
}

/// The tally of the orders, the most frequent outcomes first; None if there are more states than the limit.
fn tally_of<'a, P: Players, E: Write>(
    players: &P,
    alloc: Global,
    given: &Given<'_>,
    form: Form,
    extent: Extent,
    progress: &mut Progress<'_, E>,
) -> Result<Option<Tally>, HekFault<'a>>
    requires { P.can_play players.now }
{
    match extent {
        Extent::Orders(from, to) => {
            let played = players.play(alloc, given.schedule, given.rules, form, from, to, progress);
            Ok(Some(sorted(played)?))
        }
        Extent::States(most) => match players.explore(
            alloc,
            given.schedule,
            given.rules,
            form,
            most,
            progress,
        ) {
            Ok(None) => Ok(None),
            Ok(Some(tally)) => {
                progress.tell();
                Ok(Some(sorted(Ok(tally))?))
            }
            Err(fault) => Err(fault_of(fault)),
        },
    }
}

/// The tally of the orders at a level; None if there are more states than the limit.
fn tally_at<'a, P: Players, E: Write>(
    players: &P,
    alloc: Global,
    given: &Given<'_>,
    level: Level,
    form: Form,
    extent: Extent,
    progress: &mut Progress<'_, E>,
) -> Result<Option<Tally>, HekFault<'a>>
    requires { P.can_play players.now }
{
    let leveled = leveled(alloc, given.schedule, Some(level), given.schedule.steps())?;
    tally_of(
        players,
        alloc,
        &given.over(&leveled),
        form,
        extent,
        progress,
    )
}

/// The tally with the most frequent outcomes first.
fn sorted<'a>(counted: Result<Tally, OrderFault>) -> Result<Tally, HekFault<'a>> {
    match counted {
        Ok(mut tally) => match tally.sort() {
            Ok(()) => Ok(tally),
            Err(fault) => Err(fault_of(fault)),
        },
        Err(fault) => Err(fault_of(fault)),
    }
}

/// The outcomes at each level. Answers the exit status, or None if there are more states than the limit.
fn put_leveled<'a, P: Players, E: Write>(
    players: &P,
    alloc: Global,
    given: &Given<'_>,
    choice: Choice<'_>,
    extent: Extent,
    progress: &mut Progress<'_, E>,
    lines: &mut Vec<u8>,
) -> Result<Option<u8>, HekFault<'a>>
    requires { P.can_play players.now }
{
    let Some(tallies) = tallies_of(players, alloc, given, choice.form, extent, progress)? else {
        return Ok(None);
    };
    put_levels(alloc, choice.printing, given, tallies.as_slice(), lines)?;
    Ok(Some(0))
}

/// The tally of the orders at each level, in the order of the levels; None if there are more states than the limit.
fn tallies_of<'a, P: Players, E: Write>(
    players: &P,
    alloc: Global,
    given: &Given<'_>,
    form: Form,
    extent: Extent,
    progress: &mut Progress<'_, E>,
) -> Result<Option<Vec<Tally>>, HekFault<'a>>
    requires { P.can_play players.now }
{
    let mut tallies = Vec::new(alloc);
    for level in Level::ALL {
        let Some(tally) = tally_at(players, alloc, given, level, form, extent, progress)? else {
            return Ok(None);
        };
        if tallies.push(tally).is_err() {
            return Err(HekFault::NoMemory);
        }
    }
    Ok(Some(tallies))
}
