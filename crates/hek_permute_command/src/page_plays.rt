//! The plays that a page has: of its own order, and of an order for each outcome.
use crate::given::{Given, program_of_text};
use crate::json::put_levels;
use crate::lines::step_lines;
use crate::moves::{MovesChoice, put_own_play};
use crate::one::{fault_of, leveled};
use crate::play::put_at_levels;
use crate::progress::Progress;
use hek_explore::explore;
use hek_permute::{Form, Tally};
use hek_report::{HekFault, Lines};
use hek_rules::{Level, NoMemory, TxnId};
use std::alloc::Global;

/// Outcomes are counted where beginnings of orders lead to at most so many states.
const MOST_STATES: u64 = 20_000;
/// So many orders are played beside the page's own.
const MOST_ORDERS: usize = 24;

/// Lines of JSON: the play of a text's own order as it stands and at each level, the table of all outcomes, and for each outcome the plays of an order
/// that has it. Where there are too many states there is no table.
pub fn plays_of_page<'a>(
    alloc: Global,
    text: &[u8],
    choice: MovesChoice,
) -> Result<Vec<u8>, HekFault<'a>> {
    let program = program_of_text(alloc, text)?;
    let lines = step_lines(alloc, text)?;
    let mut out = Lines::new(alloc);
    put_plays(
        alloc,
        &Given::of(&program),
        choice,
        lines.as_slice(),
        &mut out,
    )?;
    Ok(out.take()?)
}

fn put_plays<'a>(
    alloc: Global,
    given: &Given<'_>,
    choice: MovesChoice,
    lines: &[u64],
    out: &mut Lines,
) -> Result<(), HekFault<'a>> {
    let own = put_own(alloc, given, choice, lines, out)?;
    put_at_levels(alloc, given, Form::Whole, own.as_slice(), lines, out)?;
    put_outcomes(alloc, given, own.as_slice(), lines, out)
}

/// Puts the play of a text's own order at the level that is asked for, or at its own levels. Answers that order.
fn put_own<'a>(
    alloc: Global,
    given: &Given<'_>,
    choice: MovesChoice,
    lines: &[u64],
    out: &mut Lines,
) -> Result<Vec<TxnId>, HekFault<'a>> {
    let at_level = leveled(alloc, given.schedule, choice.level, given.schedule.steps())?;
    put_own_play(alloc, &given.over(&at_level), choice, lines, out)
}

/// Puts the table of all outcomes, and for each the plays of an order that has it, but for the text's own order.
fn put_outcomes<'a>(
    alloc: Global,
    given: &Given<'_>,
    own: &[TxnId],
    lines: &[u64],
    out: &mut Lines,
) -> Result<(), HekFault<'a>> {
    let Some(tallies) = tallies_of(alloc, given)? else {
        return Ok(());
    };
    put_levels(alloc, given, tallies.as_slice(), out)?;
    let orders = orders_of(alloc, tallies.as_slice(), own)?;
    for order in orders.as_slice() {
        put_at_levels(alloc, given, Form::Whole, order.as_slice(), lines, out)?;
    }
    Ok(())
}

/// The outcomes at each level; None where there are too many states.
fn tallies_of<'a>(alloc: Global, given: &Given<'_>) -> Result<Option<Vec<Tally>>, HekFault<'a>> {
    let mut tallies = Vec::new(alloc);
    for level in Level::ALL {
        let Some(tally) = tally_at(alloc, given, level)? else {
            return Ok(None);
        };
        if tallies.push(tally).is_err() {
            return Err(HekFault::NoMemory);
        }
    }
    Ok(Some(tallies))
}

fn tally_at<'a>(
    alloc: Global,
    given: &Given<'_>,
    level: Level,
) -> Result<Option<Tally>, HekFault<'a>> {
    let at_level = leveled(alloc, given.schedule, Some(level), given.schedule.steps())?;
    let mut nowhere = Vec::<u8>::new(alloc);
    let mut silent = Progress::new(&mut nowhere, false, false, None);
    let found = explore(
        alloc,
        &at_level,
        given.rules,
        Form::Whole,
        MOST_STATES,
        &mut silent,
    );
    match found {
        Ok(None) => Ok(None),
        Ok(Some(mut tally)) => match tally.sort() {
            Ok(()) => Ok(Some(tally)),
            Err(fault) => Err(fault_of(fault)),
        },
        Err(fault) => Err(fault_of(fault)),
    }
}

/// An order for each outcome, each once, but for the page's own.
fn orders_of(alloc: Global, tallies: &[Tally], own: &[TxnId]) -> Result<Vec<Vec<TxnId>>, NoMemory> {
    let mut orders = Vec::new(alloc);
    for tally in tallies {
        for row in tally.rows() {
            let first = row.first();
            if first != own && !has_order(orders.as_slice(), first) && orders.len() < MOST_ORDERS {
                orders.push(Vec::from_slice(alloc, first)?)?;
            }
        }
    }
    Ok(orders)
}

fn has_order(orders: &[Vec<TxnId>], order: &[TxnId]) -> bool {
    for other in orders {
        if other.as_slice() == order {
            return true;
        }
    }
    false
}
