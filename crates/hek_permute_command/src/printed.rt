//! Orders and outcomes as text or as objects of JSON.
use crate::find::Found;
use crate::given::Given;
use crate::one::Played;
use crate::{json, text};
use hek_permute::{Form, Outcome, Tally};
use hek_report::{HekFault, Lines, Printing};
use hek_rules::{NoMemory, TxnId};
use std::alloc::Global;

/// Appends the line of an order with its outcome.
pub(crate) fn put_order(
    alloc: Global,
    printing: Printing,
    given: &Given<'_>,
    order: &[TxnId],
    outcome: &Outcome,
    lines: &mut Vec<u8>,
) -> Result<(), NoMemory> {
    match printing {
        Printing::Text => text::put_order(alloc, given, order, outcome, lines),
        Printing::Json => {
            let mut objects = Lines::after(alloc, lines);
            json::put_order(alloc, given, order, outcome, &mut objects)?;
            objects.put_back(lines)
        }
    }
}

/// Appends the number of orders, and each outcome.
pub(crate) fn put_tally<'a>(
    alloc: Global,
    printing: Printing,
    given: &Given<'_>,
    form: Form,
    tally: &Tally,
    lines: &mut Vec<u8>,
) -> Result<(), HekFault<'a>> {
    match printing {
        Printing::Text => text::put_tally(alloc, given, form, tally, lines),
        Printing::Json => put_objects(alloc, given, form, tally, lines),
    }
}

/// Appends the object of the number of orders, and that of each outcome.
fn put_objects<'a>(
    alloc: Global,
    given: &Given<'_>,
    form: Form,
    tally: &Tally,
    lines: &mut Vec<u8>,
) -> Result<(), HekFault<'a>> {
    let mut objects = Lines::after(alloc, lines);
    json::put_tally(alloc, given, form, tally, &mut objects)?;
    objects.put_back(lines)?;
    Ok(())
}

/// Appends each outcome with the number of orders that have it at each level.
pub(crate) fn put_levels(
    alloc: Global,
    printing: Printing,
    given: &Given<'_>,
    tallies: &[Tally],
    lines: &mut Vec<u8>,
) -> Result<(), NoMemory> {
    match printing {
        Printing::Text => text::put_levels(alloc, given, tallies, lines),
        Printing::Json => {
            let mut objects = Lines::after(alloc, lines);
            json::put_levels(alloc, given, tallies, &mut objects)?;
            objects.put_back(lines)
        }
    }
}

/// Appends one order: the schedule of its events, or the object of each.
pub(crate) fn put_played(
    alloc: Global,
    printing: Printing,
    played: &Played,
    lines: &mut Vec<u8>,
) -> Result<(), NoMemory> {
    match printing {
        Printing::Text => text::put_played(alloc, played, lines),
        Printing::Json => json::put_played(alloc, played, lines),
    }
}

/// Appends the beginning of an order in which something comes, with the reasons of its last reply.
pub(crate) fn put_found(
    alloc: Global,
    printing: Printing,
    found: &Found,
    lines: &mut Vec<u8>,
) -> Result<(), NoMemory> {
    match printing {
        Printing::Text => text::put_found(alloc, found, lines),
        Printing::Json => json::put_found(alloc, found, lines),
    }
}

/// Appends that none of these orders has what was looked for.
pub(crate) fn put_none(
    alloc: Global,
    printing: Printing,
    orders: u64,
    lines: &mut Vec<u8>,
) -> Result<(), NoMemory> {
    match printing {
        Printing::Text => text::put_none(orders, lines),
        Printing::Json => {
            let mut objects = Lines::after(alloc, lines);
            json::put_none(orders, &mut objects);
            objects.put_back(lines)
        }
    }
}
