//! One order, as the schedule of its events.
use crate::given::Given;
use hek_permute::{
    Form, Moves, OrderFault, Play, first_order, moves_of, play_order, schedule_with,
};
use hek_report::HekFault;
use hek_rules::{Event, Level, NoMemory, Schedule, TxnId};
use std::alloc::Global;

/// Moves, how many moves an order has, and the schedule whose steps are the events of these moves.
#[derive(Drop)]
pub(crate) struct Played {
    pub(crate) moves: Vec<TxnId>,
    pub(crate) most: usize,
    pub(crate) schedule: Schedule,
}

/// The order that names give, and the schedule whose steps are its events.
pub(crate) fn one_order<'a>(
    alloc: Global,
    given: &Given<'_>,
    form: Form,
    names: &str,
) -> Result<Played, HekFault<'a>> {
    let moves = moves_of(alloc, given.schedule, given.rules)?;
    let order = order_named(alloc, given.schedule, moves.as_slice(), form, names)?;
    let played = played_by(
        alloc,
        given.schedule,
        moves.as_slice(),
        form,
        order.as_slice(),
    )?;
    Ok(Played {
        most: order.len(),
        moves: order,
        schedule: played,
    })
}

/// The schedule whose steps are the events of the play of an order.
fn played_by<'a>(
    alloc: Global,
    schedule: &Schedule,
    moves: &[Moves],
    form: Form,
    order: &[TxnId],
) -> Result<Schedule, HekFault<'a>> {
    let events = events_of(alloc, schedule, moves, form, order)?;
    leveled(alloc, schedule, None, events.as_slice())
}

/// The events of the play of an order.
pub(crate) fn events_of<'a>(
    alloc: Global,
    schedule: &Schedule,
    moves: &[Moves],
    form: Form,
    order: &[TxnId],
) -> Result<Vec<Event>, HekFault<'a>> {
    match play_order(alloc, schedule, moves, form, order) {
        Ok(played) => Ok(events_in(alloc, &played)?),
        Err(fault) => Err(fault_of(fault)),
    }
}

/// The events of a play.
fn events_in(alloc: Global, played: &Play) -> Result<Vec<Event>, NoMemory> {
    let mut events = Vec::new(alloc);
    for entry in played.history.as_slice() {
        events.push(entry.event)?;
    }
    Ok(events)
}

/// The schedule at this level, or at its own levels, with these steps.
pub fn leveled<'a>(
    alloc: Global,
    schedule: &Schedule,
    level: Option<Level>,
    steps: &[Event],
) -> Result<Schedule, HekFault<'a>> {
    match schedule_with(alloc, schedule, level, steps) {
        Ok(made) => Ok(made),
        Err(fault) => Err(fault_of(fault)),
    }
}

/// The fault of an order as that of a command.
pub fn fault_of<'a>(fault: OrderFault) -> HekFault<'a> {
    match fault {
        OrderFault::NoMemory => HekFault::NoMemory,
        OrderFault::Mismatch | OrderFault::TooMany | OrderFault::TooLong => HekFault::Mismatch(0),
        OrderFault::Stopped => HekFault::NoMemory,
    }
}

/// The order that names give. Each transaction must occur in it as often as it has moves.
fn order_named<'a>(
    alloc: Global,
    schedule: &Schedule,
    moves: &[Moves],
    form: Form,
    names: &str,
) -> Result<Vec<TxnId>, HekFault<'a>> {
    let order = ids_named(alloc, schedule, names)?;
    let mut sorted = copy_of(alloc, order.as_slice())?;
    let first = first_order(alloc, moves, form)?;
    if sorted.sort().is_err() {
        return Err(HekFault::NoMemory);
    }
    if sorted.as_slice() != first.as_slice() {
        return Err(HekFault::BadArgument);
    }
    Ok(order)
}

fn copy_of(alloc: Global, order: &[TxnId]) -> Result<Vec<TxnId>, NoMemory> {
    Ok(Vec::from_slice(alloc, order)?)
}

fn ids_named<'a>(
    alloc: Global,
    schedule: &Schedule,
    names: &str,
) -> Result<Vec<TxnId>, HekFault<'a>> {
    let mut order = Vec::new(alloc);
    for name in names.split_whitespace() {
        let Some(txn) = schedule.id_of(name.as_bytes()) else {
            return Err(HekFault::BadArgument);
        };
        if order.push(txn).is_err() {
            return Err(HekFault::NoMemory);
        }
    }
    Ok(order)
}
