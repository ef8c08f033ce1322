//! Where the steps of a play come from: the steps of the text that they make, and those that are left out.
use crate::given::Given;
use hek_permute::Moves;
use hek_rules::{Event, NoMemory, TxnId};
use hek_worker::{Entry, is_work};
use std::alloc::Global;

/// For each step of a play the place of the step of the text that it makes; the steps that are left out, each with the place of the play's step
/// before which it is; and the places of the play's steps that fail in place of a write.
#[derive(Drop)]
pub(crate) struct Sources {
    pub(crate) makes: Vec<Option<usize>>,
    pub(crate) skips: Vec<(usize, Event, usize)>,
    pub(crate) unwritten: Vec<usize>,
}

/// The sources of steps that are those of the text.
pub(crate) fn own_sources(alloc: Global, count: usize) -> Result<Sources, NoMemory> {
    let mut makes = Vec::new(alloc);
    for place in 0..count {
        makes.push(Some(place))?;
    }
    Ok(Sources {
        makes,
        skips: Vec::new(alloc),
        unwritten: Vec::new(alloc),
    })
}

/// The sources of a play's steps.
pub(crate) fn sources_of(
    alloc: Global,
    given: &Given<'_>,
    moves: &[Moves],
    history: &[Entry],
) -> Result<Sources, NoMemory> {
    let mut next = Vec::new(alloc);
    for _ in moves {
        next.push(0usize)?;
    }
    let mut sources = Sources {
        makes: Vec::new(alloc),
        skips: Vec::new(alloc),
        unwritten: Vec::new(alloc),
    };
    for at in 0..history.len() {
        let (before, _) = history.split_at(at);
        let entry = &history[at];
        let made = source_in(given, moves, before, entry, &mut next, &mut sources)?;
        if fails_to_write(given, entry, made) {
            sources.unwritten.push(at)?;
        }
        sources.makes.push(made)?;
    }
    Ok(sources)
}

/// The place of the step that an entry makes. Adds those that its transaction leaves out before it.
fn source_in(
    given: &Given<'_>,
    moves: &[Moves],
    before: &[Entry],
    entry: &Entry,
    next: &mut Vec<usize>,
    sources: &mut Sources,
) -> Result<Option<usize>, NoMemory> {
    let txn = entry.worker;
    let is_step = is_work(txn, entry.event) || matches!(entry.event, Event::Fail(_));
    let is_last = matches!(entry.event, Event::Finish(_));
    let index = txn.number().saturating_sub(1) as usize;
    if (!is_step && !is_last) || index >= moves.len() || index >= next.len() {
        return Ok(None);
    }
    let from = next[index];
    let ahead = moves[index].ahead(from, txn, before);
    push_skips(given, txn, before.len(), (from, ahead), &mut sources.skips)?;
    next[index] = ahead.saturating_add(is_step as usize);
    Ok(if is_step {
        move_place(given, txn, ahead)
    } else {
        None
    })
}

/// Whether an entry fails in place of the step of the text at a place.
fn fails_to_write(given: &Given<'_>, entry: &Entry, place: Option<usize>) -> bool {
    let (Event::Fail(_), Some(place)) = (entry.event, place) else {
        return false;
    };
    match given.schedule.steps().get(place) {
        Some(step) => !matches!(step, Event::Fail(_)),
        None => false,
    }
}

/// Adds the moves of a transaction from one place to another, which are left out before a step of the play.
fn push_skips(
    given: &Given<'_>,
    txn: TxnId,
    before: usize,
    range: (usize, usize),
    skips: &mut Vec<(usize, Event, usize)>,
) -> Result<(), NoMemory> {
    for nth in range.0..range.1 {
        if let Some(place) = move_place(given, txn, nth) {
            if let Some(event) = given.schedule.steps().get(place) {
                skips.push((before, *event, place))?;
            }
        }
    }
    Ok(())
}

/// The place in the text of a transaction's move: of the one after the last its `fail`.
fn move_place(given: &Given<'_>, txn: TxnId, nth: usize) -> Option<usize> {
    let mut left = nth;
    for (place, step) in given.schedule.steps().iter().enumerate() {
        if step.txn() == Some(txn) && is_move(given, txn, place, step) {
            if left == 0 {
                return Some(place);
            }
            left = left.saturating_sub(1);
        }
    }
    None
}

/// Whether a step of the text is a move of a transaction: a read, a write, or a `fail`.
fn is_move(given: &Given<'_>, txn: TxnId, place: usize, step: &Event) -> bool {
    is_work(txn, *step) || given.fails_if(place, step) || matches!(step, Event::Fail(_))
}
