//! A schedule that finishes itself.
use crate::given::{Given, program_in};
use crate::one::{events_of, leveled};
use hek_asm::canonical;
use hek_permute::{Form, Moves, moves_of};
use hek_report::{HekFault, ScheduleFile};
use hek_rules::{Event, EventKind, Level, NoMemory, Schedule, TxnId};
use hek_worker::is_work;
use std::alloc::Global;
use std::io::Read;

/// The text of the schedule whose steps are those of an order's play by events, in the order of a file: each read and
/// write where the file has it; `begin`, `finish`, `precommit` and what follows where the file has them, if it has them
/// in this order. A transaction for which the file has no step that ends it ends after its last read or write; what else
/// is missing comes before what needs it, or after the last step.
pub fn auto_file<'a, R: Read + Drop>(
    alloc: Global,
    file: ScheduleFile<R>,
    level: Option<Level>,
) -> Result<ScheduleFile<R>, HekFault<'a>> {
    let made = ended(alloc, file, level)?;
    let text = canonical(alloc, &made)?;
    Ok(ScheduleFile::Text(text.into_bytes()))
}

/// The schedule whose steps are the events of the order that a file has.
fn ended<'a, R: Read + Drop>(
    alloc: Global,
    file: ScheduleFile<R>,
    level: Option<Level>,
) -> Result<Schedule, HekFault<'a>> {
    let program = program_in(alloc, file)?;
    let schedule = program.schedule();
    let leveled_one = leveled(alloc, schedule, level, schedule.steps())?;
    let events = events_in_file(alloc, &Given::of(&program).over(&leveled_one))?;
    leveled(alloc, &leveled_one, None, events.as_slice())
}

/// The events of the order that a file has.
fn events_in_file<'a>(alloc: Global, given: &Given<'_>) -> Result<Vec<Event>, HekFault<'a>> {
    let moves = moves_of(alloc, given.schedule, given.rules)?;
    let order = order_of_file(alloc, given, moves.as_slice())?;
    events_of(
        alloc,
        given.schedule,
        moves.as_slice(),
        Form::Event,
        order.as_slice(),
    )
}

/// What a file has had of a transaction: how many reads and writes, and how many moves are in the order. `ends` is the
/// place of its last step that ends it; `works` and `most` are how many reads and writes, and moves, it has in all.
#[derive(Clone, Copy)]
struct Track {
    works: usize,
    most: usize,
    ends: Option<usize>,
    seen: usize,
    made: usize,
}

/// The order of moves, by events, in which a file has the steps of its transactions.
pub(crate) fn order_of_file(
    alloc: Global,
    given: &Given<'_>,
    moves: &[Moves],
) -> Result<Vec<TxnId>, NoMemory> {
    let mut tracks = tracks_of(alloc, given, moves)?;
    let mut order = Vec::new(alloc);
    for (place, step) in given.schedule.steps().iter().enumerate() {
        push_step(
            place,
            step,
            given.fails_if(place, step),
            tracks.as_mut_slice(),
            &mut order,
        )?;
    }
    for (index, track) in tracks.iter().enumerate() {
        let txn = TxnId::new((index as u64).saturating_add(1));
        push_moves(txn, track.most.saturating_sub(track.made), &mut order)?;
    }
    Ok(order)
}

/// The tracks of all transactions before the first step.
fn tracks_of(alloc: Global, given: &Given<'_>, moves: &[Moves]) -> Result<Vec<Track>, NoMemory> {
    let mut tracks = Vec::new(alloc);
    for of_one in moves {
        let works = of_one.steps().len();
        tracks.push(Track {
            works,
            most: works.saturating_add(Form::Event.other_moves()),
            ends: None,
            seen: 0,
            made: 0,
        })?;
    }
    for (place, step) in given.schedule.steps().iter().enumerate() {
        if !given.fails_if(place, step) {
            note_end(place, step, tracks.as_mut_slice());
        }
    }
    Ok(tracks)
}

/// Takes note of a step that ends its transaction.
fn note_end(place: usize, step: &Event, tracks: &mut [Track]) {
    if !is_end(step) {
        return;
    }
    if let Some(track) = track_of(step, tracks) {
        track.ends = Some(place);
    }
}

/// The track of a step's transaction.
fn track_of<'t>(step: &Event, tracks: &'t mut [Track]) -> Option<&'t mut Track> {
    let txn = step.txn()?;
    tracks.get_mut(txn.number().saturating_sub(1) as usize)
}

/// Adds the moves that a step of the file stands for, and those before them.
fn push_step(
    place: usize,
    step: &Event,
    fails_if: bool,
    tracks: &mut [Track],
    order: &mut Vec<TxnId>,
) -> Result<(), NoMemory> {
    let (Some(txn), Some(track)) = (step.txn(), track_of(step, tracks)) else {
        return Ok(());
    };
    let is_move = fails_if || is_work(txn, *step);
    if is_move {
        track.seen = track.seen.saturating_add(1);
    }
    let moves = moves_upto(track, place, step, is_move);
    let count = moves.saturating_sub(track.made);
    track.made = moves.max(track.made);
    push_moves(txn, count, order)
}

/// How many moves of a transaction have come with a step of its own, by the file.
fn moves_upto(track: &Track, place: usize, step: &Event, is_move: bool) -> usize {
    let begun = track.seen.saturating_add(1);
    if track.seen < track.works {
        return begun;
    }
    match step.kind() {
        EventKind::Begin => begun,
        EventKind::Finish => begun.saturating_add(1),
        EventKind::Precommit => begun.saturating_add(2),
        _ if !is_move && is_end(step) => track.most,
        _ if ends_later(track, place) => begun,
        _ => track.most,
    }
}

/// Whether the file has a step after this place that ends the transaction.
fn ends_later(track: &Track, place: usize) -> bool {
    track.ends.is_some_and(|end| end > place)
}

fn push_moves(txn: TxnId, count: usize, order: &mut Vec<TxnId>) -> Result<(), NoMemory> {
    for _ in 0..count {
        order.push(txn)?;
    }
    Ok(())
}

/// Whether a step ends its transaction.
fn is_end(step: &Event) -> bool {
    matches!(
        step.kind(),
        EventKind::Finish
            | EventKind::Precommit
            | EventKind::Release
            | EventKind::Commit
            | EventKind::Fail
            | EventKind::Stamp
            | EventKind::End
    )
}
