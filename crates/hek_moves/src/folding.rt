//! The moves of a run, made step by step.
ghost use Rattle.std.specs.Prelude.{◌≡◌, ◌+◌, [], length, IfOk, OnOk};
ghost use Rattle.std.specs.List.{All};
ghost use Rattle.hek_laws.specs.Runs.{IsPlaced};
ghost use Rattle.hek_rules.specs.Shown.{committed_rows};
ghost use Rattle.hek_machine.specs.Judgements.{IsShown};
ghost use Rattle.hek_machine.specs.Stands.{StandsFor};
ghost use Rattle.hek_moves.specs.Moves.{AreMovesOf, IsJudged};
ghost use Rattle.hek_moves.specs.Steps.{LeadsNext, world_at};

use crate::after::after_of;
use crate::kind::{kind_of, mover};
use crate::moves::{Kind, Move, Moves};
use crate::sentence::Sentence;
use crate::waiting::end_waits;
use crate::why::say_why;
use hek_machine::Machine;
use hek_program::Always;
use hek_rules::{Event, NoMemory, Reply, Schedule, Transcript, TxnId};
use hek_why::{Dooms, Reason, Step, reasons};
use std::alloc::Global;

/// What is said where a transaction fails in place of a write.
const UNWRITTEN: &str =
    "It was to write what is no number, is below 0 or is 2^64 or more: it fails in place of the write";

/// Where the steps of a run come from: for each the place of the step of the text that it makes; the steps of the text that were left out, each
/// with the place of the run's step before which it was; and the places of the run's steps at which a transaction failed in place of a write. Each list
/// may be shorter.
#[derive(Clone, Copy)]
pub struct Origin<'a> {
    pub makes: &'a [Option<usize>],
    pub skips: &'a [(usize, Event, usize)],
    pub unwritten: &'a [usize],
}

/// The moves of a run so far and for each of its steps the place of its move, who has committed, and which abort doomed which transaction.
#[derive(Drop)]
struct Folding {
    moves: Moves,
    of_step: Vec<usize>,
    committed: Vec<bool>,
    dooms: Dooms,
}

/// The moves of a schedule's run, with what is to hold after each.
pub fn moves_of(
    alloc: Global,
    schedule: &Schedule,
    origin: Origin<'_>,
    always: &[Always],
) -> Result<Moves, NoMemory>
    ensures { IfOk result (AreMovesOf schedule.now always.now) }
{
    let mut folding = begun(alloc, schedule)?;
    fold_run(alloc, schedule, &origin, always, &mut folding)?;
    let Folding { moves, of_step, .. } = folding;
    Ok(moves.with_steps(of_step))
}

/// A run that has no step yet.
fn begun(alloc: Global, schedule: &Schedule) -> Result<Folding, NoMemory>
    ensures { IfOk result (λ folding. folding.of_step.items ≡ []) }
{
    let count = schedule.txn_count();
    let committed = nobody(alloc, count)?;
    let transcript = Transcript::new(alloc, schedule)?;
    Ok(Folding {
        moves: Moves::new(alloc, transcript, count)?,
        of_step: Vec::new(alloc),
        committed,
        dooms: Dooms::new(alloc),
    })
}

/// Of each transaction that it hasn't committed.
fn nobody(alloc: Global, count: usize) -> Result<Vec<bool>, NoMemory> {
    let mut flags = Vec::new(alloc);
    for _ in 0..count {
        flags.push(false)?;
    }
    Ok(flags)
}

/// Runs a schedule from its first step on.
#[tactic(auto, using(hek_machine::proofs::PlacedSteps::steps_placed))]
fn fold_run(
    alloc: Global,
    schedule: &Schedule,
    origin: &Origin<'_>,
    always: &[Always],
    folding: &mut Folding,
) -> Result<(), NoMemory>
    requires none { folding.old.of_step.items ≡ [] }
    ensures rows { OnOk result (folding.new.moves.latest.rows ≡ committed_rows (world_at schedule.now (length schedule.now.steps))) }
    ensures judged { OnOk result (IsJudged always.now folding.new.moves.latest) }
    ensures count { OnOk result (length folding.new.of_step.items ≡ length schedule.now.steps) }
{
    // `known` gives that the schedule has a bucket, and that each of its steps is well formed.
    schedule.known();
    let mut machine = Machine::load(alloc, schedule)?;
    let steps = schedule.steps();
    fold_steps(
        alloc,
        schedule,
        origin,
        always,
        steps,
        &mut machine,
        folding,
    )?;
    Ok(())
}

/// Does the steps, each with its move, on a machine that has done none.
fn fold_steps(
    alloc: Global,
    schedule: &Schedule,
    origin: &Origin<'_>,
    always: &[Always],
    steps: &[Event],
    machine: &mut Machine,
    folding: &mut Folding,
) -> Result<(), NoMemory>
    requires same { steps.now ≡ schedule.now.steps }
    requires placed { All (IsPlaced schedule.now.buckets) steps.now }
    requires stands { StandsFor machine.old (world_at schedule.now 0) }
    requires none { folding.old.of_step.items ≡ [] }
    ensures rows { OnOk result (folding.new.moves.latest.rows ≡ committed_rows (world_at schedule.now (length steps.now))) }
    ensures judged { OnOk result (IsJudged always.now folding.new.moves.latest) }
    ensures count { OnOk result (length folding.new.of_step.items ≡ length steps.now) }
{
    note_opening(alloc, always, machine, folding)?;
    for place in 0..steps.len() {
        let event = &steps[place];
        fold_step(
            alloc, schedule, origin, always, place, event, machine, folding,
        )?;
    }
    Ok(())
}

/// Does a step, and notes its move and what is committed after it.
fn fold_step(
    alloc: Global,
    schedule: &Schedule,
    origin: &Origin<'_>,
    always: &[Always],
    place: usize,
    event: &Event,
    machine: &mut Machine,
    folding: &mut Folding,
) -> Result<(), NoMemory>
    requires placed { IsPlaced (length machine.old.buckets) event.now }
    ensures next { OnOk result (LeadsNext event.now machine.old machine.new) }
    ensures shown { OnOk result (IsShown machine.new committed_rows folding.new.moves.latest.rows) }
    ensures judged { OnOk result (IsJudged always.now folding.new.moves.latest) }
    ensures count { OnOk result (length folding.new.of_step.items ≡ length folding.old.of_step.items + 1) }
{
    let before = machine.copy()?;
    let by = fold_from(
        alloc, schedule, origin, place, event, &before, machine, folding,
    )?;
    note_after(alloc, always, machine, by, folding)
}

/// Does a step, given a copy of the machine from before it, and notes its move. Answers the move's place.
fn fold_from(
    alloc: Global,
    schedule: &Schedule,
    origin: &Origin<'_>,
    place: usize,
    event: &Event,
    before: &Machine,
    machine: &mut Machine,
    folding: &mut Folding,
) -> Result<usize, NoMemory>
    requires placed { IsPlaced (length machine.old.buckets) event.now }
    ensures next { OnOk result (LeadsNext event.now machine.old machine.new) }
    ensures count { OnOk result (length folding.new.of_step.items ≡ length folding.old.of_step.items + 1) }
{
    let reply = machine.step(*event)?;
    let step = Step {
        before,
        event: *event,
        reply: &reply,
        after: machine,
    };
    let by = note_step(alloc, schedule, origin, place, &step, folding)?;
    folding.moves.record(*event, reply)?;
    Ok(by)
}

/// Notes to which move a step belongs, which it makes if it is a new one. Answers the move's place.
fn note_step(
    alloc: Global,
    schedule: &Schedule,
    origin: &Origin<'_>,
    place: usize,
    step: &Step<'_>,
    folding: &mut Folding,
) -> Result<usize, NoMemory>
    ensures count { OnOk result (length folding.new.of_step.items ≡ length folding.old.of_step.items + 1) }
{
    skip_before(alloc, place, origin, &mut folding.moves)?;
    let unwritten = origin.unwritten.contains(&place);
    let by = match kind_in(alloc, schedule, unwritten, step, folding)? {
        Some((kind, why)) => open_move(origin, place, step, kind, why, &mut folding.moves)?,
        None => joined(alloc, step, &mut folding.moves)?,
    };
    note_commit(step, &mut folding.committed);
    folding.dooms.note(step.before, step.event, step.reply)?;
    end_waits(step.after, by, &mut folding.moves)?;
    folding.of_step.push(by)?;
    Ok(by)
}

/// Adds the steps of the text that were left out before a step of the run.
fn skip_before(
    alloc: Global,
    place: usize,
    origin: &Origin<'_>,
    moves: &mut Moves,
) -> Result<(), NoMemory> {
    for (before, event, source) in origin.skips {
        if *before == place {
            moves.open(Move {
                txn: event.txn().unwrap_or(TxnId::new(0)),
                event: *event,
                kind: Kind::Skips,
                source: Some(*source),
                why: Vec::new(alloc),
            })?;
        }
    }
    Ok(())
}

/// The kind of the move that a step makes, and why it came out so; None if it belongs to a move before it. `unwritten`: its transaction fails in place
/// of a write.
fn kind_in(
    alloc: Global,
    schedule: &Schedule,
    unwritten: bool,
    step: &Step<'_>,
    folding: &Folding,
) -> Result<Option<(Kind, Vec<u8>)>, NoMemory> {
    let Some(txn) = mover(step) else {
        return Ok(None);
    };
    let list = reasons(alloc, step, &folding.dooms)?;
    let moves = &folding.moves;
    match kind_of(alloc, step, txn, list.as_slice(), moves)? {
        Some(kind) => {
            let list = list.as_slice();
            let why = why_so(alloc, schedule, unwritten, step, &kind, list, moves)?;
            Ok(Some((kind, why)))
        }
        None => Ok(None),
    }
}

/// Why a step's move came out as it did, in words.
fn why_so(
    alloc: Global,
    schedule: &Schedule,
    unwritten: bool,
    step: &Step<'_>,
    kind: &Kind,
    list: &[Reason],
    moves: &Moves,
) -> Result<Vec<u8>, NoMemory> {
    let mut why = Vec::new(alloc);
    let mut words = Sentence::new(schedule, &mut why);
    if unwritten {
        words.put(UNWRITTEN);
    } else {
        say_why(alloc, step, kind, list, moves, &mut words)?;
    }
    words.text.done()?;
    Ok(why)
}

/// Keeps that a transaction has committed, if a step says so.
fn note_commit(step: &Step<'_>, committed: &mut Vec<bool>) {
    let (Reply::Committed, Some(txn)) = (step.reply, step.event.txn()) else {
        return;
    };
    let place = txn.number().saturating_sub(1) as usize;
    if let Some(flag) = committed.get_mut(place) {
        *flag = true;
    }
}

/// Adds the move that a step makes.
fn open_move(
    origin: &Origin<'_>,
    place: usize,
    step: &Step<'_>,
    kind: Kind,
    why: Vec<u8>,
    moves: &mut Moves,
) -> Result<usize, NoMemory> {
    let source = match origin.makes.get(place) {
        Some(source) => *source,
        None => None,
    };
    moves.open(Move {
        txn: mover(step).unwrap_or(TxnId::new(0)),
        event: step.event,
        kind,
        source,
        why,
    })
}

/// The move before it that a step belongs to: its transaction's last one, or the last of all; a new one where there is none.
fn joined(alloc: Global, step: &Step<'_>, moves: &mut Moves) -> Result<usize, NoMemory> {
    let found = match mover(step) {
        Some(txn) => moves.lanes.of(txn).last,
        None => moves.items.len().checked_sub(1),
    };
    match found {
        Some(place) => Ok(place),
        None => moves.open(Move {
            txn: mover(step).unwrap_or(TxnId::new(0)),
            event: step.event,
            kind: Kind::Idles,
            source: None,
            why: Vec::new(alloc),
        }),
    }
}

/// Notes what is committed on a machine before the first step.
fn note_opening(
    alloc: Global,
    always: &[Always],
    machine: &Machine,
    folding: &mut Folding,
) -> Result<(), NoMemory>
    ensures shown { OnOk result (IsShown machine.now committed_rows folding.new.moves.latest.rows) }
    ensures judged { OnOk result (IsJudged always.now folding.new.moves.latest) }
    ensures steps { OnOk result (folding.new.of_step.items ≡ folding.old.of_step.items) }
{
    let committed = folding.committed.as_slice();
    let opening = after_of(alloc, machine, always, committed, None)?;
    folding.moves.begin(opening);
    Ok(())
}

/// Notes what is committed on a machine after a step of the move at this place.
fn note_after(
    alloc: Global,
    always: &[Always],
    machine: &Machine,
    by: usize,
    folding: &mut Folding,
) -> Result<(), NoMemory>
    ensures shown { OnOk result (IsShown machine.now committed_rows folding.new.moves.latest.rows) }
    ensures judged { OnOk result (IsJudged always.now folding.new.moves.latest) }
    ensures steps { OnOk result (folding.new.of_step.items ≡ folding.old.of_step.items) }
{
    let committed = folding.committed.as_slice();
    let next = after_of(alloc, machine, always, committed, Some(by))?;
    folding.moves.note(next)
}
