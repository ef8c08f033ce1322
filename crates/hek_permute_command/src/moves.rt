//! The moves of a run: `hek run --moves`.
use crate::auto::order_of_file;
use crate::given::{Given, program_in};
use crate::lines::step_lines_in;
use crate::one::leveled;
use crate::origin::own_sources;
use crate::play::{Played, played_in, put_told, told_in};
use hek_moves::put_move_lines;
use hek_permute::{Form, Moves, moves_of};
use hek_program::Program;
use hek_report::{HekFault, Lines, Printing, ScheduleFile, schedule_in, send};
use hek_rules::{Level, NoMemory, TxnId};
use std::alloc::Global;
use std::io::{Read, Write};

/// What is asked of a run's moves.
#[derive(Clone, Copy)]
pub struct MovesChoice {
    /// Whether the moves of FILE are begun and ended by themselves.
    pub auto: bool,
    pub level: Option<Level>,
    /// Whether a reason follows each move.
    pub told: bool,
    pub printing: Printing,
}

/// Writes the moves of the run of what is in a file: a line each, or one object. Answers the exit status.
pub fn moves_command<'a, R: Read + Drop, W: Write>(
    alloc: Global,
    file: ScheduleFile<R>,
    choice: MovesChoice,
    out: &mut W,
) -> Result<u8, HekFault<'a>> {
    let lines = step_lines_in(alloc, &file)?;
    let program = program_to_run(alloc, file, choice.auto)?;
    let mut said = said_of(alloc, &Given::of(&program), choice, lines.as_slice())?;
    send(&mut said, out)?;
    Ok(0)
}

/// The program in a file, or the schedule in it as one.
fn program_to_run<'a, R: Read + Drop>(
    alloc: Global,
    file: ScheduleFile<R>,
    auto: bool,
) -> Result<Program, HekFault<'a>> {
    if auto {
        return program_in(alloc, file);
    }
    let schedule = schedule_in(alloc, file)?;
    Ok(Program::plain(alloc, schedule))
}

/// What is written of a run's moves.
fn said_of<'a>(
    alloc: Global,
    given: &Given<'_>,
    choice: MovesChoice,
    lines: &[u64],
) -> Result<Vec<u8>, HekFault<'a>> {
    let at_level = leveled(alloc, given.schedule, choice.level, given.schedule.steps())?;
    let mut said = Vec::new(alloc);
    put_said(alloc, &given.over(&at_level), choice, lines, &mut said)?;
    Ok(said)
}

fn put_said<'a>(
    alloc: Global,
    given: &Given<'_>,
    choice: MovesChoice,
    lines: &[u64],
    said: &mut Vec<u8>,
) -> Result<(), HekFault<'a>> {
    match choice.printing {
        Printing::Text => put_lines(alloc, given, choice, lines, said),
        Printing::Json => put_object(alloc, given, choice, lines, said),
    }
}

fn put_object<'a>(
    alloc: Global,
    given: &Given<'_>,
    choice: MovesChoice,
    lines: &[u64],
    said: &mut Vec<u8>,
) -> Result<(), HekFault<'a>> {
    let mut objects = Lines::after(alloc, said);
    put_own_play(alloc, given, choice, lines, &mut objects)?;
    objects.put_back(said)?;
    Ok(())
}

fn put_lines<'a>(
    alloc: Global,
    given: &Given<'_>,
    choice: MovesChoice,
    lines: &[u64],
    said: &mut Vec<u8>,
) -> Result<(), HekFault<'a>> {
    let moves = moves_of(alloc, given.schedule, given.rules)?;
    let order = order_of_file(alloc, given, moves.as_slice())?;
    put_lines_of(alloc, given, choice, order.as_slice(), lines, said)
}

/// The lines of the run of an order.
fn put_lines_of<'a>(
    alloc: Global,
    given: &Given<'_>,
    choice: MovesChoice,
    order: &[TxnId],
    lines: &[u64],
    said: &mut Vec<u8>,
) -> Result<(), HekFault<'a>> {
    let played = run_of(alloc, given, choice.auto, order)?;
    let told = told_in(alloc, given, &played)?;
    put_move_lines(alloc, &played.schedule, &told, lines, choice.told, said)?;
    Ok(())
}

/// Puts the object of the run of a file's own order. Answers that order.
pub(crate) fn put_own_play<'a>(
    alloc: Global,
    given: &Given<'_>,
    choice: MovesChoice,
    lines: &[u64],
    out: &mut Lines,
) -> Result<Vec<TxnId>, HekFault<'a>> {
    let moves = moves_of(alloc, given.schedule, given.rules)?;
    let order = order_of_file(alloc, given, moves.as_slice())?;
    let whole = whole_order(alloc, moves.as_slice(), order.as_slice())?;
    put_run(
        alloc,
        given,
        choice,
        order.as_slice(),
        whole.as_slice(),
        lines,
        out,
    )?;
    Ok(whole)
}

/// Puts the object of the run of an order by events, which is `whole` by whole moves.
fn put_run<'a>(
    alloc: Global,
    given: &Given<'_>,
    choice: MovesChoice,
    order: &[TxnId],
    whole: &[TxnId],
    lines: &[u64],
    out: &mut Lines,
) -> Result<(), HekFault<'a>> {
    let played = run_of(alloc, given, choice.auto, order)?;
    put_told(alloc, given, &played, whole, choice.level, lines, out)?;
    Ok(())
}

/// The run: of the order of a file's moves, or of its steps as they stand.
fn run_of<'a>(
    alloc: Global,
    given: &Given<'_>,
    auto: bool,
    order: &[TxnId],
) -> Result<Played, HekFault<'a>> {
    if auto {
        return played_in(alloc, given, Form::Event, order);
    }
    let steps = given.schedule.steps();
    Ok(Played {
        schedule: leveled(alloc, given.schedule, None, steps)?,
        sources: own_sources(alloc, steps.len())?,
    })
}

/// The order by whole moves that one by events makes: of a transaction's moves there all but the first, which begins it, and the last two are left.
fn whole_order(alloc: Global, moves: &[Moves], order: &[TxnId]) -> Result<Vec<TxnId>, NoMemory> {
    let mut whole = Vec::new(alloc);
    for (at, txn) in order.iter().enumerate() {
        let (before, _) = order.split_at(at);
        let nth = times_in(before, *txn);
        let most = match moves.get(txn.number().saturating_sub(1) as usize) {
            Some(of_one) => of_one.steps().len().saturating_add(1),
            None => 0,
        };
        if nth > 0 && nth <= most {
            whole.push(*txn)?;
        }
    }
    Ok(whole)
}

/// How often a transaction is in an order.
fn times_in(order: &[TxnId], txn: TxnId) -> usize {
    let mut count = 0usize;
    for other in order {
        if *other == txn {
            count = count.saturating_add(1);
        }
    }
    count
}
