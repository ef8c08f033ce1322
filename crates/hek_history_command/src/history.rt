//! The command `history`.
use crate::choice::{Asked, Choice, effort_for};
use crate::explained::Explained;
use crate::numbers::Numbers;
use crate::report::{Answer, Kind, Report};
use crate::verdict::{NOT_KNOWN, worse};
use hek_history::{History, Status};
use hek_history_log::{Log, LogFault, read_log_watching};
use hek_ladder::{Binding, Scene, has_times};
use hek_report::{HekFault, buffered};
use std::alloc::Global;
use std::io::{Read, Write};

/// The exit status after a fault of the log.
const AT_FAULT: u8 = 4;

/// Reads the log in a file, and writes what is asked of it, with the order to `order_out` if one was found. Answers the exit status: 0 if it
/// is serializable, or all that is asked for holds, 1 if not, 3 if neither is known or there is nothing to judge, 4 after a fault of the
/// log. The line of the first fault goes to `faults`, and if the choice says so an explanation of each; so do notes.
pub fn history_command<'a, R: Read + Drop, W: Write, O: Write, E: Write>(
    alloc: Global,
    file: R,
    name: &'a str,
    choice: Choice,
    order_out: &mut Option<O>,
    out: &mut W,
    faults: &mut E,
) -> Result<u8, HekFault<'a>> {
    let mut input = buffered(alloc, file)?;
    let mut explained = Explained::new(alloc, name, choice.explains);
    match read_log_watching(alloc, &mut input, &mut explained) {
        Ok(log) => {
            note_what_lacks(&log, choice, faults);
            answer(alloc, log, choice, order_out, out)
        }
        Err(LogFault::NoMemory) => Err(HekFault::NoMemory),
        Err(LogFault::CannotRead) => Err(HekFault::CannotRead(name)),
        Err(fault) => {
            let _ = writeln!(faults, "hek: history: {fault}");
            explained.write(faults);
            Ok(AT_FAULT)
        }
    }
}

/// Notes that a log has nothing of what the words ask to bind.
fn note_what_lacks<E: Write>(log: &Log, choice: Choice, faults: &mut E) {
    if choice.wish.sessions == Some(true) && !log.has_sessions() {
        let _ = faults.write_all(b"hek: note: no transaction of the log is in a session\n");
    }
    let Some((versions, real)) = choice.wish.order else {
        return;
    };
    if real && !has_times(log) {
        let _ = faults.write_all(b"hek: note: no transaction of the log has a time in \"at\"\n");
    }
    if versions && !log.has_versions() && !has_ends(&log.history) {
        let _ = faults.write_all(
            b"hek: note: no transaction of the log has an end, and no write the number of its version\n",
        );
    }
}

/// Whether a transaction of a log has an end.
fn has_ends(history: &History) -> bool {
    history.transactions.iter().any(|one| one.end.is_some())
}

/// Judges a log, and writes what is asked of it.
fn answer<'a, W: Write, O: Write>(
    alloc: Global,
    log: Log,
    choice: Choice,
    order_out: &mut Option<O>,
    out: &mut W,
) -> Result<u8, HekFault<'a>> {
    let binding = Binding::of(&log, choice.wish);
    let effort = effort_for(choice.effort, &log.history);
    let scene = Scene::new(alloc, log, choice.asked.levels(), binding, effort)?;
    let mut report = Report {
        scene,
        choice,
        order_out,
        out,
        numbers: Numbers::new(alloc),
    };
    if !is_judged(&report.scene.log.history) {
        report.say(Answer::new(Kind::Verdict, None, "nothing to judge"))?;
        return Ok(NOT_KNOWN);
    }
    match choice.asked {
        Asked::Verdict => report.say_verdict(),
        Asked::One(promise) => report.say_one(promise),
        Asked::Levels => report.say_levels(),
        Asked::Guarantees => report.say_guarantees(),
        Asked::Both => {
            let first = report.say_levels()?;
            let second = report.say_guarantees()?;
            Ok(worse(first, second))
        }
    }
}

/// Whether something of a history is judged: a transaction that has committed. Those of unknown status need not take place.
fn is_judged(history: &History) -> bool {
    history
        .transactions
        .iter()
        .any(|one| one.status == Status::Committed)
}
