//! Sessions of the command `debug`, in which its commands are typed.
use crate::breakpoint::Breakpoint;
use crate::explain::{explain_sourced, explain_typed};
use crate::held::is_held;
use crate::moves::Moves;
use crate::pages::put_answer;
use crate::question::Question;
use crate::typed::{Typed, read_typed, source_name};
use hek_debug::{Command, Debugger, Mark};
use hek_report::{
    HekFault, INPUT, ScheduleFile, buffered, read_fault, read_text, report, schedule_in, send,
};
use hek_rules::{Schedule, next_line};
use std::alloc::Global;
use std::io;
use std::io::{BufRead, Read, Write};

/// The prompt before each line that is typed.
const PROMPT: &[u8] = b"hek> ";

/// The bytes of a byte order mark, which may be before the first line.
const BYTE_ORDER_MARK: &[u8] = b"\xEF\xBB\xBF";

/// Where the files are that `source` reads.
pub trait Sources {
    type File: Read + Drop;

    /// Opens the file with this name.
    fn open(&self, name: &str) -> io::Result<Self::File>;
}

/// Whether a session goes on after a line.
#[derive(Clone, Copy, PartialEq, Eq)]
enum Onward {
    Next,
    /// The line is not a command, or names a mark that isn't there.
    Unknown,
    /// The lines of a file come next.
    Source,
    Over,
}

/// Where a line stands: its number, and the file that it is of, if `source` reads it.
#[derive(Clone, Copy)]
struct Origin<'n> {
    file: Option<&'n str>,
    number: u64,
}

/// How a session speaks with who types.
#[derive(Clone, Copy, Debug, PartialEq, Eq)]
pub struct Manner {
    /// Whether a prompt is before each line, as at a terminal. An empty line then does the last `step` again.
    pub prompts: bool,
    /// Whether what is wrong with a line that is not a command is said after its fault.
    pub explains: bool,
}

/// A session: its debugger, and what its lines lean on.
#[derive(Drop)]
struct Session {
    moves: Moves,
    manner: Manner,
    /// How many steps the last `step` was to do; None before the first.
    last_step: Option<u64>,
    /// Whether a line was at fault.
    has_fault: bool,
}

/// Reads commands, one on each line, does each with the steps of the schedule in a file, and answers it before the next
/// is read. A line that isn't a command, or that runs out of memory, is reported in `faults`, and the session goes on.
/// `sources` has the files that `source` names. Answers the exit status: 1 if there was such a line.
pub fn debug_session<'a, R: Read + Drop, I: Read + Drop, S: Sources, W: Write, E: Write>(
    alloc: Global,
    file: ScheduleFile<R>,
    input: I,
    sources: &S,
    manner: Manner,
    out: &mut W,
    faults: &mut E,
) -> Result<u8, HekFault<'a>> {
    let mut lines = buffered(alloc, input)?;
    open_session(alloc, file, sources, manner, &mut lines, out, faults)
}

/// Opens a session, and answers its lines.
fn open_session<'a, R: Read + Drop, B: BufRead, S: Sources, W: Write, E: Write>(
    alloc: Global,
    file: ScheduleFile<R>,
    sources: &S,
    manner: Manner,
    lines: &mut B,
    out: &mut W,
    faults: &mut E,
) -> Result<u8, HekFault<'a>> {
    let mut session = Session::open(alloc, file, manner)?;
    hold_session(alloc, &mut session, sources, lines, out, faults)
}

impl Session {
    /// The exit status: 1 if a line was at fault.
    fn status(&self) -> u8 {
        if self.has_fault { 1 } else { 0 }
    }

    /// A session before the first step of the schedule in a file.
    fn open<'a, R: Read + Drop>(
        alloc: Global,
        file: ScheduleFile<R>,
        manner: Manner,
    ) -> Result<Session, HekFault<'a>> {
        let schedule = schedule_in(alloc, file)?;
        Ok(Session {
            moves: Moves {
                debugger: Debugger::open(alloc, schedule)?,
                held: Vec::new(alloc),
            },
            manner,
            last_step: None,
            has_fault: false,
        })
    }
}

/// Answers the lines of a session.
fn hold_session<'a, B: BufRead, S: Sources, W: Write, E: Write>(
    alloc: Global,
    session: &mut Session,
    sources: &S,
    lines: &mut B,
    out: &mut W,
    faults: &mut E,
) -> Result<u8, HekFault<'a>> {
    if session.manner.prompts {
        greet(&session.moves.debugger, out)?;
    }
    answer_lines(alloc, session, sources, lines, out, faults)
}

/// Says how many steps there are, and how to list the commands.
fn greet<'a, W: Write>(debugger: &Debugger, out: &mut W) -> Result<(), HekFault<'a>> {
    let steps = debugger.schedule().steps().len();
    match writeln!(out, "{steps} steps; help lists the commands") {
        Ok(()) => Ok(()),
        Err(_) => Err(HekFault::CannotWrite),
    }
}

/// Answers each line that is typed, until the input ends or `quit`.
fn answer_lines<'a, B: BufRead, S: Sources, W: Write, E: Write>(
    alloc: Global,
    session: &mut Session,
    sources: &S,
    lines: &mut B,
    out: &mut W,
    faults: &mut E,
) -> Result<u8, HekFault<'a>> {
    let prompts = session.manner.prompts;
    for number in 1..u64::MAX {
        if prompts {
            show(PROMPT, out)?;
        }
        let mut line = Vec::new(alloc);
        if let Err(error) = lines.read_until(b'\n', &mut line) {
            return Err(read_fault(error.kind(), INPUT));
        }
        let Some((text, _)) = next_line(line.as_slice()) else {
            return end(session, out);
        };
        let origin = Origin { file: None, number };
        if answer(alloc, session, sources, origin, text, out, faults)? == Onward::Over {
            return Ok(session.status());
        }
        // A line without an end is the last one: at a terminal another read would wait.
        if !line.ends_with(b"\n") {
            return end(session, out);
        }
    }
    Ok(session.status())
}

/// Answers a line that is typed, and the lines of the file that it names.
fn answer<'a, S: Sources, W: Write, E: Write>(
    alloc: Global,
    session: &mut Session,
    sources: &S,
    origin: Origin<'_>,
    line: &[u8],
    out: &mut W,
    faults: &mut E,
) -> Result<Onward, HekFault<'a>> {
    let line = without_mark(origin.number, line);
    let onward = answer_or_report(alloc, session, origin, line, out, faults)?;
    if onward != Onward::Source {
        return Ok(onward);
    }
    let Some(name) = source_name(line) else {
        report_line(alloc, session, origin, line, faults);
        return Ok(Onward::Next);
    };
    match text_of(alloc, sources, name) {
        Ok(text) => answer_file(alloc, session, name, text.as_slice(), out, faults),
        Err(fault) => {
            session.has_fault = true;
            report(fault, faults);
            Ok(Onward::Next)
        }
    }
}

/// The text of a file that `source` names.
fn text_of<'n, S: Sources>(
    alloc: Global,
    sources: &S,
    name: &'n str,
) -> Result<Vec<u8>, HekFault<'n>> {
    match sources.open(name) {
        Ok(file) => read_text(alloc, file, name),
        Err(error) => Err(read_fault(error.kind(), name)),
    }
}

/// Answers the lines of a file.
fn answer_file<'a, W: Write, E: Write>(
    alloc: Global,
    session: &mut Session,
    name: &str,
    text: &[u8],
    out: &mut W,
    faults: &mut E,
) -> Result<Onward, HekFault<'a>> {
    let mut rest = text;
    for number in 1..u64::MAX {
        let Some((line, after)) = next_line(rest) else {
            break;
        };
        rest = after;
        let line = without_mark(number, line);
        let file = Some(name);
        let origin = Origin { file, number };
        match answer_or_report(alloc, session, origin, line, out, faults)? {
            Onward::Over => return Ok(Onward::Over),
            Onward::Source => report_line(alloc, session, origin, line, faults),
            Onward::Next | Onward::Unknown => {}
        }
    }
    Ok(Onward::Next)
}

/// The line without a byte order mark, if it is the first.
fn without_mark(number: u64, line: &[u8]) -> &[u8] {
    if number > 1 {
        return line;
    }
    match line.strip_prefix(BYTE_ORDER_MARK) {
        Some(rest) => rest,
        None => line,
    }
}

/// Does what a line asks for, or reports that it is not a command, or that memory ran out.
fn answer_or_report<'a, W: Write, E: Write>(
    alloc: Global,
    session: &mut Session,
    origin: Origin<'_>,
    line: &[u8],
    out: &mut W,
    faults: &mut E,
) -> Result<Onward, HekFault<'a>> {
    match answer_line(alloc, session, line, out, faults) {
        Ok(Onward::Unknown) => {
            report_line(alloc, session, origin, line, faults);
            Ok(Onward::Next)
        }
        Err(HekFault::NoMemory) => {
            session.has_fault = true;
            report(HekFault::NoMemory, faults);
            Ok(Onward::Next)
        }
        other => other,
    }
}

/// Reports a line that is not a command, and says what is wrong with it.
fn report_line<E: Write>(
    alloc: Global,
    session: &mut Session,
    origin: Origin<'_>,
    line: &[u8],
    faults: &mut E,
) {
    session.has_fault = true;
    let number = origin.number;
    match origin.file {
        None => {
            report(HekFault::CommandLine(number), faults);
        }
        Some(name) => {
            let _ = writeln!(faults, "hek: {name}: command line {number}");
        }
    }
    explain(alloc, session, origin, line, faults);
}

/// At a terminal, ends the line of the prompt, so that what follows the session begins on a new one.
fn end<'a, W: Write>(session: &Session, out: &mut W) -> Result<u8, HekFault<'a>> {
    if session.manner.prompts {
        show(b"\n", out)?;
    }
    Ok(session.status())
}

/// After the fault of a line, says what is wrong with the line, or at a terminal how to list the commands.
fn explain<E: Write>(
    alloc: Global,
    session: &Session,
    origin: Origin<'_>,
    line: &[u8],
    faults: &mut E,
) {
    if session.manner.explains {
        let schedule = session.moves.debugger.schedule();
        explain_line(alloc, schedule, origin, line, faults);
    } else if session.manner.prompts {
        let _ = writeln!(faults, "help lists the commands");
    }
}

fn explain_line<E: Write>(
    alloc: Global,
    schedule: &Schedule,
    origin: Origin<'_>,
    line: &[u8],
    faults: &mut E,
) {
    match origin.file {
        None => explain_typed(alloc, schedule, line, faults),
        Some(name) => explain_sourced(alloc, schedule, name, origin.number, line, faults),
    }
}

/// Writes bytes and flushes them.
fn show<'a, W: Write>(bytes: &[u8], out: &mut W) -> Result<(), HekFault<'a>> {
    if out.write_all(bytes).is_err() || out.flush().is_err() {
        return Err(HekFault::CannotWrite);
    }
    Ok(())
}

/// Does what a line asks for, and flushes the answer.
fn answer_line<'a, W: Write, E: Write>(
    alloc: Global,
    session: &mut Session,
    line: &[u8],
    out: &mut W,
    faults: &mut E,
) -> Result<Onward, HekFault<'a>> {
    let typed = read_typed(alloc, session.moves.debugger.schedule(), line)?;
    let noted = typed;
    let from = session.moves.debugger.at();
    let onward = carry_out(alloc, session, typed, line, out)?;
    if out.flush().is_err() {
        return Err(HekFault::CannotWrite);
    }
    note_place(session, noted, from, faults);
    Ok(onward)
}

/// Does what a line asks for.
fn carry_out<'a, W: Write>(
    alloc: Global,
    session: &mut Session,
    typed: Typed,
    line: &[u8],
    out: &mut W,
) -> Result<Onward, HekFault<'a>> {
    match typed {
        Typed::Empty => again(alloc, session, line, out),
        Typed::Command(command) => do_command(alloc, session, command, out),
        Typed::Goto(to) => next_after(session.moves.goto(alloc, to, out)),
        Typed::Reverse => next_after(session.moves.reverse(alloc, out)),
        Typed::Break(breakpoint) => set(alloc, session, breakpoint, false, out),
        Typed::Tbreak(breakpoint) => set(alloc, session, breakpoint, true, out),
        Typed::Until(breakpoint) => next_after(session.moves.until(alloc, breakpoint, out)),
        Typed::Delete(index) => delete(alloc, session, index, out),
        Typed::Source => Ok(Onward::Source),
        Typed::Question(question) => answer_question(alloc, &session.moves, question, out),
        Typed::Unknown => Ok(Onward::Unknown),
    }
}

/// Sets a breakpoint.
fn set<'a, W: Write>(
    alloc: Global,
    session: &mut Session,
    breakpoint: Breakpoint,
    is_temporary: bool,
    out: &mut W,
) -> Result<Onward, HekFault<'a>> {
    next_after(
        session
            .moves
            .set_breakpoint(alloc, breakpoint, is_temporary, out),
    )
}

/// The session goes on after what was done.
fn next_after<'a>(done: Result<(), HekFault<'a>>) -> Result<Onward, HekFault<'a>> {
    match done {
        Ok(()) => Ok(Onward::Next),
        Err(fault) => Err(fault),
    }
}

/// Does a command of the debugger.
fn do_command<'a, W: Write>(
    alloc: Global,
    session: &mut Session,
    command: Command,
    out: &mut W,
) -> Result<Onward, HekFault<'a>> {
    let noted = command;
    session.last_step = step_after(session.last_step, noted);
    next_after(session.moves.command(alloc, command, out))
}

/// Takes a breakpoint or watch away, if there is one with this index.
fn delete<'a, W: Write>(
    alloc: Global,
    session: &mut Session,
    index: u64,
    out: &mut W,
) -> Result<Onward, HekFault<'a>> {
    if !is_held(session.moves.held.as_slice(), index) {
        return Ok(Onward::Unknown);
    }
    next_after(session.moves.delete(alloc, index, out))
}

/// At a terminal an empty line does the last `step` again. A line with a comment does nothing.
fn again<'a, W: Write>(
    alloc: Global,
    session: &mut Session,
    line: &[u8],
    out: &mut W,
) -> Result<Onward, HekFault<'a>> {
    if !session.manner.prompts || !is_blank(line) {
        return Ok(Onward::Next);
    }
    if let Some(count) = session.last_step {
        session.moves.command(alloc, Command::Step(count), out)?;
    }
    Ok(Onward::Next)
}

/// Whether a line has blanks alone.
fn is_blank(line: &[u8]) -> bool {
    line.iter()
        .all(|byte| matches!(*byte, b' ' | b'\t' | b'\r'))
}

/// How many steps an empty line is to do after a command.
fn step_after(last: Option<u64>, command: Command) -> Option<u64> {
    match command {
        Command::Step(count) => Some(count),
        _ => last,
    }
}

/// Says of a breakpoint at a position that no run stops there; `from` is the position before the line.
fn note_place<E: Write>(session: &Session, typed: Typed, from: u64, faults: &mut E) {
    let asked = typed;
    let Some(place) = place_of(asked) else {
        return;
    };
    let steps = session.moves.debugger.schedule().steps().len() as u64;
    if matches!(typed, Typed::Until(_)) && place <= from {
        let _ = writeln!(
            faults,
            "hek: note: {place} was not ahead of {from}: `goto {place}` goes there"
        );
    } else if place == 0 {
        let _ = writeln!(faults, "hek: note: no run stops at 0");
    } else if place > steps {
        let _ = writeln!(
            faults,
            "hek: note: there are {steps} steps, so no run stops at {place}"
        );
    }
}

/// The position of a breakpoint that a line sets.
fn place_of(typed: Typed) -> Option<u64> {
    match typed {
        Typed::Command(command) => place_of_command(command),
        Typed::Tbreak(breakpoint) | Typed::Until(breakpoint) => place_of_breakpoint(breakpoint),
        _ => None,
    }
}

fn place_of_command(command: Command) -> Option<u64> {
    match command {
        Command::Set(mark) => place_of_mark(mark),
        _ => None,
    }
}

fn place_of_breakpoint(breakpoint: Breakpoint) -> Option<u64> {
    match breakpoint {
        Breakpoint::Mark(mark) => place_of_mark(mark),
        _ => None,
    }
}

fn place_of_mark(mark: Mark) -> Option<u64> {
    match mark {
        Mark::At(place) => Some(place),
        _ => None,
    }
}

/// Answers a question.
fn answer_question<'a, W: Write>(
    alloc: Global,
    moves: &Moves,
    question: Question,
    out: &mut W,
) -> Result<Onward, HekFault<'a>> {
    let asked = question;
    if is_quit(question) {
        return Ok(Onward::Over);
    }
    let mut lines = Vec::new(alloc);
    let held = moves.held.as_slice();
    put_answer(alloc, &moves.debugger, held, asked, &mut lines)?;
    send(&mut lines, out)?;
    Ok(Onward::Next)
}

fn is_quit(question: Question) -> bool {
    matches!(question, Question::Quit)
}
