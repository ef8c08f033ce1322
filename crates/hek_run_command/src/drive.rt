//! The command `drive`: a machine that reads its events one on each line, and answers each before it reads the next.
ghost use Rattle.std.specs.Prelude.{◌≡◌, ◌≤◌, ◌++◌, [], false, length, IfOk, OnOk};
ghost use Rattle.std.specs.Io.KnownBytes.{Appends};
ghost use Rattle.hek_rules.specs.Plan.{IsStep};
ghost use Rattle.hek_run_command.specs.Driven.{answer_text, HasAnswers, IsAnswered};

use crate::driven_line::read_event;
use crate::printed::{put_fault, put_state};
use crate::telling::{Telling, tell_step};
use hek_diagnostics::explain_event;
use hek_machine::Machine;
use hek_report::{
    HekFault, INPUT, Printing, ScheduleFile, buffered, read_fault, schedule_in, send,
};
use hek_rules::{Event, NoMemory, Schedule, next_line, next_word};
use hek_step_report::Extras;
use std::alloc::Global;
use std::io::{BufRead, Read, Write};

/// What is written beside the answer to each line.
#[derive(Clone, Copy, Debug, PartialEq, Eq)]
pub struct Driving {
    /// What is asked for with each step.
    pub extras: Extras,
    /// Whether the state of the machine follows each answer.
    pub state: bool,
    /// Whether an empty line ends what is written for a line of the input.
    pub ends: bool,
    /// Whether a prompt is before each line of the input, as at a terminal.
    pub prompts: bool,
    /// Whether the lines are typed: `help` and `quit` are answered then.
    pub is_typed: bool,
    /// Whether what is wrong with a line at fault is said after its answer.
    pub explains: bool,
    pub printing: Printing,
}

/// The bytes of a byte order mark, which may be before the first line.
const BYTE_ORDER_MARK: &[u8] = b"\xEF\xBB\xBF";

/// The prompt before each line that is typed.
const PROMPT: &[u8] = b"hek> ";

/// What `help` prints, where lines are typed.
const HELP: &str = "\
A line is an event: the name of a transaction, and
  begin  read KEY  scan BUCKET  insert KEY VALUE  update KEY VALUE  delete KEY
  finish  precommit  release  commit  fail  stamp  end
or `detect` alone. `help` prints this, `quit` ends.
";

/// Reads events, one on each line, does each on the machine of the rows and transactions in a file, and answers it at
/// once: with its line of the trace, and what is asked for with it. The answer to a line at fault is its number and
/// its fault; such a line changes nothing, and `faults` says what is wrong with it where that is asked for. Answers the
/// exit status: 1 if a line was at fault.
pub fn drive_command<'a, R: Read + Drop, I: Read + Drop, W: Write, E: Write>(
    alloc: Global,
    file: ScheduleFile<R>,
    input: I,
    driving: Driving,
    out: &mut W,
    faults: &mut E,
) -> Result<u8, HekFault<'a>>
    ensures status { IfOk result (λ status. status ≤ 1) }
    ensures written { OnOk result (driving.prompts ≡ false → HasAnswers driving.ends (W.contents out.old) (W.contents out.new)) }
{
    let schedule = schedule_in(alloc, file)?;
    let mut input = buffered(alloc, input)?;
    drive_schedule(alloc, &schedule, driving, &mut input, out, faults)
}

/// Greets, and answers each line of the input, on the machine of a schedule's rows and transactions.
fn drive_schedule<'a, B: BufRead, W: Write, E: Write>(
    alloc: Global,
    schedule: &Schedule,
    driving: Driving,
    input: &mut B,
    out: &mut W,
    faults: &mut E,
) -> Result<u8, HekFault<'a>>
    ensures status { IfOk result (λ status. status ≤ 1) }
    ensures written { OnOk result (driving.prompts ≡ false → HasAnswers driving.ends (W.contents out.old) (W.contents out.new)) }
{
    let mut machine = Machine::load(alloc, schedule)?;
    let mut telling = Telling::new(alloc, schedule, driving.extras, driving.printing);
    greet(driving.prompts, schedule, out)?;
    drive(
        alloc,
        &mut telling,
        &mut machine,
        driving,
        input,
        out,
        faults,
    )
}

/// At a terminal, says how many transactions there are, and what a line is.
fn greet<'a, W: Write>(prompts: bool, schedule: &Schedule, out: &mut W) -> Result<(), HekFault<'a>>
    ensures { prompts ≡ false → W.contents out.new ≡ W.contents out.old }
{
    if !prompts {
        return Ok(());
    }
    let count = schedule.txn_count();
    match writeln!(
        out,
        "transactions: {count}; a line is an event, as in a read 10"
    ) {
        Ok(()) => Ok(()),
        Err(_) => Err(HekFault::CannotWrite),
    }
}

#[tactic(auto, using(crate::proofs::DrivenLaws::none_yet, crate::proofs::DrivenLaws::silent, crate::proofs::DrivenLaws::one_more))]
fn drive<'a, B: BufRead, W: Write, E: Write>(
    alloc: Global,
    telling: &mut Telling<'_>,
    machine: &mut Machine,
    driving: Driving,
    input: &mut B,
    out: &mut W,
    faults: &mut E,
) -> Result<u8, HekFault<'a>>
    ensures status { IfOk result (λ status. status ≤ 1) }
    ensures written { OnOk result (driving.prompts ≡ false → HasAnswers driving.ends (W.contents out.old) (W.contents out.new)) }
{
    let mut status = 0;
    let mut is_ended = false;
    for number in 1..u64::MAX {
        let asked = if is_ended { b"\n".as_slice() } else { PROMPT };
        prompt(driving.prompts, asked, out)?;
        if is_ended {
            return Ok(status);
        }
        let mut line = Vec::new(alloc);
        if let Err(error) = input.read_until(b'\n', &mut line) {
            return Err(read_fault(error.kind(), INPUT));
        }
        let Some(text) = line_to_answer(driving, number, line.as_slice()) else {
            prompt(driving.prompts, b"\n", out)?;
            return Ok(status);
        };
        let is_fault = answer_line(alloc, telling, machine, driving, number, text, out)?;
        status = status_after(status, is_fault);
        say_more(
            alloc,
            telling.schedule,
            driving,
            is_fault,
            number,
            text,
            faults,
        );
        // A line without an end is the last one: at a terminal another read would wait.
        is_ended = !line.ends_with(b"\n");
    }
    Ok(status)
}

/// The line that is to be answered, without a byte order mark before the first. None at the end of the input, and for
/// `quit` where it is typed.
fn line_to_answer(driving: Driving, number: u64, bytes: &[u8]) -> Option<&[u8]> {
    let (line, _) = next_line(bytes)?;
    if driving.is_typed && is_only(line, b"quit") {
        return None;
    }
    if number > 1 {
        return Some(line);
    }
    match line.strip_prefix(BYTE_ORDER_MARK) {
        Some(rest) => Some(rest),
        None => Some(line),
    }
}

/// Whether a line has this word alone.
fn is_only(line: &[u8], wanted: &[u8]) -> bool {
    match next_word(line) {
        Some((word, rest)) => word == wanted && next_word(rest).is_none(),
        None => false,
    }
}

/// After the answer to a line, says what is wrong with it, or what `help` asks for.
fn say_more<E: Write>(
    alloc: Global,
    schedule: &Schedule,
    driving: Driving,
    is_fault: bool,
    number: u64,
    line: &[u8],
    faults: &mut E,
) {
    if driving.is_typed && is_only(line, b"help") {
        let _ = write!(faults, "{HELP}");
    } else if is_fault && driving.explains {
        if let Ok(Some(found)) = explain_event(alloc, INPUT, schedule, line, number) {
            let _ = write!(faults, "{found}");
        }
    }
}

/// Does what a line asks for, and writes the answer. Answers whether the line is at fault.
#[tactic(auto, using(crate::proofs::DrivenLaws::one_answered))]
fn answer_line<'a, W: Write>(
    alloc: Global,
    telling: &mut Telling<'_>,
    machine: &mut Machine,
    driving: Driving,
    number: u64,
    line: &[u8],
    out: &mut W,
) -> Result<bool, HekFault<'a>>
    ensures { OnOk result (IsAnswered driving.ends (W.contents out.old) (W.contents out.new)) }
{
    let answer = answer_to(alloc, telling, machine, driving, number, line)?;
    write_answer(alloc, &answer, driving.ends, out)?;
    Ok(answer.is_fault)
}

/// The exit status after one more answer.
fn status_after(status: u8, is_fault: bool) -> u8
    requires { status ≤ 1 }
    ensures { result ≤ 1 }
{
    if is_fault { 1 } else { status }
}

/// At a terminal, writes what belongs to the prompt, and flushes it.
fn prompt<'a, W: Write>(prompts: bool, text: &[u8], out: &mut W) -> Result<(), HekFault<'a>>
    ensures { OnOk result (prompts ≡ false → Appends (W.contents out.old) (W.contents out.new) []) }
{
    if !prompts {
        return Ok(());
    }
    if out.write_all(text).is_err() || out.flush().is_err() {
        return Err(HekFault::CannotWrite);
    }
    Ok(())
}

/// What a line of the input is answered with: its line of the trace with what is under it, or its fault; and the state
/// of the machine then, if it is asked for. A line without words has neither.
#[derive(Drop)]
struct Answer {
    told: Vec<u8>,
    state: Vec<u8>,
    is_fault: bool,
}

/// Does what a line asks for, and answers it.
fn answer_to(
    alloc: Global,
    telling: &mut Telling<'_>,
    machine: &mut Machine,
    driving: Driving,
    number: u64,
    line: &[u8],
) -> Result<Answer, NoMemory> {
    let mut answer = Answer {
        told: Vec::new(alloc),
        state: Vec::new(alloc),
        is_fault: false,
    };
    if driving.is_typed && is_only(line, b"help") {
        return Ok(answer);
    }
    match read_event(telling.schedule, line) {
        Ok(None) => return Ok(answer),
        Ok(Some(event)) => tell_placed(alloc, telling, machine, &event, &mut answer.told)?,
        Err(kind) => {
            let printing = telling.printing;
            put_fault(
                alloc,
                printing,
                telling.schedule,
                number,
                line,
                kind,
                &mut answer.told,
            )?;
            answer.is_fault = true;
        }
    }
    if driving.state {
        let (printing, schedule) = (telling.printing, telling.schedule);
        put_state(alloc, printing, schedule, machine, &mut answer.state)?;
    }
    Ok(answer)
}

/// Writes an answer, the state after it, and the empty line that ends both, if it is asked for. Flushes them.
fn write_answer<'a, W: Write>(
    alloc: Global,
    answer: &Answer,
    ends: bool,
    out: &mut W,
) -> Result<(), HekFault<'a>>
    ensures { OnOk result (Appends (W.contents out.old) (W.contents out.new) (answer_text ends answer.now.told.items answer.now.state.items)) }
{
    let mut text = Vec::new(alloc);
    put_answer(answer, ends, &mut text)?;
    send(&mut text, out)?;
    match out.flush() {
        Ok(()) => Ok(()),
        Err(_) => Err(HekFault::CannotWrite),
    }
}

/// Appends an answer, the state after it, and the empty line that ends both, if it is asked for.
fn put_answer(answer: &Answer, ends: bool, text: &mut Vec<u8>) -> Result<(), NoMemory>
    ensures { OnOk result (text.new.items ≡ text.old.items ++ answer_text ends answer.now.told.items answer.now.state.items) }
{
    text.extend_from_slice(answer.told.as_slice())?;
    text.extend_from_slice(answer.state.as_slice())?;
    if ends {
        text.push(b'\n')?;
    }
    Ok(())
}

/// Does an event that could be a step of the schedule.
fn tell_placed(
    alloc: Global,
    telling: &mut Telling<'_>,
    machine: &mut Machine,
    event: &Event,
    lines: &mut Vec<u8>,
) -> Result<(), NoMemory>
    requires { IsStep telling.old.schedule.now.buckets (length telling.old.schedule.now.txns) event.now }
{
    if let Event::Scan(_, bucket) = *event {
        if bucket >= machine.buckets() {
            return Ok(());
        }
    }
    tell_step(alloc, telling, machine, event, lines)
}
