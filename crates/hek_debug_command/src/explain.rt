//! The lines under a fault that say what is wrong with a line of commands, what is wanted, and what is meant.
use crate::debug::{commands_of_text, debug};
use crate::mistake::{Meant, Medium, Mistake, Wanted, mistake_of};
use crate::name::{NAMES, NameText, Place};
use crate::stop_text::put_text;
use hek_diagnostics::nearest_word;
use hek_report::{HekFault, ScheduleFile, put, report, schedule_in};
use hek_rules::{NoMemory, Schedule, TxnId, next_line};
use std::alloc::Global;
use std::io::{Read, Write};
use std::str;

/// The longest line that is shown, in bytes.
const LONGEST: usize = 200;

/// How many names of transactions are shown at most.
const MOST_NAMES: usize = 20;

/// A text of commands, and the name that it has on the command line.
#[derive(Clone, Copy)]
pub struct CommandFile<'t> {
    pub name: &'t str,
    pub text: &'t [u8],
}

/// Does what `debug_command` does. If a line is not a command, also reports it, with what is wrong with it, in `faults`.
pub fn explained_command<'a, R: Read + Drop, W: Write, E: Write>(
    alloc: Global,
    file: ScheduleFile<R>,
    commands: CommandFile<'_>,
    out: &mut W,
    faults: &mut E,
) -> Result<u8, HekFault<'a>> {
    let Ok(text) = str::from_utf8(commands.text) else {
        return Err(HekFault::NotText);
    };
    let schedule = schedule_in(alloc, file)?;
    let read = match commands_of_text(alloc, &schedule, text) {
        Ok(read) => read,
        Err(fault) => return explain_fault(alloc, &schedule, commands, fault, faults),
    };
    debug(alloc, schedule, read.as_slice(), out)?;
    Ok(0)
}

/// Reports a line that isn't a command, with what is wrong with it. Another fault is the answer.
fn explain_fault<'a, E: Write>(
    alloc: Global,
    schedule: &Schedule,
    commands: CommandFile<'_>,
    fault: HekFault<'a>,
    faults: &mut E,
) -> Result<u8, HekFault<'a>> {
    let HekFault::CommandLine(number) = fault else {
        return Err(fault);
    };
    let status = report(fault, faults);
    explain_in_file(alloc, schedule, commands, number, faults);
    Ok(status)
}

/// Says what is wrong with the line of this number, after the place where it is.
fn explain_in_file<E: Write>(
    alloc: Global,
    schedule: &Schedule,
    commands: CommandFile<'_>,
    number: u64,
    faults: &mut E,
) {
    let Some(line) = line_at(commands.text, number) else {
        return;
    };
    if let Some(mistake) = mistake_of(schedule, line, Medium::File) {
        explain_at(
            alloc,
            schedule,
            commands.name,
            number,
            line,
            mistake,
            faults,
        );
    }
}

/// Says what is wrong with a line of a file that a session reads, after the place where it is.
pub(crate) fn explain_sourced<E: Write>(
    alloc: Global,
    schedule: &Schedule,
    name: &str,
    number: u64,
    line: &[u8],
    faults: &mut E,
) {
    if let Some(mistake) = mistake_of(schedule, line, Medium::Session) {
        explain_at(alloc, schedule, name, number, line, mistake, faults);
    }
}

/// Writes the place of a mistake, and its lines.
fn explain_at<E: Write>(
    alloc: Global,
    schedule: &Schedule,
    name: &str,
    number: u64,
    line: &[u8],
    mistake: Mistake<'_>,
    faults: &mut E,
) {
    let column = count_chars(line, mistake.word.start).saturating_add(1);
    let _ = writeln!(faults, "  {name}:{number}:{column}");
    explain(alloc, schedule, line, mistake, faults);
}

/// Says what is wrong with a line that was typed.
pub(crate) fn explain_typed<E: Write>(
    alloc: Global,
    schedule: &Schedule,
    line: &[u8],
    faults: &mut E,
) {
    if let Some(mistake) = mistake_of(schedule, line, Medium::Session) {
        explain(alloc, schedule, line, mistake, faults);
    }
}

/// The line of a text with this number, from 1.
fn line_at(text: &[u8], number: u64) -> Option<&[u8]> {
    let mut rest = text;
    for _ in 1..number {
        let Some((_, after)) = next_line(rest) else {
            return None;
        };
        rest = after;
    }
    let (line, _) = next_line(rest)?;
    Some(line)
}

/// How many characters of UTF-8 begin before byte `end`.
fn count_chars(line: &[u8], end: usize) -> usize {
    let mut count = 0usize;
    for (place, byte) in line.iter().enumerate() {
        if place < end && begins_char(*byte) {
            count = count.saturating_add(1);
        }
    }
    count
}

fn begins_char(byte: u8) -> bool {
    byte & 0xC0 != 0x80
}

/// Writes the lines of a mistake. Without memory, writes none.
fn explain<E: Write>(
    alloc: Global,
    schedule: &Schedule,
    line: &[u8],
    mistake: Mistake<'_>,
    faults: &mut E,
) {
    let mut lines = Vec::new(alloc);
    if put_explanation(alloc, schedule, line, mistake, &mut lines).is_ok() {
        let _ = faults.write_all(lines.as_slice());
    }
}

fn put_explanation(
    alloc: Global,
    schedule: &Schedule,
    line: &[u8],
    mistake: Mistake<'_>,
    lines: &mut Vec<u8>,
) -> Result<(), NoMemory> {
    if !is_shown(line) {
        return put_text("  | help lists the commands\n", lines);
    }
    put_shown(line, mistake, lines)?;
    put_form(mistake, mistake.form, lines)?;
    put_text("\n  | wanted: ", lines)?;
    put_wanted(schedule, mistake, lines)?;
    put_text("\n", lines)?;
    put_meant(alloc, schedule, mistake, lines)
}

/// Whether a line can be shown: it is short, UTF-8, and has no control characters but tabs and carriage returns.
fn is_shown(line: &[u8]) -> bool {
    line.len() <= LONGEST
        && str::from_utf8(line).is_ok()
        && !line.iter().any(|byte| is_control(*byte))
}

fn is_control(byte: u8) -> bool {
    (byte < b' ' && byte != b'\t' && byte != b'\r') || byte == 0x7F
}

/// The line, and a caret under each character of the word at fault.
fn put_shown(line: &[u8], mistake: Mistake<'_>, lines: &mut Vec<u8>) -> Result<(), NoMemory> {
    put_text("  | ", lines)?;
    for byte in line {
        put_byte(if *byte == b'\r' { b' ' } else { *byte }, lines)?;
    }
    put_text("\n  | ", lines)?;
    let end = mistake.word.start.saturating_add(mistake.word.text.len());
    for (place, byte) in line.iter().enumerate() {
        if place < end && begins_char(*byte) {
            put_byte(under(*byte, place >= mistake.word.start), lines)?;
        }
    }
    put_text(" ", lines)
}

/// What is under a character of the line.
fn under(byte: u8, is_fault: bool) -> u8 {
    if is_fault {
        b'^'
    } else if byte == b'\t' {
        b'\t'
    } else {
        b' '
    }
}

fn put_byte(byte: u8, lines: &mut Vec<u8>) -> Result<(), NoMemory> {
    lines.push(byte)?;
    Ok(())
}

/// A sentence or another form of a mistake, with its words in place of letters.
fn put_form(mistake: Mistake<'_>, form: &str, lines: &mut Vec<u8>) -> Result<(), NoMemory> {
    for byte in form.as_bytes() {
        match *byte {
            b'@' => {
                put_byte(b'`', lines)?;
                lines.extend_from_slice(mistake.word.text)?;
                put_byte(b'`', lines)?;
            }
            b'~' => lines.extend_from_slice(mistake.word.text)?,
            b'$' => lines.extend_from_slice(after_first(mistake.word.text))?,
            b'%' => put_text(mistake.command, lines)?,
            b'^' => lines.extend_from_slice(mistake.second)?,
            other => put_byte(other, lines)?,
        }
    }
    Ok(())
}

/// The bytes after the first.
fn after_first(bytes: &[u8]) -> &[u8] {
    match bytes {
        [_, rest @ ..] => rest,
        [] => bytes,
    }
}

fn put_wanted(
    schedule: &Schedule,
    mistake: Mistake<'_>,
    lines: &mut Vec<u8>,
) -> Result<(), NoMemory> {
    match mistake.wanted {
        Wanted::Form(form) => put_form(mistake, form, lines),
        Wanted::Among(words) => put(write!(lines, "{words}")),
        Wanted::Names => put_names(schedule, lines),
        Wanted::Commands(medium) => put_commands(medium, b"", lines),
        Wanted::Longer => put_commands(Medium::Session, mistake.word.text, lines),
    }
}

/// The first names of transactions.
fn put_names(schedule: &Schedule, lines: &mut Vec<u8>) -> Result<(), NoMemory> {
    let count = schedule.txn_count();
    for place in 0..count.min(MOST_NAMES) {
        if place > 0 {
            put_byte(b' ', lines)?;
        }
        put_text(name_at(schedule, place), lines)?;
    }
    if count > MOST_NAMES {
        return put_text(" ..", lines);
    }
    Ok(())
}

/// The name of the transaction at a place, from 0.
fn name_at(schedule: &Schedule, place: usize) -> &str {
    if place >= schedule.txn_count() {
        return "";
    }
    schedule.name_of(TxnId::new(place as u64 + 1))
}

/// The words of the commands that begin with these bytes.
fn put_commands(medium: Medium, front: &[u8], lines: &mut Vec<u8>) -> Result<(), NoMemory> {
    let mut is_first = true;
    for text in NAMES {
        if is_had(text, medium) && text.word.as_bytes().starts_with(front) {
            if !is_first {
                put_byte(b' ', lines)?;
            }
            is_first = false;
            put_text(text.word, lines)?;
        }
    }
    Ok(())
}

/// Whether a session, or a file of commands, has a command.
fn is_had(text: &NameText, medium: Medium) -> bool {
    medium == Medium::Session || text.place == Place::Files
}

/// What is meant, if that is known.
fn put_meant(
    alloc: Global,
    schedule: &Schedule,
    mistake: Mistake<'_>,
    lines: &mut Vec<u8>,
) -> Result<(), NoMemory> {
    match mistake.meant {
        Meant::Nothing => Ok(()),
        Meant::Form(form) => {
            put_text("  | did you mean `", lines)?;
            put_form(mistake, form, lines)?;
            put_text("`?\n", lines)
        }
        Meant::Nearest => put_nearest(alloc, schedule, mistake, lines),
    }
}

/// The nearest of the words that are wanted, if one is near.
fn put_nearest(
    alloc: Global,
    schedule: &Schedule,
    mistake: Mistake<'_>,
    lines: &mut Vec<u8>,
) -> Result<(), NoMemory> {
    let Ok(word) = str::from_utf8(mistake.word.text) else {
        return Ok(());
    };
    let mut words = Vec::new(alloc);
    gather(schedule, mistake.wanted, &mut words)?;
    match nearest_word(alloc, word, words.as_slice()) {
        None => Ok(()),
        Some(meant) => {
            put_text("  | did you mean `", lines)?;
            put_text(meant, lines)?;
            put_text("`?\n", lines)
        }
    }
}

/// The words that are wanted.
fn gather<'s>(
    schedule: &'s Schedule,
    wanted: Wanted,
    words: &mut Vec<&'s str>,
) -> Result<(), NoMemory> {
    match wanted {
        Wanted::Among(known) => known.add_to(words)?,
        Wanted::Names => {
            for place in 0..schedule.txn_count() {
                words.push(name_at(schedule, place))?;
            }
        }
        Wanted::Commands(medium) => {
            for text in NAMES {
                if is_had(text, medium) {
                    words.push(text.word)?;
                }
            }
        }
        Wanted::Form(_) | Wanted::Longer => {}
    }
    Ok(())
}
