//! Programs, whose steps are computed: whether a file holds one, where a schedule is wanted, and what is wrong with one.
use crate::commands::Command;
use crate::said::Said;
use clap::ArgMatches;
use hek_asm::{AsmKind, assemble_text};
use hek_diagnostics::{Excerpt, explain_text};
use hek_program::{ComputedLine, ProgramFault, bare_text, computed_line, read_program};
use hek_report::{HekFault, ScheduleFile};
use hek_rules::{NoMemory, next_line};
use std::alloc::Global;
use std::io::Read;
use std::str;

/// Whether a file has a line that only a program has.
pub fn is_program<R: Read + Drop>(file: &ScheduleFile<R>) -> bool {
    match file {
        ScheduleFile::Text(text) => match str::from_utf8(text.as_slice()) {
            Ok(text) => computed_line(text).is_some(),
            Err(_) => false,
        },
        ScheduleFile::Image(_) => false,
    }
}

/// The file, unless it holds a program: a schedule's text has no such line, so the first one is at fault.
pub fn plain_file<'a, R: Read + Drop>(
    alloc: Global,
    file: ScheduleFile<R>,
) -> Result<ScheduleFile<R>, HekFault<'a>> {
    if is_program(&file) {
        if let ScheduleFile::Text(bytes) = &file {
            if let Ok(text) = str::from_utf8(bytes.as_slice()) {
                assemble_text(alloc, text)?;
            }
        }
    }
    Ok(file)
}

/// Whether the words of a command ask for a program's play.
fn takes_programs(command: Command, found: &ArgMatches<'_>) -> bool {
    match command {
        Command::Permute => true,
        Command::Page => {
            found.get_flag("auto") || found.get_flag("orders") || found.get_flag("levels")
        }
        Command::Run | Command::Debug => found.get_flag("auto"),
        Command::Check
        | Command::History
        | Command::Drive
        | Command::Threads
        | Command::Word
        | Command::Release
        | Command::Asm
        | Command::Dis
        | Command::Completions
        | Command::Man => false,
    }
}

/// Explains the fault of a line of a schedule text: of a line that computes nothing, or of one of a program where a schedule
/// is wanted.
pub fn explain_line(
    command: Command,
    found: &ArgMatches<'_>,
    name: &str,
    text: &[u8],
    line: u64,
    kind: AsmKind,
    said: &mut Said,
) {
    if takes_programs(command, found) {
        return match bare_of(said.alloc, text) {
            Ok(Some(bare)) => explain_bare(name, bare.as_slice(), line, kind, said),
            Ok(None) => explain_bare(name, text, line, kind, said),
            Err(NoMemory) => said.lack_memory(),
        };
    }
    match program_line(said.alloc, text, line) {
        Ok(Some(what)) => explain_computed(name, text, line, what, said),
        Ok(None) => explain_bare(name, text, line, kind, said),
        Err(NoMemory) => said.lack_memory(),
    }
}

/// Explains the fault of a line that computes nothing.
fn explain_bare<'t>(name: &'t str, text: &'t [u8], line: u64, kind: AsmKind, said: &mut Said) {
    let alloc = said.alloc;
    if let Ok(Some(found)) = explain_text(alloc, name, text, line, kind) {
        said.shown(format!(in alloc; "{found}"));
        said.diagnostic(name, &found.first);
    }
}

/// What the line of this number has that only a program has, if the text is a program and this is its first such line.
fn program_line(alloc: Global, text: &[u8], line: u64) -> Result<Option<&'static str>, NoMemory> {
    let Ok(text) = str::from_utf8(text) else {
        return Ok(None);
    };
    let Some(ComputedLine { number, what }) = computed_line(text) else {
        return Ok(None);
    };
    match read_program(alloc, text) {
        Ok(_) if number == line => Ok(Some(what)),
        Err(ProgramFault::NoMemory) => Err(NoMemory),
        _ => Ok(None),
    }
}

/// A program's text without what its lines compute; None of a schedule's.
pub fn bare_of(alloc: Global, text: &[u8]) -> Result<Option<Vec<u8>>, NoMemory> {
    let Ok(text) = str::from_utf8(text) else {
        return Ok(None);
    };
    if computed_line(text).is_none() {
        return Ok(None);
    }
    match bare_text(alloc, text) {
        Ok(bare) => Ok(Some(bare)),
        Err(ProgramFault::NoMemory) => Err(NoMemory),
        Err(_) => Ok(None),
    }
}

/// Shows the place of a program's fault.
pub fn explain_place(
    name: &str,
    text: &[u8],
    number: u64,
    column: u64,
    wanted: &str,
    said: &mut Said,
) {
    let Some(line) = line_at(text, number) else {
        return;
    };
    let start = (column as usize).saturating_sub(1).min(line.len());
    let end = end_of_token(line, start);
    said.excerpt(name, number, Excerpt { line, start, end });
    said.message("@ is wanted here", &[wanted]);
}

/// Shows the line of a program where a schedule is wanted, and says what takes it.
fn explain_computed(name: &str, text: &[u8], number: u64, what: &str, said: &mut Said) {
    let Some(line) = line_at(text, number) else {
        return;
    };
    let start = 0;
    let end = line.len();
    said.excerpt(name, number, Excerpt { line, start, end });
    said.message("@: the file is a program", &[what]);
    said.text(
        "  | `hek permute` plays every order of a program; `--auto` of run, debug and page plays one\n",
    );
}

/// The line of this number, the first being 1.
fn line_at(text: &[u8], number: u64) -> Option<&[u8]> {
    let mut rest = text;
    for _ in 1..number {
        let (_, later) = next_line(rest)?;
        rest = later;
    }
    let (line, _) = next_line(rest)?;
    Some(line)
}

/// Whether a byte ends the token before it: a blank, or one that begins another token.
fn ends_token(byte: u8) -> bool {
    matches!(
        byte,
        b' ' | b'\t' | b'\r' | b'@' | b'+' | b'-' | b'*' | b'=' | b'!' | b'<' | b'>'
    )
}

/// Where the token ends that begins at a place of a line.
fn end_of_token(line: &[u8], start: usize) -> usize {
    for (place, byte) in line.iter().enumerate() {
        if place > start && ends_token(*byte) {
            return place;
        }
    }
    line.len()
}
