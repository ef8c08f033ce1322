//! Lines of a session: short words, and commands that only a session has.
use crate::breakpoint::Breakpoint;
use crate::condition::Condition;
use crate::name::{Meaning, Name, meant_by};
use crate::question::{Question, read_question};
use crate::reply_kind::{ReplyKind, kind_named};
use hek_debug::{Command, CommandLine, Mark, read_command};
use hek_rules::{NoMemory, Schedule, next_word, number};
use std::alloc::Global;
use std::str;

/// What a line of a session asks for.
#[derive(Clone, Copy)]
pub(crate) enum Typed {
    /// A line without words.
    Empty,
    Command(Command),
    /// To go to a position.
    Goto(u64),
    /// To go back to the position before at which a mark fits.
    Reverse,
    /// To set a breakpoint that only a session has.
    Break(Breakpoint),
    /// To set a breakpoint that goes away once a run stops at it.
    Tbreak(Breakpoint),
    /// To run, and to a step at which a breakpoint fits that isn't kept.
    Until(Breakpoint),
    /// To remove the mark with this index.
    Delete(u64),
    /// To answer the lines of a file.
    Source,
    Question(Question),
    /// The line is not a command.
    Unknown,
}

/// What a line asks for, with the names that a schedule gives.
pub(crate) fn read_typed(
    alloc: Global,
    schedule: &Schedule,
    line: &[u8],
) -> Result<Typed, NoMemory> {
    let Some((word, rest)) = next_word(line) else {
        return Ok(Typed::Empty);
    };
    let Meaning::One(text) = meant_by(word) else {
        return Ok(Typed::Unknown);
    };
    if let Some(typed) = own(schedule, text.name, rest) {
        return Ok(typed);
    }
    match text.name {
        Name::Tbreak => Ok(match breakpoint(alloc, schedule, rest)? {
            Some(breakpoint) => Typed::Tbreak(breakpoint),
            None => Typed::Unknown,
        }),
        Name::Until => Ok(match breakpoint(alloc, schedule, rest)? {
            Some(breakpoint) => Typed::Until(breakpoint),
            None => Typed::Unknown,
        }),
        name => {
            let whole = whole_line(alloc, name, text.word, rest)?;
            Ok(read_whole(schedule, whole.as_slice()))
        }
    }
}

/// What a line with a name and the rest asks for, if only a session has such lines.
fn own(schedule: &Schedule, name: Name, rest: &[u8]) -> Option<Typed> {
    match name {
        Name::Goto => Some(Typed::Goto(only_number(rest)?)),
        Name::Delete => Some(Typed::Delete(only_number(rest)?)),
        Name::Reverse => match next_word(rest) {
            Some(_) => None,
            None => Some(Typed::Reverse),
        },
        Name::Break => Some(Typed::Break(own_breakpoint(schedule, rest)?)),
        Name::Source => match only_word(rest) {
            Some(_) => Some(Typed::Source),
            None => None,
        },
        _ => None,
    }
}

/// The breakpoint that the words after `tbreak` and `until` name, as those after `break` do.
fn breakpoint(
    alloc: Global,
    schedule: &Schedule,
    rest: &[u8],
) -> Result<Option<Breakpoint>, NoMemory> {
    if let Some(own) = own_breakpoint(schedule, rest) {
        return Ok(Some(own));
    }
    let whole = whole_line(alloc, Name::Break, "break", rest)?;
    Ok(match read_command(schedule, whole.as_slice()) {
        CommandLine::Command(command) => mark_of(command),
        CommandLine::Empty | CommandLine::Unknown => None,
    })
}

/// The breakpoint that a command sets.
fn mark_of(command: Command) -> Option<Breakpoint> {
    match command {
        Command::Set(mark) => Some(breakpoint_of(mark)),
        _ => None,
    }
}

fn breakpoint_of(mark: Mark) -> Breakpoint {
    Breakpoint::Mark(mark)
}

/// The breakpoint that the words after `break` name, if only a session has it.
fn own_breakpoint(schedule: &Schedule, line: &[u8]) -> Option<Breakpoint> {
    let (word, rest) = next_word(line)?;
    if word == b"if".as_slice() {
        return Some(Breakpoint::If(Condition::read(schedule, rest)?));
    }
    if word == b"reply".as_slice() {
        return Some(Breakpoint::Reply(reply_kind(rest)?));
    }
    None
}

/// The word of a line that has no other.
pub(crate) fn only_word(line: &[u8]) -> Option<&[u8]> {
    let (word, rest) = next_word(line)?;
    match next_word(rest) {
        Some(_) => None,
        None => Some(word),
    }
}

/// The number that is the only word of a line.
fn only_number(line: &[u8]) -> Option<u64> {
    number(only_word(line)?)
}

/// The name of the file that a line `source FILE` names.
pub(crate) fn source_name(line: &[u8]) -> Option<&str> {
    let (_, rest) = next_word(line)?;
    str::from_utf8(only_word(rest)?).ok()
}

/// The kind of replies that the words after `break reply` name.
fn reply_kind(line: &[u8]) -> Option<ReplyKind> {
    let (first, rest) = next_word(line)?;
    let Some((second, rest)) = next_word(rest) else {
        return kind_named(first, None);
    };
    match next_word(rest) {
        Some(_) => None,
        None => kind_named(first, Some(second)),
    }
}

/// The line with its name as one whole word. `step` alone is `step 1`, `back` alone `back 1`, and `break N` is `break at N`.
fn whole_line(alloc: Global, name: Name, word: &str, rest: &[u8]) -> Result<Vec<u8>, NoMemory> {
    let mut line = Vec::new(alloc);
    line.extend_from_slice(word.as_bytes())?;
    line.extend_from_slice(between(name, rest).as_bytes())?;
    line.extend_from_slice(rest)?;
    Ok(line)
}

/// What is written between a name and the rest of its line.
fn between(name: Name, rest: &[u8]) -> &'static str {
    match name {
        Name::Step | Name::Back if next_word(rest).is_none() => " 1 ",
        Name::Break if only_number(rest).is_some() => " at ",
        _ => " ",
    }
}

/// What a line with whole words asks for.
fn read_whole(schedule: &Schedule, line: &[u8]) -> Typed {
    match read_command(schedule, line) {
        CommandLine::Command(command) => Typed::Command(command),
        CommandLine::Empty => Typed::Empty,
        CommandLine::Unknown => match read_question(schedule, line) {
            Some(question) => Typed::Question(question),
            None => Typed::Unknown,
        },
    }
}
