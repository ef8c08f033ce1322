//! The program: from the words of a command line to the command that answers them.
use crate::advice::advice_of;
use crate::arguments::read_words;
use crate::call::{Answer, Call};
use crate::colour::Paint;
use crate::commands::{Command, meant_command, reader_of};
use crate::disk::{Disk, Output};
use crate::explain::status_at_fault;
use crate::help::wrapped;
use crate::kept::Kept;
use crate::lock_words::advise_sign;
use crate::manual::manual_page;
use crate::said::pair;
use crate::settings::{CommandWords, Settings};
use crate::shells::completions;
use crate::streams::Stream;
use clap::error::ErrorKind as ClapKind;
use clap::{ArgMatches, Error};
use hek_debug_command::put_words;
use hek_report::{HekFault, Text, report, send};
use hek_rules::NoMemory;
use std::alloc::Global;
use std::convert::AsStr;
use std::env;
use std::env::Env;
use std::io::{ErrorKind, IsTerminal, Read, Write};
use std::sync::Wait;
use std::thread::Threads;

/// What a command line is answered with beside standard input: the files, the streams that are written to, and what is asked for
/// whatever the command.
#[derive(Drop)]
pub struct Surroundings<'s, D: Disk, W: Write, E: Write> {
    pub disk: &'s D,
    pub out: &'s mut W,
    pub faults: &'s mut E,
    pub settings: Settings,
}

/// Does what the program's arguments ask for, with the threads of `system`. Reads `input` for the argument `-`, writes to `out` and
/// `faults`, and answers the exit status: 0; 1 after a fault; 2 for a bad command line; and, of a command that answers yes or no, 1
/// for no, 3 if that isn't known, and 4 after a fault.
pub fn program<
    R: Env + Alloc<A = Global>,
    T: Threads + Wait + Sync,
    D: Disk,
    I: Read + IsTerminal + Drop,
    W: Write + IsTerminal,
    E: Write + IsTerminal,
>(rt: &R, system: &T, input: I, given: Surroundings<'_, D, W, E>) -> u8 {
    match words_of(rt) {
        Ok(words) => given.answer(system, rt.alloc(), input, words.as_slice()),
        // Of no command is known that 1 isn't an answer of it.
        Err(HekFault::NoMemory) => status_at_fault(report(HekFault::NoMemory, given.faults), true),
        Err(fault) => {
            let status = report(fault, given.faults);
            if given
                .settings
                .explaining
                .is_wanted(given.faults.is_terminal())
            {
                let _ = writeln!(given.faults, "  | an argument is not UTF-8");
            }
            status
        }
    }
}

/// The arguments, the program's name first.
fn words_of<'a, R: Env + Alloc<A = Global>>(rt: &R) -> Result<Vec<String>, HekFault<'a>> {
    let words = env::args(rt).map_err(|error| fault_of(error.kind()))?;
    words.collect(rt.alloc()).map_err(|_| HekFault::NoMemory)
}

/// Why the arguments can't be read: out of memory, or one of them isn't UTF-8.
fn fault_of<'a>(kind: ErrorKind) -> HekFault<'a> {
    match kind {
        ErrorKind::OutOfMemory => HekFault::NoMemory,
        _ => HekFault::BadArgument,
    }
}

impl<D: Disk, W: Write + IsTerminal, E: Write + IsTerminal> Surroundings<'_, D, W, E> {
    /// Answers the words of a command line, the program's name first, with standard input and the threads of a system.
    pub fn answer<T: Threads + Wait + Sync, I: Read + IsTerminal + Drop, S: AsStr>(
        self,
        system: &T,
        alloc: Global,
        input: I,
        words: &[S],
    ) -> u8 {
        let Surroundings {
            disk,
            out,
            faults,
            settings,
        } = self;
        let asks = asks_question(words);
        let Ok(left) = CommandWords::of(alloc, words, settings) else {
            return status_at_fault(report(HekFault::NoMemory, faults), asks);
        };
        let CommandWords { words, settings } = left;
        let given = Surroundings {
            disk,
            out,
            faults,
            settings,
        };
        match read_words(alloc, words.as_slice()) {
            Ok(matches) => given.call(system, alloc, input, &matches),
            Err(error) => {
                let status = given.refuse(alloc, &error, words.as_slice());
                status_at_fault(status, asks)
            }
        }
    }

    /// Calls the command of the words that were read.
    fn call<T: Threads + Wait + Sync, I: Read + IsTerminal + Drop>(
        self,
        system: &T,
        alloc: Global,
        input: I,
        matches: &ArgMatches<'_>,
    ) -> u8 {
        let Surroundings {
            disk,
            out,
            faults,
            settings,
        } = self;
        let Some(found) = called(&*matches) else {
            return report(HekFault::BadArgument, faults);
        };
        let (command, found) = found;
        let explains = settings.explaining.is_wanted(faults.is_terminal());
        let kept = Kept::new(alloc, command, found, explains || found.get_flag("json"));
        let paint = reply_paint(settings, command, found, out);
        let out = Stream::new(alloc, out, paint);
        let paint = fault_paint(settings, faults);
        let faults = Stream::of_faults(alloc, faults, paint);
        run_call(
            system, alloc, command, found, explains, &kept, disk, input, out, faults,
        )
    }

    /// Answers words that the parser of the command line refuses, help among them.
    fn refuse(self, alloc: Global, error: &Error, words: &[&str]) -> u8 {
        let Surroundings {
            disk: _,
            out,
            faults,
            settings,
        } = self;
        let explains = settings.explaining.is_wanted(faults.is_terminal());
        let mut out = Stream::new(alloc, out, Paint::None);
        let paint = fault_paint(settings, faults);
        let mut faults = Stream::of_faults(alloc, faults, paint);
        let status = match say_refused(alloc, error, settings.width, &mut out, &mut faults) {
            Ok(status) => status,
            Err(HekFault::CannotWrite) if out.has_lost_reader() => 0,
            Err(fault) => report(fault, &mut faults),
        };
        if explains {
            let mut lines = Vec::new(alloc);
            if suggest(alloc, error, words, &mut lines).is_ok() {
                let _ = faults.write_all(lines.as_slice());
            }
        }
        let _ = faults.flush();
        status
    }
}

/// Runs a command with its words, files and streams. Answers the exit status.
fn run_call<
    'c,
    'f,
    'k,
    'a,
    T: Threads + Wait + Sync,
    D: Disk,
    I: Read + IsTerminal + Drop,
    W: Write + IsTerminal,
    E: Write + IsTerminal,
>(
    system: &T,
    alloc: Global,
    command: Command,
    found: &'f ArgMatches<'a>,
    explains: bool,
    kept: &'k Kept<'a>,
    disk: &'c D,
    input: I,
    out: Stream<'c, W>,
    faults: Stream<'c, E>,
) -> u8 {
    let out = Output::new(out);
    let mut call = Call::new(
        alloc, command, found, explains, kept, disk, input, out, faults,
    );
    let status = follow_call(system, &mut call);
    // Its parts end one by one: the borrow checker doesn't cover the end of a struct with a struct in it.
    let Call {
        alloc: _,
        command: _,
        found: _,
        explains: _,
        kept: _,
        disk: _,
        input: _input,
        out: _out,
        faults: _faults,
    } = call;
    status
}

/// Follows a call's words. Answers the exit status.
fn follow_call<
    T: Threads + Wait + Sync,
    D: Disk,
    I: Read + IsTerminal + Drop,
    W: Write + IsTerminal,
    E: Write + IsTerminal,
>(system: &T, call: &mut Call<'_, '_, '_, '_, D, I, W, E>) -> u8 {
    let ran = call.follow(system);
    call.finish(ran)
}

/// Whether the words of a command line, the program's name first, ask a question to which 1 answers no.
fn asks_question<S: AsStr>(words: &[S]) -> bool {
    let Some(command) = command_in(words) else {
        return false;
    };
    match command.asking_option() {
        None => false,
        Some(option) => has_option(words, option),
    }
}

/// The command that words name, the program's name first: options may stand before it.
fn command_in<S: AsStr>(words: &[S]) -> Option<Command> {
    for word in words.iter().skip(1) {
        if !word.as_str().starts_with('-') {
            return Command::named(word.as_str());
        }
    }
    None
}

/// Whether one of the words is this option; each is that without a name.
fn has_option<S: AsStr>(words: &[S], option: &str) -> bool {
    for word in words {
        match word.as_str().strip_prefix("--") {
            Some(name) if name.starts_with(option) => return true,
            _ => {}
        }
    }
    option.is_empty()
}

/// The command that was called, with its words.
fn called<'m, 'a>(matches: &'m ArgMatches<'a>) -> Option<(Command, &'m ArgMatches<'a>)> {
    let (name, found) = matches.subcommand()?;
    Some((Command::named(name)?, found))
}

/// What of standard error is in colours.
fn fault_paint<E: IsTerminal>(settings: Settings, faults: &E) -> Paint {
    if settings.colouring.is_wanted(faults.is_terminal()) {
        Paint::Faults
    } else {
        Paint::None
    }
}

/// What of standard output is in colours: the replies of a command that runs steps, in its text. An image is no text.
fn reply_paint<W: IsTerminal>(
    settings: Settings,
    command: Command,
    found: &ArgMatches<'_>,
    out: &W,
) -> Paint {
    if command == Command::Asm {
        return Paint::Image;
    }
    let has_replies = command.has_replies() && !found.get_flag("json");
    if has_replies && settings.colouring.is_wanted(out.is_terminal()) {
        Paint::Replies
    } else {
        Paint::None
    }
}

/// Writes what the parser of the command line says: help on standard output, otherwise why it refuses the words.
fn say_refused<'a, W: Write, E: Write>(
    alloc: Global,
    error: &Error,
    width: usize,
    out: &mut W,
    faults: &mut E,
) -> Result<u8, HekFault<'a>> {
    if error.kind() == ClapKind::OutOfMemory {
        return Err(HekFault::NoMemory);
    }
    if error.use_stderr() {
        let _ = write!(faults, "{error}");
        return Ok(2);
    }
    let Ok(text) = format!(in alloc; "{error}") else {
        return Err(HekFault::NoMemory);
    };
    let mut help = wrapped(alloc, text.as_str(), width)?;
    send(&mut help, out)?;
    Ok(0)
}

/// Names the command that a mistyped one means, or that reads the file in its place; or says that a number has a sign.
fn suggest(
    alloc: Global,
    error: &Error,
    words: &[&str],
    lines: &mut Vec<u8>,
) -> Result<(), NoMemory> {
    let mut text = Text::after(lines);
    let Some(word) = words.get(1) else {
        return Ok(());
    };
    if error.kind() == ClapKind::UnknownArgument {
        if let Some(command) = Command::named(word) {
            advise_sign(command, words, &mut text);
        }
    }
    if error.kind() == ClapKind::InvalidSubcommand {
        if let Some(command) = reader_of(word) {
            text.form("  | did you mean `@ @`?\n", &pair(command.name(), word));
        } else if let Some(name) = meant_command(alloc, word) {
            text.form("  | did you mean `@`?\n", &[name]);
        }
    }
    text.done()
}

impl<'a, D: Disk, I: Read + IsTerminal + Drop, W: Write + IsTerminal, E: Write + IsTerminal> Call<
    '_,
    '_,
    '_,
    'a,
    D,
    I,
    W,
    E,
> {
    /// Does what the words ask for, if there is nothing wrong with them.
    fn follow<T: Threads + Wait + Sync>(&mut self, system: &T) -> Answer<'a> {
        if advice_of(self.command, self.found).is_some() {
            return Err(HekFault::BadArgument);
        }
        match self.command {
            Command::Run => self.run_schedule(),
            Command::Debug => self.debug(),
            Command::Page => self.page(),
            Command::Permute => self.permute(system),
            Command::Check => self.check(),
            Command::History => self.history(),
            Command::Drive => self.drive(),
            Command::Threads => self.run_in_threads(system),
            Command::Word => self.words(),
            Command::Release => self.release(),
            Command::Asm => self.assemble(),
            Command::Dis => self.disassemble(),
            Command::Completions => self.complete(),
            Command::Man => self.send_made(manual_page(self.alloc)),
        }
    }

    /// Prints the completions for the shell that the words name, or the words of a session of `debug`, one on each line.
    fn complete(&mut self) -> Answer<'a> {
        if let Some(made) = completions(self.alloc, self.word("SHELL")) {
            return self.send_made(made);
        }
        let mut words = Vec::new(self.alloc);
        put_words(self.alloc, &mut words)?;
        self.send(&mut words)
    }

    /// Writes a text, if memory sufficed for it.
    fn send_made(&mut self, made: Result<Vec<u8>, NoMemory>) -> Answer<'a> {
        let mut text = made?;
        self.send(&mut text)
    }
}
