//! The commands: their names, and the rows of their tables.
use crate::file_rows::{asm_row, completions_row, dis_row, man_row, release_row, word_row};
use crate::order_rows::{check_row, history_row, permute_row};
use crate::page_rows::page_row;
use crate::rows::{Asks, Row};
use crate::run_rows::{debug_row, drive_row, run_row, threads_row};
use clap::ArgMatches;
use hek_diagnostics::nearest_word;
use std::alloc::Global;

/// A command of the program.
#[derive(Clone, Copy, PartialEq, Eq)]
pub enum Command {
    Run,
    Debug,
    Page,
    Permute,
    Check,
    History,
    Drive,
    Threads,
    Word,
    Release,
    Asm,
    Dis,
    Completions,
    Man,
}

impl Command {
    /// All commands, in the order in which the help lists them.
    pub const ALL: [Command; 14] = [
        Command::Run,
        Command::Debug,
        Command::Page,
        Command::Permute,
        Command::Check,
        Command::History,
        Command::Drive,
        Command::Threads,
        Command::Word,
        Command::Release,
        Command::Asm,
        Command::Dis,
        Command::Completions,
        Command::Man,
    ];

    /// Its row: the name, the help, and the arguments.
    pub fn row(self) -> &'static Row {
        match self {
            Command::Run => run_row(),
            Command::Debug => debug_row(),
            Command::Page => page_row(),
            Command::Permute => permute_row(),
            Command::Check => check_row(),
            Command::History => history_row(),
            Command::Drive => drive_row(),
            Command::Threads => threads_row(),
            Command::Word => word_row(),
            Command::Release => release_row(),
            Command::Asm => asm_row(),
            Command::Dis => dis_row(),
            Command::Completions => completions_row(),
            Command::Man => man_row(),
        }
    }

    pub fn name(self) -> &'static str {
        self.row().name
    }

    /// The command with this name.
    pub fn named(name: &str) -> Option<Command> {
        for command in Command::ALL {
            if command.name() == name {
                return Some(command);
            }
        }
        None
    }

    /// The option with which it answers yes or no; none at all if it always does.
    pub fn asking_option(self) -> Option<&'static str> {
        match self.row().asks {
            Asks::Never => None,
            Asks::Always => Some(""),
            Asks::WithFlag(name) | Asks::WithValue(name) => Some(name),
        }
    }

    /// Whether its text has the replies of steps.
    pub fn has_replies(self) -> bool {
        matches!(self, Command::Run | Command::Drive | Command::Debug)
    }

    /// Whether a fault has the status 4, with these words: the statuses 0 and 1 are answers. The statuses of other commands
    /// are those of the formats that are fixed.
    pub fn asks(self, found: &ArgMatches<'_>) -> bool {
        match self.row().asks {
            Asks::Never => false,
            Asks::Always => true,
            Asks::WithFlag(name) => found.get_flag(name),
            Asks::WithValue(name) => found.get_str(name).is_some(),
        }
    }
}

/// How the names of files end, and the command that reads such a file.
const READERS: [(&str, Command); 3] = [
    (".hek", Command::Run),
    (".img", Command::Run),
    (".jsonl", Command::History),
];

/// The command that reads a file of this name, if the name says so.
pub fn reader_of(name: &str) -> Option<Command> {
    for (end, command) in READERS {
        if name.ends_with(end) {
            return Some(command);
        }
    }
    None
}

/// The least front of a name that stands for it.
const FRONT: usize = 2;

/// The command that a word means which names none: of which it is the front, or which is near. Without memory it is none.
pub fn meant_command(alloc: Global, word: &str) -> Option<&'static str> {
    let mut names = Vec::new(alloc);
    for command in Command::ALL {
        if word.len() >= FRONT && command.name().starts_with(word) {
            return Some(command.name());
        }
        if names.push(command.name()).is_err() {
            return None;
        }
    }
    nearest_word(alloc, word, names.as_slice())
}
