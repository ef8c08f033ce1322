//! What the environment and the words of a command line ask for, whatever the command: whether faults are explained, what is in
//! colours, and how wide help is.
use crate::help::width_of;
use std::alloc::{AllocError, Global};
use std::convert::AsStr;
use std::env;
use std::env::Env;

/// The variable of the environment that says whether faults are explained.
const VARIABLE: &str = "HEK_EXPLAIN";

/// The variable of the environment that asks for no colours, whatever text it has.
const NO_COLOURS: &str = "NO_COLOR";

/// The variable of the environment that names the kind of terminal, and its word for one without colours.
const TERMINAL: &str = "TERM";

const DUMB: &str = "dumb";

/// What ends the options of a command line.
const END: &str = "--";

/// When something is done: faults explained, or an output coloured.
#[derive(Clone, Copy, PartialEq, Eq)]
pub enum When {
    Always,
    Never,
    /// Where the output is a terminal.
    AtTerminal,
}

impl When {
    /// Whether it is done at an output that is a terminal or isn't.
    pub fn is_wanted(self, is_terminal: bool) -> bool {
        match self {
            When::Always => true,
            When::Never => false,
            When::AtTerminal => is_terminal,
        }
    }

    /// What the word of a list means.
    fn named(word: &str, words: &[(&str, When)]) -> Option<When> {
        for (name, when) in words {
            if *name == word {
                return Some(*when);
            }
        }
        None
    }
}

/// The words of the command line that say when faults are explained, and those that say when an output is in colours.
const EXPLAININGS: &[(&str, When)] = &[
    ("--explain", When::Always),
    ("--explain=always", When::Always),
    ("--explain=never", When::Never),
];

const COLOURINGS: &[(&str, When)] = &[
    ("--color", When::Always),
    ("--color=always", When::Always),
    ("--color=never", When::Never),
    ("--color=auto", When::AtTerminal),
];

/// The values of `HEK_EXPLAIN`. Another says nothing.
const VALUES: &[(&str, When)] = &[
    ("always", When::Always),
    ("yes", When::Always),
    ("1", When::Always),
    ("never", When::Never),
    ("no", When::Never),
    ("0", When::Never),
];

/// What is asked for, whatever the command.
#[derive(Clone, Copy)]
pub struct Settings {
    /// When faults are explained.
    pub explaining: When,
    /// When an output is in colours.
    pub colouring: When,
    /// How many characters a line of help has.
    pub width: usize,
}

impl Settings {
    /// What the environment asks for: faults explained as `HEK_EXPLAIN` says, otherwise at a terminal; and help as wide as
    /// `COLUMNS` says.
    pub fn by_environment<R: Env + Alloc<A = Global>>(rt: &R) -> Settings {
        let explaining = match env::var(rt, VARIABLE) {
            Ok(word) => When::named(word.as_str(), VALUES).unwrap_or(When::AtTerminal),
            Err(_) => When::AtTerminal,
        };
        Settings {
            explaining,
            colouring: colouring_by(rt),
            width: width_of(rt),
        }
    }

    /// Takes what a word asks for; false if it asks for none of this.
    fn take(&mut self, word: &str) -> bool {
        if let Some(when) = When::named(word, EXPLAININGS) {
            self.explaining = when;
            return true;
        }
        if let Some(when) = When::named(word, COLOURINGS) {
            self.colouring = when;
            return true;
        }
        false
    }
}

/// When an output is in colours by the environment: never where `NO_COLOR` is there and not empty, and where `TERM` is missing,
/// empty or `dumb`; otherwise at a terminal.
fn colouring_by<R: Env + Alloc<A = Global>>(rt: &R) -> When {
    match env::var(rt, NO_COLOURS) {
        Ok(word) if !word.as_str().is_empty() => return When::Never,
        _ => {}
    }
    match env::var(rt, TERMINAL) {
        Ok(kind) if !kind.as_str().is_empty() && kind.as_str() != DUMB => When::AtTerminal,
        _ => When::Never,
    }
}

/// The words of a command line, the program's name first, without those that say when faults are explained and what is in
/// colours; and what the last of these say.
#[derive(Drop)]
pub struct CommandWords<'w> {
    pub words: Vec<&'w str>,
    pub settings: Settings,
}

impl<'w> CommandWords<'w> {
    /// Takes the words that say when faults are explained and what is in colours out of a command line, wherever they stand
    /// before `--`.
    pub fn of<S: AsStr>(
        alloc: Global,
        words: &'w [S],
        settings: Settings,
    ) -> Result<CommandWords<'w>, AllocError> {
        let mut left = CommandWords {
            words: Vec::new(alloc),
            settings,
        };
        let mut is_over = false;
        for word in words {
            let word = word.as_str();
            is_over = is_over || word == END;
            if is_over || !left.settings.take(word) {
                left.words.push(word)?;
            }
        }
        Ok(left)
    }
}
