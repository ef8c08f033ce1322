//! What the row of a command looks like, and the arguments that several have.

/// A command: its name, what it does, an example of it, its arguments, which of these exclude others or do nothing without
/// another, and with which of them it answers yes or no.
pub struct Row {
    pub name: &'static str,
    pub about: &'static str,
    pub example: &'static str,
    pub arguments: &'static [Argument],
    pub rivals: &'static [Others],
    pub needs: &'static [Others],
    pub asks: Asks,
}

/// The name of an argument, how it is given, and what it means.
pub struct Argument(pub &'static str, pub Form, pub &'static str);

/// An argument as a line of a table.
macro_rules! given {
    ($name:literal => $form:expr, $help:literal) => {
        $crate::rows::Argument($name, $form, $help)
    };
}

pub(crate) use given;

/// The name of an argument, and those of others.
pub struct Others(pub &'static str, pub &'static [&'static str]);

/// Whether a command answers yes or no by the status 0 or 1, so that a fault has another.
#[derive(Clone, Copy)]
pub enum Asks {
    Never,
    Always,
    /// With this flag.
    WithFlag(&'static str),
    /// With this option.
    WithValue(&'static str),
}

/// How many words an argument has at its place.
#[derive(Clone, Copy)]
pub enum Times {
    One,
    Maybe,
    Several,
    Any,
}

/// How an argument is given.
#[derive(Clone, Copy)]
pub enum Form {
    /// Words at their place.
    Placed(Times, Value),
    /// `--name`.
    Flag,
    /// `--name VALUE`, with the word that the help prints for the value.
    Valued(&'static str, Value),
    /// As `Valued`, and required.
    Needed(&'static str, Value),
    /// `--name`, which means the first word, or `--name=WORD` with one of the words.
    Choice(&'static [&'static str]),
    /// `--name OUT`, or `-o OUT`.
    Output,
}

/// What a value may be.
#[derive(Clone, Copy)]
pub enum Value {
    /// The name of a file.
    File,
    /// A text that the command itself judges.
    Text,
    /// A number: what it is, and its range.
    Number(&'static str, u64, u64),
    /// One of the words of two tables: what they name, and the tables.
    Words(&'static str, &'static [&'static str], &'static [&'static str]),
    /// One of these words: clap refuses another.
    OneOf(&'static [&'static str]),
    /// `K/N`.
    Part,
}

impl Form {
    /// What its value may be; none of a flag.
    pub fn value(self) -> Option<Value> {
        match self {
            Form::Placed(_, value) | Form::Valued(_, value) | Form::Needed(_, value) => Some(value),
            Form::Choice(words) => Some(Value::OneOf(words)),
            Form::Output => Some(Value::File),
            Form::Flag => None,
        }
    }

    /// The word that the help prints for the value of an option; none of a flag, and at a place.
    pub fn value_name(self) -> &'static str {
        match self {
            Form::Valued(name, _) | Form::Needed(name, _) => name,
            Form::Choice(_) => "HOW",
            Form::Output => "OUT",
            Form::Placed(_, _) | Form::Flag => "",
        }
    }

    /// Whether it has a place, and no name with `--`.
    pub fn is_placed(self) -> bool {
        matches!(self, Form::Placed(_, _))
    }

    /// The words of which the value is one, in two tables; none of another value.
    pub fn words(self) -> (&'static [&'static str], &'static [&'static str]) {
        match self.value() {
            Some(Value::OneOf(words)) => (words, &[]),
            Some(Value::Words(_, words, more)) => (words, more),
            _ => (&[], &[]),
        }
    }

    /// Whether the value names a file.
    pub fn is_file(self) -> bool {
        matches!(self.value(), Some(Value::File))
    }
}

/// The greatest numbers that options take.
pub const ANY: u64 = u64::MAX;

pub const MILLION: u64 = 1_000_000;

pub const THOUSAND: u64 = 1_000;

pub const FILE: Argument =
    given!("FILE" => Form::Placed(Times::One, Value::File), "a schedule: a text by its name (.hek) or its first word, otherwise an image; - is standard input");

pub const TEXT: Argument =
    given!("text" => Form::Flag, "FILE is a schedule text, whatever it holds");

pub const IMAGE: Argument =
    given!("image" => Form::Flag, "FILE is a schedule image, whatever it holds");

/// `CommandWords` takes this and `COLOR` out of a command line, wherever they stand: here they are for the help, and refuse other
/// words.
pub const EXPLAIN: Argument =
    given!("explain" => Form::Choice(&["always", "never"]), "says of each fault what is wrong, what is wanted and what is meant, as at a terminal; =never only names it");

pub const COLOR: Argument =
    given!("color" => Form::Choice(&["always", "never", "auto"]), "colours replies by their kind, and faults: always, never, or at a terminal (auto)");

pub const LEVEL: Argument =
    given!("level" => Form::Valued("L", Value::Words("level", &["serializable", "repeatable", "snapshot"], &[])), "judges or runs all transactions as serializable, repeatable or snapshot");

pub const JSON: Argument = given!("json" => Form::Flag, "prints JSON, one object on each line");

pub const AUTO: Argument =
    given!("auto" => Form::Flag, "runs only the reads and writes of FILE, which may be a program, and begins and ends each transaction by itself");

/// `--auto` of a command that takes no other steps of FILE anyway: it is there so that the words of one command serve another.
pub const ALWAYS_AUTO: Argument =
    given!("auto" => Form::Flag, "as always here: only the reads and writes of FILE count, or its rows and transactions");

/// The word of `--why=rules`.
pub const RULES: &str = "rules";

pub const WHY: Argument =
    given!("why" => Form::Choice(&["reasons", RULES]), "prints the reasons of each reply under its line; =rules also names the definition of each and of the reply");

pub const CHANGES: Argument =
    given!("changes" => Form::Flag, "prints what each step changed under its line");

pub const GRAIN: Argument =
    given!("grain" => Form::Valued("GRAIN", Value::Words("grain", &["move", "split", "event"], &[])), "cuts the end of a transaction into one move (move), two (split), or a move for each event (event)");
