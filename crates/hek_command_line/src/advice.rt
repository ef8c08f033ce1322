//! What is wrong with an argument of the command line: found before a command runs, and said where faults are explained.
use crate::commands::Command;
use crate::pages::is_log;
use crate::rows::{Argument, Value};
use crate::said::{Said, digits, pair};
use clap::ArgMatches;
use hek_diagnostics::nearest_word;
use hek_ladder::Promise;
use hek_permute_command::part_of;
use hek_report::{INPUT, Text};
use hek_rules::number;
use std::str;

/// What is wrong with an option.
#[derive(Clone, Copy)]
enum Wrong {
    /// Its number, which is this, from one number to another.
    NoNumber(&'static str, u64, u64),
    TooSmall(&'static str, u64, u64),
    TooLarge(&'static str, u64, u64),
    /// Nothing of this kind has the name, of which these are the words.
    NoWord(&'static str, &'static [&'static str], &'static [&'static str]),
    NoPart,
    NoOrder,
    /// It doesn't go with the other words: why, and what is wanted.
    Misfit(&'static str, &'static str),
}

/// An option that is at fault, with its value: none of a flag.
#[derive(Clone, Copy)]
pub struct Advice<'a> {
    option: &'a str,
    value: &'a str,
    wrong: Wrong,
}

/// The first option at fault of a command with these words, if there is one.
pub fn advice_of<'a>(command: Command, found: &ArgMatches<'a>) -> Option<Advice<'a>> {
    for argument in command.row().arguments {
        if let Some(advice) = advice_on(argument, found) {
            return Some(advice);
        }
    }
    if command == Command::Page && is_log(found) {
        return misfit_of_run(found);
    }
    if command == Command::Word && found.get_flag("changes") {
        return misfit_of_changes(found);
    }
    if command == Command::History && found.get_flag("no-sessions") {
        return misfit_of_guarantee(found);
    }
    None
}

/// What is wrong with the value of an argument, if the words have it.
fn advice_on<'a>(argument: &'static Argument, found: &ArgMatches<'a>) -> Option<Advice<'a>> {
    let Argument(option, form, _) = argument;
    let value = found.get_str(option)?;
    let wrong = match form.value()? {
        Value::Number(what, least, most) => wrong_number(value, what, least, most)?,
        Value::Words(noun, words, more) if !is_among(value, words) && !is_among(value, more) => {
            Wrong::NoWord(noun, words, more)
        }
        Value::Part if part_of(value).is_none() => Wrong::NoPart,
        Value::File | Value::Text | Value::Words(_, _, _) | Value::OneOf(_) | Value::Part =>
            return None,
    };
    Some(Advice::new(option, value, wrong))
}

fn wrong_number(value: &str, what: &'static str, least: u64, most: u64) -> Option<Wrong> {
    match number(value.as_bytes()) {
        None if is_digits(value) => Some(Wrong::TooLarge(what, least, most)),
        None => Some(Wrong::NoNumber(what, least, most)),
        Some(given) if given < least => Some(Wrong::TooSmall(what, least, most)),
        Some(given) if given > most => Some(Wrong::TooLarge(what, least, most)),
        Some(_) => None,
    }
}

/// Whether a text has decimal digits alone, at least one.
fn is_digits(text: &str) -> bool {
    !text.is_empty() && text.as_bytes().iter().all(|byte| byte.is_ascii_digit())
}

fn is_among(word: &str, words: &[&str]) -> bool {
    for one in words {
        if *one == word {
            return true;
        }
    }
    false
}

const OF_RUNS: Wrong = Wrong::Misfit(
    "this asks something of a run, and a log has none",
    "a schedule as FILE, and --text if its name ends as that of a log",
);

const OF_SESSIONS: Wrong = Wrong::Misfit(
    "a guarantee is about sessions",
    "a level, or no --no-sessions",
);

const OF_INPUT: Wrong = Wrong::Misfit(
    "exchanges are read from standard input",
    "- as the only word",
);

/// What the words ask of a run of the machine, which a log doesn't have.
fn misfit_of_run<'a>(found: &ArgMatches<'a>) -> Option<Advice<'a>> {
    for option in ["auto", "orders", "levels", "split", "machine"] {
        if found.get_flag(option) {
            return Some(Advice::new(option, "", OF_RUNS));
        }
    }
    for option in ["level", "from", "to", "grain", "limit"] {
        if let Some(value) = found.get_str(option) {
            return Some(Advice::new(option, value, OF_RUNS));
        }
    }
    None
}

/// Words beside `-`, from where exchanges are read.
fn misfit_of_changes<'a>(found: &ArgMatches<'a>) -> Option<Advice<'a>> {
    match found.get_strs("WORD") {
        Some([one]) if *one == INPUT => None,
        _ => Some(Advice::new("changes", "", OF_INPUT)),
    }
}

/// A guarantee of sessions that is asked for without them.
fn misfit_of_guarantee<'a>(found: &ArgMatches<'a>) -> Option<Advice<'a>> {
    let value = found.get_str("level")?;
    if Promise::named(value)?.is_guarantee() {
        Some(Advice::new("level", value, OF_SESSIONS))
    } else {
        None
    }
}

impl<'a> Advice<'a> {
    fn new(option: &'a str, value: &'a str, wrong: Wrong) -> Advice<'a> {
        Advice {
            option,
            value,
            wrong,
        }
    }

    /// That the value of `--order` is no order of the moves.
    pub fn of_order(value: &'a str) -> Advice<'a> {
        Advice::new("order", value, Wrong::NoOrder)
    }

    /// Says what is wrong, what is wanted and what is meant.
    pub fn say(self, said: &mut Said) {
        let option = self.option;
        let value = self.value;
        if value.is_empty() && matches!(self.wrong, Wrong::Misfit(_, _)) {
            said.carets("--@", &[option], 0, option.len().saturating_add(2));
        } else {
            let before = option.chars().count().saturating_add(3);
            said.carets("--@ @", &[option, value], before, value.chars().count());
        }
        match self.wrong {
            Wrong::NoNumber(what, least, most) => {
                said.message(
                    "`--@` wants a number, and `@` is not a number",
                    &[option, value],
                );
                say_range(said, what, least, most);
            }
            Wrong::TooSmall(what, least, most) => {
                said.message(too_small(what), &pair(value, option));
                say_range(said, what, least, most);
            }
            Wrong::TooLarge(what, least, most) => {
                said.message("`@` is too large for `--@`", &[value, option]);
                say_range(said, what, least, most);
            }
            Wrong::NoWord(noun, words, more) => {
                said.message("no @ is called `@`", &pair(noun, value));
                say_words(said, value, words, more);
            }
            Wrong::NoPart => {
                said.message("`@` is not a part", &[value]);
                said.wanted("K/N, as in `1/3`, K from 1 to N", &[]);
            }
            Wrong::NoOrder => {
                said.message("`@` is not an order of the moves", &[value]);
                said.wanted("the name of its transaction for each move", &[]);
            }
            Wrong::Misfit(why, wanted) => {
                said.message("@", &[why]);
                said.wanted("@", &[wanted]);
            }
        }
    }
}

/// What is said of a number below the least one.
fn too_small(what: &str) -> &'static str {
    if what.starts_with("a step") {
        "`@` is too small for `--@`: steps are counted from 1"
    } else {
        "`@` is too small for `--@`"
    }
}

fn say_range(said: &mut Said, what: &str, least: u64, most: u64) {
    let least = digits(said.alloc, least);
    let most = digits(said.alloc, most);
    said.wanted("@, @ to @", &[&*what, least.as_str(), most.as_str()]);
}

/// Says which words are wanted, and which one may be meant.
fn say_words(said: &mut Said, value: &str, words: &[&'static str], more: &[&'static str]) {
    let mut all = Vec::new(said.alloc);
    let is_short = all.extend_from_slice(words).is_err() || all.extend_from_slice(more).is_err();
    if is_short {
        return said.lack_memory();
    }
    say_list(said, all.as_slice());
    if let Some(meant) = nearest_word(said.alloc, value, all.as_slice()) {
        said.meant("@", &[meant]);
    }
}

fn say_list(said: &mut Said, words: &[&str]) {
    let mut bytes = Vec::new(said.alloc);
    let mut list = Text::after(&mut bytes);
    list.words(words);
    if list.done().is_err() {
        return said.lack_memory();
    }
    if let Ok(list) = str::from_utf8(bytes.as_slice()) {
        said.wanted("@", &[list]);
    }
}
