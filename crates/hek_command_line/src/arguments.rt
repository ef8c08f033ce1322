//! The words of the command line, read by clap as the rows of the commands say.
use crate::build::VERSION;
use crate::commands::Command;
use crate::rows::{Argument, Form, Others, Row, Times, Value};
use clap::{Arg, ArgAction, ArgMatches, Command as Parser, Error};
use std::alloc::{AllocError, Global};
use std::convert::AsStr;

/// What the program is, and examples of it.
pub const ABOUT: &str = "The reference machine of pessimistic multiversion locking, step by step";

pub const EXAMPLES: &str = r"Examples:
  hek run first.hek
runs a schedule, and prints each step with its reply
  hek release 8040000000000002 1
prints the word and the waits that are left:
  C000000000000002 0
  hek asm first.hek first.img
  hek dis first.img
make the image of a schedule's text, and print it as text again
  hek check first.img trace.txt
says whether a trace over it has what each level promises

`--explain`, anywhere among the words, or HEK_EXPLAIN=always in the environment explains each fault, as at a terminal; `--explain=never` and HEK_EXPLAIN=never only name it. `--color=always`, `--color=never` and NO_COLOR=1 in the environment say what is in colours, which by default is at a terminal.";

/// Reads the words of a command line, the program's name first.
pub fn read_words<'a, S: AsStr>(alloc: Global, words: &'a [S]) -> Result<ArgMatches<'a>, Error> {
    hek(alloc)?.try_get_matches_from(words)
}

fn hek<'a>(alloc: Global) -> Result<Parser<'a>, AllocError> {
    let mut parsers = Vec::new(alloc);
    for command in Command::ALL {
        parsers.push(parser_of(alloc, command.row())?)?;
    }
    Parser::new(alloc, "hek")
        .version(VERSION)
        .about(ABOUT)
        .after_help(EXAMPLES)
        .subcommand_required(true)
        .subcommands(parsers)
}

fn parser_of<'a>(alloc: Global, row: &'static Row) -> Result<Parser<'a>, AllocError> {
    let mut arguments = Vec::new(alloc);
    for Argument(name, form, help) in row.arguments {
        let made = given(Arg::new(alloc, name).help(help), name, *form);
        let made = made.conflicts_with_all(rivals_of(row, name))?;
        arguments.push(made.requires_all(others_of(row.needs, name))?)?;
    }
    Parser::new(alloc, row.name)
        .about(row.about)
        .after_help(row.example)
        .args(arguments)
}

/// The arguments of a command that cannot be given together with this one.
fn rivals_of(row: &'static Row, name: &str) -> &'static [&'static str] {
    match name {
        "image" => &["text"],
        _ => others_of(row.rivals, name),
    }
}

/// What a list has of the argument with this name.
fn others_of(list: &'static [Others], name: &str) -> &'static [&'static str] {
    for Others(one, others) in list {
        if *one == name {
            return others;
        }
    }
    &[]
}

/// An argument that is given in this form.
fn given<'a>(argument: Arg<'a>, name: &'static str, form: Form) -> Arg<'a> {
    match form {
        Form::Placed(Times::One, Value::OneOf(words)) => {
            argument.required(true).value_parser(words)
        }
        Form::Placed(Times::One, _) => argument.required(true),
        Form::Placed(Times::Maybe, _) => argument,
        Form::Placed(Times::Several, _) => argument.required(true).num_args(1..),
        Form::Placed(Times::Any, _) => argument.num_args(1..),
        Form::Flag => argument.long(name).action(ArgAction::SetTrue),
        Form::Valued(value, _) => argument.long(name).value_name(value),
        Form::Needed(value, _) => argument.long(name).value_name(value).required(true),
        Form::Choice(words) => argument
            .long(name)
            .value_name("HOW")
            .num_args(0..=1)
            .require_equals(true)
            .default_missing_value(words.first().copied().unwrap_or(""))
            .value_parser(words),
        Form::Output => argument.short('o').long(name).value_name("OUT"),
    }
}
