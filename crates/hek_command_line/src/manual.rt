//! The manual page, made from the rows of the commands.
use crate::arguments::{ABOUT, EXAMPLES};
use crate::build::VERSION;
use crate::commands::Command;
use crate::rows::{Argument, Form, Row, Times, Value};
use hek_report::Text;
use hek_rules::NoMemory;
use std::alloc::Global;

/// What stands for characters in the language of man.
const ROFF: &[(u8, &str)] = &[(b'\\', r"\e"), (b'-', r"\-"), (b'`', r"\(ga")];

/// The statuses, and when the program ends with each.
const STATUSES: [(&str, &str); 5] = [
    (
        "0",
        "the command was done; of history, permute --find and word --changes: yes",
    ),
    (
        "1",
        "a fault, a trace that is not serial, a line that is at fault, or a word that is not one; of history, permute --find and word --changes: no",
    ),
    ("2", "a bad command line"),
    (
        "3",
        "of history and permute --find: it is not known, or there is nothing to judge",
    ),
    (
        "4",
        "of history, permute --find and word --changes: a fault",
    ),
];

const FRONT: &str = r#".\" `hek man` prints this page.
.TH HEK 1 "" "hek "#;

const SYNOPSIS: &str = r#""
.SH NAME
hek \- the reference machine of pessimistic multiversion locking
.SH SYNOPSIS
\fBhek <COMMAND>\fR
.SH DESCRIPTION
"#;

const OPTIONS: &str = r".
.SH OPTIONS
.TP
\fB\-h\fR, \fB\-\-help\fR
Print help
.TP
\fB\-V\fR, \fB\-\-version\fR
Print version
.SH COMMANDS
";

/// The manual page, in the language of man.
pub fn manual_page(alloc: Global) -> Result<Vec<u8>, NoMemory> {
    let mut bytes = Vec::new(alloc);
    let mut out = Text::after(&mut bytes);
    let version = VERSION.split('\n').next().unwrap_or("");
    out.form("@@@", &[FRONT, version, SYNOPSIS]);
    put_escaped(&mut out, ABOUT, ROFF);
    out.put(OPTIONS);
    for command in Command::ALL {
        put_command(&mut out, command.row());
    }
    out.put(".SH EXIT STATUS\n");
    for (status, meaning) in STATUSES {
        out.form(".TP\n@\n", &[status]);
        put_escaped(&mut out, meaning, ROFF);
        out.put("\n");
    }
    out.put(".SH EXAMPLES\n");
    let examples = EXAMPLES.strip_prefix("Examples:\n").unwrap_or(EXAMPLES);
    put_rest(&mut out, examples);
    out.done()?;
    Ok(bytes)
}

/// Adds a text whose characters may stand for others.
pub fn put_escaped(out: &mut Text<'_>, text: &str, escapes: &[(u8, &str)]) {
    for byte in text.as_bytes() {
        match escape_of(*byte, escapes) {
            Some(escape) => out.put(escape),
            None => {
                let put = out.bytes().push(*byte);
                out.note(put.map_err(|_| NoMemory));
            }
        }
    }
}

/// What stands for a byte, if something does.
fn escape_of<'e>(byte: u8, escapes: &[(u8, &'e str)]) -> Option<&'e str> {
    for (one, escape) in escapes {
        if *one == byte {
            return Some(*escape);
        }
    }
    None
}

/// The part of a command.
fn put_command(out: &mut Text<'_>, row: &Row) {
    out.form(".SS @\n", &[row.name]);
    put_escaped(out, row.about, ROFF);
    out.form(".\n.PP\n\\fBhek @", &[row.name]);
    put_usage(out, row);
    out.put("\\fR\n");
    for argument in row.arguments {
        if argument.1.is_placed() {
            put_argument(out, argument);
        }
    }
    for argument in row.arguments {
        if !argument.1.is_placed() {
            put_argument(out, argument);
        }
    }
    out.put(".PP\n");
    put_rest(out, row.example);
}

/// How a command is called: what it may have, the options that it needs, and its words.
fn put_usage(out: &mut Text<'_>, row: &Row) {
    let mut may = "";
    for &Argument(_, form, _) in row.arguments {
        if !form.is_placed() && !matches!(form, Form::Needed(_, _)) {
            may = " [OPTIONS]";
        }
    }
    out.put(may);
    for &Argument(name, form, _) in row.arguments {
        if let Form::Needed(value, _) = form {
            out.form(" \\-\\-@ <@>", &[name, value]);
        }
    }
    for &Argument(name, form, _) in row.arguments {
        match form {
            Form::Placed(Times::One, _) => out.form(" <@>", &[name]),
            Form::Placed(Times::Maybe, _) => out.form(" [@]", &[name]),
            Form::Placed(Times::Several, _) => out.form(" <@>...", &[name]),
            Form::Placed(Times::Any, _) => out.form(" [@]...", &[name]),
            Form::Flag | Form::Valued(_, _) | Form::Needed(_, _) | Form::Choice(_) | Form::Output =>
                {}
        }
    }
}

/// An argument, and what it means.
fn put_argument(out: &mut Text<'_>, argument: &Argument) {
    let &Argument(name, form, help) = argument;
    if form.is_placed() {
        out.form(".TP\n\\fI@\\fR\n", &[name]);
    } else {
        put_option(out, name, form);
    }
    put_escaped(out, help, ROFF);
    if let Some(Value::OneOf(words)) = form.value() {
        for (place, word) in words.iter().enumerate() {
            out.form(if place == 0 { " (@" } else { ", @" }, &[*word]);
        }
        out.put(")");
    }
    out.put("\n");
}

/// The name of an option, with that of its value.
fn put_option(out: &mut Text<'_>, name: &str, form: Form) {
    out.put(".TP\n");
    if let Form::Output = form {
        out.put("\\fB\\-o\\fR, ");
    }
    out.put("\\fB\\-\\-");
    put_escaped(out, name, ROFF);
    let value = form.value_name();
    match form {
        Form::Choice(_) => out.form("\\fR[=\\fI@\\fR]\n", &[value]),
        _ if value.is_empty() => out.put("\\fR\n"),
        _ => out.form("\\fR \\fI@\\fR\n", &[value]),
    }
}

/// A text: indented lines as they are, the others filled.
fn put_rest(out: &mut Text<'_>, text: &str) {
    let mut is_kept = false;
    for line in text.split('\n') {
        let kept = line.strip_prefix("  ");
        if kept.is_some() != is_kept && !line.is_empty() {
            is_kept = !is_kept;
            out.put(if is_kept {
                ".RS 4\n.nf\n"
            } else {
                ".fi\n.RE\n"
            });
        }
        put_line(out, if is_kept { kept.unwrap_or("") } else { line });
    }
    if is_kept {
        out.put(".fi\n.RE\n");
    }
}

/// A line of a text. One that begins as a command of man is said to be none.
fn put_line(out: &mut Text<'_>, line: &str) {
    if line.is_empty() {
        out.put(".PP\n");
        return;
    }
    if line.starts_with(".") || line.starts_with("'") {
        out.put("\\&");
    }
    put_escaped(out, line, ROFF);
    out.put("\n");
}
