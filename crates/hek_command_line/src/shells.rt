//! What shells read to complete the words of a command line, made from the rows of the commands.
use crate::commands::Command;
use crate::manual::put_escaped;
use crate::rows::{Argument, Form, Row, Times, Value};
use hek_report::Text;
use hek_rules::NoMemory;
use std::alloc::Global;

/// What `hek completions SHELL` prints for a shell, if it is one.
pub fn completions(alloc: Global, shell: &str) -> Option<Result<Vec<u8>, NoMemory>> {
    let mut bytes = Vec::new(alloc);
    let mut out = Text::after(&mut bytes);
    match shell {
        "bash" => put_bash(&mut out),
        "zsh" => put_zsh(&mut out),
        "fish" => put_fish(&mut out),
        _ => return None,
    }
    Some(out.done().map(|()| bytes))
}

/// The names of all commands, with a blank after each.
fn put_names(out: &mut Text<'_>) {
    for command in Command::ALL {
        out.form("@ ", &[command.name()]);
    }
}

/// The words of a value, with blanks between them.
fn put_words(out: &mut Text<'_>, form: Form) {
    let (words, more) = form.words();
    out.words(words);
    out.put(if more.is_empty() { "" } else { " " });
    out.words(more);
}

fn has_words(form: Form) -> bool {
    let (words, _) = form.words();
    !words.is_empty()
}

/// Whether a command takes a file at a place.
fn takes_file(row: &Row) -> bool {
    for &Argument(_, form, _) in row.arguments {
        if form.is_placed() && form.is_file() {
            return true;
        }
    }
    false
}

const BASH_FRONT: &str =
    r#"# Completions of hek for bash, as `hek completions bash` prints them. Read them with `source`, or put them into
# ~/.local/share/bash-completion/completions under the name hek.
_hek() {
    local word=${COMP_WORDS[COMP_CWORD]} before=${COMP_WORDS[COMP_CWORD - 1]} command=${COMP_WORDS[1]} words="" files=""
    COMPREPLY=()
    # bash parts a word at `=`
    if [ "$word" = "=" ]; then
        before="$before=" word=""
    elif [ "$before" = "=" ]; then
        before="${COMP_WORDS[COMP_CWORD - 2]}="
    fi
    [ "$COMP_CWORD" -eq 1 ] && command="" before=hek
    case "$command $before" in
"#;

const BASH_MIDDLE: &str = r#"    esac
    if [ -n "$words" ]; then
        mapfile -t COMPREPLY < <(compgen -W "$words" -- "$word")
        return
    fi
    case "$command" in
"#;

const BASH_END: &str = r#"    esac
    case "$word" in
    -*) mapfile -t COMPREPLY < <(compgen -W "$words" -- "$word") ;;
    *) [ -z "$files" ] || compopt -o default ;;
    esac
}
complete -F _hek hek
"#;

fn put_bash(out: &mut Text<'_>) {
    out.put(BASH_FRONT);
    out.put("    \" hek\") words=\"");
    put_names(out);
    out.put("help --help --version\" ;;\n    \"help help\") words=\"");
    put_names(out);
    out.put("\" ;;\n");
    for command in Command::ALL {
        put_bash_values(out, command.row());
    }
    out.put(BASH_MIDDLE);
    for command in Command::ALL {
        put_bash_options(out, command.row());
    }
    out.put(BASH_END);
}

/// A line for each argument of a command that has a value.
fn put_bash_values(out: &mut Text<'_>, row: &Row) {
    let command = row.name;
    for &Argument(name, form, _) in row.arguments {
        match form {
            Form::Placed(_, Value::OneOf(_)) => out.form("    \"@ @", &[command, command]),
            Form::Choice(_) => out.form("    \"@ --@=", &[command, name]),
            Form::Valued(_, _) | Form::Needed(_, _) => {
                out.form("    \"@ --@\" | \"@ --@=", &[command, name, command, name]);
            }
            Form::Output => out.form("    \"@ --@\" | \"@ -o", &[command, name, command]),
            Form::Placed(_, _) | Form::Flag => continue,
        }
        put_bash_value(out, form);
    }
}

/// What completes a value: words, files, or nothing.
fn put_bash_value(out: &mut Text<'_>, form: Form) {
    if form.is_file() {
        out.put("\") compopt -o default; return ;;\n");
    } else if has_words(form) {
        out.put("\") words=\"");
        put_words(out, form);
        out.put("\" ;;\n");
    } else {
        out.put("\") return ;;\n");
    }
}

/// The line of a command: its options, and whether it takes files.
fn put_bash_options(out: &mut Text<'_>, row: &Row) {
    out.form("    @) words=\"", &[row.name]);
    for &Argument(name, form, _) in row.arguments {
        if !form.is_placed() {
            out.form("--@ ", &[name]);
        }
    }
    out.put("--help\"");
    out.put(if takes_file(row) {
        " files=yes ;;\n"
    } else {
        " ;;\n"
    });
}

/// What stands for characters between single quotes of a shell, and for those in what zsh says of an option.
const QUOTED: &[(u8, &str)] = &[(b'\'', r"'\''")];

const ZSH_TEXT: &[(u8, &str)] = &[
    (b'\'', r"'\''"),
    (b'[', r"\["),
    (b']', r"\]"),
    (b':', r"\:"),
    (b'\\', r"\\"),
];

const ZSH_FRONT: &str = r"#compdef hek
# Completions of hek for zsh, as `hek completions zsh` prints them. Read them with `source`, or put them into a folder of $fpath
# under the name _hek.
_hek() {
    local state
    local -a commands
    commands=(
";

const ZSH_MIDDLE: &str = r"        'help:Print this message or the help of the given subcommand(s)'
    )
    _arguments -C \
        '(- *)'{-h,--help}'[Print help]' \
        '(- *)'{-V,--version}'[Print version]' \
        '1:command:->command' \
        '*::argument:->argument'
    case $state in
    command) _describe -t commands command commands ;;
    argument)
        case $words[1] in
";

const ZSH_END: &str = r#"        help) _describe -t commands command commands ;;
        esac
        ;;
    esac
}
if [ "$funcstack[1]" = _hek ]; then
    _hek "$@"
else
    compdef _hek hek
fi
"#;

fn put_zsh(out: &mut Text<'_>) {
    out.put(ZSH_FRONT);
    for command in Command::ALL {
        let row = command.row();
        out.form("        '@:", &[row.name]);
        put_escaped(out, row.about, QUOTED);
        out.put("'\n");
    }
    out.put(ZSH_MIDDLE);
    for command in Command::ALL {
        let row = command.row();
        out.form("        @)\n            _arguments \\\n", &[row.name]);
        for argument in row.arguments {
            put_zsh_argument(out, argument);
        }
        out.put("                '(- *)'{-h,--help}'[Print help]'\n            ;;\n");
    }
    out.put(ZSH_END);
}

/// An argument as `_arguments` takes it.
fn put_zsh_argument(out: &mut Text<'_>, argument: &Argument) {
    let &Argument(name, form, help) = argument;
    out.put("                ");
    match form {
        Form::Placed(Times::One, _) => out.form("':@", &[name]),
        Form::Placed(Times::Maybe, _) => out.form("'::@", &[name]),
        Form::Placed(Times::Several | Times::Any, _) => out.form("'*:@", &[name]),
        Form::Flag => out.form("'--@[", &[name]),
        Form::Valued(_, _) | Form::Needed(_, _) => out.form("'--@=[", &[name]),
        Form::Choice(_) => out.form("'--@=-[", &[name]),
        Form::Output => out.form("{-o,--@=}'[", &[name]),
    }
    if !form.is_placed() {
        put_escaped(out, help, ZSH_TEXT);
        out.put("]");
    }
    put_zsh_value(out, form);
    out.put("' \\\n");
}

/// The value of an argument: its name, and what completes it.
fn put_zsh_value(out: &mut Text<'_>, form: Form) {
    match form {
        Form::Flag => return,
        Form::Choice(_) => out.put("::HOW:"),
        Form::Valued(name, _) | Form::Needed(name, _) => out.form(":@:", &[name]),
        Form::Output => out.put(":OUT:"),
        Form::Placed(_, _) => out.put(":"),
    }
    if has_words(form) {
        out.put("(");
        put_words(out, form);
        out.put(")");
    } else if form.is_file() {
        out.put("_files");
    }
}

const FISH_TEXT: &[(u8, &str)] = &[(b'\'', r"\'"), (b'\\', r"\\")];

const FISH_FRONT: &str =
    r"# Completions of hek for fish, as `hek completions fish` prints them. Put them into ~/.config/fish/completions under the
# name hek.fish.
complete -c hek -f
complete -c hek -n __fish_use_subcommand -a help -d 'Print this message or the help of the given subcommand(s)'
complete -c hek -n __fish_use_subcommand -s h -l help -d 'Print help'
complete -c hek -n __fish_use_subcommand -s V -l version -d 'Print version'
complete -c hek -n '__fish_seen_subcommand_from help' -a '";

fn put_fish(out: &mut Text<'_>) {
    out.put(FISH_FRONT);
    put_names(out);
    out.put("'\n");
    for command in Command::ALL {
        let row = command.row();
        out.form(
            "complete -c hek -n __fish_use_subcommand -a @ -d '",
            &[row.name],
        );
        put_escaped(out, row.about, FISH_TEXT);
        out.put("'\n");
    }
    for command in Command::ALL {
        put_fish_command(out, command.row());
    }
}

/// The lines of a command.
fn put_fish_command(out: &mut Text<'_>, row: &Row) {
    for argument in row.arguments {
        put_fish_argument(out, row, argument);
    }
    put_fish_start(out, row);
    out.put(" -s h -l help -d 'Print help'\n");
    if takes_file(row) {
        put_fish_start(out, row);
        out.put(" -F\n");
    }
}

/// What begins a line of a command.
fn put_fish_start(out: &mut Text<'_>, row: &Row) {
    out.form(
        "complete -c hek -n '__fish_seen_subcommand_from @'",
        &[row.name],
    );
}

/// The line of an option, or of an argument that is one of some words.
fn put_fish_argument(out: &mut Text<'_>, row: &Row, argument: &Argument) {
    let &Argument(name, form, help) = argument;
    if form.is_placed() && !has_words(form) {
        return;
    }
    put_fish_start(out, row);
    match form {
        Form::Output => out.form(" -s o -l @ -r -F", &[name]),
        Form::Valued(_, _) | Form::Needed(_, _) if form.is_file() => {
            out.form(" -l @ -r -F", &[name]);
        }
        Form::Valued(_, _) | Form::Needed(_, _) => out.form(" -l @ -x", &[name]),
        Form::Choice(_) | Form::Flag => out.form(" -l @", &[name]),
        Form::Placed(_, _) => {}
    }
    if has_words(form) {
        out.put(" -a '");
        put_words(out, form);
        out.put("'");
    }
    out.put(" -d '");
    put_escaped(out, help, FISH_TEXT);
    out.put("'\n");
}
