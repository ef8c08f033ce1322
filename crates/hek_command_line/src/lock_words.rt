//! What is wrong with a lock word, with waits, or with a number that has a sign, of a command line.
use crate::commands::Command;
use crate::rows::Value;
use crate::said::{Said, digits};
use clap::ArgMatches;
use hek_convert_command::hex_number;
use hek_report::{INPUT, Text};
use hek_rules::number;

/// Says what is wrong with the first bad word or the waits of `release` and `word`.
pub fn advise_words(found: &ArgMatches<'_>, said: &mut Said) {
    for word in found.get_strs("WORD").unwrap_or(&[]) {
        if *word != INPUT && hex_number(word).is_none() {
            advise_word(word, said);
            advise_turned(word, found, said);
            return;
        }
    }
    if let Some(waits) = found.get_str("WAITS") {
        if number(waits.as_bytes()).is_none() {
            said.carets("@", &[waits], 0, waits.chars().count());
            said.message("the waits `@` are not a number", &[waits]);
            said.wanted("a number of waits, 0 to 18446744073709551615", &[]);
        }
    }
}

/// A text that is not a word.
fn advise_word(word: &str, said: &mut Said) {
    said.carets("@", &[word], 0, word.chars().count());
    if word.starts_with("0x") {
        said.message(
            "`@` is not a word: nothing is before the 16 digits",
            &[word],
        );
    } else if word.chars().all(|mark| mark.is_ascii_hexdigit()) {
        let count = word.chars().count();
        let shown = digits(said.alloc, count as u64);
        let unit = if count == 1 { "digit" } else { "digits" };
        said.message(
            "`@` has @ @, and a word has 16",
            &[&*word, shown.as_str(), &*unit],
        );
    } else {
        said.message(
            "`@` has a character that is not a hexadecimal digit",
            &[word],
        );
    }
    said.wanted("a word: exactly 16 hexadecimal digits", &[]);
}

/// Says that a word and its waits are given the other way round, if they are.
fn advise_turned(word: &str, found: &ArgMatches<'_>, said: &mut Said) {
    let Some(waits) = found.get_str("WAITS") else {
        return;
    };
    if number(word.as_bytes()).is_some() && hex_number(waits).is_some() {
        said.meant("hek release @ @", &[&*waits, &*word]);
    }
}

/// Says that a number of an option has a sign, if one has.
pub fn advise_sign(command: Command, words: &[&str], out: &mut Text<'_>) {
    for (place, word) in words.iter().enumerate() {
        let Some(name) = word.strip_prefix("--") else {
            continue;
        };
        let Some(value) = words.get(place.saturating_add(1)) else {
            return;
        };
        if is_count(command, name) && has_sign(value) {
            out.form(
                "  | `--@` wants a number without a sign, and `@` has one\n",
                &[&*name, *value],
            );
        }
    }
}

/// Whether the value of an option is a number.
fn is_count(command: Command, option: &str) -> bool {
    for argument in command.row().arguments {
        if argument.0 == option && matches!(argument.1.value(), Some(Value::Number(_, _, _))) {
            return true;
        }
    }
    false
}

/// Whether a text is a number with a minus before it.
fn has_sign(text: &str) -> bool {
    match text.strip_prefix("-") {
        Some(digits) => number(digits.as_bytes()).is_some(),
        None => false,
    }
}
