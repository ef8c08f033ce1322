//! The command `release`: one read lock of an End word is given up.
ghost use Rattle.std.specs.Option.{SomeIff};
ghost use Rattle.std.specs.Str.Parse.{digits_value};
ghost use Rattle.hek_convert_command.specs.WordText.{IsWordText};

use hek_report::HekFault;
use hek_rules::number;
use hek_word::{EndWord, release_word};
use std::io::Write;

/// Gives up one read lock of the End word with these 16 hexadecimal digits, whose writer waits for `waits` others.
/// Writes the word and the waits that are left. Answers the exit status.
pub fn release_command<'a, W: Write>(
    word: &str,
    waits: &str,
    out: &mut W,
) -> Result<u8, HekFault<'a>> {
    let word = hex_number(word).ok_or(HekFault::BadArgument)?;
    let waits = number(waits.as_bytes()).ok_or(HekFault::BadArgument)?;
    let Some(word) = EndWord::read(word) else {
        return Err(HekFault::NotAWord);
    };
    let (left, waits) = release_word(word, waits)?;
    let bits = left.bits();
    writeln!(out, "{bits:016X} {waits}").map_err(|_| HekFault::CannotWrite)?;
    Ok(0)
}

/// The number that exactly 16 hexadecimal digits, of either case, write; None for any other text.
pub fn hex_number(text: &str) -> Option<u64>
    ensures { SomeIff result (IsWordText text.now) (digits_value 16 text.now) }
{
    if text.len() != 16 {
        return None;
    }
    let mut value = 0;
    for &byte in text.as_bytes() {
        let Some(digit) = char::from(byte).to_digit(16) else {
            return None;
        };
        value = value * 16 + u64::from(digit);
    }
    Some(value)
}
