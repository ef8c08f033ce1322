//! Words that should be numbers.
use crate::finding::{Finding, Hint};
use crate::words::Word;
use hek_rules::{NoMemory, number};
use std::alloc::Global;

/// What a number is.
pub(crate) const NUMBER: &str = "a number: 1 to 20 decimal digits, at most 18446744073709551615";

/// What a number stands for.
#[derive(Clone, Copy, PartialEq, Eq)]
pub(crate) enum Role {
    Key,
    Value,
    Version,
    Other,
}

/// What is wrong with a word that isn't a number.
pub(crate) fn no_number<'t>(word: Word<'t>, role: Role) -> Finding<'t> {
    Finding::at(word, form_of(word.text, role))
        .wanting(NUMBER)
        .hinting(Hint::Number)
        .with_number(word.text.len() as u64)
}

/// What keeps the bytes from being a number.
fn form_of(bytes: &[u8], role: Role) -> &'static str {
    if starts_as_sign(bytes) {
        return "@ is not a number: signs are not accepted";
    }
    if bytes.starts_with(b"0x") || bytes.starts_with(b"0X") {
        return "@ is not a number: numbers are decimal";
    }
    if is_digits(bytes) {
        return too_long(bytes);
    }
    if has_control(bytes) {
        return "@ is not a number: it has a control character in it";
    }
    if !has_digit(bytes) {
        return no_digit(role);
    }
    mixed_form(bytes)
}

/// What keeps bytes with digits and other characters from being a number.
fn mixed_form(bytes: &[u8]) -> &'static str {
    if has_byte(bytes, b'.') {
        return "@ is not a number: numbers are whole";
    }
    if has_byte(bytes, b',') || has_byte(bytes, b'_') {
        return "@ is not a number: separators are not accepted";
    }
    if bytes.ends_with(b";") {
        return "@ is not a number: nothing ends a line but its line feed";
    }
    if has_letter(bytes) {
        return "@ is not a number: it has a letter in it";
    }
    "@ is not a number"
}

fn too_long(digits: &[u8]) -> &'static str {
    if digits.len() > 20 {
        "@ has $ digits, and a number has at most 20"
    } else {
        "@ is too large for a number"
    }
}

fn no_digit(role: Role) -> &'static str {
    match role {
        Role::Key => "the key @ is not a number",
        Role::Value => "the value @ is not a number",
        Role::Version => "the version @ is not a number",
        Role::Other => "@ is not a number",
    }
}

fn starts_as_sign(bytes: &[u8]) -> bool {
    bytes.starts_with(b"-") || bytes.starts_with(b"+")
}

/// Whether all bytes are decimal digits.
pub(crate) fn is_digits(bytes: &[u8]) -> bool {
    !bytes.is_empty() && bytes.iter().all(|byte| byte.is_ascii_digit())
}

fn has_digit(bytes: &[u8]) -> bool {
    bytes.iter().any(|byte| byte.is_ascii_digit())
}

fn has_letter(bytes: &[u8]) -> bool {
    bytes.iter().any(|byte| byte.is_ascii_alphabetic())
}

/// Whether a control character is among the bytes.
pub(crate) fn has_control(bytes: &[u8]) -> bool {
    bytes.iter().any(|byte| byte.is_ascii_control())
}

/// Whether the byte is among them.
pub(crate) fn has_byte(bytes: &[u8], wanted: u8) -> bool {
    for byte in bytes {
        if *byte == wanted {
            return true;
        }
    }
    false
}

/// The number that bytes mean which aren't one, if it can be seen.
pub(crate) fn meant_number(alloc: Global, bytes: &[u8]) -> Result<Option<u64>, NoMemory> {
    if bytes.starts_with(b"0x") || bytes.starts_with(b"0X") {
        return Ok(hex_number(bytes.split_at(2.min(bytes.len())).1));
    }
    let mut digits = Vec::new(alloc);
    for (place, byte) in bytes.iter().enumerate() {
        match meant_byte(*byte) {
            Meant::Digit(digit) => push_digit(&mut digits, digit)?,
            Meant::Nothing => {}
            Meant::Sign if place == 0 => {}
            Meant::Sign | Meant::Other => return Ok(None),
        }
    }
    Ok(number(digits.as_slice()))
}

/// Adds a digit, without zeros at the front.
fn push_digit(digits: &mut Vec<u8>, digit: u8) -> Result<(), NoMemory> {
    if digits.as_slice() == b"0".as_slice() {
        digits.clear();
    }
    digits.push(digit)?;
    Ok(())
}

/// What a byte of a mistyped number means.
#[derive(Clone, Copy)]
enum Meant {
    Digit(u8),
    Nothing,
    Sign,
    Other,
}

fn meant_byte(byte: u8) -> Meant {
    match byte {
        b'0'..=b'9' => Meant::Digit(byte),
        b'o' | b'O' => Meant::Digit(b'0'),
        b'l' | b'I' => Meant::Digit(b'1'),
        b',' | b'_' | b';' | b'\'' => Meant::Nothing,
        b'+' => Meant::Sign,
        _ if byte.is_ascii_control() => Meant::Nothing,
        _ => Meant::Other,
    }
}

/// The value of 1 to 16 hexadecimal digits.
fn hex_number(digits: &[u8]) -> Option<u64> {
    if digits.is_empty() || digits.len() > 16 {
        return None;
    }
    let mut value = 0u64;
    for digit in digits {
        let digit = char::from(*digit).to_digit(16)?;
        value = value.wrapping_mul(16).wrapping_add(u64::from(digit));
    }
    Some(value)
}
