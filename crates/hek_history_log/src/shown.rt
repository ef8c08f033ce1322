//! A name, a key or a value of a log.
use std::fmt;

/// A name, a key or a value, as the log has it. It prints as itself: a text that could be taken for something else is
/// in quotes, as in JSON.
#[derive(Clone, Copy, Debug, PartialEq, Eq)]
pub enum Label<'a> {
    Number(u64),
    /// A number below zero, which only a value can be.
    Negative(i64),
    Text(&'a str),
}

impl fmt::Display for Label<'_> {
    fn fmt<W: fmt::Write>(&self, f: &mut fmt::Formatter<W>) -> fmt::Result {
        match *self {
            Label::Number(number) => write!(f, "{number}"),
            Label::Negative(number) => write!(f, "{number}"),
            Label::Text(text) => {
                if is_plain(text) {
                    f.write_str(text)
                } else {
                    write_quoted(f, text)
                }
            }
        }
    }
}

/// Whether a text can be printed without quotes: it is no number and not `absent`, and has no blank, quote, comma,
/// backslash or control character.
fn is_plain(text: &str) -> bool {
    let bytes = text.as_bytes();
    if text == "absent" || is_number(bytes) {
        return false;
    }
    bytes.iter().all(|&byte| {
        byte > b' ' && byte != b'"' && byte != b',' && byte != b'\\' && byte != 127
    })
}

/// Whether bytes are digits, with a minus before them or without.
fn is_number(bytes: &[u8]) -> bool {
    let digits = match bytes {
        [b'-', digits @ ..] => digits,
        _ => bytes,
    };
    digits.iter().all(|byte| byte.is_ascii_digit())
}

/// Writes a text as a JSON string.
fn write_quoted<W: fmt::Write>(f: &mut fmt::Formatter<W>, text: &str) -> fmt::Result {
    f.write_char('"')?;
    for letter in text.chars() {
        match letter {
            '"' => f.write_str("\\\"")?,
            '\\' => f.write_str("\\\\")?,
            '\n' => f.write_str("\\n")?,
            '\r' => f.write_str("\\r")?,
            '\t' => f.write_str("\\t")?,
            letter => {
                if letter.is_control() {
                    let code = letter as u32;
                    write!(f, "\\u{code:04x}")?;
                } else {
                    f.write_char(letter)?;
                }
            }
        }
    }
    f.write_char('"')
}
