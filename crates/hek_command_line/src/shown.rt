//! What goes out as text: a control character in it is a picture.
use hek_diagnostics::pictured;
use std::alloc::{AllocError, Global};
use std::io::Write;
use std::{io, str};

/// Writes text that is made of whole characters. Line feeds and tabs go out as they are; each other control character, and each
/// that turns the direction of what follows, as a picture: so no name and no comment moves the cursor of a terminal, or has text
/// read in another order than it has.
pub fn show<W: Write>(alloc: Global, text: &[u8], out: &mut W) -> io::Result<()> {
    if is_plain(text) {
        return out.write_all(text);
    }
    let shown = shown(alloc, text)?;
    out.write_all(shown.as_bytes())
}

/// Whether no byte can be that of a character that is shown as a picture.
fn is_plain(text: &[u8]) -> bool {
    text.iter().all(|byte| match *byte {
        b'\n' | b'\t' => true,
        0xC2 | 0xE2 | 0x7F => false,
        byte => byte >= b' ',
    })
}

/// A text with pictures. A byte that is no part of UTF-8 is one, too.
fn shown(alloc: Global, text: &[u8]) -> Result<String, AllocError> {
    let mut shown = String::new(alloc);
    match str::from_utf8(text) {
        Ok(text) => {
            for mark in text.chars() {
                shown.push(pictured(mark))?;
            }
        }
        Err(_) => {
            for byte in text {
                let mark = char::from(*byte);
                shown.push(if mark.is_ascii() {
                    pictured(mark)
                } else {
                    '\u{FFFD}'
                })?;
            }
        }
    }
    Ok(shown)
}
