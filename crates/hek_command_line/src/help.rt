//! Help that is wrapped at the width of a terminal.
use hek_report::Text;
use hek_rules::{NoMemory, number};
use std::alloc::Global;
use std::env;
use std::env::Env;

/// The variable of the environment that says how many characters a line has.
const VARIABLE: &str = "COLUMNS";

/// How many characters a line has where that isn't known, and at least.
pub const WIDTH: usize = 100;

const LEAST: usize = 40;

/// How many characters a line has, as the environment says.
pub fn width_of<R: Env + Alloc<A = Global>>(rt: &R) -> usize {
    match env::var(rt, VARIABLE) {
        Ok(text) => match number(text.as_str().as_bytes()) {
            Some(width) if width > 0 => (width as usize).max(LEAST),
            _ => WIDTH,
        },
        Err(_) => WIDTH,
    }
}

/// The lines of a text, each of at most `width` characters where its words allow that.
pub fn wrapped(alloc: Global, text: &str, width: usize) -> Result<Vec<u8>, NoMemory> {
    let mut bytes = Vec::new(alloc);
    let mut out = Text::after(&mut bytes);
    for line in text.split('\n') {
        put_line(&mut out, line, width);
        out.put("\n");
    }
    out.done()?;
    // The text ends with a line feed, after which it has no line.
    bytes.pop();
    Ok(bytes)
}

/// A line, with what is too long for it on further lines, under the place at which its text begins.
fn put_line(out: &mut Text<'_>, line: &str, width: usize) {
    if line.len() <= width {
        out.put(line);
        return;
    }
    let hang = hang_of(line).min(width / 2);
    let (front, rest) = line.split_at_checked(hang).unwrap_or(("", line));
    out.put(front);
    let mut column = hang;
    for (place, word) in rest.split(' ').enumerate() {
        let end = column.saturating_add(word.len());
        if place > 0 && end.saturating_add(1) > width {
            out.put("\n");
            out.marks(" ", hang);
            column = hang.saturating_add(word.len());
        } else if place > 0 {
            out.put(" ");
            column = end.saturating_add(1);
        } else {
            column = end;
        }
        out.put(word);
    }
}

/// Where the text of a line begins: after the name of an option and the blanks that follow it, or after the blanks at its
/// front.
fn hang_of(line: &str) -> usize {
    let text = line.trim_start();
    let front = line.len().saturating_sub(text.len());
    if front == 0 {
        return 0;
    }
    match text.split_once("  ") {
        Some((_, rest)) => line.len().saturating_sub(rest.trim_start().len()),
        None => front,
    }
}
