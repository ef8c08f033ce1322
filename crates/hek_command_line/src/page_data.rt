//! The data of a page, without the page: what `hek page --json` prints.
use hek_report::HekFault;
use std::io::Write;

/// The lines of a page before that of its data, before those of its plays, and after these.
const FRONT: &[u8] = b"<script type=\"application/json\" id=\"data\">\n";

const PLAYS: &[u8] = b"<script type=\"application/json\" id=\"plays\">\n";

const END: &[u8] = b"</script>\n";

/// Writes the line of a page that has its data, and those of its plays.
pub fn write_data<'a, W: Write>(page: &[u8], out: &mut W) -> Result<u8, HekFault<'a>> {
    let mut rest = page;
    let mut is_data = false;
    for _ in 0..page.len() {
        let (line, after) = first_line(rest);
        rest = after;
        if line == FRONT || line == PLAYS {
            is_data = true;
        } else if line == END {
            is_data = false;
        } else if is_data && line.len() > 1 && out.write_all(line).is_err() {
            return Err(HekFault::CannotWrite);
        }
    }
    Ok(0)
}

/// The first line with its line feed, and what follows it.
fn first_line(text: &[u8]) -> (&[u8], &[u8]) {
    for (place, byte) in text.iter().enumerate() {
        if *byte == b'\n' {
            return text.split_at(place.saturating_add(1).min(text.len()));
        }
    }
    text.split_at(text.len())
}
