//! A page: the frame, the style and the script around a title and data.
ghost use Rattle.std.specs.Prelude.{◌≡◌, ◌++◌, IfErr, OnOk};
ghost use Rattle.std.specs.List.{flat_map};
ghost use Rattle.hek_report.specs.Files.{IsStop};
ghost use Rattle.hek_page_command.specs.Pages.{WritesPage};
ghost use Rattle.hek_page_command.specs.Sheets.{escaped};

use crate::frame::{BACK, BETWEEN, END, FRONT, HEAD, MIDDLE};
use crate::heading::Heading;
use crate::script::{SCRIPT_FIRST, SCRIPT_FOURTH, SCRIPT_SECOND, SCRIPT_THIRD};
use crate::style::STYLE;
use hek_report::{HekFault, send};
use hek_rules::NoMemory;
use std::alloc::Global;
use std::io::Write;

/// Writes the page of these data.
pub(crate) fn write_sheet<'a, W: Write>(
    alloc: Global,
    heading: &Heading<'_>,
    data: &[u8],
    out: &mut W,
) -> Result<(), HekFault<'a>>
    ensures written { OnOk result (WritesPage (W.contents out.old) (W.contents out.new)) }
    ensures stops { IfErr result IsStop }
{
    let mut sheet = sheet_of(alloc, heading, data)?;
    send(&mut sheet, out)
}

fn sheet_of(alloc: Global, heading: &Heading<'_>, data: &[u8]) -> Result<Vec<u8>, NoMemory> {
    let mut sheet = Vec::new(alloc);
    put_head(alloc, heading, &mut sheet)?;
    put_bytes(data, &mut sheet)?;
    put_part(BETWEEN, &mut sheet)?;
    put_bytes(heading.plays, &mut sheet)?;
    put_foot(&mut sheet)?;
    Ok(sheet)
}

/// Appends what is before the data.
fn put_head(alloc: Global, heading: &Heading<'_>, sheet: &mut Vec<u8>) -> Result<(), NoMemory> {
    put_part(FRONT, sheet)?;
    put_title_of(alloc, heading, sheet)?;
    put_part(HEAD, sheet)?;
    put_part(style_text(), sheet)?;
    put_part(body_text(), sheet)
}

/// Appends what is after the data.
fn put_foot(sheet: &mut Vec<u8>) -> Result<(), NoMemory> {
    put_part(BACK, sheet)?;
    put_part(first_part(), sheet)?;
    put_part(second_part(), sheet)?;
    put_part(third_part(), sheet)?;
    put_part(fourth_part(), sheet)?;
    put_part(END, sheet)
}

fn put_part(part: &str, sheet: &mut Vec<u8>) -> Result<(), NoMemory> {
    sheet.extend_from_slice(part.as_bytes())?;
    Ok(())
}

// Each long text has a function of its own: a check of a function copies the constants in it for each of its steps.
fn style_text() -> &'static str {
    STYLE
}

fn body_text() -> &'static str {
    MIDDLE
}

fn first_part() -> &'static str {
    SCRIPT_FIRST
}

fn second_part() -> &'static str {
    SCRIPT_SECOND
}

fn third_part() -> &'static str {
    SCRIPT_THIRD
}

fn fourth_part() -> &'static str {
    SCRIPT_FOURTH
}

fn put_title_of(alloc: Global, heading: &Heading<'_>, sheet: &mut Vec<u8>) -> Result<(), NoMemory> {
    let title = heading.title(alloc)?;
    put_title(title.as_str(), sheet)
}

/// Appends a title as a text of HTML.
fn put_title(title: &str, sheet: &mut Vec<u8>) -> Result<(), NoMemory> {
    for byte in title.as_bytes() {
        match *byte {
            b'&' => sheet.extend_from_slice(b"&amp;")?,
            b'<' => sheet.extend_from_slice(b"&lt;")?,
            other => sheet.push(other)?,
        }
    }
    Ok(())
}

/// Appends bytes, each as a page has it.
fn put_bytes(bytes: &[u8], sheet: &mut Vec<u8>) -> Result<(), NoMemory>
    ensures { OnOk result (sheet.new.items ≡ sheet.old.items ++ flat_map escaped bytes.now) }
{
    let mut rest = bytes;
    while let Some((byte, later)) = rest.split_first() {
        put_byte(*byte, sheet)?;
        rest = later;
    }
    Ok(())
}

fn put_byte(byte: u8, sheet: &mut Vec<u8>) -> Result<(), NoMemory>
    ensures { OnOk result (sheet.new.items ≡ sheet.old.items ++ escaped byte) }
{
    if byte == b'<' {
        sheet.extend_from_slice(b"\\u003c")?;
    } else {
        sheet.push(byte)?;
    }
    Ok(())
}
