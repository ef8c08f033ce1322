//! Schedules from files: from a text or from an image.
ghost use Rattle.std.specs.Prelude.{◌≡◌, MatchResult, IfSome, Ok};
ghost use Rattle.hek_asm.specs.Text.{schedule_of};
ghost use Rattle.hek_report.specs.Files.{ReadFails, ScheduleTextFails, ImageGives, ImageFails, FileGives, FileFails};

use crate::fault::{HekFault, read_fault};
use hek_asm::assemble_text;
use hek_image::load_image;
use hek_rules::{FromRead, Schedule};
use std::alloc::Global;
use std::io::Read;
use std::str;

/// How many bytes a text has at most.
const MAX_TEXT: u64 = 1 << 28;

/// A file with a schedule: a text that has been read, or an image that is still to be read.
#[derive(Drop)]
pub enum ScheduleFile<R: Read + Drop> {
    Text(Vec<u8>),
    Image(R),
}

/// All bytes of the text file of this name.
pub fn read_text<'a, R: Read + Drop>(
    alloc: Global,
    reader: R,
    name: &'a str,
) -> Result<Vec<u8>, HekFault<'a>>
    ensures { MatchResult result (λ text. IfSome (R.remaining reader) (λ bytes. text.items ≡ bytes)) (ReadFails name.now) }
{
    let mut text = Vec::new(alloc);
    let mut reader = reader.take(MAX_TEXT + 1);
    if let Err(error) = reader.read_to_end(&mut text) {
        return Err(read_fault(error.kind(), name));
    }
    if text.len() as u64 > MAX_TEXT {
        return Err(HekFault::CannotRead(name));
    }
    Ok(text)
}

/// The schedule that a text describes.
pub fn schedule_of_text<'a>(alloc: Global, text: &[u8]) -> Result<Schedule, HekFault<'a>>
    ensures { MatchResult result (λ schedule. schedule_of text.now ≡ Ok schedule) (ScheduleTextFails text.now) }
{
    let Ok(text) = str::from_utf8(text) else {
        return Err(HekFault::NotText);
    };
    match assemble_text(alloc, text) {
        Ok(schedule) => Ok(schedule),
        Err(fault) => Err(HekFault::from(fault)),
    }
}

/// The schedule whose image a reader gives, to its end.
pub fn schedule_of_image<'a, R: Read + Drop>(
    alloc: Global,
    reader: R,
) -> Result<Schedule, HekFault<'a>>
    ensures { MatchResult result (λ schedule. ImageGives (R.remaining reader) schedule) (ImageFails (R.remaining reader)) }
{
    let mut source = FromRead::new(reader);
    match load_image(alloc, &mut source) {
        Ok(schedule) => Ok(schedule),
        Err(fault) => Err(HekFault::from(fault)),
    }
}

/// The schedule in a file.
pub fn schedule_in<'a, R: Read + Drop>(
    alloc: Global,
    file: ScheduleFile<R>,
) -> Result<Schedule, HekFault<'a>>
    ensures { MatchResult result (FileGives R.remaining file) (FileFails R.remaining file) }
{
    match file {
        ScheduleFile::Text(text) => schedule_of_text(alloc, text.as_slice()),
        ScheduleFile::Image(reader) => schedule_of_image(alloc, reader),
    }
}
