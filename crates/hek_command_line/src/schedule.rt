//! FILE, the schedule of a command: a text or an image, by its name, its first word and the words of the command line.
ghost use Rattle.std.specs.Prelude.{IfErr};
ghost use Rattle.hek_report.specs.Files.{ReadFails};

use crate::call::{Call, Opened};
use crate::disk::Disk;
use crate::opening::{BYTE_ORDER_MARK, Opening, read_opening};
use crate::programs::plain_file;
use hek_permute_command::{auto_file, level_file};
use hek_report::{HekFault, ScheduleFile, buffered, read_fault, read_text};
use std::alloc::Global;
use std::io::{BufReader, Chain, Cursor, Read, Write};

/// How the name of a schedule text ends, in small or in capital letters.
const TEXT_NAME: &str = ".hek";

/// The bytes that each image begins with.
const IMAGE_MARK: &[u8] = b"HKSC";

/// How many bytes at the front of a file are looked at.
const FRONT: u64 = 4;

/// A file from its first byte, also where its front has been looked at.
type FromFront<'k, 'a, I, F> = Chain<Cursor<Vec<u8>>, Opened<'k, 'a, I, F>>;

/// What the words and the name say that a file holds.
#[derive(Clone, Copy, PartialEq, Eq)]
enum Holds {
    Text,
    Image,
    /// A text, unless its first bytes are those of an image.
    MaybeText,
    /// A text if its first word is one of a schedule text, otherwise an image.
    Unsaid,
}

impl<'k, 'a, D: Disk, I: Read + Drop, W: Write, E: Write> Call<'_, '_, 'k, 'a, D, I, W, E> {
    /// The schedule file that the words name. `--text` and `--image` say what it holds. Without them it is a text if its name
    /// ends in `.hek` and its first bytes aren't those of an image, or if its first word is one with which a line of a schedule
    /// text begins; otherwise it is an image.
    pub fn schedule_file(
        &mut self,
    ) -> Result<ScheduleFile<BufReader<FromFront<'k, 'a, I, D::Reader>>>, HekFault<'a>> {
        let name = self.word("FILE");
        let mut file = self.open(name)?;
        let (front, is_text) = match self.holds(name) {
            Holds::Image => (Vec::new(self.alloc), false),
            Holds::Text => (front_of(self.alloc, &mut file, name)?, true),
            Holds::MaybeText => {
                let front = front_of(self.alloc, &mut file, name)?;
                let is_image = front.starts_with(IMAGE_MARK);
                (front, !is_image)
            }
            Holds::Unsaid => {
                let Opening { front, is_text } = read_opening(self.alloc, &mut file)?;
                (front, is_text)
            }
        };
        file_of(self.alloc, is_text, from_front(front, file), name)
    }

    /// The schedule file that the words name, as they ask for it to run: with `--level` all transactions at one level, with
    /// `--auto` with its reads and writes alone, and the steps that begin and end each transaction. Of a program `--auto` makes
    /// a schedule, if the command plays programs; otherwise a program is a fault.
    pub fn schedule_to_run(
        &mut self,
        plays: bool,
    ) -> Result<ScheduleFile<BufReader<FromFront<'k, 'a, I, D::Reader>>>, HekFault<'a>> {
        let level = self.level();
        let file = self.schedule_file()?;
        match level {
            _ if self.flag("auto") && plays => auto_file(self.alloc, file, level),
            _ if self.flag("auto") => auto_file(self.alloc, plain_file(self.alloc, file)?, level),
            Some(level) => level_file(self.alloc, file, level),
            None => Ok(file),
        }
    }

    /// All bytes of the schedule text that the words name, without a byte order mark at its front.
    pub fn schedule_text(&mut self) -> Result<Vec<u8>, HekFault<'a>> {
        let name = self.word("FILE");
        let file = self.open(name)?;
        text_from(self.alloc, file, name)
    }

    /// What the words and the name say that a file holds.
    fn holds(&self, name: &str) -> Holds {
        if self.flag("text") {
            Holds::Text
        } else if self.flag("image") {
            Holds::Image
        } else if is_text_name(name) {
            Holds::MaybeText
        } else {
            Holds::Unsaid
        }
    }
}

/// The text or the image that a file holds.
fn file_of<'a, R: Read + Drop>(
    alloc: Global,
    is_text: bool,
    file: R,
    name: &'a str,
) -> Result<ScheduleFile<BufReader<R>>, HekFault<'a>> {
    if is_text {
        Ok(ScheduleFile::Text(read_text(alloc, file, name)?))
    } else {
        Ok(ScheduleFile::Image(buffered(alloc, file)?))
    }
}

/// All bytes of the schedule text of this name, without a byte order mark at its front.
fn text_from<'a, R: Read + Drop>(
    alloc: Global,
    mut file: R,
    name: &'a str,
) -> Result<Vec<u8>, HekFault<'a>>
    ensures { IfErr result (ReadFails name.now) }
{
    let front = front_of(alloc, &mut file, name)?;
    read_text(alloc, from_front(front, file), name)
}

/// Whether a name is one of a schedule text.
fn is_text_name(name: &str) -> bool {
    let bytes = name.as_bytes();
    match bytes.split_last_chunk::<4>() {
        Some((_, end)) => end.eq_ignore_ascii_case(TEXT_NAME.as_bytes()),
        None => false,
    }
}

/// The first bytes of a file: `FRONT` of them, or all if it has fewer.
fn front_of<'a, R: Read>(
    alloc: Global,
    file: &mut R,
    name: &'a str,
) -> Result<Vec<u8>, HekFault<'a>>
    ensures { IfErr result (ReadFails name.now) }
{
    let mut front = Vec::new(alloc);
    match file.take(FRONT).read_to_end(&mut front) {
        Ok(_) => Ok(front),
        Err(error) => Err(read_fault(error.kind(), name)),
    }
}

/// A file again from its front, which has been read, and after a byte order mark if it has one.
fn from_front<R: Read>(front: Vec<u8>, file: R) -> Chain<Cursor<Vec<u8>>, R> {
    let is_marked = front.starts_with(BYTE_ORDER_MARK);
    let mut front = Cursor::new(front);
    if is_marked {
        front.set_position(BYTE_ORDER_MARK.len() as u64);
    }
    front.chain(file)
}
