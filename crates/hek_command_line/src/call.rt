//! A call of a command: its words, and what it reads and writes.
ghost use Rattle.std.specs.Prelude.{IfErr};
ghost use Rattle.hek_report.specs.Files.{ReadFails};

use crate::commands::Command;
use crate::disk::{Disk, InputFile, LateFile, Output};
use crate::kept::{Kept, KeptReader};
use crate::streams::Stream;
use clap::ArgMatches;
use hek_permute::Form;
use hek_report::{HekFault, INPUT, Printing, read_fault, read_text, send};
use hek_rules::{Level, number};
use std::alloc::Global;
use std::io::{IsTerminal, Read, Write};

/// What comes of a command: its exit status, or its fault.
pub type Answer<'a> = Result<u8, HekFault<'a>>;

/// A file that is open, or standard input.
pub type Opened<'k, 'a, I, F> = KeptReader<'k, 'a, InputFile<I, F>>;

/// The name by which a system has the file that is standard input.
const INPUT_FILE: &str = "/dev/stdin";

/// The name of standard output, where a file is written.
pub const OUTPUT: &str = "-";

/// A command with its words, and the files and streams that it is called with. `input` is standard input, until it is opened.
#[derive(Drop)]
pub struct Call<'c, 'f, 'k, 'a, D: Disk, I: Read + Drop, W: Write, E: Write> {
    pub alloc: Global,
    pub command: Command,
    pub found: &'f ArgMatches<'a>,
    /// Whether faults are explained.
    pub explains: bool,
    pub kept: &'k Kept<'a>,
    pub disk: &'c D,
    pub input: Option<I>,
    pub out: Output<'c, 'k, 'a, D, W>,
    pub faults: Stream<'c, E>,
}

impl<'c, 'f, 'k, 'a, D: Disk, I: Read + Drop, W: Write, E: Write> Call<'c, 'f, 'k, 'a, D, I, W, E> {
    /// A call that has opened nothing yet.
    pub fn new(
        alloc: Global,
        command: Command,
        found: &'f ArgMatches<'a>,
        explains: bool,
        kept: &'k Kept<'a>,
        disk: &'c D,
        input: I,
        out: Output<'c, 'k, 'a, D, W>,
        faults: Stream<'c, E>,
    ) -> Call<'c, 'f, 'k, 'a, D, I, W, E> {
        Call {
            alloc,
            command,
            found,
            explains,
            kept,
            disk,
            input: Some(input),
            out,
            faults,
        }
    }
}

/// The words.
impl<'a, D: Disk, I: Read + Drop, W: Write, E: Write> Call<'_, '_, '_, 'a, D, I, W, E> {
    /// Whether they have a flag.
    pub fn flag(&self, name: &str) -> bool {
        self.found.get_flag(name)
    }

    /// The value of an argument, if they have it.
    pub fn given(&self, name: &str) -> Option<&'a str> {
        self.found.get_str(name)
    }

    /// The value of an argument that they must have.
    pub fn word(&self, name: &str) -> &'a str {
        self.found.get_str(name).unwrap_or("")
    }

    /// The number of an option, if they have it.
    pub fn number(&self, name: &str) -> Option<u64> {
        number(self.found.get_str(name)?.as_bytes())
    }

    /// The level that they give with `--level`.
    pub fn level(&self) -> Option<Level> {
        Level::named(self.found.get_str("level")?.as_bytes())
    }

    /// How a transaction is cut into moves.
    pub fn form(&self) -> Form {
        let form = match self.found.get_str("grain") {
            Some(word) => Form::named(word),
            None if self.flag("split") => Some(Form::Split),
            None => None,
        };
        form.unwrap_or(Form::Whole)
    }

    /// How they ask to print: as text, or with `--json` as objects of JSON.
    pub fn printing(&self) -> Printing {
        if self.flag("json") {
            Printing::Json
        } else {
            Printing::Text
        }
    }
}

/// The files and the streams.
impl<'k, 'a, D: Disk, I: Read + Drop, W: Write, E: Write> Call<'_, '_, 'k, 'a, D, I, W, E> {
    /// Opens a file to read it. `-` is standard input, which can be opened once.
    pub fn open(&mut self, name: &'a str) -> Result<Opened<'k, 'a, I, D::Reader>, HekFault<'a>>
        ensures { IfErr result (ReadFails name.now) }
    {
        if name == INPUT {
            return match self.input.take() {
                Some(input) => Ok(KeptReader::new(InputFile::Input(input), name, self.kept)),
                None => Err(HekFault::CannotRead(name)),
            };
        }
        match self.disk.open(name) {
            Ok(file) => Ok(KeptReader::new(InputFile::File(file), name, self.kept)),
            Err(error) => {
                self.kept.note(error.kind());
                Err(read_fault(error.kind(), name))
            }
        }
    }

    /// All bytes of a file.
    pub fn bytes_of(&mut self, name: &'a str) -> Result<Vec<u8>, HekFault<'a>> {
        let file = self.open(name)?;
        read_text(self.alloc, file, name)
    }

    /// Writes all of some bytes.
    pub fn send(&mut self, bytes: &mut Vec<u8>) -> Answer<'a> {
        send(bytes, &mut self.out)?;
        Ok(0)
    }

    /// Has the command write to a file of this name in place of standard output.
    pub fn write_to(&mut self, name: &'a str) {
        self.out.file = Some(LateFile::new(self.disk, name, self.kept));
    }

    /// Says that the file to write is the one to read, which would be lost, if it is: under its name, another one, or as standard
    /// input.
    pub fn refuses_same(&mut self, out: &str) -> bool {
        let name = match self.word("FILE") {
            INPUT => INPUT_FILE,
            name => name,
        };
        if out == OUTPUT || !self.disk.is_same(name, out) {
            return false;
        }
        let _ = writeln!(
            self.faults,
            "hek: {out} is FILE itself, which would be lost: name another file to write"
        );
        true
    }
}

impl<D: Disk, I: Read + IsTerminal + Drop, W: Write, E: Write> Call<'_, '_, '_, '_, D, I, W, E> {
    /// Whether standard input is a terminal.
    pub fn is_typed(&self) -> bool {
        match &self.input {
            Some(input) => input.is_terminal(),
            None => false,
        }
    }
}
