//! What can go wrong: each fault has one line and one exit status.
ghost use Rattle.std.specs.Prelude.{◌≡◌};
ghost use Rattle.hek_report.specs.declared.fault.HekFault.TheVariants as hek;
ghost use Rattle.hek_report.specs.Fault.{status_of, text_fault, image_fault, trace_fault};
ghost use Rattle.hek_report.specs.Files.{ReadFails};

use hek_asm::{AsmFault, AsmKind, TraceFault};
use hek_image::LoadFault;
use hek_rules::NoMemory;
use hek_word::ReleaseFault;
use std::io::{ErrorKind, Write};
use thiserror::Error;

/// A fault of a command. Its text is the line that goes to standard error.
#[derive(Clone, Copy, Debug, PartialEq, Eq, Error)]
pub enum HekFault<'a> {
    #[error("hek: bad argument")]
    BadArgument,
    #[error("hek: not a word")]
    NotAWord,
    #[error("hek: no reader")]
    NoReader,
    #[error("hek: bad waits")]
    BadWaits,
    /// What is wrong with a schedule text, at the line of this number.
    #[error("hek: line {line}: {kind}")]
    Line {
        line: u64,
        kind: AsmKind,
    },
    #[error("hek: image: {0}")]
    Image(LoadFault),
    /// The number of the first line that cannot appear there in any trace.
    #[error("hek: trace line {0}")]
    TraceLine(u64),
    /// The number of the first line that is not a command of the debugger.
    #[error("hek: command line {0}")]
    CommandLine(u64),
    /// What is wanted at a place of a program: the number of the line, and that of the byte in it, from 1.
    #[error("hek: line {line}, column {column}: {wanted} is wanted")]
    Wanted {
        line: u64,
        column: u64,
        wanted: &'a str,
    },
    /// A worker's thread cannot be started.
    #[error("hek: threads: no worker")]
    NoWorker,
    /// The number of a worker whose replies are not what they should be.
    #[error("hek: threads: mismatch {0}")]
    Mismatch(u64),
    #[error("hek: not text")]
    NotText,
    /// The name, on the command line, of a file that cannot be opened or read.
    #[error("hek: cannot read {0}")]
    CannotRead(&'a str),
    #[error("hek: cannot write")]
    CannotWrite,
    #[error("hek: no memory")]
    NoMemory,
}

impl HekFault<'_> {
    /// The exit status of the program with this fault: 2 for a bad command line, otherwise 1.
    pub fn status(self) -> u8
        ensures { result ≡ status_of self.entry }
    {
        match self {
            HekFault::BadArgument => 2,
            HekFault::NotAWord
            | HekFault::NoReader
            | HekFault::BadWaits
            | HekFault::Line { .. }
            | HekFault::Image(_)
            | HekFault::TraceLine(_)
            | HekFault::CommandLine(_)
            | HekFault::Wanted { .. }
            | HekFault::NoWorker
            | HekFault::Mismatch(_)
            | HekFault::NotText
            | HekFault::CannotRead(_)
            | HekFault::CannotWrite
            | HekFault::NoMemory => 1,
        }
    }
}

impl From<ReleaseFault> for HekFault<'_> {
    fn from(fault: ReleaseFault) -> Self {
        match fault {
            ReleaseFault::NoReader => HekFault::NoReader,
            ReleaseFault::BadWaits => HekFault::BadWaits,
        }
    }
}

impl From<AsmFault> for HekFault<'_> {
    ghost from_gives = { λ f e. e ≡ text_fault f };

    fn from(fault: AsmFault) -> Self {
        match fault {
            AsmFault::At { line, kind } => HekFault::Line { line, kind },
            AsmFault::NoMemory => HekFault::NoMemory,
        }
    }
}

impl From<LoadFault> for HekFault<'_> {
    ghost from_gives = { λ f e. e ≡ image_fault f };

    fn from(fault: LoadFault) -> Self {
        match fault {
            LoadFault::NoMemory => HekFault::NoMemory,
            fault => HekFault::Image(fault),
        }
    }
}

impl From<TraceFault> for HekFault<'_> {
    ghost from_gives = { λ f e. e ≡ trace_fault f };

    fn from(fault: TraceFault) -> Self {
        match fault {
            TraceFault::Line(line) => HekFault::TraceLine(line),
            TraceFault::NoMemory => HekFault::NoMemory,
        }
    }
}

impl From<NoMemory> for HekFault<'_> {
    ghost from_gives = { λ _ e. e ≡ hek.NoMemory };

    fn from(_fault: NoMemory) -> Self {
        HekFault::NoMemory
    }
}

/// Why a file can't be opened or read.
pub fn read_fault<'a>(kind: ErrorKind, name: &'a str) -> HekFault<'a>
    ensures { ReadFails name.now result }
{
    match kind {
        ErrorKind::OutOfMemory => HekFault::NoMemory,
        _ => HekFault::CannotRead(name),
    }
}

/// Writes the line of a fault, and answers its exit status.
pub fn report<E: Write>(fault: HekFault<'_>, faults: &mut E) -> u8
    ensures { result ≡ status_of fault.entry }
{
    let _ = writeln!(faults, "{fault}");
    fault.status()
}
