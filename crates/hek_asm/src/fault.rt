//! What is wrong with a text.
ghost use Rattle.std.specs.Prelude.{◌≡◌};
ghost use Rattle.hek_asm.specs.declared.fault.LineFault.TheVariants as line;
ghost use Rattle.hek_asm.specs.declared.fault.TraceFault.TheVariants as trace;

use hek_rules::NoMemory;
use std::alloc::{AllocError, AllocFailed};
use std::fmt;
use std::fmt::{Display, Formatter};
use thiserror::Error;

/// What is wrong with a line. Its text is its number and name.
#[derive(Clone, Copy, Debug, PartialEq, Eq)]
pub enum AsmKind {
    /// The first line with words doesn't begin with `buckets`, or no line has words.
    NoBuckets,
    /// The line is none of the format's, or is out of order.
    BadWord,
    BadNumber,
    /// A step's transaction isn't declared.
    UnknownName,
    NameTwice,
    KeyTwice,
    /// A limit is exceeded.
    TooMany,
    /// A scan's bucket isn't below the number of buckets.
    BadBucket,
    /// A character that is not ASCII occurs outside the comment.
    NotAscii,
}

impl AsmKind {
    ghost use Rattle.hek_asm.specs.Kinds.{kind_number, kind_name};

    /// The number of the kind in texts, 1 to 9.
    pub fn number(self) -> u64
        ensures { result ≡ kind_number self }
    {
        match self {
            AsmKind::NoBuckets => 1,
            AsmKind::BadWord => 2,
            AsmKind::BadNumber => 3,
            AsmKind::UnknownName => 4,
            AsmKind::NameTwice => 5,
            AsmKind::KeyTwice => 6,
            AsmKind::TooMany => 7,
            AsmKind::BadBucket => 8,
            AsmKind::NotAscii => 9,
        }
    }

    /// The name of the kind in texts.
    pub fn name(self) -> &'static str
        ensures { result.now ≡ kind_name self }
    {
        match self {
            AsmKind::NoBuckets => "NoBuckets",
            AsmKind::BadWord => "BadWord",
            AsmKind::BadNumber => "BadNumber",
            AsmKind::UnknownName => "UnknownName",
            AsmKind::NameTwice => "NameTwice",
            AsmKind::KeyTwice => "KeyTwice",
            AsmKind::TooMany => "TooMany",
            AsmKind::BadBucket => "BadBucket",
            AsmKind::NotAscii => "NotAscii",
        }
    }
}

impl Display for AsmKind {
    fn fmt<W: fmt::Write>(&self, f: &mut Formatter<W>) -> fmt::Result {
        let number = (*self).number();
        let name = (*self).name();
        write!(f, "{number} {name}")
    }
}

/// Why a text isn't assembled: its first fault, or out of memory.
#[derive(Clone, Copy, Debug, PartialEq, Eq, Error)]
pub enum AsmFault {
    #[error("line {line}: {kind}")]
    At { line: u64, kind: AsmKind },
    #[error("no memory")]
    NoMemory,
}

/// Why a text isn't read as a trace: the first line that no trace of the schedule has there, or out of memory.
#[derive(Clone, Copy, Debug, PartialEq, Eq, Error)]
pub enum TraceFault {
    #[error("trace line {0}")]
    Line(u64),
    #[error("no memory")]
    NoMemory,
}

impl From<NoMemory> for TraceFault {
    ghost from_gives = { λ _ e. e ≡ trace.NoMemory };

    fn from(_error: NoMemory) -> TraceFault {
        TraceFault::NoMemory
    }
}

/// Why a line isn't read: its fault, or out of memory.
#[derive(Clone, Copy, Debug, Error)]
pub(crate) enum LineFault {
    #[error("{0}")]
    Fault(AsmKind),
    #[error("no memory")]
    NoMemory,
}

impl From<NoMemory> for LineFault {
    ghost from_gives = { λ _ e. e ≡ line.NoMemory };

    fn from(_error: NoMemory) -> LineFault {
        LineFault::NoMemory
    }
}

impl From<AllocError> for LineFault {
    ghost from_gives = { λ _ e. e ≡ line.NoMemory };

    fn from(_error: AllocError) -> LineFault {
        LineFault::NoMemory
    }
}

impl<T: Drop> From<AllocFailed<T>> for LineFault {
    ghost from_gives = { λ _ e. e ≡ line.NoMemory };

    fn from(_error: AllocFailed<T>) -> LineFault {
        LineFault::NoMemory
    }
}
