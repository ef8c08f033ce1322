//! What is wrong with the text of a program.
use hek_asm::AsmKind;
use hek_rules::NoMemory;
use std::alloc::{AllocError, AllocFailed};
use std::fmt;
use std::fmt::{Display, Formatter};
use thiserror::Error;

/// What a reader wants at a place of a line.
#[derive(Clone, Copy, Debug, PartialEq, Eq)]
pub enum Wanted {
    /// A number, or a key; in an invariant a transaction too.
    Term,
    /// A number below 2^64.
    Number,
    Relation,
    /// A read, a write or a `fail`, which alone can have a condition.
    Move,
    /// A key that the transaction read, scanned or wrote in an earlier line.
    SeenKey,
    /// A key that a row has, or an insert.
    RowKey,
    /// Nothing more, or a condition.
    IfOrEnd,
    /// Nothing more, or another comparison.
    AndOrEnd,
}

impl Wanted {
    /// What is wanted, in words.
    pub fn text(self) -> &'static str {
        match self {
            Wanted::Term => "a number or @KEY",
            Wanted::Number => "a number below 2^64",
            Wanted::Relation => "one of = != < <= > >=",
            Wanted::Move => "read, scan, insert, update, delete or fail",
            Wanted::SeenKey => "a key that the transaction has read, scanned or written before",
            Wanted::RowKey => "the key of a row or of an insert",
            Wanted::IfOrEnd => "'if' or the end of the line",
            Wanted::AndOrEnd => "'and' or the end of the line",
        }
    }
}

impl Display for Wanted {
    fn fmt<W: fmt::Write>(&self, f: &mut Formatter<W>) -> fmt::Result {
        let text = (*self).text();
        write!(f, "{text}")
    }
}

/// Why a text is not read as a program.
#[derive(Clone, Copy, Debug, PartialEq, Eq, Error)]
pub enum ProgramFault {
    #[error("no memory")]
    NoMemory,
    /// The line is none of a schedule's, without what it computes.
    #[error("line {line}: {kind}")]
    Line {
        line: u64,
        kind: AsmKind,
    },
    #[error("line {line}, column {column}: {wanted} is wanted")]
    At {
        line: u64,
        column: u64,
        wanted: Wanted,
    },
}

impl From<NoMemory> for ProgramFault {
    fn from(_error: NoMemory) -> ProgramFault {
        ProgramFault::NoMemory
    }
}

impl From<AllocError> for ProgramFault {
    fn from(_error: AllocError) -> ProgramFault {
        ProgramFault::NoMemory
    }
}

impl<T: Drop> From<AllocFailed<T>> for ProgramFault {
    fn from(_error: AllocFailed<T>) -> ProgramFault {
        ProgramFault::NoMemory
    }
}
