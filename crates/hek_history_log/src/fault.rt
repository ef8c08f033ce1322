//! What can be wrong with a log.
ghost use Rattle.std.specs.Prelude.{◌≡◌, true};
ghost use Rattle.hek_history_log.specs.Ends.{IsEnd};

use hek_rules::NoMemory;
use std::alloc::{AllocError, AllocFailed};
use std::fmt;
use thiserror::Error;

/// A fault of a log. Lines and columns are counted from 1, a column in bytes.
#[derive(Debug, Drop, Error)]
pub enum LogFault {
    /// The line is no JSON text, or has another one after it.
    #[error("line {line}, column {column}: wanted a JSON object on one line")]
    Json {
        line: u64,
        column: u64,
    },
    /// The value at the place is not what is wanted there.
    #[error("line {line}, column {column}: wanted {wanted}")]
    Wanted {
        line: u64,
        column: u64,
        wanted: Wanted,
    },
    /// The line has more than 16777216 bytes.
    #[error("line {line}: wanted a line of at most 16777216 bytes")]
    Long {
        line: u64,
    },
    /// The transaction, as it prints, is in the log before this line.
    #[error("line {line}, column {column}: wanted each transaction once, and {name} is on line {before} too")]
    Duplicate {
        line: u64,
        column: u64,
        name: String,
        before: u64,
    },
    /// The key, as it prints, is twice among the opening rows.
    #[error("line {line}: wanted each key once, and {key} has two rows")]
    RowTwice {
        line: u64,
        key: String,
    },
    /// A bucket is scanned on this line, and the log has keys that are texts, which are in no bucket.
    #[error("line {line}: wanted number keys alone in a log with scans of buckets, and {key} is a text")]
    TextKey {
        line: u64,
        key: String,
    },
    /// The texts among the keys have no numbers above the number keys, unless those are at most this.
    #[error("wanted no number key above {0}: text keys are numbered above them")]
    NoRoom(u64),
    #[error("wanted a line for each transaction, and the log is empty")]
    Empty,
    #[error("cannot read")]
    CannotRead,
    #[error("no memory")]
    NoMemory,
}

impl LogFault {
    /// The line and the column of the place, if the fault has one.
    pub fn place(&self) -> Option<(u64, u64)> {
        match self {
            LogFault::Json { line, column }
            | LogFault::Wanted { line, column, .. }
            | LogFault::Duplicate { line, column, .. } => Some((*line, *column)),
            LogFault::Long { line }
            | LogFault::RowTwice { line, .. }
            | LogFault::TextKey { line, .. } => Some((*line, 1)),
            LogFault::NoRoom(_) | LogFault::Empty | LogFault::CannotRead | LogFault::NoMemory => {
                None
            }
        }
    }

    /// Whether reading ended there, so that nothing more can be said of the log.
    pub(crate) fn is_end(&self) -> bool
        ensures { IsEnd self.now → result ≡ true }
    {
        matches!(self, LogFault::CannotRead | LogFault::NoMemory)
    }
}

impl From<NoMemory> for LogFault {
    ghost use Rattle.std.specs.Prelude.{◌≡◌};
    ghost use Rattle.hek_history_log.specs.declared.fault.LogFault.TheVariants.{NoMemory as no_memory};

    ghost from_gives = { λ _ e. e ≡ no_memory };

    fn from(_fault: NoMemory) -> LogFault {
        LogFault::NoMemory
    }
}

impl From<AllocError> for LogFault {
    ghost use Rattle.std.specs.Prelude.{◌≡◌};
    ghost use Rattle.hek_history_log.specs.declared.fault.LogFault.TheVariants.{NoMemory as no_memory};

    ghost from_gives = { λ _ e. e ≡ no_memory };

    fn from(_fault: AllocError) -> LogFault {
        LogFault::NoMemory
    }
}

impl<T: Drop> From<AllocFailed<T>> for LogFault {
    ghost use Rattle.std.specs.Prelude.{◌≡◌};
    ghost use Rattle.hek_history_log.specs.declared.fault.LogFault.TheVariants.{NoMemory as no_memory};

    ghost from_gives = { λ _ e. e ≡ no_memory };

    fn from(_fault: AllocFailed<T>) -> LogFault {
        LogFault::NoMemory
    }
}

/// What a place of a log has to have.
#[derive(Clone, Copy, Debug, PartialEq, Eq)]
pub enum Wanted {
    /// The line is an object.
    Object,
    /// Only the first line has no transaction.
    Transaction,
    /// A member of the opening line has a known name.
    OpeningMember,
    /// A member of a transaction's line has a known name.
    Member,
    /// No member is twice in an object.
    Once,
    Rows,
    Buckets,
    Row,
    Name,
    Level,
    Status,
    Time,
    Interval,
    /// A transaction doesn't end before it begins.
    EndAfterBegin,
    /// A transaction isn't answered before it is invoked.
    AnsweredAfterInvoked,
    Session,
    Operations,
    Operation,
    Read,
    Write,
    Insert,
    Update,
    Delete,
    Scan,
    Range,
    /// The two ends of a range are both numbers or both texts.
    Ends,
    /// The high end of a range isn't below the low one.
    EndsInOrder,
    /// The opening line has the number of buckets.
    BucketCount,
    /// The scanned bucket is below the number of buckets.
    Bucket,
    /// The object at the end of a write says the number of its version.
    Version,
}

impl Wanted {
    fn text(self) -> &'static str {
        match self {
            Wanted::OpeningMember => {
                r#""txn", or on the first line "rows", "buckets", "note" or a name that begins with x- alone"#
            }
            Wanted::Member => {
                r#"one of "txn", "level", "status", "begin", "end", "at", "session", "ops", "note" or a name that begins with x-"#
            }
            Wanted::Once => "each member once",
            Wanted::EndAfterBegin => r#""end" not before "begin""#,
            Wanted::AnsweredAfterInvoked => r#""at" with ANSWERED not before INVOKED"#,
            Wanted::EndsInOrder => "a range whose HIGH is not below its LOW",
            Wanted::Object => r#"an object, as {"txn":NAME,"ops":[..]}"#,
            Wanted::Transaction => r#""txn" on each line but the first"#,
            Wanted::Rows => r#""rows", an array of [KEY, VALUE]"#,
            Wanted::Buckets => r#""buckets", a number from 1 on"#,
            Wanted::Row => "an array [KEY, VALUE]",
            Wanted::Name => r#""txn", a text or a number below 2^64"#,
            Wanted::Level => r#""level", one of "serializable", "snapshot", "repeatable""#,
            Wanted::Status => r#""status", one of "committed", "aborted", "unknown""#,
            Wanted::Time => r#""begin" and "end", numbers below 2^64"#,
            Wanted::Interval => r#""at", an array [INVOKED, ANSWERED] of numbers"#,
            Wanted::Session => {
                r#""session", a text or a number below 2^64, or an array [NAME, NUMBER] of such a name and a number below 2^64"#
            }
            Wanted::Operations => r#""ops", an array of operations"#,
            Wanted::Operation => {
                r#"an array that begins with "read", "write", "insert", "update", "delete", "scan" or "range""#
            }
            Wanted::Read => r#"an array ["read", KEY, VALUE]"#,
            Wanted::Write => r#"an array ["write", KEY, VALUE]"#,
            Wanted::Insert => r#"an array ["insert", KEY, VALUE, DONE]"#,
            Wanted::Update => r#"an array ["update", KEY, VALUE, DONE]"#,
            Wanted::Delete => r#"an array ["delete", KEY, DONE]"#,
            Wanted::Scan => r#"an array ["scan", BUCKET, [[KEY, VALUE], ..]]"#,
            Wanted::Range => r#"an array ["range", LOW, HIGH, [[KEY, VALUE], ..]]"#,
            Wanted::Ends => "a range between two numbers or two texts",
            Wanted::BucketCount => r#""buckets" on the first line, for a scan of a bucket"#,
            Wanted::Bucket => r#"a bucket below "buckets""#,
            Wanted::Version => r#"{"version":N} at the end of a write, a number below 2^64"#,
        }
    }
}

impl fmt::Display for Wanted {
    fn fmt<W: fmt::Write>(&self, f: &mut fmt::Formatter<W>) -> fmt::Result {
        f.write_str(self.text())
    }
}
