//! A line of a log, and the faults at its values.
ghost use Rattle.std.specs.Prelude.{◌≡◌, ℕ, List, [], ◌∷◌, ◌++◌, slice_index, false};

use crate::fault::{LogFault, Wanted};
use crate::spot::{Spot, column_of};
use hek_rules::NoMemory;
use std::alloc::{AllocError, AllocFailed};

/// The byte order mark, with which an editor may begin a text.
const BYTE_ORDER_MARK: &[u8] = b"\xEF\xBB\xBF";

/// A line that is JSON, with its number from 1.
#[derive(Clone, Copy)]
pub(crate) struct LogLine<'a> {
    pub number: u64,
    pub bytes: &'a [u8],
}

impl<'a> LogLine<'a> {
    /// The line with a number, of these bytes without the line feed at their end, and without a byte order mark before the
    /// first line.
    pub(crate) fn new(number: u64, bytes: &'a [u8]) -> LogLine<'a>
        ensures number { result.number ≡ number }
        ensures bytes { (text : List ℕ) → bytes.now ≡ text ++ 10 ∷ []
            → slice_index text 0 ≡ 123 → result.bytes.now ≡ text }
    {
        let bytes = without_feed(bytes);
        let bytes = if number == 1 {
            without_mark(bytes)
        } else {
            bytes
        };
        LogLine { number, bytes }
    }

    /// Whether the line has nothing but blanks.
    pub(crate) fn is_blank(self) -> bool
        ensures { slice_index self.entry.bytes.now 0 ≡ 123 → result ≡ false }
    {
        self.bytes.iter().all(|byte| byte.is_ascii_whitespace())
    }

    /// The fault that a value is not what is wanted there.
    pub(crate) fn wants(self, spot: Spot, wanted: Wanted) -> LogFault {
        LogFault::Wanted {
            line: self.number,
            column: column_of(self.bytes, spot),
            wanted,
        }
    }

    /// The fault of a value.
    pub(crate) fn fault(self, spot: Spot, misfit: Misfit) -> LogFault
        ensures { misfit ≡ Misfit.NoMemory → result ≡ LogFault.NoMemory }
    {
        match misfit {
            Misfit::Wanted(wanted) => self.wants(spot, wanted),
            Misfit::NoMemory => LogFault::NoMemory,
        }
    }
}

/// The bytes without the line feed at their end.
fn without_feed(bytes: &[u8]) -> &[u8]
    ensures { (text : List ℕ) → bytes.now ≡ text ++ 10 ∷ [] → result.now ≡ text }
{
    match bytes.strip_suffix(b"\n") {
        Some(text) => text,
        None => bytes,
    }
}

/// The bytes without a byte order mark before them.
fn without_mark(bytes: &[u8]) -> &[u8]
    ensures { slice_index bytes.now 0 ≡ 123 → result.now ≡ bytes.now }
{
    match bytes.strip_prefix(BYTE_ORDER_MARK) {
        Some(text) => text,
        None => bytes,
    }
}

/// Why a value is not read.
#[derive(Clone, Copy, Debug, PartialEq, Eq)]
pub(crate) enum Misfit {
    Wanted(Wanted),
    NoMemory,
}

impl From<Wanted> for Misfit {
    fn from(wanted: Wanted) -> Misfit {
        Misfit::Wanted(wanted)
    }
}

impl From<NoMemory> for Misfit {
    ghost use Rattle.std.specs.Prelude.{◌≡◌};
    ghost use Rattle.hek_history_log.specs.declared.log_line.Misfit.TheVariants.{NoMemory as no_memory};

    ghost from_gives = { λ _ e. e ≡ no_memory };

    fn from(_fault: NoMemory) -> Misfit {
        Misfit::NoMemory
    }
}

impl From<AllocError> for Misfit {
    ghost use Rattle.std.specs.Prelude.{◌≡◌};
    ghost use Rattle.hek_history_log.specs.declared.log_line.Misfit.TheVariants.{NoMemory as no_memory};

    ghost from_gives = { λ _ e. e ≡ no_memory };

    fn from(_fault: AllocError) -> Misfit {
        Misfit::NoMemory
    }
}

impl<T: Drop> From<AllocFailed<T>> for Misfit {
    ghost use Rattle.std.specs.Prelude.{◌≡◌};
    ghost use Rattle.hek_history_log.specs.declared.log_line.Misfit.TheVariants.{NoMemory as no_memory};

    ghost from_gives = { λ _ e. e ≡ no_memory };

    fn from(_fault: AllocFailed<T>) -> Misfit {
        Misfit::NoMemory
    }
}
