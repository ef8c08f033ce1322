//! The words of a version as 64-bit numbers. Contracts see a word as its record, and no other crate names a bit.
#![tactic(auto)]

mod begin;
mod display;
mod end;
mod laws;
mod release;

pub use begin::BeginWord;
pub use end::{EndWord, decode_end};
pub use hek_rules::{BeginRecord, Dropped, EndRecord};
pub use laws::{canonical_numbers_have_one_record, rows_keep_canonical};
pub use release::{ReleaseFault, release_word};

/// The first number that is not a time: 2^63.
const TIMES: u64 = 1 << 63;

/// Bit 63: set in a Begin word that names a transaction, and in an End word that is a lock.
const NAMED: u64 = 1 << 63;

/// Bit 62: NoMoreReadLocks of a lock.
const NO_MORE: u64 = 1 << 62;

/// The unit of ReadLockCount, which is in bits 54 to 61 of a lock.
const READER: u64 = 1 << 54;

/// WriteLock without a writer: all ones, one above the last ID.
const NO_WRITER: u64 = (1 << 54) - 1;
