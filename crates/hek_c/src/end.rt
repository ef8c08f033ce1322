//! What End words hold.
ghost use Rattle.std.specs.Prelude.{◌≡◌, true, false};
ghost use Rattle.hek_rules.specs.Words.{end_time, readers_of, writer_of, no_more_of};
ghost use Rattle.hek_rules.specs.declared.word.EndRecord.{EndRecord};
ghost use Rattle.hek_changes.specs.Changes.{IsEndOf};
ghost use Rattle.hek_c.specs.Numbers.{NoEnd, number_or};

use crate::NO_TIME;
use hek_word::EndWord;

/// Whether the number is an End word.
#[unsafe(no_mangle)]
pub extern "C" fn hek_is_end(number: u64) -> bool
    ensures word { (r : EndRecord) → IsEndOf r number → result ≡ true }
    ensures none { NoEnd number → result ≡ false }
{
    EndWord::read(number).is_some()
}

/// The time of an End word, 0 to 2^63 - 1; 2^64 - 1 if it is a lock, or the number is no End word.
#[unsafe(no_mangle)]
pub extern "C" fn hek_end_time(number: u64) -> u64
    ensures word { (r : EndRecord) → IsEndOf r number → result ≡ number_or 18446744073709551615 (end_time r) }
    ensures none { NoEnd number → result ≡ 18446744073709551615 }
{
    let Some(word) = EndWord::read(number) else {
        return NO_TIME;
    };
    match word.time() {
        Some(time) => time.number(),
        None => NO_TIME,
    }
}

/// ReadLockCount of an End word, 0 to 255; 0 if the word is a time, or the number is no End word.
#[unsafe(no_mangle)]
pub extern "C" fn hek_readers(number: u64) -> u64
    ensures word { (r : EndRecord) → IsEndOf r number → result ≡ readers_of r }
    ensures none { NoEnd number → result ≡ 0 }
{
    let Some(word) = EndWord::read(number) else {
        return 0;
    };
    u64::from(word.readers())
}

/// WriteLock of an End word, the writer's ID; 0 if there is none, or the number is no End word.
#[unsafe(no_mangle)]
pub extern "C" fn hek_writer(number: u64) -> u64
    ensures word { (r : EndRecord) → IsEndOf r number → result ≡ number_or 0 (writer_of r) }
    ensures none { NoEnd number → result ≡ 0 }
{
    let Some(word) = EndWord::read(number) else {
        return 0;
    };
    match word.writer() {
        Some(txn) => txn.number(),
        None => 0,
    }
}

/// NoMoreReadLocks of an End word; clear if the word is a time, or the number is no End word.
#[unsafe(no_mangle)]
pub extern "C" fn hek_no_more_reads(number: u64) -> bool
    ensures word { (r : EndRecord) → IsEndOf r number → result ≡ no_more_of r }
    ensures none { NoEnd number → result ≡ false }
{
    let Some(word) = EndWord::read(number) else {
        return false;
    };
    word.no_more()
}
