//! What Begin words hold.
ghost use Rattle.std.specs.Prelude.{◌≡◌, true, false};
ghost use Rattle.hek_rules.specs.Words.{begin_time, begin_txn};
ghost use Rattle.hek_rules.specs.declared.word.BeginRecord.{BeginRecord};
ghost use Rattle.hek_changes.specs.Changes.{IsBeginOf};
ghost use Rattle.hek_c.specs.Numbers.{NoBegin, number_or};

use crate::NO_TIME;
use hek_word::BeginWord;

/// Whether the number is a Begin word.
#[unsafe(no_mangle)]
pub extern "C" fn hek_is_begin(number: u64) -> bool
    ensures word { (r : BeginRecord) → IsBeginOf r number → result ≡ true }
    ensures none { NoBegin number → result ≡ false }
{
    BeginWord::read(number).is_some()
}

/// The time of a Begin word, 0 to 2^63 - 1; 2^64 - 1 if it names a transaction, or the number is no Begin word.
#[unsafe(no_mangle)]
pub extern "C" fn hek_begin_time(number: u64) -> u64
    ensures word { (r : BeginRecord) → IsBeginOf r number → result ≡ number_or 18446744073709551615 (begin_time r) }
    ensures none { NoBegin number → result ≡ 18446744073709551615 }
{
    let Some(word) = BeginWord::read(number) else {
        return NO_TIME;
    };
    match word.time() {
        Some(time) => time.number(),
        None => NO_TIME,
    }
}

/// The transaction that a Begin word names; 0 if it names none, or the number is no Begin word.
#[unsafe(no_mangle)]
pub extern "C" fn hek_begin_txn(number: u64) -> u64
    ensures word { (r : BeginRecord) → IsBeginOf r number → result ≡ number_or 0 (begin_txn r) }
    ensures none { NoBegin number → result ≡ 0 }
{
    let Some(word) = BeginWord::read(number) else {
        return 0;
    };
    match word.txn() {
        Some(txn) => txn.number(),
        None => 0,
    }
}
