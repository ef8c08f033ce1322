//! The changes of a record lock (section 4 of the paper: record locks). Each answers the new word, which is never 0, or
//! 0 if the change isn't allowed.
ghost use Rattle.std.specs.Prelude.{◌≡◌, ◌<◌, IsSome};
ghost use Rattle.hek_rules.specs.Words.{IsTxn, infinity, end_number, readers_of, writer_of, CanAdd, CanTakeWriter, with_reader, without_reader, with_writer, without_writer};
ghost use Rattle.hek_rules.specs.declared.word.EndRecord.{EndRecord};
ghost use Rattle.hek_changes.specs.Changes.{IsEndOf};
ghost use Rattle.hek_c.specs.Numbers.{NoEndThat};

use hek_rules::TxnId;
use hek_word::EndWord;

/// The first number that is no ID of a transaction.
const NO_TXN: u64 = (1 << 54) - 1;

/// The word of the latest version while nobody holds it.
#[unsafe(no_mangle)]
pub extern "C" fn hek_infinity() -> u64
    ensures { result ≡ infinity }
{
    EndWord::infinity().bits()
}

/// The word with one more reader; 0 if the number is no End word, is a time before infinity, has NoMoreReadLocks, or
/// has 255 readers.
#[unsafe(no_mangle)]
pub extern "C" fn hek_add_reader(number: u64) -> u64
    ensures word { (r : EndRecord) → IsEndOf r number → CanAdd r → result ≡ end_number (with_reader r) }
    ensures none { NoEndThat CanAdd number → result ≡ 0 }
{
    let Some(word) = EndWord::read(number) else {
        return 0;
    };
    if !word.can_add() {
        return 0;
    }
    word.add_reader().bits()
}

/// The word with one reader less; 0 if the number is no End word, or has no reader. When the last reader goes, the
/// version is free, or the word has its writer alone, which waits for no reader of it any more, with NoMoreReadLocks.
#[unsafe(no_mangle)]
pub extern "C" fn hek_drop_reader(number: u64) -> u64
    ensures word { (r : EndRecord) → IsEndOf r number → 0 < readers_of r → result ≡ end_number (without_reader r) }
    ensures none { NoEndThat (λ r. 0 < readers_of r) number → result ≡ 0 }
{
    let Some(word) = EndWord::read(number) else {
        return 0;
    };
    if word.readers() == 0 {
        return 0;
    }
    word.drop_reader().0.bits()
}

/// The word with this transaction as its writer; 0 if the number is no End word, is a time before infinity, or has a
/// writer, or if `txn` isn't 1 to 2^54 - 2.
#[unsafe(no_mangle)]
pub extern "C" fn hek_take_writer(number: u64, txn: u64) -> u64
    ensures word { (r : EndRecord) → IsEndOf r number → CanTakeWriter r → IsTxn txn → result ≡ end_number (with_writer r txn) }
    ensures none { NoEndThat (λ r. CanTakeWriter r × IsTxn txn) number → result ≡ 0 }
{
    let Some(word) = EndWord::read(number) else {
        return 0;
    };
    if txn == 0 || txn >= NO_TXN || !word.can_take_writer() {
        return 0;
    }
    word.take_writer(TxnId::new(txn)).bits()
}

/// The word without its writer and NoMoreReadLocks; infinity if it has no reader either. 0 if the number is no End
/// word, or has no writer.
#[unsafe(no_mangle)]
pub extern "C" fn hek_clear_writer(number: u64) -> u64
    ensures word { (r : EndRecord) → IsEndOf r number → IsSome (writer_of r) → result ≡ end_number (without_writer r) }
    ensures none { NoEndThat (λ r. IsSome (writer_of r)) number → result ≡ 0 }
{
    let Some(word) = EndWord::read(number) else {
        return 0;
    };
    if word.writer().is_none() {
        return 0;
    }
    word.clear_writer().bits()
}
