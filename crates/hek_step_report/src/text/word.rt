//! What the words of versions say.
ghost use Rattle.std.specs.Prelude.{◌≡◌, ◌++◌, codes, OnOk};
ghost use Rattle.hek_step_report.specs.StateText.{flag_text, until_text, writer_text, begin_reading, lock_reading, end_reading, begin_field, end_field};

use crate::text::putting::{put_bits, put_number, put_text};
use hek_rules::{BeginRecord, EndRecord, NoMemory, Time, TxnId};
use hek_word::{BeginWord, EndWord};

pub(crate) fn put_time(time: Time, lines: &mut Vec<u8>) -> Result<(), NoMemory>
    ensures { OnOk result (lines.new.items ≡ lines.old.items ++ until_text time) }
{
    let ticks = time.number();
    if ticks == Time::INFINITY {
        return put_text("infinity", lines);
    }
    put_text("time ", lines)?;
    put_number(ticks, lines)
}

/// What a Begin word says.
pub(crate) fn put_begin(word: BeginWord, lines: &mut Vec<u8>) -> Result<(), NoMemory>
    ensures { OnOk result (lines.new.items ≡ lines.old.items ++ begin_reading word) }
{
    match word.content() {
        BeginRecord::At(time) => put_time(time, lines),
        BeginRecord::By(txn) => {
            put_text("transaction ", lines)?;
            put_number(txn.number(), lines)
        }
    }
}

/// What an End word says. NoMoreReadLocks is named if it is set.
pub(crate) fn put_end(word: EndWord, lines: &mut Vec<u8>) -> Result<(), NoMemory> {
    match word.content() {
        EndRecord::Until(time) => put_time(time, lines),
        EndRecord::Lock {
            readers,
            writer,
            no_more,
        } => {
            put_lock(readers, writer, lines)?;
            let flag = if no_more { " no-more-reads set" } else { "" };
            put_text(flag, lines)
        }
    }
}

// What an End word says, with NoMoreReadLocks of every lock.
fn put_whole_end(word: EndWord, lines: &mut Vec<u8>) -> Result<(), NoMemory>
    ensures { OnOk result (lines.new.items ≡ lines.old.items ++ end_reading word) }
{
    match word.content() {
        EndRecord::Until(time) => put_time(time, lines),
        EndRecord::Lock {
            readers,
            writer,
            no_more,
        } => {
            put_lock(readers, writer, lines)?;
            put_text(" no-more-reads ", lines)?;
            put_flag(no_more, lines)
        }
    }
}

fn put_lock(readers: u8, writer: Option<TxnId>, lines: &mut Vec<u8>) -> Result<(), NoMemory>
    ensures { OnOk result (lines.new.items ≡ lines.old.items ++ lock_reading readers writer) }
{
    put_text("lock readers ", lines)?;
    put_number(readers as u64, lines)?;
    put_text(" writer ", lines)?;
    put_writer(writer, lines)
}

fn put_writer(writer: Option<TxnId>, lines: &mut Vec<u8>) -> Result<(), NoMemory>
    ensures { OnOk result (lines.new.items ≡ lines.old.items ++ writer_text writer) }
{
    match writer {
        None => put_text("none", lines),
        Some(u) => put_number(u.number(), lines),
    }
}

/// A flag.
pub(crate) fn put_flag(is_set: bool, lines: &mut Vec<u8>) -> Result<(), NoMemory>
    ensures { OnOk result (lines.new.items ≡ lines.old.items ++ flag_text is_set) }
{
    if is_set {
        put_text("set", lines)
    } else {
        put_text("clear", lines)
    }
}

/// A Begin word as a field: its number in hexadecimal, and what it says.
pub(crate) fn put_begin_field(word: BeginWord, lines: &mut Vec<u8>) -> Result<(), NoMemory>
    ensures { OnOk result (lines.new.items ≡ lines.old.items ++ begin_field word) }
{
    put_text("; ", lines)?;
    put_bits(word.bits(), lines)?;
    put_text(" begin ", lines)?;
    put_begin(word, lines)
}

/// An End word as a field: its number in hexadecimal, and what it says.
pub(crate) fn put_end_field(word: EndWord, lines: &mut Vec<u8>) -> Result<(), NoMemory>
    ensures { OnOk result (lines.new.items ≡ lines.old.items ++ end_field word) }
{
    put_text("; ", lines)?;
    put_bits(word.bits(), lines)?;
    put_text(" end ", lines)?;
    put_whole_end(word, lines)
}
