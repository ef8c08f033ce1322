//! Who holds a word at the end of a log.
ghost use Rattle.std.specs.Prelude.{Any, IsTrue, IsSome, ◌↔◌};
ghost use Rattle.hek_convert_command.specs.Book.{knowledge_of, over_in};
ghost use Rattle.hek_convert_command.specs.Changed.{HasLeak, IsLeaked};

use crate::book::Book;
use crate::fault::{put_holders, writer_of};
use crate::objects::{put_bits, put_end_name};
use hek_report::{Lines, Printing, put};
use hek_rules::{NoMemory, TxnId};
use hek_word::EndWord;
use std::alloc::Global;
use std::io::Write;

/// Whether a transaction that is over holds a word.
pub(crate) fn has_leak(book: &Book) -> bool
    ensures { IsTrue result ↔ HasLeak (knowledge_of book.now) }
{
    for index in 0..book.ends.len() {
        let Some((version, last)) = book.ends.get_index(index) else {
            return false;
        };
        if is_leaked(*version, *last, book) {
            return true;
        }
    }
    false
}

/// Whether a transaction that is over holds a word that was left with this number.
fn is_leaked(version: u64, last: u64, book: &Book) -> bool
    ensures { IsTrue result ↔ IsLeaked (knowledge_of book.now) version last }
{
    if has_reader_over(book.readers(version), book) {
        return true;
    }
    match writer_of(last) {
        Some(writer) => book.over_line(writer).is_some(),
        None => false,
    }
}

/// Whether one of these transactions is over.
fn has_reader_over(readers: &[u64], book: &Book) -> bool
    ensures { IsTrue result ↔ Any (λ t. IsSome (over_in book.now t)) readers.now }
{
    readers
        .iter()
        .any(|reader| book.over_line(TxnId::new(*reader)).is_some())
}

/// For each word that is held a line, and before it one for each lock of a transaction that is over.
pub(crate) fn end_text(
    alloc: Global,
    book: &Book,
    printing: Printing,
) -> Result<Vec<u8>, NoMemory> {
    let mut text = Vec::new(alloc);
    for index in 0..book.ends.len() {
        if let Some((version, last)) = book.ends.get_index(index) {
            put_word(alloc, *version, *last, book, printing, &mut text)?;
        }
    }
    Ok(text)
}

fn put_word(
    alloc: Global,
    version: u64,
    last: u64,
    book: &Book,
    printing: Printing,
    text: &mut Vec<u8>,
) -> Result<(), NoMemory> {
    let writer = writer_of(last);
    let held = Held {
        version,
        last,
        readers: book.readers(version),
        writer,
    };
    for reader in held.readers {
        put_leak(
            alloc,
            &held,
            TxnId::new(*reader),
            false,
            book,
            printing,
            text,
        )?;
    }
    if let Some(writer) = held.writer {
        put_leak(alloc, &held, writer, true, book, printing, text)?;
    }
    if held.readers.is_empty() && !is_lock(last) {
        return Ok(());
    }
    let living = living(held.readers, book);
    match printing {
        Printing::Text => put_held(&held, living, text),
        Printing::Json => {
            let mut lines = Lines::after(alloc, text);
            put_held_object(&held, living, &mut lines);
            lines.put_back(text)
        }
    }
}

/// An End word, what it was left with, and who holds it.
#[derive(Clone, Copy)]
struct Held<'b> {
    version: u64,
    last: u64,
    readers: &'b [u64],
    writer: Option<TxnId>,
}

/// Whether a number is a lock.
fn is_lock(number: u64) -> bool {
    match EndWord::read(number) {
        Some(word) => word.time().is_none(),
        None => false,
    }
}

/// How many of these read locks are of transactions of which no line says that they are over.
fn living(readers: &[u64], book: &Book) -> usize {
    readers
        .iter()
        .filter(|reader| book.over_line(TxnId::new(**reader)).is_none())
        .count()
}

/// Puts the lock of a transaction, if a line says that it is over.
fn put_leak(
    alloc: Global,
    held: &Held<'_>,
    txn: TxnId,
    is_writer: bool,
    book: &Book,
    printing: Printing,
    text: &mut Vec<u8>,
) -> Result<(), NoMemory> {
    let Some(line) = book.over_line(txn) else {
        return Ok(());
    };
    let lock = if is_writer { "write" } else { "read" };
    let wanted = without_lock(held.last, is_writer);
    match printing {
        Printing::Text => {
            let (txn, version) = (txn.number(), held.version);
            put(writeln!(
                text,
                "leaked: {txn} is over and still {lock}-locks end-{version}; wanted {wanted:016X} (line {line})"
            ))
        }
        Printing::Json => {
            let mut lines = Lines::after(alloc, text);
            lines.begin_line();
            lines.put_text("kind", "leaked");
            lines.put_number("line", line);
            put_end_name(held.version, &mut lines);
            lines.put_number("txn", txn.number());
            lines.put_text("lock", lock);
            put_bits("wanted", wanted, &mut lines);
            lines.put_numbers("holders", held.readers);
            put_writer(held, &mut lines);
            lines.end_line();
            lines.put_back(text)
        }
    }
}

/// The word without one of its locks.
fn without_lock(last: u64, is_writer: bool) -> u64 {
    let Some(word) = EndWord::read(last) else {
        return last;
    };
    if is_writer && word.writer().is_some() {
        word.clear_writer().bits()
    } else if !is_writer && word.readers() > 0 {
        word.drop_reader().0.bits()
    } else {
        last
    }
}

/// Puts the line of a word that is held.
fn put_held(held: &Held<'_>, living: usize, text: &mut Vec<u8>) -> Result<(), NoMemory> {
    let (version, last, counted) = (held.version, held.last, counted(held.last));
    put(write!(
        text,
        "held: end-{version} {last:016X} (readers counted {counted}, known to live {living}"
    ))?;
    let writer = held.writer;
    put_holders(held.readers, writer, text)?;
    text.extend_from_slice(b")\n")?;
    Ok(())
}

/// How many readers a number counts as an End word.
fn counted(number: u64) -> u64 {
    match EndWord::read(number) {
        Some(word) => u64::from(word.readers()),
        None => 0,
    }
}

fn put_held_object(held: &Held<'_>, living: usize, lines: &mut Lines) {
    lines.begin_line();
    lines.put_text("kind", "held");
    put_end_name(held.version, lines);
    put_bits("last", held.last, lines);
    lines.put_number("counted", counted(held.last));
    lines.put_number("living", living as u64);
    lines.put_numbers("holders", held.readers);
    put_writer(held, lines);
    lines.end_line();
}

fn put_writer(held: &Held<'_>, lines: &mut Lines) {
    let writer = held.writer;
    lines.put_maybe("writer", writer.map(|writer| writer.number()));
}
