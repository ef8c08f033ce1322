//! The answer to a line of a log of exchanges.
ghost use Rattle.std.specs.Prelude.{◌≡◌, ◌++◌, ◌∷◌, [], codes, IfOk};
ghost use Rattle.hek_convert_command.specs.Changed.{HasFront, IsExchangeLine, IsLine, IsTold, status_of_answer};

use crate::book::Book;
use crate::entries::Listed;
use crate::entry::{Entry, Exchange};
use crate::fault::{broken_fault, broken_line, held_fault, held_line, none_fault, none_line};
use crate::objects::{put_bits, put_fault};
use hek_changes::{BeginChange, EndChange, HolderFault};
use hek_report::{Lines, Printing, put};
use hek_rules::NoMemory;
use std::alloc::Global;
use std::fmt;
use std::io::Write;

/// What a line of a log of exchanges comes to.
#[derive(Drop)]
pub(crate) enum Answer {
    NotAChange,
    /// The line says that a transaction is over.
    Over,
    /// The exchange before it left the word this number.
    Broken(u64),
    /// The exchange is a change, and at fault by who holds the word.
    Held(HolderFault),
    Changes(Option<BeginChange>, Option<EndChange>),
}

impl Answer {
    /// The exit status that a line with this answer asks for: 0 without a fault, 1 with one, 4 for another form.
    pub(crate) fn status(&self) -> u8
        ensures { result ≡ status_of_answer self.now }
    {
        match self {
            Answer::NotAChange => 4,
            Answer::Broken(_) | Answer::Held(_) | Answer::Changes(None, None) => 1,
            Answer::Over | Answer::Changes(_, _) => 0,
        }
    }

    /// The line of the answer to a line, or its object. The book has noted the line.
    pub(crate) fn text(
        &self,
        alloc: Global,
        printing: Printing,
        line: &Listed,
        book: &Book,
    ) -> Result<Vec<u8>, NoMemory>
        ensures { IfOk result (λ text. IsTold printing line.now.number line.now.entry self.now text.items) }
    {
        match printing {
            Printing::Text => self.line(alloc, line, book),
            Printing::Json => self.object(alloc, line, book),
        }
    }

    fn line(&self, alloc: Global, line: &Listed, book: &Book) -> Result<Vec<u8>, NoMemory>
        ensures { IfOk result (λ text. IsLine line.now.number line.now.entry self.now text.items) }
    {
        match &line.entry {
            None => joined(alloc, "not a change", b"\n"),
            Some(Entry::Over(_)) => joined(alloc, "over", b"\n"),
            Some(Entry::Exchange(exchange)) => {
                self.exchange_line(alloc, line.number, exchange, book)
            }
        }
    }

    /// `end stamped`, `begin stamped; end stamped`, or a fault with its reason, its place and who holds the word.
    fn exchange_line(
        &self,
        alloc: Global,
        number: u64,
        exchange: &Exchange,
        book: &Book,
    ) -> Result<Vec<u8>, NoMemory>
        ensures { IfOk result (λ text. IsExchangeLine number exchange.now self.now text.items) }
    {
        match self {
            Answer::NotAChange | Answer::Over => Ok(Vec::new(alloc)),
            Answer::Broken(last) => broken_line(alloc, *last, number, exchange, book),
            Answer::Held(fault) => held_line(alloc, *fault, number, exchange, book),
            Answer::Changes(None, None) => none_line(alloc, number, exchange, book),
            Answer::Changes(None, Some(end)) => end_line(alloc, end),
            Answer::Changes(Some(begin), end) => begin_line(alloc, begin, end.as_ref()),
        }
    }

    /// The object of the answer.
    fn object(&self, alloc: Global, line: &Listed, book: &Book) -> Result<Vec<u8>, NoMemory> {
        let mut lines = Lines::new(alloc);
        lines.begin_line();
        match &line.entry {
            None => lines.put_text("kind", "not a change"),
            Some(Entry::Over(txn)) => {
                lines.put_text("kind", "over");
                lines.put_number("txn", txn.number());
            }
            Some(Entry::Exchange(exchange)) => {
                self.put_exchange(line.number, exchange, book, &mut lines);
            }
        }
        lines.end_line();
        lines.take()
    }

    /// Puts the members of an answer to an exchange.
    fn put_exchange(&self, number: u64, exchange: &Exchange, book: &Book, lines: &mut Lines) {
        match self {
            Answer::NotAChange | Answer::Over => {}
            Answer::Broken(last) => {
                put_fault(&broken_fault(*last), number, exchange, book, lines);
                put_bits("was", *last, lines);
            }
            Answer::Held(fault) => {
                put_fault(&held_fault(*fault, exchange), number, exchange, book, lines);
            }
            Answer::Changes(None, None) => {
                put_fault(&none_fault(exchange), number, exchange, book, lines);
                lines.put_null("begin");
                lines.put_null("end");
            }
            Answer::Changes(begin, end) => {
                lines.put_text("kind", "change");
                put_change("begin", begin.as_ref(), lines);
                put_change("end", end.as_ref(), lines);
            }
        }
    }
}

/// Puts a change as the member of this name, or null.
fn put_change<T: fmt::Display>(name: &str, change: Option<&T>, lines: &mut Lines) {
    match change {
        Some(change) => lines.put_shown(name, change),
        None => lines.put_null(name),
    }
}

/// A text, and then bytes.
pub(crate) fn joined(alloc: Global, front: &str, rest: &[u8]) -> Result<Vec<u8>, NoMemory>
    ensures { IfOk result (λ text. text.items ≡ front.now ++ rest.now) }
{
    let mut text = Vec::new(alloc);
    text.extend_from_slice(front.as_bytes())?;
    text.extend_from_slice(rest)?;
    Ok(text)
}

/// The line of a change of an End word alone.
fn end_line(alloc: Global, end: &EndChange) -> Result<Vec<u8>, NoMemory>
    ensures { IfOk result (λ text. HasFront (codes "end ") text.items) }
{
    let words = end_words(alloc, end)?;
    joined(alloc, "end ", words.as_slice())
}

fn end_words(alloc: Global, end: &EndChange) -> Result<Vec<u8>, NoMemory> {
    let mut words = Vec::new(alloc);
    put(writeln!(words, "{end}"))?;
    Ok(words)
}

/// The line of a change of a Begin word, and of one of an End word, if there is one.
fn begin_line(
    alloc: Global,
    begin: &BeginChange,
    end: Option<&EndChange>,
) -> Result<Vec<u8>, NoMemory>
    ensures { IfOk result (λ text. HasFront (codes "begin ") text.items) }
{
    let words = begin_words(alloc, begin, end)?;
    joined(alloc, "begin ", words.as_slice())
}

fn begin_words(
    alloc: Global,
    begin: &BeginChange,
    end: Option<&EndChange>,
) -> Result<Vec<u8>, NoMemory> {
    let mut words = Vec::new(alloc);
    match end {
        None => put(writeln!(words, "{begin}"))?,
        Some(end) => put(writeln!(words, "{begin}; end {end}"))?,
    }
    Ok(words)
}
