//! What words say, and faults of exchanges, as objects of JSON.
use crate::book::Book;
use crate::entry::Exchange;
use crate::fault::{Fault, readers_of, side_name, writer_of};
use crate::words::Said;
use hek_report::Lines;
use hek_rules::{BeginRecord, EndRecord, Time, TxnId};
use std::fmt;

/// The bits of a word, as 16 hexadecimal digits.
#[derive(Clone, Copy)]
struct Bits(u64);

impl fmt::Display for Bits {
    fn fmt<W: fmt::Write>(&self, f: &mut fmt::Formatter<W>) -> fmt::Result {
        let bits = self.0;
        write!(f, "{bits:016X}")
    }
}

/// Puts the bits of a word as the member of this name.
pub(crate) fn put_bits(name: &str, bits: u64, lines: &mut Lines) {
    lines.put_shown(name, &Bits(bits));
}

/// Puts the object of a text and what it says as a word.
pub(crate) fn put_word(text: &str, said: Said, lines: &mut Lines) {
    lines.begin_line();
    lines.put_text("kind", "word");
    lines.put_text("word", text);
    match said.begin {
        Some(begin) => put_begin(begin.content(), lines),
        None => lines.put_null("begin"),
    }
    match said.end {
        Some(end) => put_end(end.content(), lines),
        None => lines.put_null("end"),
    }
    put_past(said, lines);
    lines.end_line();
}

/// Puts what a Begin word holds.
fn put_begin(content: BeginRecord, lines: &mut Lines) {
    lines.put_key("begin");
    lines.begin_object();
    match content {
        BeginRecord::At(time) => put_time(time, lines),
        BeginRecord::By(txn) => {
            lines.put_text("kind", "txn");
            lines.put_number("txn", txn.number());
        }
    }
    lines.end_object();
}

/// Puts what an End word holds.
fn put_end(content: EndRecord, lines: &mut Lines) {
    lines.put_key("end");
    lines.begin_object();
    match content {
        EndRecord::Until(time) => put_time(time, lines),
        EndRecord::Lock {
            readers,
            writer,
            no_more,
        } => put_lock(readers, writer, no_more, lines),
    }
    lines.end_object();
}

fn put_time(time: Time, lines: &mut Lines) {
    match time.number() {
        Time::INFINITY => lines.put_text("kind", "infinity"),
        ticks => {
            lines.put_text("kind", "time");
            lines.put_number("time", ticks);
        }
    }
}

fn put_lock(readers: u8, writer: Option<TxnId>, no_more: bool, lines: &mut Lines) {
    lines.put_text("kind", "lock");
    lines.put_number("readers", u64::from(readers));
    lines.put_maybe("writer", writer.map(|writer| writer.number()));
    lines.put_flag("no_more_reads", no_more);
}

/// Puts the bounds that the word is past.
fn put_past(said: Said, lines: &mut Lines) {
    lines.put_key("past");
    lines.begin_array();
    if said.past_clock {
        lines.write_text("clock");
    }
    if said.past_txns {
        lines.write_text("transactions");
    }
    if said.past_readers {
        lines.write_text("readers");
    }
    lines.end_array();
}

/// A word by its side and its version, as `end-3`.
#[derive(Clone, Copy)]
struct Named {
    side: &'static str,
    version: u64,
}

impl fmt::Display for Named {
    fn fmt<W: fmt::Write>(&self, f: &mut fmt::Formatter<W>) -> fmt::Result {
        let (side, version) = (self.side, self.version);
        write!(f, "{side}{version}")
    }
}

/// Puts the name of an End word.
pub(crate) fn put_end_name(version: u64, lines: &mut Lines) {
    let name = Named {
        side: "end-",
        version,
    };
    lines.put_shown("word", &name);
}

/// Puts the members of a fault of an exchange.
pub(crate) fn put_fault(
    fault: &Fault,
    number: u64,
    exchange: &Exchange,
    book: &Book,
    lines: &mut Lines,
) {
    lines.put_text(
        "kind",
        fault.front.strip_suffix(": ").unwrap_or(fault.front),
    );
    lines.put_number("line", number);
    put_place(exchange, lines);
    match fault.nearest {
        Some(change) => lines.put_shown("nearest", &change),
        None => lines.put_null("nearest"),
    }
    lines.put_shown("reason", &fault.reason);
    put_bits("wanted", fault.wanted, lines);
    lines.put_numbers("holders", readers_of(exchange, book));
    lines.put_maybe(
        "writer",
        writer_of(exchange.old).map(|writer| writer.number()),
    );
}

/// Puts the word that an exchange names, its numbers and its transaction.
fn put_place(exchange: &Exchange, lines: &mut Lines) {
    match exchange.word {
        Some(word) => {
            let name = Named {
                side: side_name(word.side),
                version: word.version,
            };
            lines.put_shown("word", &name);
        }
        None => lines.put_null("word"),
    }
    put_bits("old", exchange.old, lines);
    put_bits("new", exchange.new, lines);
    let txn = exchange.txn;
    lines.put_number("txn", txn.number());
}
