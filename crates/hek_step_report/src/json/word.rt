//! Begin and End words: their bits, and what they say.
use hek_report::Lines;
use hek_rules::{BeginRecord, EndRecord, Schedule, Time, TxnId};
use hek_word::{BeginWord, EndWord};
use std::fmt;

/// The bits of a word, as 16 hexadecimal digits.
#[derive(Clone, Copy)]
struct Bits(u64);

impl fmt::Display for Bits {
    fn fmt<W: fmt::Write>(&self, f: &mut fmt::Formatter<W>) -> fmt::Result {
        let bits = self.0;
        write!(f, "{bits:016X}")
    }
}

/// A Begin word: its bits, and the time or the transaction that it holds.
pub(crate) fn put_begin(name: &str, schedule: &Schedule, word: BeginWord, out: &mut Lines) {
    out.put_key(name);
    out.begin_object();
    out.put_shown("word", &Bits(word.bits()));
    match word.content() {
        BeginRecord::At(time) => put_end_time(time, out),
        BeginRecord::By(txn) => {
            out.put_text("kind", "txn");
            out.put_name("txn", schedule, txn);
        }
    }
    out.end_object();
}

/// A Begin word before and after a step.
pub(crate) fn put_begins(
    schedule: &Schedule,
    before: BeginWord,
    after: BeginWord,
    out: &mut Lines,
) {
    put_begin("before", schedule, before, out);
    put_begin("after", schedule, after, out);
}

/// An End word before and after a step.
pub(crate) fn put_ends(schedule: &Schedule, before: EndWord, after: EndWord, out: &mut Lines) {
    put_end("before", schedule, before, out);
    put_end("after", schedule, after, out);
}

/// An End word: its bits, and the time or the lock that it holds.
pub(crate) fn put_end(name: &str, schedule: &Schedule, word: EndWord, out: &mut Lines) {
    out.put_key(name);
    out.begin_object();
    out.put_shown("word", &Bits(word.bits()));
    match word.content() {
        EndRecord::Until(time) => put_end_time(time, out),
        EndRecord::Lock {
            readers,
            writer,
            no_more,
        } => put_lock(schedule, readers, writer, no_more, out),
    }
    out.end_object();
}

fn put_end_time(time: Time, out: &mut Lines) {
    match time.number() {
        Time::INFINITY => out.put_text("kind", "infinity"),
        ticks => {
            out.put_text("kind", "time");
            out.put_number("time", ticks);
        }
    }
}

fn put_lock(
    schedule: &Schedule,
    readers: u8,
    writer: Option<TxnId>,
    no_more: bool,
    out: &mut Lines,
) {
    out.put_text("kind", "lock");
    out.put_number("readers", u64::from(readers));
    out.put_maybe_name("writer", schedule, writer);
    out.put_flag("no_more_reads", no_more);
}
