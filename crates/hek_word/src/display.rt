//! Words as text for people.
use crate::{BeginWord, EndWord};
use hek_rules::{BeginRecord, EndRecord, Time};
use std::fmt;

/// Writes `begin time 7`, `begin infinity` or `begin transaction 2`.
impl fmt::Display for BeginWord {
    fn fmt<W: fmt::Write>(&self, f: &mut fmt::Formatter<W>) -> fmt::Result {
        match self.content() {
            BeginRecord::At(time) => write_time(f, "begin", time),
            BeginRecord::By(txn) => {
                let txn = txn.number();
                write!(f, "begin transaction {txn}")
            }
        }
    }
}

/// Writes `end time 7`, `end infinity` or `end lock readers 1 writer 2 no-more-reads clear`.
impl fmt::Display for EndWord {
    fn fmt<W: fmt::Write>(&self, f: &mut fmt::Formatter<W>) -> fmt::Result {
        match self.content() {
            EndRecord::Until(time) => write_time(f, "end", time),
            EndRecord::Lock {
                readers,
                writer,
                no_more,
            } => {
                write!(f, "end lock readers {readers} writer ")?;
                match writer {
                    Some(txn) => write!(f, "{}", txn.number())?,
                    None => write!(f, "none")?,
                }
                let flag = if no_more { "set" } else { "clear" };
                write!(f, " no-more-reads {flag}")
            }
        }
    }
}

fn write_time<W: fmt::Write>(f: &mut fmt::Formatter<W>, word: &str, time: Time) -> fmt::Result {
    let ticks = time.number();
    if ticks == Time::INFINITY {
        write!(f, "{word} infinity")
    } else {
        write!(f, "{word} time {ticks}")
    }
}
