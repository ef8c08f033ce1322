//! The words of a version: what is read and shown of them, and each change of an End word.
use crate::asserts::{holds, is, is_at};
use hek_rules::{Dropped, Time, TxnId};
use hek_store::Version;
use hek_word::{BeginWord, EndWord, ReleaseFault, release_word};
use std::process::Abort;
use std::test::Fail;

/// Numbers of no End word: no reader and no writer, a flag over readers or without a writer.
const NO_WORDS: [u64; 6] = [
    0x803F_FFFF_FFFF_FFFF,
    0xFFFF_FFFF_FFFF_FFFF,
    0x8040_0000_0000_0000,
    0x8000_0000_0000_0000,
    0xC040_0000_0000_0002,
    0xC03F_FFFF_FFFF_FFFF,
];

const INFINITY: u64 = 0x7FFF_FFFF_FFFF_FFFF;

/// One reader; one reader under writer 2; writer 2, whose last reader went.
const READ: u64 = 0x807F_FFFF_FFFF_FFFF;

const BOTH: u64 = 0x8040_0000_0000_0002;

const LAST_GONE: u64 = 0xC000_0000_0000_0002;

/// A word and the waits of its writer, and what a release leaves of both.
const RELEASES: [(u64, u64, Result<(u64, u64), ReleaseFault>); 7] = [
    (0x8040_0000_0000_0002, 1, Ok((0xC000_0000_0000_0002, 0))),
    (0x8080_0000_0000_0002, 1, Ok((0x8040_0000_0000_0002, 1))),
    (0x80BF_FFFF_FFFF_FFFF, 0, Ok((0x807F_FFFF_FFFF_FFFF, 0))),
    (0x807F_FFFF_FFFF_FFFF, 0, Ok((INFINITY, 0))),
    (0x8000_0000_0000_0002, 0, Err(ReleaseFault::NoReader)),
    (INFINITY, 0, Err(ReleaseFault::NoReader)),
    (0x8040_0000_0000_0002, 0, Err(ReleaseFault::BadWaits)),
];

/// The End word with this number.
fn end_word(rt: &impl Abort, bits: u64) -> EndWord {
    EndWord::read(bits).expect(rt, "a word")
}

#[test]
fn reads_words_alone(rt: HostRuntime) {
    for bits in NO_WORDS {
        is_at(&rt, bits, EndWord::read(bits).is_none(), true);
    }
    holds(&rt, BeginWord::read(0x8040_0000_0000_0001).is_none());
    let full = end_word(&rt, 0xBFFF_FFFF_FFFF_FFFF);
    is(&rt, (full.readers(), full.writer()), (255, None));
    holds(
        &rt,
        full.can_take_writer() && !full.can_add() && !full.no_more(),
    );
    is(&rt, (size_of::<BeginWord>(), size_of::<EndWord>()), (8, 8));
    is(&rt, size_of::<Version>(), 32);
}

#[test]
fn begin_words_are_made(rt: HostRuntime) -> Result<(), Fail> {
    let creator = BeginWord::by(TxnId::new(2));
    is(&rt, creator.bits(), 0x8000_0000_0000_0002);
    is(
        &rt,
        (creator.txn(), creator.time()),
        (Some(TxnId::new(2)), None),
    );
    for (word, text) in [
        (creator, "begin transaction 2"),
        (BeginWord::at(Time::new(7)), "begin time 7"),
        (BeginWord::infinity(), "begin infinity"),
    ] {
        is(&rt, word.to_string(rt.alloc())?.as_str(), text);
    }
    Ok(())
}

/// A reader comes; a writer comes; a reader goes; a writer goes: each answers what is left.
fn comes(rt: &impl Abort, bits: u64) -> u64 {
    let word = end_word(rt, bits);
    holds(rt, word.can_add());
    word.add_reader().bits()
}

fn writes(rt: &impl Abort, bits: u64) -> u64 {
    let word = end_word(rt, bits);
    holds(rt, word.can_take_writer());
    word.take_writer(TxnId::new(2)).bits()
}

fn goes(rt: &impl Abort, bits: u64) -> (u64, Dropped) {
    let word = end_word(rt, bits);
    holds(rt, word.readers() > 0);
    let (left, dropped) = word.drop_reader();
    (left.bits(), dropped)
}

fn clears(rt: &impl Abort, bits: u64) -> u64 {
    let word = end_word(rt, bits);
    holds(rt, word.writer().is_some());
    word.clear_writer().bits()
}

#[test]
fn end_words_change(rt: HostRuntime) {
    is(&rt, EndWord::stamped(Time::new(5)).bits(), 5);
    is(&rt, comes(&rt, INFINITY), READ);
    is(&rt, writes(&rt, INFINITY), 0x8000_0000_0000_0002);
    is(&rt, writes(&rt, READ), BOTH);
    is(&rt, clears(&rt, BOTH), READ);
    is(
        &rt,
        goes(&rt, BOTH),
        (LAST_GONE, Dropped::Last(TxnId::new(2))),
    );
    is(&rt, goes(&rt, READ), (INFINITY, Dropped::Free));
    is(&rt, clears(&rt, LAST_GONE), INFINITY);
}

#[test]
fn releases_leave_word_and_waits(rt: HostRuntime) {
    for (bits, waits, left) in RELEASES {
        let released = match release_word(end_word(&rt, bits), waits) {
            Ok((word, waits)) => Ok((word.bits(), waits)),
            Err(fault) => Err(fault),
        };
        is_at(&rt, bits, released, left);
    }
}

#[test]
fn end_words_are_shown(rt: HostRuntime) -> Result<(), Fail> {
    for (bits, text) in [
        (7, "end time 7"),
        (INFINITY, "end infinity"),
        (BOTH, "end lock readers 1 writer 2 no-more-reads clear"),
        (LAST_GONE, "end lock readers 0 writer 2 no-more-reads set"),
        (
            0xBFFF_FFFF_FFFF_FFFF,
            "end lock readers 255 writer none no-more-reads clear",
        ),
    ] {
        is(
            &rt,
            end_word(&rt, bits).to_string(rt.alloc())?.as_str(),
            text,
        );
    }
    Ok(())
}
