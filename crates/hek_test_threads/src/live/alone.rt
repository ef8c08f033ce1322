//! Words in one thread.
use crate::live::support::{is, made};
use hek_live::{DropRead, DropWrite, TryRead, TryWrite};
use hek_rules::TxnId;
use hek_word::EndWord;
use std::test::Fail;

// A reader, a writer over it, and the last reader who leaves; at last the writer's seat is joined to the reader's.
#[test]
fn a_reader_under_a_writer(rt: HostRuntime) -> Result<(), Fail> {
    let (words, mut s) = made(&rt, rt.alloc(), 1);
    let mut r = words.split(&mut s);
    let TryRead::Taken(1) = words.try_read(&mut s, 0) else {
        panic!(rt; "not taken")
    };
    let TryWrite::Written(1) = words.try_write(&mut r, 0, TxnId::new(2)) else {
        panic!(rt; "not written")
    };
    is(&rt, words.look(&mut s, 0).bits(), 0x8040_0000_0000_0002);
    let DropRead::Last(waits) = words.drop_read(&mut s, 0) else {
        panic!(rt; "not the last")
    };
    is(&rt, waits, TxnId::new(2));
    is(&rt, words.look(&mut s, 0).bits(), 0xC000_0000_0000_0002);
    is(&rt, words.try_read(&mut s, 0), TryRead::NoMore);
    let TryWrite::Writer(holds) = words.try_write(&mut s, 0, TxnId::new(1)) else {
        panic!(rt; "no writer")
    };
    is(&rt, holds, TxnId::new(2));
    let DropWrite::Dropped = words.drop_write(&mut r, 0) else {
        panic!(rt; "not dropped")
    };
    words.join(&mut s, r);
    is(&rt, words.look(&mut s, 0).bits(), 0x7FFF_FFFF_FFFF_FFFF);
    Ok(())
}

// A seat that is let go keeps its tokens, so each turn adds a reader.
#[test]
fn a_full_word(rt: HostRuntime) {
    let (words, mut first) = made(&rt, rt.alloc(), 1);
    for k in 1..=255 {
        let mut seat = words.split(&mut first);
        is(&rt, words.try_read(&mut seat, 0), TryRead::Taken(k));
    }
    let mut last = words.split(&mut first);
    is(&rt, words.try_read(&mut last, 0), TryRead::Full);
    is(&rt, words.look(&mut last, 0).bits(), 0xBFFF_FFFF_FFFF_FFFF);
}

// Readers come and go, and words beside the one that they hold stay as they are.
#[test]
fn two_readers_of_many_words(rt: HostRuntime) {
    let (words, mut s) = made(&rt, rt.alloc(), 1024);
    let mut r = words.split(&mut s);
    is(&rt, words.try_read(&mut s, 1023), TryRead::Taken(1));
    is(&rt, words.try_read(&mut r, 1023), TryRead::Taken(2));
    is(&rt, words.look(&mut s, 1023).bits(), 0x80BF_FFFF_FFFF_FFFF);
    is(&rt, words.look(&mut s, 0), EndWord::infinity());
    is(&rt, words.look(&mut s, 1022), EndWord::infinity());
}
