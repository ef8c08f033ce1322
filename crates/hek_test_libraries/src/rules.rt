//! Events, and the lists of replies.
use crate::asserts::{holds, is, is_at};
use hek_rules::{Event, EventKind, Level, Members, Pairs, Time, TxnId, VersionId};
use std::process::Abort;
use std::test::Fail;

#[test]
fn numbers_are_wrapped(rt: HostRuntime) {
    is(&rt, TxnId::new(7).number(), 7);
    is(&rt, VersionId::new(6).index(), 6);
    is(&rt, Time::new(8).number(), 8);
}

#[test]
fn events_have_kinds(rt: HostRuntime) {
    let a = TxnId::new(1);
    let rows = [
        (Event::Begin(a), "begin", 1, 0, 0, 0),
        (Event::Read(a, 5), "read", 2, 1, 5, 0),
        (Event::Scan(a, 5), "scan", 3, 1, 5, 0),
        (Event::Insert(a, 5, 6), "insert", 4, 2, 5, 6),
        (Event::Update(a, 5, 6), "update", 5, 2, 5, 6),
        (Event::Delete(a, 5), "delete", 6, 1, 5, 0),
        (Event::Finish(a), "finish", 7, 0, 0, 0),
        (Event::Precommit(a), "precommit", 8, 0, 0, 0),
        (Event::Release(a), "release", 9, 0, 0, 0),
        (Event::Commit(a), "commit", 10, 0, 0, 0),
        (Event::Fail(a), "fail", 11, 0, 0, 0),
        (Event::Stamp(a), "stamp", 12, 0, 0, 0),
        (Event::End(a), "end", 13, 0, 0, 0),
    ];
    for (event, word, opcode, operands, first, second) in rows {
        let (is_of, has, same) = (event, event, event);
        let kind = is_of.kind();
        is_at(&rt, word, kind.word(), word);
        is_at(&rt, word, EventKind::named(word.as_bytes()), Some(kind));
        is_at(&rt, word, kind.opcode(), opcode);
        is_at(&rt, word, EventKind::coded(opcode), Some(kind));
        is_at(&rt, word, kind.operand_count(), operands);
        assert_parts(&rt, &has, a, (first, second));
        is_at(&rt, word, kind.event(a, first, second), same);
    }
}

fn assert_parts(rt: &impl Abort, event: &Event, txn: TxnId, operands: (u64, u64)) {
    is(rt, (*event).txn(), Some(txn));
    is(rt, ((*event).first(), (*event).second()), operands);
}

#[test]
fn a_detect_has_no_transaction(rt: HostRuntime) {
    let a = TxnId::new(1);
    is(&rt, Event::Detect.txn(), None);
    is(&rt, EventKind::Detect.event(a, 5, 6), Event::Detect);
    is(&rt, EventKind::coded(14), Some(EventKind::Detect));
    is(&rt, EventKind::coded(0), None);
    is(&rt, EventKind::named(b"snapshot"), None);
}

#[test]
fn lists_give_their_items(rt: HostRuntime) -> Result<(), Fail> {
    let pairs = Pairs::new(vec![in rt.alloc(); (10, 100)]?);
    is(&rt, pairs.items(), [(10, 100)].as_slice());
    let victim = vec![in rt.alloc(); TxnId::new(2)]?;
    let members = Members::new(Box::new(rt.alloc(), victim)?);
    is(&rt, members.items(), [TxnId::new(2)].as_slice());
    holds(&rt, Level::Serializable != Level::Repeatable);
    Ok(())
}
