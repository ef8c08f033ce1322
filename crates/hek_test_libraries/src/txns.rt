//! Tables of transactions: the calls of their lists and times that no step makes.
ghost use Rattle.hek_txn.specs.TxnTable.{Declared};

use crate::asserts::{holds, is};
use hek_asm::assemble_text;
use hek_rules::{Time, TxnId, VersionId};
use hek_txn::Txns;
use std::alloc::Global;
use std::process::Abort;
use std::test::Fail;

/// A table of three transactions, and the second of them.
fn table(rt: &impl Abort, alloc: Global) -> (Txns, TxnId)
    ensures { Declared result.0 result.1 }
{
    let text = "buckets 1\ntxn a repeatable\ntxn b repeatable\ntxn c repeatable\n";
    let schedule = assemble_text(alloc, text).expect(rt, "a schedule");
    let txns = Txns::load(alloc, &schedule).expect(rt, "memory");
    let second = TxnId::new(2);
    holds(rt, txns.is_declared(second));
    (txns, second)
}

#[test]
fn reads_are_pushed_and_removed(rt: HostRuntime) -> Result<(), Fail> {
    let (first, last) = (VersionId::new(6), VersionId::new(4));
    let (mut txns, txn) = table(&rt, rt.alloc());
    txns.reserve_reads(txn, 3)?;
    txns.push_read(txn, first);
    txns.push_read(txn, last);
    txns.push_read(txn, first);
    is(&rt, txns.read_set(txn), [first, last].as_slice());
    txns.remove_read(txn, first);
    is(&rt, txns.first_read(txn), Some(last));
    Ok(())
}

#[test]
fn dependents_are_removed_one_by_one(rt: HostRuntime) -> Result<(), Fail> {
    let (first, last) = (TxnId::new(3), TxnId::new(1));
    let (mut txns, txn) = table(&rt, rt.alloc());
    is(&rt, txns.first_dependent(txn), None);
    txns.reserve_dependents(txn, 2)?;
    txns.push_dependent(txn, first);
    txns.push_dependent(txn, last);
    is(&rt, txns.first_dependent(txn), Some(first));
    txns.remove_dependent(txn, first);
    is(&rt, txns.dependents(txn), [last].as_slice());
    Ok(())
}

#[test]
fn times_are_set_one_by_one(rt: HostRuntime) {
    let (mut txns, txn) = table(&rt, rt.alloc());
    let state = txns.state(txn);
    txns.set_begin_time(txn, Time::new(3));
    txns.set_end_time(txn, Time::new(5));
    is(
        &rt,
        (txns.begin_time(txn), txns.end_time(txn)),
        (Time::new(3), Time::new(5)),
    );
    is(&rt, txns.state(txn), state);
}
