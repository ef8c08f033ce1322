//! The next order of the same moves, and orders by their numbers.
use crate::asserts::{holds, is, is_at};
use crate::schedule::add_txn;
use hek_asm::assemble_text;
use hek_permute::{Form, Moves, OrderFault, moves_of, next_order, order_at, order_count};
use hek_rules::{NoMemory, Schedule, TxnId};
use std::alloc::Global;
use std::process::Abort;
use std::test::Fail;

/// An order, and the next one of the same moves.
const NEXT: &[(&[u64], Option<&[u64]>)] = &[
    (&[], None),
    (&[1], None),
    (&[1, 1, 2], Some(&[1, 2, 1])),
    (&[1, 2, 1], Some(&[2, 1, 1])),
    (&[2, 1, 1], None),
    (&[1, 3, 3, 2], Some(&[2, 1, 3, 3])),
    (&[1, 2, 3, 3, 2, 1], Some(&[1, 3, 1, 2, 2, 3])),
];

fn order_of(rt: &impl Abort, alloc: Global, numbers: &[u64]) -> Vec<TxnId> {
    let mut order = Vec::new(alloc);
    for number in numbers {
        holds(rt, order.push(TxnId::new(*number)).is_ok());
    }
    order
}

fn assert_next(rt: &impl Abort, alloc: Global, from: &[u64], to: Option<&[u64]>) {
    let mut order = order_of(rt, alloc, from);
    let moved = next_order(order.as_mut_slice());
    is(rt, moved, to.is_some());
    let want = order_of(rt, alloc, to.unwrap_or(from));
    is(rt, order.as_slice(), want.as_slice());
}

#[test]
fn finds_the_next_order(rt: HostRuntime) {
    for (from, to) in NEXT {
        assert_next(&rt, rt.alloc(), from, *to);
    }
}

/// Three transactions; as wholes they have 2, 2 and 1 moves.
const THREE: &str = "buckets 1
row 10 1
txn a repeatable
txn b repeatable
txn c repeatable
a read 10
b read 10
";

/// Some of the 30 orders of these moves, by their numbers.
const NUMBERED: &[(u64, Option<&[u64]>)] = &[
    (0, Some(&[1, 1, 2, 2, 3])),
    (7, Some(&[1, 2, 3, 1, 2])),
    (12, Some(&[2, 1, 1, 2, 3])),
    (29, Some(&[3, 2, 2, 1, 1])),
    (30, None),
];

fn assert_at(
    rt: &impl Abort,
    alloc: Global,
    moves: &[Moves],
    number: u64,
    want: Option<&[u64]>,
) -> Result<(), OrderFault> {
    let found = order_at(alloc, moves, Form::Whole, number)?;
    is_at(rt, number, found.is_some(), want.is_some());
    let order = found.unwrap_or(Vec::new(alloc));
    let want = order_of(rt, alloc, want.unwrap_or(&[]));
    is_at(rt, number, order.as_slice(), want.as_slice());
    Ok(())
}

#[test]
fn finds_the_order_with_a_number(rt: HostRuntime) -> Result<(), Fail> {
    let schedule = assemble_text(rt.alloc(), THREE)?;
    let moves = moves_of(rt.alloc(), &schedule, &[])?;
    is(&rt, order_count(moves.as_slice(), Form::Whole), Some(30));
    for (number, want) in NUMBERED {
        assert_at(&rt, rt.alloc(), moves.as_slice(), *number, *want)?;
    }
    Ok(())
}

/// How many orders there are of one move for each of some transactions.
fn orders_of_single_moves(
    rt: &impl Abort,
    alloc: Global,
    txns: u64,
) -> Result<Option<u64>, NoMemory> {
    let mut schedule = Schedule::new(alloc, 1);
    for number in 0..txns {
        add_txn(rt, alloc, &mut schedule, number);
    }
    let moves = moves_of(alloc, &schedule, &[])?;
    Ok(order_count(moves.as_slice(), Form::Whole))
}

#[test]
fn counts_orders_below_2_to_the_64(rt: HostRuntime) -> Result<(), Fail> {
    let count = orders_of_single_moves(&rt, rt.alloc(), 20)?;
    is(&rt, count, Some(2_432_902_008_176_640_000));
    is(&rt, orders_of_single_moves(&rt, rt.alloc(), 21)?, None);
    Ok(())
}
