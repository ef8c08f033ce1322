//! The orders of moves, as the tree of their prefixes.
use hek_permute::{Form, Moves};
use hek_rules::{NoMemory, TxnId};
use std::alloc::Global;

/// A prefix of orders: another prefix, by its place, and the move of one transaction after it. Place 0 is the empty
/// prefix, of no transaction.
#[derive(Clone, Copy)]
pub(crate) struct Prefix {
    pub parent: usize,
    pub who: TxnId,
}

/// All prefixes of the orders of these moves, each after its parent; None if there are more than `limit`.
pub(crate) fn prefixes_of(
    alloc: Global,
    moves: &[Moves],
    form: Form,
    limit: u64,
) -> Result<Option<Vec<Prefix>>, NoMemory> {
    let mut prefixes = Vec::new(alloc);
    prefixes.push(Prefix {
        parent: 0,
        who: TxnId::new(0),
    })?;
    for place in 0..limit {
        if place >= prefixes.len() as u64 {
            break;
        }
        add_longer(alloc, moves, form, place as usize, &mut prefixes)?;
    }
    if prefixes.len() as u64 > limit {
        return Ok(None);
    }
    Ok(Some(prefixes))
}

/// Adds the prefixes that are longer than this one by one move: one for each transaction that has a move left.
fn add_longer(
    alloc: Global,
    moves: &[Moves],
    form: Form,
    parent: usize,
    prefixes: &mut Vec<Prefix>,
) -> Result<(), NoMemory> {
    let order = order_of(alloc, prefixes.as_slice(), parent)?;
    for (place, of_one) in moves.iter().enumerate() {
        let who = TxnId::new((place as u64).saturating_add(1));
        if has_left(order.as_slice(), who, of_one, form) {
            prefixes.push(Prefix { parent, who })?;
        }
    }
    Ok(())
}

/// The transactions of a prefix, in the order of their moves.
pub(crate) fn order_of(
    alloc: Global,
    prefixes: &[Prefix],
    place: usize,
) -> Result<Vec<TxnId>, NoMemory> {
    let mut order = Vec::new(alloc);
    let mut at = place;
    for _ in 0..prefixes.len() {
        let Some(prefix) = prefixes.get(at) else {
            break;
        };
        if at == 0 {
            break;
        }
        order.push(prefix.who)?;
        at = prefix.parent;
    }
    order.reverse();
    Ok(order)
}

/// Whether a transaction with these moves has one left after an order.
pub(crate) fn has_left(order: &[TxnId], who: TxnId, of_one: &Moves, form: Form) -> bool {
    times(order, who) < move_count(of_one, form)
}

/// How many moves of a transaction an order has.
pub(crate) fn times(order: &[TxnId], who: TxnId) -> usize {
    let mut count = 0usize;
    for txn in order {
        if *txn == who {
            count = count.saturating_add(1);
        }
    }
    count
}

/// How many moves a transaction has.
pub(crate) fn move_count(of_one: &Moves, form: Form) -> usize {
    of_one.steps().len().saturating_add(form.other_moves())
}

/// Whether an order has all moves.
pub(crate) fn is_whole(moves: &[Moves], form: Form, order: &[TxnId]) -> bool {
    let mut count = 0usize;
    for of_one in moves {
        count = count.saturating_add(move_count(of_one, form));
    }
    order.len() >= count
}
