//! The nodes of the wait graph as a list: each has an ID, and a place in the list.
ghost use Rattle.std.specs.Prelude.{◌≡◌, ◌<◌, ℕ, IfOk, IfSome, length, map};
ghost use Rattle.std.specs.List.{All};
ghost use Rattle.hek_rules.specs.Listing.{is_among};
ghost use Rattle.hek_deadlock.specs.Edges.{is_node};
ghost use Rattle.hek_deadlock.specs.Places.{id_at, answer_at, by_place, IsRising, ArePlaces};

use crate::graph::is_node;
use hek_rules::{Members, NoMemory, TxnId};
use hek_txn::Txns;
use std::alloc::Global;

/// The nodes, by ascending ID.
pub(crate) fn nodes(alloc: Global, txns: &Txns) -> Result<Vec<TxnId>, NoMemory>
    ensures rising { IfOk result (λ ids. IsRising ids.items) }
    ensures nodes { IfOk result (λ ids. (u : ℕ) → is_among ids.items u ≡ is_node txns.now u) }
{
    let mut ids = Vec::new(alloc);
    for t in 0..txns.count() {
        let id = TxnId::new(t + 1);
        if is_node(txns, id) {
            ids.push(id)?;
        }
    }
    Ok(ids)
}

/// The places of those waiters that are nodes.
pub(crate) fn places(
    alloc: Global,
    ids: &[TxnId],
    waiters: &[TxnId],
) -> Result<Vec<usize>, NoMemory>
    requires { IsRising ids.now }
    ensures range { IfOk result (λ places. All (λ i. i < length ids.now) places.items) }
    ensures each { IfOk result (λ places. (i : ℕ) → i < length ids.now → is_among places.items i ≡ is_among waiters.now (id_at ids.now i)) }
{
    let mut places = Vec::with_capacity(alloc, waiters.len())?;
    for waiter in waiters {
        if let Ok(i) = ids.binary_search(waiter) {
            places.push(i)?;
        }
    }
    Ok(places)
}

/// The nodes at these places.
fn members_at(alloc: Global, ids: &[TxnId], places: &[usize]) -> Result<Members, NoMemory>
    requires { All (λ i. i < length ids.now) places.now }
    ensures { IfOk result (λ members. members ≡ map (id_at ids.now) places.now) }
{
    let mut members = Vec::with_capacity(alloc, places.len())?;
    for place in places {
        members.push(ids[*place])?;
    }
    Ok(Members::new(Box::new(alloc, members)?))
}

/// The victim and its cycle as IDs, from their places.
pub(crate) fn answer_at(
    alloc: Global,
    ids: &[TxnId],
    found: Option<(usize, Vec<usize>)>,
) -> Result<Option<(TxnId, Members)>, NoMemory>
    requires { IfSome (by_place found) (ArePlaces ids.now) }
    ensures { IfOk result (λ answer. answer ≡ answer_at ids.now (by_place found)) }
{
    let Some((place, places)) = found else {
        return Ok(None);
    };
    let members = members_at(alloc, ids, &places)?;
    Ok(Some((ids[place], members)))
}
