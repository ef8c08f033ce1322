//! The places of each transaction's events, linked so that they can be followed.
ghost use Rattle.std.specs.Prelude.{◌≡◌, ◌<◌, ℕ, Some, length, slice_index, IfOk, OnOk};
ghost use Rattle.hek_rules.specs.Events.{txn_of as txn_in};
ghost use Rattle.hek_serial.specs.Links.{AreEventLinks, linked_place, next_in, with_near, with_far};

use crate::number_map::NumberMap;
use hek_rules::{Event, NoMemory, TxnId};
use std::alloc::Global;

/// The first place of each transaction, and after each place the next one of the same transaction. The first places of
/// transactions with low numbers are in a list, the others in a map.
#[derive(Drop)]
pub(crate) struct Links {
    near: Vec<usize>,
    far: NumberMap,
    next: Vec<usize>,
}

/// The place that is kept for t, or the number of places.
pub(crate) fn place_of(near: &[usize], far: &NumberMap, t: TxnId, count: usize) -> usize
    ensures { result ≡ linked_place near.now far.now count t }
{
    if t.number() < near.len() as u64 {
        near[t.number() as usize]
    } else {
        match far.value_of(t.number()) {
            Some(place) => place as usize,
            None => count,
        }
    }
}

/// Keeps a place for t. Answers the place that was kept before, or the number of places.
pub(crate) fn keep_place(
    near: &mut [usize],
    far: &mut NumberMap,
    t: TxnId,
    place: usize,
    count: usize,
) -> Result<usize, NoMemory>
    ensures before { IfOk result (λ n. n ≡ linked_place near.old far.old count t) }
    ensures near { OnOk result (near.new ≡ with_near near.old place (Some t)) }
    ensures far { OnOk result (far.new ≡ with_far near.old far.old place (Some t)) }
{
    if t.number() < near.len() as u64 {
        let before = near[t.number() as usize];
        near[t.number() as usize] = place;
        Ok(before)
    } else {
        match far.put(t.number(), place as u64)? {
            Some(before) => Ok(before as usize),
            None => Ok(count),
        }
    }
}

/// Puts an event before those of its transaction that follow. Answers the place of the first of these, or the number of
/// places.
pub(crate) fn link(
    near: &mut [usize],
    far: &mut NumberMap,
    event: Event,
    place: usize,
    count: usize,
) -> Result<usize, NoMemory>
    ensures next { IfOk result (λ n. n ≡ next_in near.old far.old count (txn_in event)) }
    ensures near { OnOk result (near.new ≡ with_near near.old place (txn_in event)) }
    ensures far { OnOk result (far.new ≡ with_far near.old far.old place (txn_in event)) }
{
    match event.txn() {
        None => Ok(count),
        Some(t) => keep_place(near, far, t, place, count),
    }
}

impl Links {
    /// The links of events, with the first places of transactions below a number in a list.
    pub(crate) fn new(alloc: Global, below: usize, events: &[Event]) -> Result<Links, NoMemory>
        ensures { IfOk result (λ links. AreEventLinks events.now links.near.items links.far links.next.items) }
    {
        let count = events.len();
        let mut near = vec![in alloc; count; below]?;
        let mut far = NumberMap::new(alloc);
        let mut next = vec![in alloc; count; count]?;
        for place in (0..count).rev() {
            next[place] = link(&mut near, &mut far, events[place], place, count)?;
        }
        Ok(Links { near, far, next })
    }

    /// The first place of t, or the number of places.
    pub(crate) fn first(&self, t: TxnId) -> usize
        ensures { result ≡ linked_place self.now.near.items self.now.far (length self.now.next.items) t }
    {
        place_of(&self.near, &self.far, t, self.next.len())
    }

    /// The next place of the transaction that has an event at a place, or the number of places.
    pub(crate) fn next(&self, place: usize) -> usize
        requires { place < length self.now.next.items }
        ensures { result ≡ slice_index self.now.next.items place }
    {
        self.next[place]
    }
}
