//! Orders in which committed transactions can follow one another.
ghost use Rattle.std.specs.Prelude.{◌≡◌, ℕ, List, [], ◌∷◌, ◌++◌, ◌<◌, length, IfOk, OnOk, MatchOption};
ghost use Rattle.std.specs.List.{zip};
ghost use Rattle.hek_rules.specs.Serial.{write_of, writes_of};
ghost use Rattle.hek_serial.specs.Links.{AreEventLinks};
ghost use Rattle.hek_serial.specs.SerialOrders.{has_key as key_is_among, have_common, comes_next as is_next, without as left_without, IsSerialFrom};
ghost use Rattle.hek_serial.specs.Turn.{IsTurn, HasNoTurn};

use crate::history::written;
use crate::judge::{first_wrong, undo_all};
use crate::links::Links;
use crate::rows::{Rows, key_of};
use hek_rules::{Event, Level, NoMemory, Reply, TxnId, Write};
use std::alloc::Global;

/// What t wrote.
pub(crate) fn writes_by(
    alloc: Global,
    t: TxnId,
    links: &Links,
    events: &[Event],
    replies: &[Reply],
) -> Result<Vec<Write>, NoMemory>
    requires same { length replies.now ≡ length events.now }
    requires links { AreEventLinks events.now links.now.near.items links.now.far links.now.next.items }
    ensures { IfOk result (λ writes. writes.items ≡ writes_of t (zip events.now replies.now)) }
{
    let mut writes = Vec::new(alloc);
    let mut at = links.first(t);
    while at < events.len() {
        push_write(&mut writes, t, events[at], &replies[at])?;
        at = links.next(at);
    }
    Ok(writes)
}

/// Adds what an event of t wrote.
fn push_write(
    writes: &mut Vec<Write>,
    t: TxnId,
    event: Event,
    reply: &Reply,
) -> Result<(), NoMemory>
    ensures { OnOk result (writes.new.items ≡ writes.old.items ++ write_of t event reply.now) }
{
    if let Some(write) = written(t, event, reply) {
        writes.push(write)?;
    }
    Ok(())
}

/// Whether one of the writes is of the key.
fn has_key(writes: &[Write], key: u64) -> bool
    ensures { result ≡ key_is_among writes.now key }
{
    let mut rest = writes;
    while let Some((write, later)) = rest.split_first() {
        if key_of(*write) == key {
            return true;
        }
        rest = later;
    }
    false
}

/// Whether an event of t wrote the key of one of the writes.
fn event_meets(t: TxnId, event: Event, reply: &Reply, writes: &[Write]) -> bool
    ensures { result ≡ have_common (write_of t event reply.now) writes.now }
{
    match written(t, event, reply) {
        Some(write) => has_key(writes, key_of(write)),
        None => false,
    }
}

/// Whether t wrote the key of one of the writes.
fn meets(t: TxnId, writes: &[Write], links: &Links, events: &[Event], replies: &[Reply]) -> bool
    requires same { length replies.now ≡ length events.now }
    requires links { AreEventLinks events.now links.now.near.items links.now.far links.now.next.items }
    ensures { result ≡ have_common (writes_of t (zip events.now replies.now)) writes.now }
{
    let mut met = false;
    let mut at = links.first(t);
    while at < events.len() {
        met = met | event_meets(t, events[at], &replies[at], writes);
        at = links.next(at);
    }
    met
}

/// Whether t is among those that are left, and none of them that ended before it wrote a key that t wrote.
pub(crate) fn comes_next(
    t: TxnId,
    writes: &[Write],
    left: &[TxnId],
    links: &Links,
    events: &[Event],
    replies: &[Reply],
) -> bool
    requires same { length replies.now ≡ length events.now }
    requires links { AreEventLinks events.now links.now.near.items links.now.far links.now.next.items }
    requires writes { writes.now ≡ writes_of t (zip events.now replies.now) }
    ensures { result ≡ is_next (zip events.now replies.now) left.now t }
{
    let mut rest = left;
    while let Some((u, later)) = rest.split_first() {
        if *u == t {
            return true;
        }
        if meets(*u, writes, links, events, replies) {
            return false;
        }
        rest = later;
    }
    false
}

/// The list without the first t.
pub(crate) fn without(alloc: Global, t: TxnId, left: &[TxnId]) -> Result<Vec<TxnId>, NoMemory>
    ensures { IfOk result (λ rest. rest.items ≡ left_without t left.now) }
{
    let mut others = Vec::new(alloc);
    let mut rest = left;
    while let Some((u, later)) = rest.split_first() {
        if *u == t {
            others.extend_from_slice(later)?;
            return Ok(others);
        }
        others.push(*u)?;
        rest = later;
    }
    Ok(others)
}

/// The list with t before it.
pub(crate) fn with_first(alloc: Global, t: TxnId, order: &[TxnId]) -> Result<Vec<TxnId>, NoMemory>
    ensures { IfOk result (λ all. all.items ≡ t ∷ order.now) }
{
    let mut all = Vec::new(alloc);
    all.push(t)?;
    all.extend_from_slice(order)?;
    Ok(all)
}

/// Lets t take its turn, if it may come next and its replies are right: applies what it wrote, and answers those that are
/// left then. If not, the rows are as before.
pub(crate) fn take_turn(
    alloc: Global,
    t: TxnId,
    left: &[TxnId],
    rows: &mut Rows,
    undo: &mut Vec<Write>,
    links: &Links,
    events: &[Event],
    replies: &[Reply],
) -> Result<Option<Vec<TxnId>>, NoMemory>
    requires same { length replies.now ≡ length events.now }
    requires links { AreEventLinks events.now links.now.near.items links.now.far links.now.next.items }
    requires none { undo.now.items ≡ [] }
    ensures { IfOk result (λ found. MatchOption found (HasNoTurn (zip events.now replies.now) left.now t rows.old rows.new) (λ rest. IsTurn (zip events.now replies.now) left.now t rows.old rows.new undo.new.items rest.items)) }
{
    let writes = writes_by(alloc, t, links, events, replies)?;
    if !comes_next(t, &writes, left, links, events, replies) {
        return Ok(None);
    }
    let wrong = first_wrong(Level::Serializable, t, rows, undo, links, events, replies)?;
    if wrong < events.len() {
        undo_all(rows, undo)?;
        return Ok(None);
    }
    let rest = without(alloc, t, left)?;
    Ok(Some(rest))
}

/// An order in which those that are left, listed by end time, can follow one another from the rows, if there is one. If
/// there is none, the rows are as before.
pub(crate) fn search(
    alloc: Global,
    left: &[TxnId],
    rows: &mut Rows,
    links: &Links,
    events: &[Event],
    replies: &[Reply],
) -> Result<Option<Vec<TxnId>>, NoMemory>
    requires same { length replies.now ≡ length events.now }
    requires links { AreEventLinks events.now links.now.near.items links.now.far links.now.next.items }
    ensures found { IfOk result (λ found. MatchOption found ((order : List ℕ) → IsSerialFrom rows.old.buckets (zip events.now replies.now) rows.old.rows left.now order → ⊥) (λ order. IsSerialFrom rows.old.buckets (zip events.now replies.now) rows.old.rows left.now order.items)) }
    ensures back { IfOk result (λ found. MatchOption found (rows.new ≡ rows.old) (λ order. Unit {0})) }
{
    if left.is_empty() {
        return Ok(Some(Vec::new(alloc)));
    }
    let mut untried = left;
    while let Some((t, later)) = untried.split_first() {
        let mut undo = Vec::new(alloc);
        let turn = take_turn(alloc, *t, left, rows, &mut undo, links, events, replies)?;
        if let Some(rest) = turn {
            let found = search(alloc, &rest, rows, links, events, replies)?;
            if let Some(order) = found {
                return Ok(Some(with_first(alloc, *t, &order)?));
            }
            undo_all(rows, &mut undo)?;
        }
        untried = later;
    }
    Ok(None)
}
