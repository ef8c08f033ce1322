//! What a log says of a transaction.
ghost use Rattle.std.specs.Prelude.{◌≡◌, slice_get, Some, true, false, IsTrue};
ghost use Rattle.std.specs.List.{list_any};
ghost use Rattle.hek_rules.specs.Listing.{value_of as value_in};
ghost use Rattle.hek_levels.specs.Logs.{meets as meets_it, left_in, reads_of as reads_there, scans_of as scans_there, writes_of as writes_there, turns_of as turns_there, read_at as read_there, missing_in, misses as misses_it, is_committed as committed_there, is_possible as possible_there, is_earlier as earlier_there, is_kept as kept_there, is_before_turn, is_seen_turn, does_write as writes_it, left_by as left_there, offers as offers_it};
ghost use Rattle.hek_levels.specs.declared.log.Turn.{Turn as TheTurn};
ghost use Rattle.hek_levels.specs.Uncommitted.{passing_of as passing_there};
ghost use Rattle.hek_levels.specs.Sweeps.{HasNoSeenTurns};

use crate::certificate::Writer;
use crate::log::{Change, Log, Need, Place, Read, Scan, Turn};
use hek_history::{Status, covers};

/// The reads of t.
pub fn reads_of(log: &Log, t: usize) -> &[Read]
    ensures { result.now ≡ reads_there log.now t }
{
    match log.transactions.get(t) {
        Some(transaction) => transaction.reads.as_slice(),
        None => &[],
    }
}

/// The scans of t.
pub fn scans_of(log: &Log, t: usize) -> &[Scan]
    ensures { result.now ≡ scans_there log.now t }
{
    match log.transactions.get(t) {
        Some(transaction) => transaction.scans.as_slice(),
        None => &[],
    }
}

/// What t leaves.
pub fn writes_of(log: &Log, t: usize) -> &[Change]
    ensures { result.now ≡ writes_there log.now t }
{
    match log.transactions.get(t) {
        Some(transaction) => transaction.writes.as_slice(),
        None => &[],
    }
}

/// The changes of t that a later one of its own undoes.
pub fn passing_of(log: &Log, t: usize) -> &[Change]
    ensures { result.now ≡ passing_there log.now t }
{
    match log.transactions.get(t) {
        Some(transaction) => transaction.passing.as_slice(),
        None => &[],
    }
}

/// The turns of t.
pub fn turns_of(log: &Log, t: usize) -> &[Turn]
    ensures { result.now ≡ turns_there log.now t }
{
    match log.transactions.get(t) {
        Some(transaction) => transaction.turns.as_slice(),
        None => &[],
    }
}

/// Whether a scan says that a key is absent.
pub fn misses(scan: &Scan, key: u64) -> bool
    ensures { result ≡ misses_it scan.now key }
{
    covers(scan.scope, key) && !scan.except.contains(&key)
}

/// Whether the n-th of these is a key.
fn is_there(keys: &[u64], n: usize, key: u64) -> bool
    ensures { IsTrue result → slice_get keys.now n ≡ Some key }
{
    match keys.get(n) {
        Some(found) => *found == key,
        None => false,
    }
}

/// Whether a key is among those of which a scan does not say that they are absent, which rise.
pub(crate) fn is_excepted(scan: &Scan, key: u64) -> bool
    ensures { IsTrue result → misses_it scan.now key ≡ false }
{
    match scan.except.binary_search(&key) {
        Ok(n) => is_there(scan.except.as_slice(), n, key),
        Err(_) => false,
    }
}

/// What a scan says of a key that is missing in it.
fn missing(scan: &Scan, key: u64) -> Option<Read>
    ensures { result ≡ missing_in (Some scan.now) key }
{
    if misses(scan, key) {
        Some(Read {
            operation: scan.operation,
            key,
            need: Need::Absent,
        })
    } else {
        None
    }
}

/// The read of t at a place, if there is one.
pub fn read_at(log: &Log, t: usize, place: Place) -> Option<Read>
    ensures { result ≡ read_there log.now t place }
{
    match place {
        Place::Listed(r) => reads_of(log, t).get(r).copied(),
        Place::Missing { scan, key } => match scans_of(log, t).get(scan) {
            Some(one) => missing(one, key),
            None => None,
        },
    }
}

/// Whether t is known to have committed.
pub fn is_committed(log: &Log, t: usize) -> bool
    ensures { result ≡ committed_there log.now t }
{
    match log.transactions.get(t) {
        Some(transaction) => match transaction.status {
            Status::Committed => true,
            Status::Aborted | Status::Unknown => false,
        },
        None => false,
    }
}

/// Whether t may take place: it did not abort, and its answers fit its own changes.
pub fn is_possible(log: &Log, t: usize) -> bool
    ensures { result ≡ possible_there log.now t }
{
    match log.transactions.get(t) {
        Some(transaction) => match transaction.status {
            Status::Committed | Status::Unknown => transaction.fits,
            Status::Aborted => false,
        },
        None => false,
    }
}

/// Whether one turn is before another.
fn is_before(turn: Turn, other: Turn) -> bool
    ensures { result ≡ is_before_turn turn other }
{
    turn.lane == other.lane && turn.last < other.first
}

/// Whether a turn is before one of these.
fn is_before_one(turn: Turn, others: &[Turn]) -> bool
    ensures { result ≡ list_any (λ b. is_before_turn turn b) others.now }
{
    for other in others {
        if is_before(turn, *other) {
            return true;
        }
    }
    false
}

/// The same of the n-th turn.
fn is_before_at(turns: &[Turn], n: usize, others: &[Turn]) -> bool
    ensures { (a : TheTurn) → slice_get turns.now n ≡ Some a → result ≡ list_any (λ b. is_before_turn a b) others.now }
{
    match turns.get(n) {
        Some(turn) => is_before_one(*turn, others),
        None => false,
    }
}

/// Whether a turn is before one of these that is seen.
fn is_seen_by_one(turn: Turn, others: &[Turn]) -> bool
    ensures { result ≡ list_any (λ b. is_seen_turn turn b) others.now }
{
    for other in others {
        if other.seen && is_before(turn, *other) {
            return true;
        }
    }
    false
}

/// The same of the n-th turn.
fn is_seen_at(turns: &[Turn], n: usize, others: &[Turn]) -> bool
    ensures { (a : TheTurn) → slice_get turns.now n ≡ Some a → result ≡ list_any (λ b. is_seen_turn a b) others.now }
{
    match turns.get(n) {
        Some(turn) => is_seen_by_one(*turn, others),
        None => false,
    }
}

/// Whether some turn of t is seen.
pub(crate) fn has_seen_turns(log: &Log, t: usize) -> bool
    ensures { result ≡ false → HasNoSeenTurns log.now t }
{
    let turns = turns_of(log, t);
    for n in 0..turns.len() {
        if turns[n].seen {
            return true;
        }
    }
    false
}

/// Whether a turn of x is before one of t.
pub fn is_kept(log: &Log, x: usize, t: usize) -> bool
    ensures { result ≡ kept_there log.now x t }
{
    let turns = turns_of(log, x);
    let others = turns_of(log, t);
    for n in 0..turns.len() {
        if is_before_at(turns, n, others) {
            return true;
        }
    }
    false
}

/// Whether a turn of x is before one of t in a lane where turns are seen.
pub fn is_earlier(log: &Log, x: usize, t: usize) -> bool
    ensures { result ≡ earlier_there log.now x t }
{
    let turns = turns_of(log, x);
    let others = turns_of(log, t);
    for n in 0..turns.len() {
        if is_seen_at(turns, n, others) {
            return true;
        }
    }
    false
}

/// Whether a value, or its absence, meets the need.
pub(crate) fn meets(need: Need, value: Option<u64>) -> bool
    ensures { result ≡ meets_it need value }
{
    match (need, value) {
        (Need::Absent, None) => true,
        (Need::Absent, Some(_)) => false,
        (Need::Present, None) => false,
        (Need::Present, Some(_)) => true,
        (Need::Value(_), None) => false,
        (Need::Value(y), Some(x)) => x == y,
    }
}

/// What changes leave at a key, if one is of it.
fn left(changes: &[Change], key: u64) -> Option<Option<u64>>
    ensures { result ≡ left_in changes.now key }
{
    for change in changes {
        if change.key == key {
            return Some(change.value);
        }
    }
    None
}

/// Whether t writes the key.
pub fn does_write(log: &Log, t: usize, key: u64) -> bool
    ensures { result ≡ writes_it log.now t key }
{
    left(writes_of(log, t), key).is_some()
}

/// The value of a key in rows.
fn value_of(rows: &[(u64, u64)], key: u64) -> Option<u64>
    ensures { result ≡ value_in rows.now key }
{
    for row in rows {
        if row.0 == key {
            return Some(row.1);
        }
    }
    None
}

/// What a writer leaves at a key.
fn left_by(log: &Log, key: u64, writer: Writer) -> Option<Option<u64>>
    ensures { result ≡ left_there log.now key writer }
{
    match writer {
        Writer::Opening => Some(value_of(log.rows.as_slice(), key)),
        Writer::Transaction(t) => left(writes_of(log, t), key),
    }
}

/// Whether a writer leaves at the key what was found there.
pub fn offers(log: &Log, writer: Writer, read: Read) -> bool
    ensures { result ≡ offers_it log.now writer read }
{
    match left_by(log, read.key, writer) {
        Some(value) => meets(read.need, value),
        None => false,
    }
}

/// The transaction at a place of an order.
pub fn at(order: &[usize], i: usize) -> Option<usize>
    ensures { result ≡ slice_get order.now i }
{
    order.get(i).copied()
}
