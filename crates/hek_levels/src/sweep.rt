//! Whom a read sees: from its transaction back along the order.
ghost use Rattle.std.specs.Prelude.{◌≡◌, ◌==◌, ◌≤◌, ◌<◌, ℕ, true, Some, slice_get, IsTrue, OnOk, if◌then◌else◌};
ghost use Rattle.std.specs.HashMap.{get as get_in};
ghost use Rattle.hek_levels.specs.declared.certificate.Writer.TheVariants.{Transaction as TransactionOf};
ghost use Rattle.hek_levels.specs.declared.log.Place.TheVariants.{Listed as ListedAt, Missing as MissingAt};
ghost use Rattle.hek_levels.specs.declared.log.Read.{Read as TheRead};
ghost use Rattle.hek_levels.specs.declared.log.Turn.{Turn as TheTurn};
ghost use Rattle.hek_levels.specs.declared.log.Change.{Change as TheChange};
ghost use Rattle.hek_levels.specs.declared.certificate.Missing.{Missing as TheMissing};
ghost use Rattle.hek_levels.specs.Logs.{does_write as writes_it, read_at as read_there};
ghost use Rattle.hek_levels.specs.Seen.{SeesByOwn, ReadsTo};
ghost use Rattle.hek_levels.specs.Explanations.{explanation, source_at as source_there, given_of, given_at};
ghost use Rattle.hek_levels.specs.Sweeps.{IsMarked, AreMarked, AreKept, IsFrom, AreRaised, AreLaned, AreKeyed, IsShown, IsBeforeAny, MayLink, MayLinkAny, MaySee, MayCarry};

use crate::certificate::{Certificate, Missing, Writer};
use crate::log::{Change, Log, Place, Turn};
use crate::logged::{does_write, is_earlier, read_at, reads_of, turns_of, writes_of};
use crate::rules::{Links, Own, Rules};
use crate::sourced::{listed_source, missing_of};
use crate::turns::begin;
use hek_rules::NoMemory;
use std::alloc::Global;
use std::collections::HashMap;

/// What is known of those whom a read sees, as far as the sweep has come.
#[derive(Drop)]
pub(crate) struct Sight {
    /// Sources that are seen.
    pub marked: HashMap<usize, usize>,
    /// In each lane where turns are seen, the latest first number of a turn of one that is seen.
    pub lanes: HashMap<usize, u64>,
    /// The keys that those who are seen write.
    pub keys: HashMap<u64, u64>,
    /// Whether anybody is seen.
    pub is_any: bool,
}

/// x is marked from now on.
fn mark(marked: &mut HashMap<usize, usize>, x: usize) -> Result<(), NoMemory>
    ensures { OnOk result ((k : ℕ) → get_in ◌==◌ marked.new k ≡ (if x == k then Some x else get_in ◌==◌ marked.old k)) }
{
    let _before = marked.insert(x, x)?;
    Ok(())
}

/// The writer is marked from now on, if it is a transaction.
fn mark_writer(marked: &mut HashMap<usize, usize>, writer: Writer) -> Result<(), NoMemory>
    ensures kept { OnOk result (AreKept (get_in ◌==◌ marked.old) (get_in ◌==◌ marked.new)) }
    ensures there { OnOk result ((x : ℕ) → writer ≡ TransactionOf x → IsMarked (get_in ◌==◌ marked.new) x) }
{
    match writer {
        Writer::Opening => Ok(()),
        Writer::Transaction(x) => mark(marked, x),
    }
}

/// Each source of a read in the list of y is marked from now on.
fn mark_listed(
    log: &Log,
    certificate: &Certificate,
    marked: &mut HashMap<usize, usize>,
    y: usize,
) -> Result<(), NoMemory>
    ensures kept { OnOk result (AreKept (get_in ◌==◌ marked.old) (get_in ◌==◌ marked.new)) }
    ensures there { OnOk result ((r x : ℕ) → (read : TheRead) → read_there log.now y (ListedAt r) ≡ Some read → source_there certificate.now y (ListedAt r) ≡ TransactionOf x → IsMarked (get_in ◌==◌ marked.new) x) }
{
    for r in 0..reads_of(log, y).len() {
        mark_writer(marked, listed_source(certificate, y, r))?;
    }
    Ok(())
}

/// The source of the n-th key that is missing is marked from now on.
fn mark_given(
    marked: &mut HashMap<usize, usize>,
    given: &[Missing],
    n: usize,
) -> Result<(), NoMemory>
    ensures kept { OnOk result (AreKept (get_in ◌==◌ marked.old) (get_in ◌==◌ marked.new)) }
    ensures there { OnOk result ((one : TheMissing) (x : ℕ) → slice_get given.now n ≡ Some one → one.writer ≡ TransactionOf x → IsMarked (get_in ◌==◌ marked.new) x) }
{
    match given.get(n) {
        Some(one) => mark_writer(marked, one.writer),
        None => Ok(()),
    }
}

/// Each source of a key that is missing in a scan of y is marked from now on.
fn mark_missing(
    certificate: &Certificate,
    marked: &mut HashMap<usize, usize>,
    y: usize,
) -> Result<(), NoMemory>
    ensures kept { OnOk result (AreKept (get_in ◌==◌ marked.old) (get_in ◌==◌ marked.new)) }
    ensures there { OnOk result ((s key x : ℕ) → given_at (given_of certificate.now y) s key ≡ Some (TransactionOf x) → IsMarked (get_in ◌==◌ marked.new) x) }
{
    let given = missing_of(certificate, y);
    for n in 0..given.len() {
        mark_given(marked, given, n)?;
    }
    Ok(())
}

/// Each source of y is marked from now on.
fn mark_sources(
    log: &Log,
    certificate: &Certificate,
    marked: &mut HashMap<usize, usize>,
    y: usize,
) -> Result<(), NoMemory>
    ensures kept { OnOk result (AreKept (get_in ◌==◌ marked.old) (get_in ◌==◌ marked.new)) }
    ensures there { OnOk result (AreMarked log.now (explanation certificate.now) (get_in ◌==◌ marked.new) y) }
{
    mark_listed(log, certificate, marked, y)?;
    mark_missing(certificate, marked, y)
}

/// The source of a read in the list of t is marked from now on, if that is of the n-th operation or one before it.
fn mark_to(
    log: &Log,
    certificate: &Certificate,
    marked: &mut HashMap<usize, usize>,
    t: usize,
    n: usize,
    q: usize,
) -> Result<(), NoMemory>
    ensures kept { OnOk result (AreKept (get_in ◌==◌ marked.old) (get_in ◌==◌ marked.new)) }
    ensures there { OnOk result ((x : ℕ) → (read : TheRead) → read_there log.now t (ListedAt q) ≡ Some read → read.operation ≤ n → source_there certificate.now t (ListedAt q) ≡ TransactionOf x → IsMarked (get_in ◌==◌ marked.new) x) }
{
    let Some(read) = read_at(log, t, Place::Listed(q)) else {
        return Ok(());
    };
    if n < read.operation {
        return Ok(());
    }
    mark_writer(marked, listed_source(certificate, t, q))
}

/// Each source of a read in the list of t by the n-th operation or one before it is marked from now on.
fn mark_listed_to(
    log: &Log,
    certificate: &Certificate,
    marked: &mut HashMap<usize, usize>,
    t: usize,
    n: usize,
) -> Result<(), NoMemory>
    ensures kept { OnOk result (AreKept (get_in ◌==◌ marked.old) (get_in ◌==◌ marked.new)) }
    ensures there { OnOk result ((r x : ℕ) → (read : TheRead) → read_there log.now t (ListedAt r) ≡ Some read → read.operation ≤ n → source_there certificate.now t (ListedAt r) ≡ TransactionOf x → IsMarked (get_in ◌==◌ marked.new) x) }
{
    for q in 0..reads_of(log, t).len() {
        mark_to(log, certificate, marked, t, n, q)?;
    }
    Ok(())
}

/// The source of a key that is missing in a scan of t is marked from now on, if that is of the n-th operation or one before it.
fn mark_one_to(
    log: &Log,
    marked: &mut HashMap<usize, usize>,
    t: usize,
    n: usize,
    one: Missing,
) -> Result<(), NoMemory>
    ensures kept { OnOk result (AreKept (get_in ◌==◌ marked.old) (get_in ◌==◌ marked.new)) }
    ensures there { OnOk result ((x : ℕ) → (read : TheRead) → read_there log.now t (MissingAt one.scan one.key) ≡ Some read → read.operation ≤ n → one.writer ≡ TransactionOf x → IsMarked (get_in ◌==◌ marked.new) x) }
{
    let place = Place::Missing {
        scan: one.scan,
        key: one.key,
    };
    let Some(read) = read_at(log, t, place) else {
        return Ok(());
    };
    if n < read.operation {
        return Ok(());
    }
    mark_writer(marked, one.writer)
}

/// The same of the m-th of these.
fn mark_given_to(
    log: &Log,
    marked: &mut HashMap<usize, usize>,
    t: usize,
    n: usize,
    given: &[Missing],
    m: usize,
) -> Result<(), NoMemory>
    ensures kept { OnOk result (AreKept (get_in ◌==◌ marked.old) (get_in ◌==◌ marked.new)) }
    ensures there { OnOk result ((x : ℕ) (one : TheMissing) (read : TheRead) → slice_get given.now m ≡ Some one → read_there log.now t (MissingAt one.scan one.key) ≡ Some read → read.operation ≤ n → one.writer ≡ TransactionOf x → IsMarked (get_in ◌==◌ marked.new) x) }
{
    match given.get(m) {
        Some(one) => mark_one_to(log, marked, t, n, *one),
        None => Ok(()),
    }
}

/// Each source of a key that is missing in a scan of t by the n-th operation or one before it is marked from now on.
fn mark_missing_to(
    log: &Log,
    certificate: &Certificate,
    marked: &mut HashMap<usize, usize>,
    t: usize,
    n: usize,
) -> Result<(), NoMemory>
    ensures kept { OnOk result (AreKept (get_in ◌==◌ marked.old) (get_in ◌==◌ marked.new)) }
    ensures there { OnOk result ((s key x : ℕ) → (read : TheRead) → read_there log.now t (MissingAt s key) ≡ Some read → read.operation ≤ n → given_at (given_of certificate.now t) s key ≡ Some (TransactionOf x) → IsMarked (get_in ◌==◌ marked.new) x) }
{
    let given = missing_of(certificate, t);
    for m in 0..given.len() {
        mark_given_to(log, marked, t, n, given, m)?;
    }
    Ok(())
}

/// Each source of t by the n-th operation or one before it is marked from now on.
fn mark_all_to(
    log: &Log,
    certificate: &Certificate,
    marked: &mut HashMap<usize, usize>,
    t: usize,
    n: usize,
) -> Result<(), NoMemory>
    ensures { OnOk result ((x : ℕ) → ReadsTo log.now (explanation certificate.now) t n x → IsMarked (get_in ◌==◌ marked.new) x) }
{
    mark_listed_to(log, certificate, marked, t, n)?;
    mark_missing_to(log, certificate, marked, t, n)
}

/// What a read of t, of the n-th operation, sees by the reads of t is marked from now on.
pub(crate) fn mark_own(
    own: Own,
    log: &Log,
    certificate: &Certificate,
    marked: &mut HashMap<usize, usize>,
    t: usize,
    n: usize,
) -> Result<(), NoMemory>
    ensures { OnOk result ((x : ℕ) → SeesByOwn own log.now (explanation certificate.now) t n x → IsMarked (get_in ◌==◌ marked.new) x) }
{
    match own {
        Own::Nothing => Ok(()),
        Own::Earlier => mark_all_to(log, certificate, marked, t, n),
        Own::All => mark_sources(log, certificate, marked, t),
    }
}

/// Whether both write a key.
fn share_key(log: &Log, y: usize, x: usize) -> bool
    ensures { (key : ℕ) → writes_it log.now x key ≡ true → writes_it log.now y key ≡ true → IsTrue result }
{
    let changes = writes_of(log, x);
    for n in 0..changes.len() {
        if does_write(log, y, changes[n].key) {
            return true;
        }
    }
    false
}

/// Whether y may see x by writes or by its turns.
pub(crate) fn may_link(links: Links, log: &Log, y: usize, x: usize) -> bool
    ensures { MayLink links log.now y x → IsTrue result }
{
    links.writers && share_key(log, y, x) || links.turns && is_earlier(log, x, y)
}

/// Whether x is marked.
pub(crate) fn is_marked(marked: &HashMap<usize, usize>, x: usize) -> bool
    ensures { IsMarked (get_in ◌==◌ marked.now) x → IsTrue result }
{
    marked.get(&x).is_some()
}

/// Whether a key is marked.
fn is_key_marked(keys: &HashMap<u64, u64>, key: u64) -> bool
    ensures { IsMarked (get_in ◌==◌ keys.now) key → IsTrue result }
{
    keys.get(&key).is_some()
}

/// Whether a key of x is marked.
fn is_any_key(log: &Log, keys: &HashMap<u64, u64>, x: usize) -> bool
    ensures { (key : ℕ) → writes_it log.now x key ≡ true → IsMarked (get_in ◌==◌ keys.now) key → IsTrue result }
{
    let changes = writes_of(log, x);
    for n in 0..changes.len() {
        if is_key_marked(keys, changes[n].key) {
            return true;
        }
    }
    false
}

/// Whether a turn is before the latest first number of its lane.
fn is_before_latest(lanes: &HashMap<usize, u64>, turn: Turn) -> bool
    ensures { (m : ℕ) → get_in ◌==◌ lanes.now turn.lane ≡ Some m → turn.last < m → IsTrue result }
{
    match lanes.get(&turn.lane).copied() {
        Some(first) => turn.last < first,
        None => false,
    }
}

/// Whether a turn of x is before the latest first number of its lane.
fn is_before_any(log: &Log, lanes: &HashMap<usize, u64>, x: usize) -> bool
    ensures { IsBeforeAny log.now (get_in ◌==◌ lanes.now) x → IsTrue result }
{
    let turns = turns_of(log, x);
    for n in 0..turns.len() {
        if is_before_latest(lanes, turns[n]) {
            return true;
        }
    }
    false
}

/// Whether somebody who is seen may see x by writes or by turns.
fn may_link_any(links: Links, log: &Log, sight: &Sight, x: usize) -> bool
    ensures { MayLinkAny links log.now (get_in ◌==◌ sight.now.lanes) (get_in ◌==◌ sight.now.keys) x → IsTrue result }
{
    links.writers && is_any_key(log, &sight.keys, x)
        || links.turns && is_before_any(log, &sight.lanes, x)
}

/// Whether y may be seen.
pub(crate) fn may_see(rules: Rules, log: &Log, t: usize, sight: &Sight, y: usize) -> bool
    ensures { MaySee rules log.now t (get_in ◌==◌ sight.now.marked) (get_in ◌==◌ sight.now.lanes) (get_in ◌==◌ sight.now.keys) sight.now.is_any y → IsTrue result }
{
    if rules.whole {
        return true;
    }
    if rules.prefix && sight.is_any {
        return true;
    }
    if is_marked(&sight.marked, y) {
        return true;
    }
    if may_link(rules.first, log, t, y) {
        return true;
    }
    may_link_any(rules.next, log, sight, y)
}

/// Whether the sources of z may be brought by turns.
fn may_carry(rules: Rules, log: &Log, t: usize, lanes: &HashMap<usize, u64>, z: usize) -> bool
    ensures { MayCarry rules log.now t (get_in ◌==◌ lanes.now) z → IsTrue result }
{
    if rules.first.turn_reads && is_earlier(log, z, t) {
        return true;
    }
    rules.next.turn_reads && is_before_any(log, lanes, z)
}

/// The sources of z are marked from now on, if turns may bring them.
pub(crate) fn carry(
    rules: Rules,
    log: &Log,
    certificate: &Certificate,
    t: usize,
    marked: &mut HashMap<usize, usize>,
    lanes: &HashMap<usize, u64>,
    z: usize,
) -> Result<(), NoMemory>
    ensures kept { OnOk result (AreKept (get_in ◌==◌ marked.old) (get_in ◌==◌ marked.new)) }
    ensures there { OnOk result (MayCarry rules log.now t (get_in ◌==◌ lanes.now) z → AreMarked log.now (explanation certificate.now) (get_in ◌==◌ marked.new) z) }
{
    if !may_carry(rules, log, t, lanes, z) {
        return Ok(());
    }
    mark_sources(log, certificate, marked, z)
}

/// The sources of y are marked from now on, if what is seen shows them.
fn show_sources(
    rules: Rules,
    log: &Log,
    certificate: &Certificate,
    marked: &mut HashMap<usize, usize>,
    y: usize,
) -> Result<(), NoMemory>
    ensures kept { OnOk result (AreKept (get_in ◌==◌ marked.old) (get_in ◌==◌ marked.new)) }
    ensures there { OnOk result (rules.causes ≡ true → AreMarked log.now (explanation certificate.now) (get_in ◌==◌ marked.new) y) }
{
    if !rules.causes {
        return Ok(());
    }
    mark_sources(log, certificate, marked, y)
}

/// A key is marked from now on.
fn mark_key(keys: &mut HashMap<u64, u64>, key: u64) -> Result<(), NoMemory>
    ensures { OnOk result ((k : ℕ) → get_in ◌==◌ keys.new k ≡ (if key == k then Some key else get_in ◌==◌ keys.old k)) }
{
    let _before = keys.insert(key, key)?;
    Ok(())
}

/// The key of the n-th change is marked from now on.
fn show_key(keys: &mut HashMap<u64, u64>, changes: &[Change], n: usize) -> Result<(), NoMemory>
    ensures kept { OnOk result (AreKept (get_in ◌==◌ keys.old) (get_in ◌==◌ keys.new)) }
    ensures there { OnOk result ((c : TheChange) → slice_get changes.now n ≡ Some c → IsMarked (get_in ◌==◌ keys.new) c.key) }
{
    match changes.get(n) {
        Some(change) => mark_key(keys, change.key),
        None => Ok(()),
    }
}

/// The keys that y writes are marked from now on.
fn show_keys(log: &Log, keys: &mut HashMap<u64, u64>, y: usize) -> Result<(), NoMemory>
    ensures kept { OnOk result (AreKept (get_in ◌==◌ keys.old) (get_in ◌==◌ keys.new)) }
    ensures there { OnOk result (AreKeyed log.now (get_in ◌==◌ keys.new) y) }
{
    let changes = writes_of(log, y);
    for n in 0..changes.len() {
        show_key(keys, changes, n)?;
    }
    Ok(())
}

/// A turn is one of somebody who is seen, if it is seen.
pub(crate) fn show_turn(lanes: &mut HashMap<usize, u64>, turn: Turn) -> Result<(), NoMemory>
    ensures raised { OnOk result (AreRaised (get_in ◌==◌ lanes.old) (get_in ◌==◌ lanes.new)) }
    ensures there { OnOk result (turn.seen ≡ true → IsFrom (get_in ◌==◌ lanes.new) turn.lane turn.first) }
{
    if !turn.seen {
        return Ok(());
    }
    begin(lanes, turn)
}

/// The same of the n-th turn.
fn show_turn_at(lanes: &mut HashMap<usize, u64>, turns: &[Turn], n: usize) -> Result<(), NoMemory>
    ensures raised { OnOk result (AreRaised (get_in ◌==◌ lanes.old) (get_in ◌==◌ lanes.new)) }
    ensures there { OnOk result ((turn : TheTurn) → slice_get turns.now n ≡ Some turn → turn.seen ≡ true → IsFrom (get_in ◌==◌ lanes.new) turn.lane turn.first) }
{
    match turns.get(n) {
        Some(turn) => show_turn(lanes, *turn),
        None => Ok(()),
    }
}

/// The turns of y are those of somebody who is seen.
pub(crate) fn show_turns(
    log: &Log,
    lanes: &mut HashMap<usize, u64>,
    y: usize,
) -> Result<(), NoMemory>
    ensures raised { OnOk result (AreRaised (get_in ◌==◌ lanes.old) (get_in ◌==◌ lanes.new)) }
    ensures there { OnOk result (AreLaned log.now (get_in ◌==◌ lanes.new) y) }
{
    let turns = turns_of(log, y);
    for n in 0..turns.len() {
        show_turn_at(lanes, turns, n)?;
    }
    Ok(())
}

/// y is seen from now on, with what it shows.
pub(crate) fn show(
    rules: Rules,
    log: &Log,
    certificate: &Certificate,
    sight: &mut Sight,
    y: usize,
) -> Result<(), NoMemory>
    ensures marked { OnOk result (AreKept (get_in ◌==◌ sight.old.marked) (get_in ◌==◌ sight.new.marked)) }
    ensures lanes { OnOk result (AreRaised (get_in ◌==◌ sight.old.lanes) (get_in ◌==◌ sight.new.lanes)) }
    ensures keys { OnOk result (AreKept (get_in ◌==◌ sight.old.keys) (get_in ◌==◌ sight.new.keys)) }
    ensures shown { OnOk result (IsShown rules log.now (explanation certificate.now) (get_in ◌==◌ sight.new.marked) (get_in ◌==◌ sight.new.lanes) (get_in ◌==◌ sight.new.keys) sight.new.is_any y) }
{
    sight.is_any = true;
    show_sources(rules, log, certificate, &mut sight.marked, y)?;
    show_keys(log, &mut sight.keys, y)?;
    show_turns(log, &mut sight.lanes, y)
}
