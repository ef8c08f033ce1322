//! Whether points explain a log: a transaction reads at one point what those that committed before it left, and commits at another.
ghost use Rattle.std.specs.Prelude.{◌≡◌, ◌==◌, ◌+◌, ◌<◌, ◌≤◌, ℕ, true, false, Some, length, slice_get, IsTrue, IfOk, OnOk, if◌then◌else◌};
ghost use Rattle.std.specs.HashMap.{get as get_in};
ghost use Rattle.hek_levels.specs.declared.log.Read.{Read as TheRead};
ghost use Rattle.hek_levels.specs.declared.log.Change.{Change as TheChange};
ghost use Rattle.hek_levels.specs.declared.log.Place.{Place as ThePlace};
ghost use Rattle.hek_levels.specs.declared.log.Place.TheVariants.{Listed as ListedAt, Missing as MissingAt};
ghost use Rattle.hek_levels.specs.Levels.{asked_of};
ghost use Rattle.hek_levels.specs.Logs.{meets as meets_it, does_write as writes_it, is_earlier as earlier_there, read_at as read_there};
ghost use Rattle.hek_levels.specs.Seen.{At};
ghost use Rattle.hek_levels.specs.Rows.{row_of};
ghost use Rattle.hek_levels.specs.Sweeps.{AreLast, AreLaned, AreRaised};
ghost use Rattle.hek_levels.specs.Points.{commits_of as commits_there, sees_turns as sees_them, IsClosed, IsReplay, HasReplay, IsExplainedBy};

use crate::log::{Change, Log, Place};
use crate::logged::{at, meets, read_at, reads_of, scans_of, turns_of, writes_of};
use crate::newest::{is_written_since, mark_writes};
use crate::places::{find_places, have_all_places, is_absent, mark, place_of};
use crate::rows::{by_key, change_rows, missed, row_of as value_at};
use crate::rules::{Asked, Rules};
use crate::sweep::show_turns;
use crate::turns::{are_in_turn, have_come};
use hek_history::Point;
use hek_rules::NoMemory;
use std::alloc::Global;
use std::collections::{BTreeMap, HashMap};

/// What is known of the points so far.
#[derive(Drop)]
struct Replay {
    /// How many have committed.
    count: usize,
    /// The rows that they left.
    rows: BTreeMap<u64, u64>,
    /// How many had committed where each began that has.
    begun: HashMap<usize, usize>,
    /// The place of the last writer of each key.
    last: HashMap<u64, usize>,
    /// In each lane the latest first number of a turn of one that has begun and sees turns.
    looking: HashMap<usize, u64>,
}

/// Who commits, in order.
fn commits_of(alloc: Global, points: &[Point]) -> Result<Vec<usize>, NoMemory>
    ensures { IfOk result (λ order. order.items ≡ commits_there points.now) }
{
    let mut order = Vec::new(alloc);
    for point in points {
        match point {
            Point::Begin(_) => {}
            Point::Commit(t) => order.push(*t)?,
        }
    }
    Ok(order)
}

/// Whether the r-th read in the list of t finds what the rows have.
fn is_met(log: &Log, rows: &BTreeMap<u64, u64>, t: usize, r: usize) -> bool
    ensures { IsTrue result → (read : TheRead) → read_there log.now t (ListedAt r) ≡ Some read → meets_it read.need (row_of rows.now read.key) ≡ true }
{
    match read_at(log, t, Place::Listed(r)) {
        Some(read) => meets(read.need, value_at(rows, read.key)),
        None => true,
    }
}

/// Whether each read in the list of t finds what the rows have.
fn is_each_met(log: &Log, rows: &BTreeMap<u64, u64>, t: usize) -> bool
    ensures { IsTrue result → (r : ℕ) (read : TheRead) → read_there log.now t (ListedAt r) ≡ Some read → meets_it read.need (row_of rows.now read.key) ≡ true }
{
    for r in 0..reads_of(log, t).len() {
        if !is_met(log, rows, t, r) {
            return false;
        }
    }
    true
}

/// Whether the rows have no key that the n-th scan of t misses.
fn is_lacked(
    alloc: Global,
    log: &Log,
    rows: &BTreeMap<u64, u64>,
    t: usize,
    n: usize,
) -> Result<bool, NoMemory>
    ensures { IfOk result (λ yes. IsTrue yes → (key : ℕ) (read : TheRead) → read_there log.now t (MissingAt n key) ≡ Some read → meets_it read.need (row_of rows.now read.key) ≡ true) }
{
    let Some(scan) = scans_of(log, t).get(n) else {
        return Ok(true);
    };
    let keys = missed(alloc, rows, scan)?;
    Ok(keys.is_empty())
}

/// The same of each scan of t.
fn is_each_lacked(
    alloc: Global,
    log: &Log,
    rows: &BTreeMap<u64, u64>,
    t: usize,
) -> Result<bool, NoMemory>
    ensures { IfOk result (λ yes. IsTrue yes → (s key : ℕ) (read : TheRead) → read_there log.now t (MissingAt s key) ≡ Some read → meets_it read.need (row_of rows.now read.key) ≡ true) }
{
    for n in 0..scans_of(log, t).len() {
        if !is_lacked(alloc, log, rows, t, n)? {
            return Ok(false);
        }
    }
    Ok(true)
}

/// Whether all reads of t find what the rows have.
fn are_met(alloc: Global, log: &Log, rows: &BTreeMap<u64, u64>, t: usize) -> Result<bool, NoMemory>
    ensures { IfOk result (λ yes. IsTrue yes → (r : ThePlace) (read : TheRead) → read_there log.now t r ≡ Some read → meets_it read.need (row_of rows.now read.key) ≡ true) }
{
    if !is_each_met(log, rows, t) {
        return Ok(false);
    }
    is_each_lacked(alloc, log, rows, t)
}

/// Whether a transaction sees those before it in lanes where turns are seen.
fn sees_turns(rules: Rules) -> bool
    ensures { result ≡ sees_them rules }
{
    rules.first.turns || rules.first.turn_reads
}

/// The turns of t are those of one that has begun, if it sees turns.
fn look(
    rules: Rules,
    log: &Log,
    looking: &mut HashMap<usize, u64>,
    t: usize,
) -> Result<(), NoMemory>
    ensures raised { OnOk result (AreRaised (get_in ◌==◌ looking.old) (get_in ◌==◌ looking.new)) }
    ensures there { OnOk result (sees_them rules ≡ true → AreLaned log.now (get_in ◌==◌ looking.new) t) }
{
    if !sees_turns(rules) {
        return Ok(());
    }
    show_turns(log, looking, t)
}

/// t reads, if it may.
fn begin_at(
    alloc: Global,
    asked: &Asked,
    log: &Log,
    order: &[usize],
    replay: &mut Replay,
    t: usize,
) -> Result<bool, NoMemory>
    requires { IsReplay asked.now log.now order.now replay.old.count (row_of replay.old.rows) (get_in ◌==◌ replay.old.begun) (get_in ◌==◌ replay.old.last) (get_in ◌==◌ replay.old.looking) }
    ensures { IfOk result (λ yes. IsTrue yes → IsReplay asked.now log.now order.now replay.new.count (row_of replay.new.rows) (get_in ◌==◌ replay.new.begun) (get_in ◌==◌ replay.new.last) (get_in ◌==◌ replay.new.looking)) }
{
    if !is_absent(&replay.begun, t) {
        return Ok(false);
    }
    if !are_met(alloc, log, &replay.rows, t)? {
        return Ok(false);
    }
    let rules = asked.of(t);
    mark(&mut replay.begun, t, replay.count)?;
    look(rules, log, &mut replay.looking, t)?;
    Ok(true)
}

/// Whether the key of the n-th change was not written from the place low on.
fn is_unwritten_at(last: &HashMap<u64, usize>, changes: &[Change], n: usize, low: usize) -> bool
    ensures { IsTrue result → (c : TheChange) (m : ℕ) → slice_get changes.now n ≡ Some c → get_in ◌==◌ last.now c.key ≡ Some m → m < low }
{
    match changes.get(n) {
        Some(change) => !is_written_since(last, change.key, low),
        None => true,
    }
}

/// Whether no key that t writes was written from the place low on.
fn is_unwritten_since(log: &Log, last: &HashMap<u64, usize>, t: usize, low: usize) -> bool
    ensures { IsTrue result → (key m : ℕ) → writes_it log.now t key ≡ true → get_in ◌==◌ last.now key ≡ Some m → m < low }
{
    let changes = writes_of(log, t);
    for n in 0..changes.len() {
        if !is_unwritten_at(last, changes, n, low) {
            return false;
        }
    }
    true
}

/// Whether a transaction that sees all that is before it began where fewer had committed.
fn is_late(rules: Rules, low: usize, i: usize) -> bool
    ensures { result ≡ false → rules.whole ≡ true → low ≡ i }
{
    rules.whole && low != i
}

/// Whether t, which began where the first `low` had committed, sees nobody else but by its turns, where the first i have.
fn is_closed(
    rules: Rules,
    log: &Log,
    order: &[usize],
    last: &HashMap<u64, usize>,
    t: usize,
    low: usize,
    i: usize,
) -> bool
    requires before { low ≤ i }
    requires last { AreLast log.now order.now i (get_in ◌==◌ last.now) }
    ensures { IsTrue result → IsClosed rules log.now order.now low i t }
{
    let _count = order.len();
    if is_late(rules, low, i) {
        return false;
    }
    !rules.first.writers || is_unwritten_since(log, last, t, low)
}

/// Whether t stands at a place of an order.
fn is_at(order: &[usize], i: usize, t: usize) -> bool
    ensures { IsTrue result → At order.now i t }
{
    match at(order, i) {
        Some(x) => x == t,
        None => false,
    }
}

/// t commits, if it may.
fn commit_at(
    asked: &Asked,
    log: &Log,
    order: &[usize],
    replay: &mut Replay,
    t: usize,
) -> Result<bool, NoMemory>
    requires { IsReplay asked.now log.now order.now replay.old.count (row_of replay.old.rows) (get_in ◌==◌ replay.old.begun) (get_in ◌==◌ replay.old.last) (get_in ◌==◌ replay.old.looking) }
    ensures { IfOk result (λ yes. IsTrue yes → IsReplay asked.now log.now order.now replay.new.count (row_of replay.new.rows) (get_in ◌==◌ replay.new.begun) (get_in ◌==◌ replay.new.last) (get_in ◌==◌ replay.new.looking)) }
{
    let i = replay.count;
    if !is_at(order, i, t) {
        return Ok(false);
    }
    let Some(low) = place_of(&replay.begun, t) else {
        return Ok(false);
    };
    let rules = asked.of(t);
    if !is_closed(rules, log, order, &replay.last, t, low, i) {
        return Ok(false);
    }
    if !have_come(&replay.looking, turns_of(log, t)) {
        return Ok(false);
    }
    change_rows(&mut replay.rows, writes_of(log, t))?;
    mark_writes(&mut replay.last, writes_of(log, t), i)?;
    replay.count = i + 1;
    Ok(true)
}

/// Who begins or commits at a point does so, if it may.
fn pass(
    alloc: Global,
    asked: &Asked,
    log: &Log,
    order: &[usize],
    replay: &mut Replay,
    point: Point,
) -> Result<bool, NoMemory>
    requires { IsReplay asked.now log.now order.now replay.old.count (row_of replay.old.rows) (get_in ◌==◌ replay.old.begun) (get_in ◌==◌ replay.old.last) (get_in ◌==◌ replay.old.looking) }
    ensures { IfOk result (λ yes. IsTrue yes → IsReplay asked.now log.now order.now replay.new.count (row_of replay.new.rows) (get_in ◌==◌ replay.new.begun) (get_in ◌==◌ replay.new.last) (get_in ◌==◌ replay.new.looking)) }
{
    match point {
        Point::Begin(t) => begin_at(alloc, asked, log, order, replay, t),
        Point::Commit(t) => commit_at(asked, log, order, replay, t),
    }
}

/// Whether at each point who begins or commits there may do so, and all commit.
fn is_replayed(
    alloc: Global,
    asked: &Asked,
    log: &Log,
    order: &[usize],
    points: &[Point],
) -> Result<bool, NoMemory>
    ensures { IfOk result (λ yes. IsTrue yes → HasReplay asked.now log.now order.now) }
{
    let mut replay = Replay {
        count: 0,
        rows: by_key(alloc, log.rows.as_slice())?,
        begun: HashMap::new(alloc),
        last: HashMap::new(alloc),
        looking: HashMap::new(alloc),
    };
    for point in points {
        if !pass(alloc, asked, log, order, &mut replay, *point)? {
            return Ok(false);
        }
    }
    Ok(replay.count == order.len())
}

/// Whether points explain a log by the rules that are asked for: each transaction reads what those that committed before it began
/// left.
pub fn explains_by_points(
    alloc: Global,
    asked: &Asked,
    log: &Log,
    points: &[Point],
) -> Result<bool, NoMemory>
    ensures { IfOk result (λ yes. IsTrue yes → IsExplainedBy asked.now log.now (commits_there points.now)) }
{
    let list = commits_of(alloc, points)?;
    let order = list.as_slice();
    let mut places = HashMap::new(alloc);
    if !find_places(log, order, &mut places)? {
        return Ok(false);
    }
    if !have_all_places(log, &places) {
        return Ok(false);
    }
    if !are_in_turn(alloc, log, order)? {
        return Ok(false);
    }
    is_replayed(alloc, asked, log, order, points)
}
