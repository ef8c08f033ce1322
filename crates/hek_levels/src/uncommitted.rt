//! Read uncommitted: what each committed transaction found was at some time there, and some order keeps the turns.
ghost use Rattle.std.specs.Prelude.{◌≡◌, ◌==◌, ◌&&◌, ℕ, Some, None, true, false, slice_get, IsTrue, OnOk, IfOk, IfSome, IfNone, if◌then◌else◌};
ghost use Rattle.std.specs.HashMap.{get as get_in};
ghost use Rattle.hek_rules.specs.Listing.{value_of};
ghost use Rattle.hek_levels.specs.declared.log.Need.{Need as TheNeed};
ghost use Rattle.hek_levels.specs.declared.log.Read.{Read as TheRead};
ghost use Rattle.hek_levels.specs.declared.log.Place.TheVariants.{Listed as ListedAt, Missing as MissingAt};
ghost use Rattle.hek_levels.specs.Logs.{read_at as read_there, is_committed as committed_there};
ghost use Rattle.hek_levels.specs.Rows.{row_of};
ghost use Rattle.hek_levels.specs.Uncommitted.{is_found as is_found_there, AreFoundBy, AreFound, IsLost as IsLostThere, IsBareOf, IsBare, does_meet, with_one, is_other as is_another, who_in, who_by, who_with, who_below, IsIndex};

use crate::log::{Change, Log, Need, Place, Read, Transaction};
use crate::logged::{is_committed, meets, passing_of, read_at, reads_of, scans_of, writes_of};
use crate::rows::{by_key, missed, row_of as value_at};
use hek_rules::NoMemory;
use std::alloc::Global;
use std::collections::{BTreeMap, HashMap};

/// Who leaves something at a key.
#[derive(Clone, Copy)]
pub(crate) enum Who {
    One(usize),
    Several,
}

/// Who leaves nothing at a key, who leaves a value there, and who leaves which.
#[derive(Drop)]
pub(crate) struct Changers {
    absent: HashMap<u64, Who>,
    present: HashMap<u64, Who>,
    values: HashMap<(u64, u64), Who>,
}

/// These with one more.
fn with(who: Option<Who>, t: usize) -> Who
    ensures { Some result ≡ with_one who t }
{
    match who {
        None => Who::One(t),
        Some(Who::One(x)) => { if x == t { Who::One(x) } else { Who::Several } }
        Some(Who::Several) => Who::Several,
    }
}

/// Whether one of these is not t.
fn is_other(who: Option<Who>, t: usize) -> bool
    ensures { result ≡ is_another who t }
{
    match who {
        None => false,
        Some(Who::One(x)) => x != t,
        Some(Who::Several) => true,
    }
}

/// One more at a key.
fn note(map: &mut HashMap<u64, Who>, key: u64, t: usize) -> Result<(), NoMemory>
    ensures { OnOk result ((k : ℕ) → get_in ◌==◌ map.new k ≡ (if key == k then with_one (get_in ◌==◌ map.old k) t else get_in ◌==◌ map.old k)) }
{
    let who = with(map.get(&key).copied(), t);
    let _before = map.insert(key, who)?;
    Ok(())
}

/// Who leaves this value at a key.
fn with_value(map: &HashMap<(u64, u64), Who>, key: u64, value: u64) -> Option<Who>
    ensures { result ≡ get_in (λ (a b : ℕ × ℕ). (a.0 == b.0) && (a.1 == b.1)) map.now (key, value) }
{
    map.get(&(key, value)).copied()
}

/// One more at a key with a value.
fn note_value(
    map: &mut HashMap<(u64, u64), Who>,
    key: u64,
    value: u64,
    t: usize,
) -> Result<(), NoMemory>
    ensures { OnOk result ((k v : ℕ) → get_in (λ (a b : ℕ × ℕ). (a.0 == b.0) && (a.1 == b.1)) map.new (k, v) ≡ (if (key == k) && (value == v) then with_one (get_in (λ (a b : ℕ × ℕ). (a.0 == b.0) && (a.1 == b.1)) map.old (k, v)) t else get_in (λ (a b : ℕ × ℕ). (a.0 == b.0) && (a.1 == b.1)) map.old (k, v))) }
{
    let who = with(with_value(map, key, value), t);
    let _before = map.insert((key, value), who)?;
    Ok(())
}

/// A change of t.
fn note_change(changers: &mut Changers, change: Change, t: usize) -> Result<(), NoMemory>
    ensures { OnOk result ((key : ℕ) (need : TheNeed) → who_in changers.new key need ≡ (if does_meet key need change then with_one (who_in changers.old key need) t else who_in changers.old key need)) }
{
    match change.value {
        None => note(&mut changers.absent, change.key, t),
        Some(value) => {
            note(&mut changers.present, change.key, t)?;
            note_value(&mut changers.values, change.key, value, t)
        }
    }
}

/// Changes of t.
fn note_changes(changers: &mut Changers, changes: &[Change], t: usize) -> Result<(), NoMemory>
    ensures { OnOk result ((key : ℕ) (need : TheNeed) → who_in changers.new key need ≡ who_by key need t changes.now (who_in changers.old key need)) }
{
    for change in changes {
        note_change(changers, *change, t)?;
    }
    Ok(())
}

/// All changes of t.
fn note_transaction(changers: &mut Changers, log: &Log, t: usize) -> Result<(), NoMemory>
    ensures { OnOk result ((key : ℕ) (need : TheNeed) → who_in changers.new key need ≡ who_with log.now key need t (who_in changers.old key need)) }
{
    note_changes(changers, writes_of(log, t), t)?;
    note_changes(changers, passing_of(log, t), t)
}

/// Who leaves what.
fn changers_of(alloc: Global, log: &Log) -> Result<Changers, NoMemory>
    ensures { IfOk result (λ changers. IsIndex log.now changers) }
{
    let mut changers = Changers {
        absent: HashMap::new(alloc),
        present: HashMap::new(alloc),
        values: HashMap::new(alloc),
    };
    for t in 0..log.transactions.len() {
        note_transaction(&mut changers, log, t)?;
    }
    Ok(changers)
}

/// Who leaves at a key what meets a need.
fn who_leaves(changers: &Changers, key: u64, need: Need) -> Option<Who>
    ensures { result ≡ who_in changers.now key need }
{
    match need {
        Need::Absent => changers.absent.get(&key).copied(),
        Need::Present => changers.present.get(&key).copied(),
        Need::Value(value) => with_value(&changers.values, key, value),
    }
}

/// Whether what a read of t found was at some time there.
fn is_found(log: &Log, rows: &BTreeMap<u64, u64>, changers: &Changers, t: usize, read: Read) -> bool
    requires rows { (k : ℕ) → row_of rows.now k ≡ value_of log.now.rows.items k }
    requires index { IsIndex log.now changers.now }
    ensures { result ≡ is_found_there log.now t read }
{
    // The proof counts the transactions, and a length that was asked for is in range.
    let _count = log.transactions.len();
    meets(read.need, value_at(rows, read.key))
        || is_other(who_leaves(changers, read.key, read.need), t)
}

/// Whether the read of t at a place found what was never there.
fn is_lost(
    log: &Log,
    rows: &BTreeMap<u64, u64>,
    changers: &Changers,
    t: usize,
    place: Place,
) -> bool
    requires rows { (k : ℕ) → row_of rows.now k ≡ value_of log.now.rows.items k }
    requires index { IsIndex log.now changers.now }
    ensures none { result ≡ false → (read : TheRead) → read_there log.now t place ≡ Some read → is_found_there log.now t read ≡ true }
    ensures some { IsTrue result → (read : TheRead) × (read_there log.now t place ≡ Some read) × (is_found_there log.now t read ≡ false) }
{
    match read_at(log, t, place) {
        Some(read) => !is_found(log, rows, changers, t, read),
        None => false,
    }
}

/// The first read in the list of t that found what was never there.
fn lost_listed(log: &Log, rows: &BTreeMap<u64, u64>, changers: &Changers, t: usize) -> Option<usize>
    requires rows { (k : ℕ) → row_of rows.now k ≡ value_of log.now.rows.items k }
    requires index { IsIndex log.now changers.now }
    ensures none { IfNone result ((r : ℕ) (read : TheRead) → read_there log.now t (ListedAt r) ≡ Some read → is_found_there log.now t read ≡ true) }
    ensures some { IfSome result (λ r. (read : TheRead) × (read_there log.now t (ListedAt r) ≡ Some read) × (is_found_there log.now t read ≡ false)) }
{
    for r in 0..reads_of(log, t).len() {
        if is_lost(log, rows, changers, t, Place::Listed(r)) {
            return Some(r);
        }
    }
    None
}

/// The n-th of these keys, if the scan of t at a place misses it, and it was never so.
fn lost_key(
    log: &Log,
    rows: &BTreeMap<u64, u64>,
    changers: &Changers,
    t: usize,
    s: usize,
    keys: &[u64],
    n: usize,
) -> Option<u64>
    requires rows { (k : ℕ) → row_of rows.now k ≡ value_of log.now.rows.items k }
    requires index { IsIndex log.now changers.now }
    ensures none { IfNone result ((key : ℕ) (read : TheRead) → slice_get keys.now n ≡ Some key → read_there log.now t (MissingAt s key) ≡ Some read → is_found_there log.now t read ≡ true) }
    ensures some { IfSome result (λ key. (read : TheRead) × (read_there log.now t (MissingAt s key) ≡ Some read) × (is_found_there log.now t read ≡ false)) }
{
    let Some(there) = keys.get(n) else {
        return None;
    };
    let key = *there;
    let place = Place::Missing { scan: s, key };
    if is_lost(log, rows, changers, t, place) {
        Some(key)
    } else {
        None
    }
}

/// A key that is missing in the scan of t at a place, and was never so.
fn lost_missing(
    alloc: Global,
    log: &Log,
    rows: &BTreeMap<u64, u64>,
    changers: &Changers,
    t: usize,
    s: usize,
) -> Result<Option<u64>, NoMemory>
    requires rows { (k : ℕ) → row_of rows.now k ≡ value_of log.now.rows.items k }
    requires index { IsIndex log.now changers.now }
    ensures none { IfOk result (λ found. IfNone found ((key : ℕ) (read : TheRead) → read_there log.now t (MissingAt s key) ≡ Some read → is_found_there log.now t read ≡ true)) }
    ensures some { IfOk result (λ found. IfSome found (λ key. (read : TheRead) × (read_there log.now t (MissingAt s key) ≡ Some read) × (is_found_there log.now t read ≡ false))) }
{
    let Some(scan) = scans_of(log, t).get(s) else {
        return Ok(None);
    };
    let list = missed(alloc, rows, scan)?;
    let keys = list.as_slice();
    for n in 0..keys.len() {
        if let Some(key) = lost_key(log, rows, changers, t, s, keys, n) {
            return Ok(Some(key));
        }
    }
    Ok(None)
}

/// A key that is missing in a scan of t, and was never so.
fn lost_in_scans(
    alloc: Global,
    log: &Log,
    rows: &BTreeMap<u64, u64>,
    changers: &Changers,
    t: usize,
) -> Result<Option<Place>, NoMemory>
    requires rows { (k : ℕ) → row_of rows.now k ≡ value_of log.now.rows.items k }
    requires index { IsIndex log.now changers.now }
    ensures none { IfOk result (λ found. IfNone found ((s key : ℕ) (read : TheRead) → read_there log.now t (MissingAt s key) ≡ Some read → is_found_there log.now t read ≡ true)) }
    ensures some { IfOk result (λ found. IfSome found (λ r. (read : TheRead) × (read_there log.now t r ≡ Some read) × (is_found_there log.now t read ≡ false))) }
{
    for s in 0..scans_of(log, t).len() {
        if let Some(key) = lost_missing(alloc, log, rows, changers, t, s)? {
            return Ok(Some(Place::Missing { scan: s, key }));
        }
    }
    Ok(None)
}

/// A read of t that found what was never there, if t is known to have committed.
fn lost_of(
    alloc: Global,
    log: &Log,
    rows: &BTreeMap<u64, u64>,
    changers: &Changers,
    t: usize,
) -> Result<Option<Place>, NoMemory>
    requires rows { (k : ℕ) → row_of rows.now k ≡ value_of log.now.rows.items k }
    requires index { IsIndex log.now changers.now }
    ensures none { IfOk result (λ found. IfNone found (committed_there log.now t ≡ true → AreFoundBy log.now t)) }
    ensures some { IfOk result (λ found. IfSome found (λ r. IsLostThere log.now t r)) }
{
    if !is_committed(log, t) {
        return Ok(None);
    }
    if let Some(r) = lost_listed(log, rows, changers, t) {
        return Ok(Some(Place::Listed(r)));
    }
    lost_in_scans(alloc, log, rows, changers, t)
}

/// A read of a transaction that is known to have committed which found what was never there: what neither the opening has nor a
/// change of another transaction left, which may have aborted or changed the key again.
pub fn find_lost(alloc: Global, log: &Log) -> Result<Option<(usize, Place)>, NoMemory>
    ensures none { IfOk result (λ found. IfNone found (AreFound log.now)) }
    ensures some { IfOk result (λ found. IfSome found (λ lost. IsLostThere log.now lost.0 lost.1)) }
{
    let rows = by_key(alloc, log.rows.as_slice())?;
    let changers = changers_of(alloc, log)?;
    for t in 0..log.transactions.len() {
        if let Some(place) = lost_of(alloc, log, &rows, &changers, t)? {
            return Ok(Some((t, place)));
        }
    }
    Ok(None)
}

/// A transaction without its reads and writes.
fn bare_of(alloc: Global, transaction: &Transaction) -> Result<Transaction, NoMemory>
    ensures { IfOk result (λ bare. IsBareOf (Some transaction.now) (Some bare)) }
{
    Ok(Transaction {
        status: transaction.status,
        fits: true,
        turns: transaction.turns.clone()?,
        reads: Vec::new(alloc),
        scans: Vec::new(alloc),
        writes: Vec::new(alloc),
        passing: Vec::new(alloc),
    })
}

/// A log without its reads and writes: only the turns are left of it.
pub fn bare(alloc: Global, log: &Log) -> Result<Log, NoMemory>
    ensures { IfOk result (λ bare. IsBare log.now bare) }
{
    let mut transactions = Vec::new(alloc);
    for n in 0..log.transactions.len() {
        transactions.push(bare_of(alloc, &log.transactions[n])?)?;
    }
    Ok(Log {
        rows: Vec::new(alloc),
        transactions,
    })
}
