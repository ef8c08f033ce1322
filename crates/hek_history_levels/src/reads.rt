//! What the answers of a transaction say of keys that it had not changed itself before.
ghost use Rattle.std.specs.Prelude.{◌≡◌, ◌↔◌, ◌⊎◌, ◌==◌, ◌||◌, ℕ, List, true, Some, None, OnOk, IfOk, is_some, IsTrue};
ghost use Rattle.std.specs.List.{list_any};
ghost use Rattle.hek_rules.specs.Listing.{value_of as value_in};
ghost use Rattle.hek_history.specs.Answers.{covers as covered_by};
ghost use Rattle.hek_levels.specs.declared.log.Need.{Need as TheNeed};
ghost use Rattle.hek_levels.specs.declared.log.Scan.{Scan as TheScan};
ghost use Rattle.hek_history_levels.specs.Reads.{IsPaired, IsJudged, HasRead};
ghost use Rattle.hek_history_levels.specs.Taking.{own_left, IsOwn, IsOfKey, AreReadsWith, AreExcepted};

use crate::answers::need_at;
use crate::own::{Own, own_of};
use hek_history::{Operation, Scope, covers, key_of};
use hek_levels::{Need, Read, Scan};
use hek_rules::NoMemory;
use std::alloc::Global;

/// Whether what an answer says is judged: no absence is by a lenient transaction.
fn is_judged(lenient: bool, need: Need) -> bool
    ensures { IsTrue result ↔ IsJudged lenient need }
{
    match need {
        Need::Absent => !lenient,
        Need::Present | Need::Value(_) => true,
    }
}

/// One read more.
fn push_read(reads: &mut Vec<Read>, operation: usize, key: u64, need: Need) -> Result<(), NoMemory>
    ensures { OnOk result ((scans : List TheScan) (m k : ℕ) (n : TheNeed) → HasRead reads.new.items scans m k n ↔ (HasRead reads.old.items scans m k n ⊎ ((m ≡ operation) × (k ≡ key) × (n ≡ need)))) }
{
    reads.push(Read {
        operation,
        key,
        need,
    })?;
    Ok(())
}

/// The read of an operation of one key, if the transaction has not changed it.
fn take_own(
    lenient: bool,
    own: &Own,
    n: usize,
    operation: &Operation,
    reads: &mut Vec<Read>,
) -> Result<(), NoMemory>
    requires { IsOfKey operation.now }
    ensures { OnOk result ((scans : List TheScan) → AreReadsWith lenient (own_left own.now) n operation.now reads.old.items scans reads.new.items scans) }
{
    let key = key_of(operation);
    let Some(need) = need_at(operation) else {
        return Ok(());
    };
    if own_of(own, key).is_some() {
        return Ok(());
    }
    if !is_judged(lenient, need) {
        return Ok(());
    }
    push_read(reads, n, key, need)
}

/// The reads of the pairs of a scan whose keys the transaction has not changed.
fn take_pairs(
    own: &Own,
    n: usize,
    pairs: &[(u64, u64)],
    reads: &mut Vec<Read>,
) -> Result<(), NoMemory>
    ensures { OnOk result ((scans : List TheScan) (m k : ℕ) (need : TheNeed) → HasRead reads.new.items scans m k need ↔ (HasRead reads.old.items scans m k need ⊎ ((m ≡ n) × IsPaired pairs.now k need × (own_left own.now k ≡ None)))) }
{
    for i in 0..pairs.len() {
        if own_of(own, pairs[i].0).is_none() {
            push_read(reads, n, pairs[i].0, Need::Value(pairs[i].1))?;
        }
    }
    Ok(())
}

/// The keys of pairs.
fn keys_of(alloc: Global, pairs: &[(u64, u64)]) -> Result<Vec<u64>, NoMemory>
    ensures { IfOk result (λ keys. (key : ℕ) → list_any (λ k. k == key) keys.items ≡ is_some (value_in pairs.now key)) }
{
    let mut keys = Vec::new(alloc);
    for pair in pairs {
        keys.push(pair.0)?;
    }
    Ok(keys)
}

/// Those with the keys of a scope that the transaction has changed.
fn add_own(keys: &mut Vec<u64>, scope: Scope, own: &Own) -> Result<(), NoMemory>
    requires { IsOwn own.now }
    ensures { OnOk result ((key : ℕ) → covered_by scope key ≡ true → list_any (λ k. k == key) keys.new.items ≡ (list_any (λ k. k == key) keys.old.items || is_some (own_left own.now key))) }
{
    let writes = own.writes.as_slice();
    for i in 0..writes.len() {
        if covers(scope, writes[i].key) {
            keys.push(writes[i].key)?;
        }
    }
    Ok(())
}

/// The keys of a scope that a scan does not miss: those of its pairs, and those that the transaction has changed.
fn excepted(
    alloc: Global,
    own: &Own,
    scope: Scope,
    pairs: &[(u64, u64)],
) -> Result<Vec<u64>, NoMemory>
    requires { IsOwn own.now }
    ensures { IfOk result (λ keys. AreExcepted scope pairs.now (own_left own.now) keys.items) }
{
    let mut keys = keys_of(alloc, pairs)?;
    add_own(&mut keys, scope, own)?;
    keys.sort_unstable();
    Ok(keys)
}

/// The reads of an operation, if the transaction has not changed their keys.
pub(crate) fn take_reads(
    alloc: Global,
    lenient: bool,
    own: &Own,
    n: usize,
    operation: &Operation,
    reads: &mut Vec<Read>,
    scans: &mut Vec<Scan>,
) -> Result<(), NoMemory>
    requires { IsOwn own.now }
    ensures { OnOk result (AreReadsWith lenient (own_left own.now) n operation.now reads.old.items scans.old.items reads.new.items scans.new.items) }
{
    let Operation::Scan(scope, pairs) = operation else {
        return take_own(lenient, own, n, operation, reads);
    };
    take_pairs(own, n, pairs.as_slice(), reads)?;
    if lenient {
        return Ok(());
    }
    scans.push(Scan {
        operation: n,
        scope: *scope,
        except: excepted(alloc, own, *scope, pairs.as_slice())?,
    })?;
    Ok(())
}
