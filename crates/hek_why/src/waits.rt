//! What a transaction waits for, and on which transactions its commit depends.
ghost use Rattle.std.specs.Prelude.{◌≡◌, ◌++◌, IfOk, OnOk, find, length, map};
ghost use Rattle.std.specs.List.{All, list_any};
ghost use Rattle.hek_rules.specs.Waits.{is_waited_for, waits, commit_deps};
ghost use Rattle.hek_txn.specs.TxnTable.{Declared};
ghost use Rattle.hek_machine.specs.Judgements.{IsShown};
ghost use Rattle.hek_why.specs.Passed.{version_passes};
ghost use Rattle.hek_why.specs.Waited.{is_made_in, readers_in, held_over, waiting_list_holders, depended_on, shared_bucket, waits_in, commits_in};

use crate::facts::{is_dependent, is_listed, reads};
use crate::items::Items;
use crate::kept::keep_if;
use crate::reason::Reason;
use crate::walked::is_of_bucket;
use hek_machine::Machine;
use hek_rules::{NoMemory, TxnId, VersionId, WriteEntry};
use std::alloc::Global;

/// The transactions that read-lock a version, by ID.
pub(crate) fn readers_of(
    alloc: Global,
    machine: &Machine,
    v: VersionId,
) -> Result<Vec<TxnId>, NoMemory>
    ensures { IfOk result (λ list. IsShown machine.now (λ w. readers_in w v) list.items) }
{
    let mut txns = Vec::new(alloc);
    for place in 0..machine.txns() {
        let t = TxnId::new(place + 1);
        keep_if(reads(machine, t, v)?, t, &mut txns)?;
    }
    Ok(txns)
}

/// The transactions in whose WaitingTxnList u is, by ID.
fn holders_of(alloc: Global, machine: &Machine, u: TxnId) -> Result<Vec<TxnId>, NoMemory>
    ensures members { IfOk result (λ list. IsShown machine.now (λ w. waiting_list_holders w u) list.items) }
    ensures declared { IfOk result (λ list. All (Declared machine.now.txns) list.items) }
{
    let mut txns = Vec::new(alloc);
    for place in 0..machine.txns() {
        let t = TxnId::new(place + 1);
        keep_if(is_listed(machine, t, u)?, t, &mut txns)?;
    }
    Ok(txns)
}

/// The transactions on which the commit of t depends, by ID.
fn depended_on(alloc: Global, machine: &Machine, t: TxnId) -> Result<Vec<TxnId>, NoMemory>
    ensures { IfOk result (λ list. IsShown machine.now (λ w. depended_on w t) list.items) }
{
    let mut txns = Vec::new(alloc);
    for place in 0..machine.txns() {
        let u = TxnId::new(place + 1);
        keep_if(is_dependent(machine, u, t)?, u, &mut txns)?;
    }
    Ok(txns)
}

/// The versions that a transaction writes and another read-locks, by index.
fn held_over(alloc: Global, machine: &Machine, u: TxnId) -> Result<Vec<VersionId>, NoMemory>
    ensures { IfOk result (λ vs. IsShown machine.now (λ w. held_over w u) vs.items) }
{
    let mut versions = Vec::new(alloc);
    for index in 0..machine.versions() {
        let v = VersionId::new(index as u64);
        keep_if(is_waited_for(machine, u, v), v, &mut versions)?;
    }
    Ok(versions)
}

#[tactic(auto, using(crate::proofs::Sounds::waited_word))]
fn is_waited_for(machine: &Machine, u: TxnId, v: VersionId) -> bool
    ensures { IsShown machine.now (λ w. version_passes (is_waited_for w.read_locks u) v w) result }
{
    match machine.end_word(v) {
        None => false,
        Some(word) => word.writer() == Some(u) && word.readers() > 0,
    }
}

/// Whether a write-set entry is a version made in a bucket.
fn is_made_in(machine: &Machine, bucket: u64, entry: WriteEntry) -> bool
    ensures { IsShown machine.now (λ w. is_made_in w bucket entry) result }
{
    match entry {
        WriteEntry::BeginOf(v) => is_of_bucket(machine, bucket, v),
        WriteEntry::EndOf(_) => false,
    }
}

/// Whether one of the write-set entries is a version made in a bucket.
fn makes_in(machine: &Machine, bucket: u64, entries: &[WriteEntry]) -> bool
    ensures { IsShown machine.now (λ w. list_any (is_made_in w bucket) entries.now) result }
{
    for entry in entries {
        if is_made_in(machine, bucket, *entry) {
            return true;
        }
    }
    false
}

/// The first of these buckets in which one of the write-set entries made a version.
fn first_made_in(machine: &Machine, buckets: &[u64], entries: &[WriteEntry]) -> Option<u64>
    ensures { IsShown machine.now (λ w. find (λ b. list_any (is_made_in w b) entries.now) buckets.now) result }
{
    for bucket in buckets {
        if makes_in(machine, *bucket, entries) {
            return Some(*bucket);
        }
    }
    None
}

/// The first bucket that a holder locks and in which u made a version.
fn shared_bucket(machine: &Machine, holder: TxnId, u: TxnId) -> Result<Option<u64>, NoMemory>
    requires holder { Declared machine.now.txns holder }
    requires waiter { Declared machine.now.txns u }
    ensures { IfOk result (IsShown machine.now (λ w. shared_bucket w holder u)) }
{
    let entries = machine.write_list(u)?;
    let buckets = machine.bucket_list(holder)?;
    Ok(first_made_in(machine, buckets.as_slice(), entries.as_slice()))
}

/// Appends the reasons that these versions give.
fn add_versions(
    alloc: Global,
    machine: &Machine,
    versions: &[VersionId],
    list: &mut Vec<Reason>,
) -> Result<(), NoMemory>
    ensures { OnOk result (IsShown machine.now (λ w. list.old.items ++ map (λ v. Reason.ReadLocked v (readers_in w v)) versions.now) list.new.items) }
{
    for v in versions {
        let readers = readers_of(alloc, machine, *v)?;
        list.push(Reason::ReadLocked {
            version: *v,
            readers: Items::new(readers),
        })?;
    }
    Ok(())
}

/// Appends the reasons that these holders give.
fn add_holders(
    machine: &Machine,
    u: TxnId,
    holders: &[TxnId],
    list: &mut Vec<Reason>,
) -> Result<(), NoMemory>
    requires waiter { Declared machine.now.txns u }
    requires holders { All (Declared machine.now.txns) holders.now }
    ensures { OnOk result (IsShown machine.now (λ w. list.old.items ++ map (λ h. Reason.Listed h (shared_bucket w h u)) holders.now) list.new.items) }
{
    for h in holders {
        let bucket = shared_bucket(machine, *h, u)?;
        list.push(Reason::Listed { holder: *h, bucket })?;
    }
    Ok(())
}

/// What a transaction waits for: the versions that it writes and others read-lock, by index, and then the transactions
/// in whose WaitingTxnList it is, by ID (section 4 of the paper: wait-for dependencies). There are as many reasons as
/// its WaitForCounter says.
pub fn wait_reasons(alloc: Global, machine: &Machine, u: TxnId) -> Result<Vec<Reason>, NoMemory>
    requires { Declared machine.now.txns u }
    ensures members { IfOk result (λ list. IsShown machine.now (λ w. waits_in w u) list.items) }
    ensures number { IfOk result (λ list. IsShown machine.now (λ w. waits w u) (length list.items)) }
{
    let versions = held_over(alloc, machine, u)?;
    let holders = holders_of(alloc, machine, u)?;
    let mut list = Vec::new(alloc);
    add_versions(alloc, machine, versions.as_slice(), &mut list)?;
    add_holders(machine, u, holders.as_slice(), &mut list)?;
    Ok(list)
}

/// The reason that a commit depends on a transaction, for each of these.
fn depends(alloc: Global, txns: &[TxnId]) -> Result<Vec<Reason>, NoMemory>
    ensures { IfOk result (λ list. list.items ≡ map (λ u. Reason.Depends u) txns.now) }
{
    let mut list = Vec::new(alloc);
    for u in txns {
        list.push(Reason::Depends(*u))?;
    }
    Ok(list)
}

/// The transactions on which the commit of t depends, by ID (section 2 of the paper: commit dependencies). There are as
/// many reasons as its CommitDepCounter says.
pub fn commit_reasons(alloc: Global, machine: &Machine, t: TxnId) -> Result<Vec<Reason>, NoMemory>
    requires { Declared machine.now.txns t }
    ensures members { IfOk result (λ list. IsShown machine.now (λ w. commits_in w t) list.items) }
    ensures number { IfOk result (λ list. IsShown machine.now (λ w. commit_deps w t) (length list.items)) }
{
    let txns = depended_on(alloc, machine, t)?;
    let list = depends(alloc, txns.as_slice())?;
    Ok(list)
}
