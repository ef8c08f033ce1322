//! What differs between two states of a machine.
ghost use Rattle.std.specs.Prelude.{◌≡◌, [], ◌∷◌, ◌++◌, ◌+◌, ◌<◌, true, nat_lt, length, IfOk, OnOk};
ghost use Rattle.hek_machine.specs.Judgements.{IsShown};
ghost use Rattle.hek_machine.specs.Observed.{key_in, value_in};
ghost use Rattle.hek_why.specs.Same.{same_begin, same_end, same_numbers};
ghost use Rattle.hek_why.specs.Changes.{unless, field, each_below, version_changes, txn_changes, bucket_changes, AreChanges, Adds};
ghost use Rattle.hek_why.specs.Leads.{LeadOn};

use crate::change::Change;
use crate::items::Items;
use crate::txn_difference::add_txn;
use hek_machine::Machine;
use hek_rules::{NoMemory, TxnId, VersionId};
use hek_word::{BeginWord, EndWord};
use std::alloc::Global;

/// What differs between two states of a machine: the clock, the versions, the transactions and the buckets, each in the
/// order of numbers. Of a version that only `after` has, all of it is one change. Nothing is said of a version that
/// only `before` has, or of a transaction or bucket that only one of the two has: none of these occur if both are
/// states of one run, `after` being the later. There the changes, done one after another, lead from all that `before`
/// shows to all that `after` shows.
pub fn changes(alloc: Global, before: &Machine, after: &Machine) -> Result<Vec<Change>, NoMemory>
    ensures differ { IfOk result (λ list. AreChanges before.now after.now list.items) }
    ensures lead { IfOk result (λ list. LeadOn before.now after.now list.items) }
{
    differences(alloc, before, after)
}

fn differences(alloc: Global, before: &Machine, after: &Machine) -> Result<Vec<Change>, NoMemory>
    ensures { IfOk result (λ list. AreChanges before.now after.now list.items) }
{
    let mut list = Vec::new(alloc);
    let (old, new) = (before.clock(), after.clock());
    add_unless(old == new, Change::Clock(old, new), &mut list)?;
    add_versions(before, after, &mut list)?;
    add_txns(before, after, &mut list)?;
    add_buckets(before, after, &mut list)?;
    Ok(list)
}

/// Appends a change, unless both values are the same.
pub(crate) fn add_unless(same: bool, change: Change, list: &mut Vec<Change>) -> Result<(), NoMemory>
    ensures { OnOk result (list.new.items ≡ list.old.items ++ unless same change) }
{
    if !same {
        list.push(change)?;
    }
    Ok(())
}

fn add_versions(before: &Machine, after: &Machine, list: &mut Vec<Change>) -> Result<(), NoMemory>
    ensures { OnOk result (Adds before.now after.now (λ w x. each_below (version_changes w x) (length x.versions)) list.old.items list.new.items) }
{
    for index in 0..after.versions() {
        let v = VersionId::new(index as u64);
        add_version(before, after, v, list)?;
    }
    Ok(())
}

/// Appends the words of a version that differ, or the whole version if it is new.
fn add_version(
    before: &Machine,
    after: &Machine,
    v: VersionId,
    list: &mut Vec<Change>,
) -> Result<(), NoMemory>
    requires { IsShown after.now (λ x. nat_lt v (length x.versions)) true }
    ensures { OnOk result (Adds before.now after.now (λ w x. version_changes w x v) list.old.items list.new.items) }
{
    let (Some(begin), Some(end)) = (after.begin_word(v), after.end_word(v)) else {
        return Ok(());
    };
    match (before.begin_word(v), before.end_word(v)) {
        (Some(old_begin), Some(old_end)) => {
            add_words(v, (old_begin, begin), (old_end, end), list)
        }
        _ => add_new_version(after, v, begin, end, list),
    }
}

/// Appends the words of a version, each before and after, that differ.
fn add_words(
    version: VersionId,
    begins: (BeginWord, BeginWord),
    ends: (EndWord, EndWord),
    list: &mut Vec<Change>,
) -> Result<(), NoMemory>
    ensures { OnOk result (list.new.items ≡ list.old.items ++ field same_begin (λ a b. Change.Begin version a b) begins.0 begins.1 ++ field same_end (λ a b. Change.End version a b) ends.0 ends.1) }
{
    let (before, after) = begins;
    let change = Change::Begin {
        version,
        before,
        after,
    };
    add_unless(before == after, change, list)?;
    let (before, after) = ends;
    let change = Change::End {
        version,
        before,
        after,
    };
    add_unless(before == after, change, list)
}

fn add_new_version(
    after: &Machine,
    version: VersionId,
    begin: BeginWord,
    end: EndWord,
    list: &mut Vec<Change>,
) -> Result<(), NoMemory>
    requires { IsShown after.now (λ x. nat_lt version (length x.versions)) true }
    ensures { OnOk result (IsShown after.now (λ x. list.old.items ++ Change.NewVersion version (key_in x version) (value_in x version) begin end ∷ []) list.new.items) }
{
    let (Some(key), Some(value)) = (after.key_of(version), after.value_of(version)) else {
        return Ok(());
    };
    list.push(Change::NewVersion {
        version,
        key,
        value,
        begin,
        end,
    })?;
    Ok(())
}

fn add_txns(before: &Machine, after: &Machine, list: &mut Vec<Change>) -> Result<(), NoMemory>
    ensures { OnOk result (Adds before.now after.now (λ w x. each_below (λ i. txn_changes w x (i + 1)) (length x.txns)) list.old.items list.new.items) }
{
    for place in 0..after.txns() {
        let t = TxnId::new(place + 1);
        add_txn(before, after, t, list)?;
    }
    Ok(())
}

fn add_buckets(before: &Machine, after: &Machine, list: &mut Vec<Change>) -> Result<(), NoMemory>
    ensures { OnOk result (Adds before.now after.now (λ w x. each_below (bucket_changes w x) x.buckets) list.old.items list.new.items) }
{
    for bucket in 0..after.buckets() {
        add_bucket(before, after, bucket, list)?;
    }
    Ok(())
}

/// Appends LockCount and LockList of a bucket, where they differ.
fn add_bucket(
    before: &Machine,
    after: &Machine,
    bucket: u64,
    list: &mut Vec<Change>,
) -> Result<(), NoMemory>
    requires { bucket < length after.now.buckets }
    ensures { OnOk result (Adds before.now after.now (λ w x. bucket_changes w x bucket) list.old.items list.new.items) }
{
    if bucket >= before.buckets() {
        return Ok(());
    }
    let (old, new) = (before.lock_count(bucket), after.lock_count(bucket));
    let change = Change::LockCount {
        bucket,
        before: old,
        after: new,
    };
    add_unless(old == new, change, list)?;
    add_lock_list(
        bucket,
        before.lock_list(bucket)?,
        after.lock_list(bucket)?,
        list,
    )
}

fn add_lock_list(
    bucket: u64,
    old: Vec<TxnId>,
    new: Vec<TxnId>,
    list: &mut Vec<Change>,
) -> Result<(), NoMemory>
    ensures { OnOk result (list.new.items ≡ list.old.items ++ field same_numbers (λ a b. Change.LockList bucket a b) old.items new.items) }
{
    let same = old.as_slice() == new.as_slice();
    let change = Change::LockList {
        bucket,
        before: Items::new(old),
        after: Items::new(new),
    };
    add_unless(same, change, list)
}
