//! What differs of a transaction between two states of a machine.
ghost use Rattle.std.specs.Prelude.{◌≡◌, ◌++◌, OnOk};
ghost use Rattle.hek_txn.specs.TxnTable.{Declared};
ghost use Rattle.hek_why.specs.Same.{same_numbers, same_entries};
ghost use Rattle.hek_why.specs.Changes.{unless, field, state_changes, time_changes, counter_changes, flag_changes, set_changes, follower_changes, txn_changes, Adds};

use crate::change::{Change, TxnChange};
use crate::difference::add_unless;
use crate::items::Items;
use hek_machine::Machine;
use hek_rules::{NoMemory, TxnId, VersionId, WriteEntry};

/// Appends the fields of a transaction that differ. Nothing is appended of a transaction that one of the two states
/// doesn't declare.
pub(crate) fn add_txn(
    before: &Machine,
    after: &Machine,
    t: TxnId,
    list: &mut Vec<Change>,
) -> Result<(), NoMemory>
    ensures { OnOk result (Adds before.now after.now (λ w x. txn_changes w x t) list.old.items list.new.items) }
{
    if !before.is_declared(t) || !after.is_declared(t) {
        return Ok(());
    }
    add_state(before, after, t, list)?;
    add_times(before, after, t, list)?;
    add_counters(before, after, t, list)?;
    add_flags(before, after, t, list)?;
    add_sets(before, after, t, list)?;
    add_followers(before, after, t, list)
}

/// Appends a field of a transaction, unless both values are the same.
fn add_field(
    same: bool,
    txn: TxnId,
    change: TxnChange,
    list: &mut Vec<Change>,
) -> Result<(), NoMemory>
    ensures { OnOk result (list.new.items ≡ list.old.items ++ unless same (Change.Txn txn change)) }
{
    add_unless(same, Change::Txn { txn, change }, list)
}

fn add_state(
    before: &Machine,
    after: &Machine,
    t: TxnId,
    list: &mut Vec<Change>,
) -> Result<(), NoMemory>
    requires before { Declared before.now.txns t }
    requires after { Declared after.now.txns t }
    ensures { OnOk result (Adds before.now after.now (λ w x. state_changes w x t) list.old.items list.new.items) }
{
    let (old, new) = (before.state(t), after.state(t));
    add_field(old == new, t, TxnChange::State(old, new), list)
}

/// The times that the transaction drew.
fn add_times(
    before: &Machine,
    after: &Machine,
    t: TxnId,
    list: &mut Vec<Change>,
) -> Result<(), NoMemory>
    requires before { Declared before.now.txns t }
    requires after { Declared after.now.txns t }
    ensures { OnOk result (Adds before.now after.now (λ w x. time_changes w x t) list.old.items list.new.items) }
{
    let (old, new) = (before.begin_time(t), after.begin_time(t));
    add_field(old == new, t, TxnChange::BeginTime(old, new), list)?;
    let (old, new) = (before.end_time(t), after.end_time(t));
    add_field(old == new, t, TxnChange::EndTime(old, new), list)
}

/// On how many things the transaction waits, and on how many others its commit depends.
fn add_counters(
    before: &Machine,
    after: &Machine,
    t: TxnId,
    list: &mut Vec<Change>,
) -> Result<(), NoMemory>
    requires before { Declared before.now.txns t }
    requires after { Declared after.now.txns t }
    ensures { OnOk result (Adds before.now after.now (λ w x. counter_changes w x t) list.old.items list.new.items) }
{
    let (old, new) = (before.waits(t), after.waits(t));
    add_field(old == new, t, TxnChange::Waits(old, new), list)?;
    let (old, new) = (before.commit_deps(t), after.commit_deps(t));
    add_field(old == new, t, TxnChange::CommitDeps(old, new), list)
}

fn add_flags(
    before: &Machine,
    after: &Machine,
    t: TxnId,
    list: &mut Vec<Change>,
) -> Result<(), NoMemory>
    requires before { Declared before.now.txns t }
    requires after { Declared after.now.txns t }
    ensures { OnOk result (Adds before.now after.now (λ w x. flag_changes w x t) list.old.items list.new.items) }
{
    let (old, new) = (before.no_more_waits(t), after.no_more_waits(t));
    add_field(old == new, t, TxnChange::NoMoreWaits(old, new), list)?;
    let (old, new) = (before.abort_now(t), after.abort_now(t));
    add_field(old == new, t, TxnChange::AbortNow(old, new), list)
}

/// What the transaction read-locks, wrote and locks.
fn add_sets(
    before: &Machine,
    after: &Machine,
    t: TxnId,
    list: &mut Vec<Change>,
) -> Result<(), NoMemory>
    requires before { Declared before.now.txns t }
    requires after { Declared after.now.txns t }
    ensures { OnOk result (Adds before.now after.now (λ w x. set_changes w x t) list.old.items list.new.items) }
{
    add_reads(t, before.read_list(t)?, after.read_list(t)?, list)?;
    add_writes(t, before.write_list(t)?, after.write_list(t)?, list)?;
    add_bucket_set(t, before.bucket_list(t)?, after.bucket_list(t)?, list)
}

/// Which transactions wait for this one, and which depend on it.
fn add_followers(
    before: &Machine,
    after: &Machine,
    t: TxnId,
    list: &mut Vec<Change>,
) -> Result<(), NoMemory>
    requires before { Declared before.now.txns t }
    requires after { Declared after.now.txns t }
    ensures { OnOk result (Adds before.now after.now (λ w x. follower_changes w x t) list.old.items list.new.items) }
{
    add_waiting(t, before.waiting_list(t)?, after.waiting_list(t)?, list)?;
    add_dependents(t, before.dependents(t)?, after.dependents(t)?, list)
}

fn add_reads(
    t: TxnId,
    old: Vec<VersionId>,
    new: Vec<VersionId>,
    list: &mut Vec<Change>,
) -> Result<(), NoMemory>
    ensures { OnOk result (list.new.items ≡ list.old.items ++ field same_numbers (λ a b. Change.Txn t (TxnChange.Reads a b)) old.items new.items) }
{
    let same = old.as_slice() == new.as_slice();
    add_field(
        same,
        t,
        TxnChange::Reads(Items::new(old), Items::new(new)),
        list,
    )
}

fn add_writes(
    t: TxnId,
    old: Vec<WriteEntry>,
    new: Vec<WriteEntry>,
    list: &mut Vec<Change>,
) -> Result<(), NoMemory>
    ensures { OnOk result (list.new.items ≡ list.old.items ++ field same_entries (λ a b. Change.Txn t (TxnChange.Writes a b)) old.items new.items) }
{
    let same = old.as_slice() == new.as_slice();
    add_field(
        same,
        t,
        TxnChange::Writes(Items::new(old), Items::new(new)),
        list,
    )
}

fn add_bucket_set(
    t: TxnId,
    old: Vec<u64>,
    new: Vec<u64>,
    list: &mut Vec<Change>,
) -> Result<(), NoMemory>
    ensures { OnOk result (list.new.items ≡ list.old.items ++ field same_numbers (λ a b. Change.Txn t (TxnChange.Buckets a b)) old.items new.items) }
{
    let same = old.as_slice() == new.as_slice();
    add_field(
        same,
        t,
        TxnChange::Buckets(Items::new(old), Items::new(new)),
        list,
    )
}

fn add_waiting(
    t: TxnId,
    old: Vec<TxnId>,
    new: Vec<TxnId>,
    list: &mut Vec<Change>,
) -> Result<(), NoMemory>
    ensures { OnOk result (list.new.items ≡ list.old.items ++ field same_numbers (λ a b. Change.Txn t (TxnChange.Waiting a b)) old.items new.items) }
{
    let same = old.as_slice() == new.as_slice();
    add_field(
        same,
        t,
        TxnChange::Waiting(Items::new(old), Items::new(new)),
        list,
    )
}

fn add_dependents(
    t: TxnId,
    old: Vec<TxnId>,
    new: Vec<TxnId>,
    list: &mut Vec<Change>,
) -> Result<(), NoMemory>
    ensures { OnOk result (list.new.items ≡ list.old.items ++ field same_numbers (λ a b. Change.Txn t (TxnChange.Dependents a b)) old.items new.items) }
{
    let same = old.as_slice() == new.as_slice();
    add_field(
        same,
        t,
        TxnChange::Dependents(Items::new(old), Items::new(new)),
        list,
    )
}
