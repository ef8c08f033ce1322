//! A transaction as levels see it.
ghost use Rattle.std.specs.Prelude.{◌≡◌, ◌+◌, ◌<◌, ◌&&◌, ℕ, Some, slice_get, length, IfOk, OnOk};
ghost use Rattle.hek_history_levels.specs.Steps.{is_lenient as lenient_there, IsSeen};
ghost use Rattle.hek_history_levels.specs.Taking.{IsTaken};

use crate::answers::left;
use crate::fitting::is_fitting;
use crate::own::{Own, note};
use crate::reads::take_reads;
use hek_history::{Level, Operation, Transaction, change_of, key_of};
use hek_levels::{Change, Read, Scan, Turn};
use hek_rules::NoMemory;
use std::alloc::Global;
use std::collections::HashMap;

/// What is known of the operations so far.
#[derive(Drop)]
pub(crate) struct Taken {
    pub fits: bool,
    pub reads: Vec<Read>,
    pub scans: Vec<Scan>,
    pub own: Own,
}

/// Whether no answer of absence is judged.
fn is_lenient(level: Level) -> bool
    ensures { result ≡ lenient_there level }
{
    match level {
        Level::Repeatable => true,
        Level::Serializable | Level::Snapshot => false,
    }
}

fn both(first: bool, second: bool) -> bool
    ensures { result ≡ (first && second) }
{
    first && second
}

/// An operation more.
fn take(
    alloc: Global,
    lenient: bool,
    operations: &[Operation],
    n: usize,
    taken: &mut Taken,
) -> Result<(), NoMemory>
    requires within { n < length operations.now }
    requires taken { IsTaken lenient operations.now n taken.old }
    ensures { OnOk result (IsTaken lenient operations.now (n + 1) taken.new) }
{
    let operation = &operations[n];
    let fits = is_fitting(lenient, &taken.own, operation);
    taken.fits = both(taken.fits, fits);
    take_reads(
        alloc,
        lenient,
        &taken.own,
        n,
        operation,
        &mut taken.reads,
        &mut taken.scans,
    )?;
    match left(change_of(operation)) {
        Some(value) => {
            let key = key_of(operation);
            note(&mut taken.own, Change { key, value })
        }
        None => Ok(()),
    }
}

/// What is known of all operations.
fn taken_of(alloc: Global, lenient: bool, operations: &[Operation]) -> Result<Taken, NoMemory>
    ensures { IfOk result (λ taken. IsTaken lenient operations.now (length operations.now) taken) }
{
    let mut taken = Taken {
        fits: true,
        reads: Vec::new(alloc),
        scans: Vec::new(alloc),
        own: Own {
            writes: Vec::new(alloc),
            places: HashMap::new(alloc),
            passing: Vec::new(alloc),
        },
    };
    for n in 0..operations.len() {
        take(alloc, lenient, operations, n, &mut taken)?;
    }
    Ok(taken)
}

/// A transaction as levels see it. Its lists have no more room than they need: a log has many.
pub(crate) fn seen(
    alloc: Global,
    turns: &[Turn],
    transaction: &Transaction,
) -> Result<hek_levels::Transaction, NoMemory>
    ensures { IfOk result (λ found. IsSeen turns.now transaction.now found) }
{
    let lenient = is_lenient(transaction.level);
    let taken = taken_of(alloc, lenient, transaction.operations.as_slice())?;
    let reads = Vec::from_slice(alloc, taken.reads.as_slice())?;
    let own = taken.own;
    let writes = Vec::from_slice(alloc, own.writes.as_slice())?;
    Ok(hek_levels::Transaction {
        status: transaction.status,
        fits: taken.fits,
        turns: Vec::from_slice(alloc, turns)?,
        reads,
        scans: taken.scans,
        writes,
        passing: own.passing,
    })
}
