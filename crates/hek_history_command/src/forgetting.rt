//! Going on after an anomaly: the answers on which it rests are forgotten.
use crate::numbers::Numbers;
use hek_anomalies::{Answer, Cause};
use hek_history::{Level, Operation, Scope, Transaction, covers, key_of};
use hek_history_log::Log;
use hek_ladder::Scene;
use hek_levels::Writer;
use hek_levels_search::part;
use hek_rules::NoMemory;
use std::alloc::Global;
use std::mem;

/// Adds, for operations that were added, that they are a part of the one at a place.
fn add_places(
    places: &mut Vec<usize>,
    operations: &[Operation],
    place: usize,
) -> Result<(), NoMemory> {
    for _ in places.len()..operations.len() {
        places.push(place)?;
    }
    Ok(())
}

/// Forgets what a transaction was answered: it becomes serializable, without times, and only writes. A history that has an
/// explanation has one after this too. Answers of which operation each is a part that is left.
fn forget_answers(alloc: Global, transaction: &mut Transaction) -> Result<Vec<usize>, NoMemory> {
    let mut operations = Vec::new(alloc);
    let mut places = Vec::new(alloc);
    for (place, operation) in transaction.operations.iter().enumerate() {
        add_write(&mut operations, operation)?;
        add_places(&mut places, operations.as_slice(), place)?;
    }
    let _old = mem::replace(&mut transaction.operations, operations);
    transaction.level = Level::Serializable;
    transaction.begin = None;
    transaction.end = None;
    transaction.invoked = None;
    transaction.answered = None;
    Ok(places)
}

/// Adds what an operation does, without its answer. A delete is a write and a delete of what that wrote.
fn add_write(operations: &mut Vec<Operation>, operation: &Operation) -> Result<(), NoMemory> {
    match *operation {
        Operation::Put(key, value)
        | Operation::Insert(key, value, true)
        | Operation::Update(key, value, true) => operations.push(Operation::Put(key, value))?,
        Operation::Delete(key, true) => {
            operations.push(Operation::Put(key, 0))?;
            operations.push(Operation::Delete(key, true))?;
        }
        _ => {}
    }
    Ok(())
}

/// Forgets what a transaction was answered at a key. Its writes stay, and its answers at other keys; of a scan of a bucket those at the
/// other keys that it listed. Answers of which operation each is a part that is left.
fn forget_answer(
    alloc: Global,
    transaction: &mut Transaction,
    key: u64,
) -> Result<Vec<usize>, NoMemory> {
    let mut operations = Vec::new(alloc);
    let mut places = Vec::new(alloc);
    for (place, operation) in transaction.operations.iter().enumerate() {
        add_other(alloc, &mut operations, operation, key)?;
        add_places(&mut places, operations.as_slice(), place)?;
    }
    let _old = mem::replace(&mut transaction.operations, operations);
    Ok(places)
}

/// Adds an operation without its answer at a key.
fn add_other(
    alloc: Global,
    operations: &mut Vec<Operation>,
    operation: &Operation,
    key: u64,
) -> Result<(), NoMemory> {
    if let Operation::Scan(scope, pairs) = operation {
        if covers(*scope, key) {
            return add_parts(alloc, operations, *scope, pairs.as_slice(), key);
        }
        return add_scan(alloc, operations, *scope, pairs.as_slice());
    }
    if key_of(operation) == key {
        return add_write(operations, operation);
    }
    add_same(operations, operation)
}

/// Adds an operation that is no scan as it is.
fn add_same(operations: &mut Vec<Operation>, operation: &Operation) -> Result<(), NoMemory> {
    match *operation {
        Operation::Read(key, found) => operations.push(Operation::Read(key, found))?,
        Operation::Put(key, value) => operations.push(Operation::Put(key, value))?,
        Operation::Insert(key, value, done) => {
            operations.push(Operation::Insert(key, value, done))?;
        }
        Operation::Update(key, value, done) => {
            operations.push(Operation::Update(key, value, done))?;
        }
        Operation::Delete(key, done) => operations.push(Operation::Delete(key, done))?,
        Operation::Scan(_, _) => {}
    }
    Ok(())
}

/// Adds a scan that found these pairs.
fn add_scan(
    alloc: Global,
    operations: &mut Vec<Operation>,
    scope: Scope,
    pairs: &[(u64, u64)],
) -> Result<(), NoMemory> {
    let mut found = Vec::new(alloc);
    found.extend_from_slice(pairs)?;
    operations.push(Operation::Scan(scope, found))?;
    Ok(())
}

/// Adds what a scan found beside a key: the ranges before it and after it, or reads of what a bucket has.
fn add_parts(
    alloc: Global,
    operations: &mut Vec<Operation>,
    scope: Scope,
    pairs: &[(u64, u64)],
    key: u64,
) -> Result<(), NoMemory> {
    match scope {
        Scope::Range(from, to) => {
            let before = pairs.partition_point(|pair| pair.0 < key);
            let after = pairs.partition_point(|pair| pair.0 <= key);
            let low = part(pairs, 0, before);
            let high = part(pairs, after, pairs.len());
            let above = Scope::Range(key.saturating_add(1), to);
            add_scan(alloc, operations, Scope::Range(from, key), low)?;
            add_scan(alloc, operations, above, high)
        }
        Scope::Bucket(_, _) => {
            for pair in pairs {
                if pair.0 != key {
                    operations.push(Operation::Read(pair.0, Some(pair.1)))?;
                }
            }
            Ok(())
        }
    }
}

/// Forgets the answers on which an anomaly rests; where it rests on none, the times, versions and session of a transaction of its cycle.
pub(crate) fn forget_cause(
    scene: &mut Scene,
    numbers: &mut Numbers,
    cause: &Cause,
) -> Result<(), NoMemory> {
    for answer in cause.answers.iter() {
        forget_one(scene.alloc, &mut scene.log, numbers, *answer)?;
    }
    if cause.answers.is_empty() {
        for edge in cause.cycle.iter() {
            if let Writer::Transaction(place) = edge.first {
                scene.log.forget_turns(place);
                return Ok(());
            }
        }
    }
    Ok(())
}

/// Forgets an answer.
fn forget_one(
    alloc: Global,
    log: &mut Log,
    numbers: &mut Numbers,
    answer: Answer,
) -> Result<(), NoMemory> {
    let t = answer.transaction;
    let Some(transaction) = log.history.transactions.get_mut(t) else {
        return Ok(());
    };
    let mut places = match answer.key {
        Some(key) => forget_answer(alloc, transaction, key)?,
        None => forget_answers(alloc, transaction)?,
    };
    for place in places.iter_mut() {
        *place = numbers.in_log(t, *place);
    }
    numbers.set(t, places)
}
