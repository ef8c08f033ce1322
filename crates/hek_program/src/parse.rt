//! The tokens of a line read as terms and conditions.
use crate::condition::{Comparison, Condition, Relation};
use crate::fault::{ProgramFault, Wanted};
use crate::term::{Amount, Factor, Product};
use crate::token::{Kind, Line};
use hek_rules::{Event, Schedule, TxnId};
use std::alloc::Global;

/// Who computes: a transaction at the step with this number, or an invariant at the end of an order.
#[derive(Clone, Copy)]
pub(crate) enum Scope {
    Step(TxnId, usize),
    End,
}

/// Whether an event of a transaction can show it a key.
fn shows(event: Event, txn: TxnId, key: u64, bucket: u64) -> bool {
    match event {
        Event::Read(t, k) | Event::Insert(t, k, _) | Event::Update(t, k, _) | Event::Delete(t, k) =>
            t == txn && k == key,
        Event::Scan(t, b) => t == txn && b == bucket,
        _ => false,
    }
}

/// Whether one of the first steps of a transaction can show it a key.
fn is_seen(schedule: &Schedule, txn: TxnId, before: usize, key: u64) -> bool {
    let bucket = match key.checked_rem(schedule.buckets()) {
        Some(bucket) => bucket,
        None => 0,
    };
    for (place, event) in schedule.steps().iter().enumerate() {
        if place < before && shows(*event, txn, key, bucket) {
            return true;
        }
    }
    false
}

/// Whether a step inserts a key.
fn is_inserted(steps: &[Event], key: u64) -> bool {
    for event in steps {
        if let Event::Insert(_, other, _) = *event {
            if other == key {
                return true;
            }
        }
    }
    false
}

/// The value that a key stands for, if there can be one.
fn key_factor(
    line: &Line<'_>,
    at: usize,
    schedule: &Schedule,
    scope: &Scope,
    key: u64,
) -> Result<Factor, ProgramFault> {
    match scope {
        Scope::Step(txn, before) => {
            if is_seen(schedule, *txn, *before, key) {
                Ok(Factor::Key(key))
            } else {
                Err(line.wants(at, Wanted::SeenKey))
            }
        }
        Scope::End => {
            if schedule.has_key(key) || is_inserted(schedule.steps(), key) {
                Ok(Factor::Key(key))
            } else {
                Err(line.wants(at, Wanted::RowKey))
            }
        }
    }
}

/// The value that a name stands for, at the end.
fn name_factor(
    line: &Line<'_>,
    at: usize,
    scope: &Scope,
    number: u64,
) -> Result<Factor, ProgramFault> {
    match scope {
        Scope::Step(_, _) => Err(line.wants(at, Wanted::Term)),
        Scope::End => Ok(Factor::Name(TxnId::new(number))),
    }
}

fn factor(
    line: &Line<'_>,
    at: usize,
    schedule: &Schedule,
    scope: &Scope,
) -> Result<Factor, ProgramFault> {
    match line.kind(at) {
        Some(Kind::Number(value)) => Ok(Factor::Number(value)),
        Some(Kind::Key(key)) => key_factor(line, at, schedule, scope, key),
        Some(Kind::Name(number)) => name_factor(line, at, scope, number),
        _ => Err(line.wants(at, Wanted::Term)),
    }
}

/// A product, and the place behind it.
fn product(
    alloc: Global,
    line: &Line<'_>,
    at: usize,
    schedule: &Schedule,
    scope: &Scope,
    minus: bool,
) -> Result<(Product, usize), ProgramFault> {
    let mut factors = Vec::new(alloc);
    let mut next = at;
    for _ in 0..line.tokens.len() {
        factors.push(factor(line, next, schedule, scope)?)?;
        next = next.saturating_add(1);
        if !line.is(next, Kind::Times) {
            return Ok((Product::new(minus, factors), next));
        }
        next = next.saturating_add(1);
    }
    Err(line.wants(next, Wanted::Term))
}

/// A term, and the place behind it.
pub(crate) fn amount(
    alloc: Global,
    line: &Line<'_>,
    at: usize,
    schedule: &Schedule,
    scope: &Scope,
) -> Result<(Amount, usize), ProgramFault> {
    let mut products = Vec::new(alloc);
    let mut next = at;
    let mut minus = false;
    for _ in 0..line.tokens.len() {
        let (one, later) = product(alloc, line, next, schedule, scope, minus)?;
        products.push(one)?;
        minus = line.is(later, Kind::Minus);
        if !minus && !line.is(later, Kind::Plus) {
            return Ok((Amount::new(products), later));
        }
        next = later.saturating_add(1);
    }
    Err(line.wants(next, Wanted::Term))
}

fn relation(line: &Line<'_>, at: usize) -> Result<Relation, ProgramFault> {
    match line.kind(at) {
        Some(Kind::Relation(relation)) => Ok(relation),
        _ => Err(line.wants(at, Wanted::Relation)),
    }
}

/// A comparison, and the place behind it.
fn comparison(
    alloc: Global,
    line: &Line<'_>,
    at: usize,
    schedule: &Schedule,
    scope: &Scope,
) -> Result<(Comparison, usize), ProgramFault> {
    let (left, middle) = amount(alloc, line, at, schedule, scope)?;
    let relation = relation(line, middle)?;
    let (right, next) = amount(alloc, line, middle.saturating_add(1), schedule, scope)?;
    Ok((
        Comparison {
            left,
            relation,
            right,
        },
        next,
    ))
}

/// The condition that goes to the end of the line.
pub(crate) fn condition(
    alloc: Global,
    line: &Line<'_>,
    at: usize,
    schedule: &Schedule,
    scope: &Scope,
) -> Result<Condition, ProgramFault> {
    let mut comparisons = Vec::new(alloc);
    let mut next = at;
    for _ in 0..line.tokens.len() {
        let (one, later) = comparison(alloc, line, next, schedule, scope)?;
        comparisons.push(one)?;
        if later >= line.tokens.len() {
            return Ok(Condition::new(comparisons));
        }
        if !line.is(later, Kind::And) {
            return Err(line.wants(later, Wanted::AndOrEnd));
        }
        next = later.saturating_add(1);
    }
    Err(line.wants(next, Wanted::Term))
}
