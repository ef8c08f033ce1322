//! Whether transactions can follow one another, as text and as JSON.
use crate::before::{Before, Side};
use crate::cycle::put_befores;
use crate::together::Together;
use hek_anomalies::Anomaly;
use hek_report::{Hole, Lines, Text};
use hek_rules::{Schedule, TxnId};
use hek_serial::Serializability;

/// The words of a verdict.
pub fn verdict_word(verdict: Serializability) -> &'static str {
    match verdict {
        Serializability::ByEndTime => "serializable",
        Serializability::InAnotherOrder => "serializable in another order",
        Serializability::NotSerial => "not serializable",
    }
}

/// Puts the member `verdict` alone.
pub fn put_verdict(verdict: Serializability, out: &mut Lines) {
    out.put_text("verdict", verdict_word(verdict));
}

/// The exact verdict, where the search has one.
fn verdict_of(together: &Together) -> Option<Serializability> {
    match together {
        Together::ByEndTime => Some(Serializability::ByEndTime),
        Together::InAnotherOrder(_) => Some(Serializability::InAnotherOrder),
        Together::NotSerial(_, _) => Some(Serializability::NotSerial),
        Together::Unknown => None,
    }
}

/// Puts the member `verdict` alone.
pub fn put_short(together: &Together, out: &mut Lines) {
    match verdict_of(together) {
        Some(verdict) => put_verdict(verdict, out),
        None => out.put_text("verdict", "unknown"),
    }
}

/// Adds the verdict without the order and the cycle.
pub fn put_word(together: &Together, text: &mut Text<'_>) {
    text.put(match verdict_of(together) {
        Some(verdict) => verdict_word(verdict),
        None => "not serializable by end time; whether in another order is unknown",
    });
}

/// Adds the verdict on one line: `serializable`, `serializable in another order: b a`, or
/// `not serializable: a before b, b before a`.
pub fn put_phrase(schedule: &Schedule, together: &Together, text: &mut Text<'_>) {
    put_word(together, text);
    put_after(schedule, together, [": ", ": "], text);
}

/// Adds what is said beside a verdict: `; order b a`, or `; cycle a before b, b before a`; nothing for a verdict with
/// neither.
pub fn put_details(schedule: &Schedule, together: &Together, text: &mut Text<'_>) {
    put_after(schedule, together, ["; order ", "; cycle "], text);
}

/// Adds the order after the first of these words, or who comes before whom after the second.
fn put_after(schedule: &Schedule, together: &Together, words: [&str; 2], text: &mut Text<'_>) {
    let [before_order, before_cycle] = words;
    match together {
        Together::ByEndTime | Together::Unknown => {}
        Together::InAnotherOrder(order) => {
            text.put(before_order);
            put_order(schedule, order.as_slice(), text);
        }
        Together::NotSerial(anomaly, befores) => {
            text.put(before_cycle);
            put_edges(schedule, *anomaly, befores.as_slice(), text);
        }
    }
}

/// Names, with one space between them.
fn put_order(schedule: &Schedule, order: &[TxnId], text: &mut Text<'_>) {
    for (place, txn) in order.iter().enumerate() {
        let pattern = if place == 0 { "@" } else { " @" };
        text.form(pattern, &[Hole::txn(schedule, *txn)]);
    }
}

/// `a before b, b before a`; the anomaly's name where it is no cycle of several.
fn put_edges(schedule: &Schedule, anomaly: Anomaly, befores: &[Before], text: &mut Text<'_>) {
    if befores.len() < 2 {
        return text.put(anomaly.name());
    }
    for (place, before) in befores.iter().enumerate() {
        let pattern = if place == 0 {
            "@ before @"
        } else {
            ", @ before @"
        };
        let first = name_of(schedule, before.first);
        text.form(pattern, &[first, name_of(schedule, before.second)]);
    }
}

/// The name of a transaction, or `the opening`.
fn name_of<'a>(schedule: &'a Schedule, side: Side) -> Hole<'a> {
    match side {
        Side::Opening => Hole::Word("the opening"),
        Side::Txn(txn) => Hole::txn(schedule, txn),
    }
}

/// Puts the member `verdict`, and with it `order`, or `anomaly` and `cycle`, where there is one.
pub fn put_members(schedule: &Schedule, together: &Together, out: &mut Lines) {
    put_short(together, out);
    match together {
        Together::InAnotherOrder(order) => out.put_names("order", schedule, order.as_slice()),
        Together::NotSerial(anomaly, befores) => {
            out.put_text("anomaly", anomaly.name());
            put_befores(schedule, befores.as_slice(), out);
        }
        Together::ByEndTime | Together::Unknown => {}
    }
}
