//! Why a move came out as it did.
use crate::after::After;
use crate::kind::add_holders;
use crate::moves::{Holder, Kind, Moves};
use crate::say::key_of;
use crate::sentence::{Sentence, joint};
use hek_machine::Machine;
use hek_report::Hole;
use hek_rules::{Cause, Event, NoMemory, Reply, TxnId};
use hek_why::{Met, Reason, Step, wait_reasons};
use std::alloc::Global;

/// Says why a step's move came out as it did, by its reasons and the moves before it.
pub(crate) fn say_why(
    alloc: Global,
    step: &Step<'_>,
    kind: &Kind,
    reasons: &[Reason],
    moves: &Moves,
    out: &mut Sentence<'_>,
) -> Result<(), NoMemory> {
    match kind {
        Kind::Reads(value, writer) => why_read(step, *value, *writer, moves, out),
        Kind::Writes(_) => return why_write(alloc, step, moves, out),
        Kind::Aborts(Cause::Deadlock) => why_deadlock(step.reply, out),
        Kind::Aborts(cause) => why_abort(*cause, step.event, reasons, out),
        Kind::Refused(refusal) => out.form("It is refused: @", &[Hole::Word(refusal.name())]),
        _ => {}
    }
    Ok(())
}

// ---- reads

fn why_read(
    step: &Step<'_>,
    value: Option<u64>,
    writer: Option<usize>,
    moves: &Moves,
    out: &mut Sentence<'_>,
) {
    let Event::Read(txn, key) = step.event else {
        return;
    };
    if let Some(other) = moves.writer_at(writer) {
        return why_found(txn, other, key, value, moves, out);
    }
    why_committed(txn, key, value, moves, out);
}

/// Why a read finds what a transaction wrote.
fn why_found(
    txn: TxnId,
    other: TxnId,
    key: u64,
    value: Option<u64>,
    moves: &Moves,
    out: &mut Sentence<'_>,
) {
    if other == txn {
        return out.put("It sees its own write");
    }
    if !moves.lanes.of(other).is_over {
        let pattern = "@ wrote it and is about to commit: @ may commit only if @ does";
        return out.form(pattern, &[out.txn(other), out.txn(txn), out.txn(other)]);
    }
    if moves.is_old(key, value) {
        return why_old(key, moves, out);
    }
    out.form("@ wrote it", &[out.txn(other)]);
}

/// Why a read finds what was there from the start, or nothing.
fn why_committed(txn: TxnId, key: u64, value: Option<u64>, moves: &Moves, out: &mut Sentence<'_>) {
    if moves.has_deleted(txn, key) {
        return out.put("It has deleted it itself");
    }
    if moves.is_old(key, value) {
        return why_old(key, moves, out);
    }
    if let Some(other) = moves.pending(key, txn) {
        let key = Hole::Number(key);
        out.form(
            "@ has written @, but hasn't committed: its value isn't seen",
            &[out.txn(other), key],
        );
    }
}

fn why_old(key: u64, moves: &Moves, out: &mut Sentence<'_>) {
    out.form(
        "It looks at the rows as they were when it began; by now @ is ",
        &[Hole::Number(key)],
    );
    match moves.committed_value(key) {
        Some(value) => out.form("@", &[Hole::Number(value)]),
        None => out.put("gone"),
    }
}

impl Moves {
    /// The transaction of the move at a place.
    fn writer_at(&self, place: Option<usize>) -> Option<TxnId> {
        match self.items.get(place?) {
            Some(it) => Some(it.txn),
            None => None,
        }
    }

    /// The committed value of a key.
    fn committed_value(&self, key: u64) -> Option<u64> {
        value_in(&self.latest, key)
    }

    /// Whether a value of a key isn't the committed one.
    fn is_old(&self, key: u64, value: Option<u64>) -> bool {
        self.committed_value(key) != value
    }

    /// Another transaction that has written a key and isn't over.
    fn pending(&self, key: u64, txn: TxnId) -> Option<TxnId> {
        for it in &self.items {
            let is_write = matches!(it.kind, Kind::Writes(_)) && key_of(it.event) == key;
            if is_write && it.txn != txn && !self.lanes.of(it.txn).is_over {
                return Some(it.txn);
            }
        }
        None
    }

    /// Whether a transaction's last write of a key deleted its row.
    fn has_deleted(&self, txn: TxnId, key: u64) -> bool {
        let mut is_deleted = false;
        for it in &self.items {
            let is_write = it.txn == txn && matches!(it.kind, Kind::Writes(_));
            if is_write && key_of(it.event) == key {
                is_deleted = matches!(it.event, Event::Delete(_, _));
            }
        }
        is_deleted
    }

    /// Whether a transaction has written something.
    fn has_written(&self, txn: TxnId) -> bool {
        for it in &self.items {
            if it.txn == txn && matches!(it.kind, Kind::Writes(_)) {
                return true;
            }
        }
        false
    }
}

fn value_in(after: &After, key: u64) -> Option<u64> {
    for (at, value) in after.rows.items() {
        if *at == key {
            return Some(*value);
        }
    }
    None
}

// ---- writes

/// For whom a transaction will have to wait from this write on; of its first write that nobody else sees it.
fn why_write(
    alloc: Global,
    step: &Step<'_>,
    moves: &Moves,
    out: &mut Sentence<'_>,
) -> Result<(), NoMemory> {
    let Some(txn) = step.event.txn() else {
        return Ok(());
    };
    let before = holders_on(alloc, step.before, txn)?;
    let after = holders_on(alloc, step.after, txn)?;
    let added = added_to(alloc, before.as_slice(), after.as_slice())?;
    if !added.is_empty() {
        say_added(txn, added.as_slice(), out);
    } else if !moves.has_written(txn) {
        out.put("Nobody else sees it before the commit");
    }
    Ok(())
}

/// For whom a transaction waits.
fn holders_on(alloc: Global, machine: &Machine, txn: TxnId) -> Result<Vec<Holder>, NoMemory> {
    let mut holders = Vec::new(alloc);
    if machine.is_declared(txn) {
        for reason in wait_reasons(alloc, machine, txn)?.as_slice() {
            add_holders(machine, reason, &mut holders)?;
        }
    }
    Ok(holders)
}

/// The transactions of some holders that others don't have.
fn added_to(alloc: Global, before: &[Holder], after: &[Holder]) -> Result<Vec<TxnId>, NoMemory> {
    let mut added = Vec::new(alloc);
    for holder in after {
        if !has_holder(before, holder.txn) {
            added.push(holder.txn)?;
        }
    }
    Ok(added)
}

fn has_holder(holders: &[Holder], txn: TxnId) -> bool {
    for holder in holders {
        if holder.txn == txn {
            return true;
        }
    }
    false
}

fn say_added(txn: TxnId, added: &[TxnId], out: &mut Sentence<'_>) {
    let is_one = added.len() == 1;
    out.put_txns(added);
    let (have, them) = if is_one {
        ("has", "it")
    } else {
        ("have", "them")
    };
    let pattern = " @ looked there: @ will have to wait for @ before it commits";
    out.form(pattern, &[Hole::Word(have), out.txn(txn), Hole::Word(them)]);
}

// ---- aborts

fn why_abort(cause: Cause, event: Event, reasons: &[Reason], out: &mut Sentence<'_>) {
    let key = key_of(event);
    match (cause, met_in(reasons)) {
        (Cause::Conflict, Some(other)) => {
            let pattern = "@ has written @ already, and isn't over: the first writer wins";
            out.form(pattern, &[out.txn(other), Hole::Number(key)]);
        }
        (Cause::Conflict, None) => {
            let pattern = "Somebody has written @ since it began: the first to commit wins";
            out.form(pattern, &[Hole::Number(key)]);
        }
        (Cause::NoMoreReads, Some(other)) => {
            let pattern = "@ overwrites @ and is about to commit: it takes no more readers";
            out.form(pattern, &[out.txn(other), Hole::Number(key)]);
        }
        (Cause::NoMoreWaits, Some(other)) => {
            let pattern = "@ has finished and waits for nobody new; this would have made it wait";
            out.form(pattern, &[out.txn(other)]);
        }
        (Cause::NoMoreReads, None) => out.put("It takes no more readers"),
        (Cause::NoMoreWaits, None) => out.put("Somebody has finished and waits for nobody new"),
        (Cause::ReadersFull, _) => {
            out.form(
                "@ has as many readers as can be counted",
                &[Hole::Number(key)],
            );
        }
        (Cause::Cascade, _) => why_cascade(reasons, out),
        (Cause::Asked, _) => out.put("It asked for it itself"),
        (Cause::Deadlock, _) => out.put("It is the victim of a deadlock"),
    }
}

/// The transaction that was met at the version where a read or a write was stopped.
fn met_in(reasons: &[Reason]) -> Option<TxnId> {
    for reason in reasons {
        if let Reason::Stopped {
            met: Met::Writer(other) | Met::Creator(other),
            ..
        } = reason
        {
            return Some(*other);
        }
    }
    None
}

fn why_cascade(reasons: &[Reason], out: &mut Sentence<'_>) {
    for reason in reasons {
        if let Reason::DoomedBy(other) = reason {
            let pattern = "It had seen what @ wrote, and @ has aborted";
            return out.form(pattern, &[out.txn(*other), out.txn(*other)]);
        }
    }
    out.put("It had seen what another wrote, and that has aborted");
}

fn why_deadlock(reply: &Reply, out: &mut Sentence<'_>) {
    let Reply::Victim(victim, cycle) = reply else {
        return out.put("It is the victim of a deadlock");
    };
    let members = cycle.items();
    out.put("Deadlock: ");
    for (place, txn) in members.iter().enumerate() {
        out.put(joint(place, members.len()));
        let next = if place + 1 < members.len() {
            members[place + 1]
        } else {
            *victim
        };
        out.form("@ waits for @", &[out.txn(*txn), out.txn(next)]);
    }
    out.form(". One of them has to go, and it is @", &[out.txn(*victim)]);
}
