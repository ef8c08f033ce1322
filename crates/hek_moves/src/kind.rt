//! What kind of move a step makes.
use crate::moves::{Hold, Holder, Kind, Moves};
use hek_machine::Machine;
use hek_rules::{Cause, Event, NoMemory, Reply, Sight, TxnId, VersionId};
use hek_why::{Reason, Step};
use std::alloc::Global;

/// The transaction whose move a step makes, or to whose move it belongs: of a search for a deadlock its victim.
pub(crate) fn mover(step: &Step<'_>) -> Option<TxnId> {
    match (step.event.txn(), step.reply) {
        (Some(txn), _) => Some(txn),
        (None, Reply::Victim(victim, _)) => Some(*victim),
        (None, _) => None,
    }
}

/// The kind of the move that a step makes; None if it belongs to a move before it.
pub(crate) fn kind_of(
    alloc: Global,
    step: &Step<'_>,
    txn: TxnId,
    reasons: &[Reason],
    moves: &Moves,
) -> Result<Option<Kind>, NoMemory> {
    if let Reply::Refused(refusal) = step.reply {
        return Ok(Some(Kind::Refused(*refusal)));
    }
    if moves.lanes.of(txn).is_over {
        return Ok(None);
    }
    match step.reply {
        Reply::Rows(rows) => Ok(Some(Kind::Scans(rows.copy()?))),
        Reply::Waiting(_) | Reply::WaitingCommits(_) => wait_kind(
            alloc,
            step.before,
            txn,
            reasons,
            moves,
        ),
        reply => Ok(plain_kind(step, reply, reasons, moves)),
    }
}

/// A wait, unless the transaction waits already.
fn wait_kind(
    alloc: Global,
    machine: &Machine,
    txn: TxnId,
    reasons: &[Reason],
    moves: &Moves,
) -> Result<Option<Kind>, NoMemory> {
    if moves.lanes.of(txn).wait.is_some() {
        return Ok(None);
    }
    let mut holders = Vec::new(alloc);
    for reason in reasons {
        add_holders(machine, reason, &mut holders)?;
    }
    Ok(Some(Kind::Waits(holders)))
}

/// Adds those for whom a transaction waits by one reason, but for those that are there already.
pub(crate) fn add_holders(
    machine: &Machine,
    reason: &Reason,
    holders: &mut Vec<Holder>,
) -> Result<(), NoMemory> {
    match reason {
        Reason::ReadLocked { version, readers } => {
            let hold = match machine.key_of(*version) {
                Some(key) => Hold::Read(key),
                None => Hold::Looked,
            };
            for reader in readers.as_slice() {
                add_holder(*reader, hold, holders)?;
            }
            Ok(())
        }
        Reason::Listed { holder, bucket: _ } => add_holder(*holder, Hold::Looked, holders),
        Reason::Depends(other) => add_holder(*other, Hold::Uncommitted, holders),
        _ => Ok(()),
    }
}

fn add_holder(txn: TxnId, hold: Hold, holders: &mut Vec<Holder>) -> Result<(), NoMemory> {
    for other in holders.as_slice() {
        if other.txn == txn {
            return Ok(());
        }
    }
    holders.push(Holder { txn, hold })?;
    Ok(())
}

/// The kind of a move whose kind has no list.
fn plain_kind(step: &Step<'_>, reply: &Reply, reasons: &[Reason], moves: &Moves) -> Option<Kind> {
    match reply {
        Reply::Began(_) => Some(Kind::Begins),
        Reply::Found(value) => Some(Kind::Reads(
            Some(*value),
            writer_of(step.event, *value, reasons, moves),
        )),
        Reply::Absent => Some(absent_kind(step.event)),
        Reply::Done => Some(Kind::Writes(made_by(step))),
        Reply::Exists => Some(Kind::Misses),
        Reply::Precommitted(time) => Some(Kind::Precommits(*time)),
        Reply::Committed => Some(Kind::Commits),
        Reply::Aborted(cause) => Some(Kind::Aborts(*cause)),
        Reply::Failed => Some(Kind::Aborts(Cause::Asked)),
        Reply::Victim(_, _) => Some(Kind::Aborts(Cause::Deadlock)),
        _ => None,
    }
}

/// A read that found nothing, or a write of a row that isn't there.
fn absent_kind(event: Event) -> Kind {
    match event {
        Event::Read(_, _) => Kind::Reads(None, None),
        _ => Kind::Misses,
    }
}

/// The move that wrote what a read found: that of the last version that it saw.
fn writer_of(event: Event, value: u64, reasons: &[Reason], moves: &Moves) -> Option<usize> {
    let Event::Read(_, key) = event else {
        return None;
    };
    moves.writer_of(last_seen(reasons)?, key, value)
}

/// The last version that was seen.
fn last_seen(reasons: &[Reason]) -> Option<VersionId> {
    let mut found = None;
    for reason in reasons {
        if let Reason::Looked {
            version,
            sight: Sight::Seen | Sight::SeenIf(_),
        } = reason
        {
            found = Some(*version);
        }
    }
    found
}

/// The version that a step made.
fn made_by(step: &Step<'_>) -> Option<VersionId> {
    let count = step.before.versions();
    if step.after.versions() > count {
        Some(VersionId::new(count as u64))
    } else {
        None
    }
}
