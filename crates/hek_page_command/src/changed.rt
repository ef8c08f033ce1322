//! What a step changed, in the lines of a state.
use hek_machine::Machine;
use hek_report::{Hole, Text, is_named};
use hek_rules::{NoMemory, Schedule, TxnId, VersionId};
use hek_step_report::text::{clock_line, put_bucket, put_txn, put_version};
use hek_why::Change;
use std::alloc::Global;

/// What has a line in the text of a state.
#[derive(Clone, Copy, PartialEq)]
enum Subject {
    Clock,
    Version(VersionId),
    Txn(TxnId),
    Bucket(u64),
}

/// Appends to `lines` the line of each thing that the changes name, as it is in the machine after them. A bucket that has no line
/// any more goes to `gone`, as `bucket 0`. The changes of one thing are next to each other.
pub(crate) fn put_changed(
    alloc: Global,
    schedule: &Schedule,
    machine: &Machine,
    changes: &[Change],
    lines: &mut Vec<u8>,
    gone: &mut Vec<u8>,
) -> Result<(), NoMemory> {
    for place in 0..changes.len() {
        if !is_repeated(changes, place) {
            put_change(alloc, schedule, machine, &changes[place], lines, gone)?;
        }
    }
    Ok(())
}

/// Whether the change before the one at a place is of the same thing.
fn is_repeated(changes: &[Change], place: usize) -> bool {
    let Some(before) = place.checked_sub(1) else {
        return false;
    };
    match (changes.get(before), changes.get(place)) {
        (Some(before), Some(change)) => subject_of(before) == subject_of(change),
        _ => false,
    }
}

fn subject_of(change: &Change) -> Subject {
    match change {
        Change::Clock(..) => Subject::Clock,
        Change::Begin { version, .. }
        | Change::End { version, .. }
        | Change::NewVersion { version, .. } => Subject::Version(*version),
        Change::Txn { txn, .. } => Subject::Txn(*txn),
        Change::LockCount { bucket, .. } | Change::LockList { bucket, .. } => {
            Subject::Bucket(*bucket)
        }
    }
}

fn put_change(
    alloc: Global,
    schedule: &Schedule,
    machine: &Machine,
    change: &Change,
    lines: &mut Vec<u8>,
    gone: &mut Vec<u8>,
) -> Result<(), NoMemory> {
    match change {
        Change::Clock(..) => put_clock(alloc, machine, lines),
        Change::Begin { version, .. }
        | Change::End { version, .. }
        | Change::NewVersion { version, .. } => put_version(machine, *version, lines),
        Change::Txn { txn, .. } => put_txn_line(schedule, machine, *txn, lines),
        Change::LockCount { bucket, .. } | Change::LockList { bucket, .. } => {
            put_bucket_line(machine, *bucket, lines, gone)
        }
    }
}

/// Appends the line of the clock.
pub(crate) fn put_clock(
    alloc: Global,
    machine: &Machine,
    lines: &mut Vec<u8>,
) -> Result<(), NoMemory> {
    let line = clock_line(alloc, machine.clock())?;
    lines.extend_from_slice(line.as_slice())?;
    Ok(())
}

fn put_txn_line(
    schedule: &Schedule,
    machine: &Machine,
    t: TxnId,
    lines: &mut Vec<u8>,
) -> Result<(), NoMemory> {
    if is_named(schedule, t) {
        put_txn(schedule, machine, t, lines)?;
    }
    Ok(())
}

fn put_bucket_line(
    machine: &Machine,
    bucket: u64,
    lines: &mut Vec<u8>,
    gone: &mut Vec<u8>,
) -> Result<(), NoMemory> {
    if bucket >= machine.buckets() {
        return Ok(());
    }
    if machine.lock_count(bucket) == 0 {
        return put_gone(bucket, gone);
    }
    put_bucket(machine, bucket, lines)
}

/// Appends a bucket that has no line any more.
fn put_gone(bucket: u64, gone: &mut Vec<u8>) -> Result<(), NoMemory> {
    let mut text = Text::after(gone);
    text.form("bucket @\n", &[Hole::Number(bucket)]);
    text.done()
}
