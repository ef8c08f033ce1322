//! Answers to `show`.
use crate::stop_text::{put_name, put_number, put_text};
use hek_debug::Debugger;
use hek_machine::Machine;
use hek_rules::{NoMemory, Schedule, TxnId, VersionId};
use hek_step_report::text::{
    clock_line, put_bucket, put_reasons, put_txn, put_version, state_lines,
};
use hek_why::{commit_reasons, wait_reasons};
use std::alloc::Global;

/// Appends the state as `hek run --state` prints it.
pub(crate) fn put_state(
    alloc: Global,
    debugger: &Debugger,
    lines: &mut Vec<u8>,
) -> Result<(), NoMemory> {
    let machine = debugger.machine();
    put_clock(alloc, machine, lines)?;
    let state = state_lines(alloc, debugger.schedule(), machine)?;
    lines.extend_from_slice(state.as_slice())?;
    Ok(())
}

/// Appends the line of the clock.
pub(crate) fn put_clock(
    alloc: Global,
    machine: &Machine,
    lines: &mut Vec<u8>,
) -> Result<(), NoMemory> {
    let clock = clock_line(alloc, machine.clock())?;
    lines.extend_from_slice(clock.as_slice())?;
    Ok(())
}

/// Appends the line of a transaction.
pub(crate) fn put_one_txn(
    schedule: &Schedule,
    machine: &Machine,
    t: TxnId,
    lines: &mut Vec<u8>,
) -> Result<(), NoMemory> {
    if t.number() == 0 || t.number() > schedule.txn_count() as u64 {
        return Ok(());
    }
    put_txn(schedule, machine, t, lines)
}

/// Appends the line of a version.
pub(crate) fn put_one_version(
    machine: &Machine,
    v: VersionId,
    lines: &mut Vec<u8>,
) -> Result<(), NoMemory> {
    if v.index() < machine.versions() as u64 {
        return put_version(machine, v, lines);
    }
    put_none("version ", v.index(), lines)
}

/// Says that nothing has this number.
fn put_none(label: &str, number: u64, lines: &mut Vec<u8>) -> Result<(), NoMemory> {
    put_text(label, lines)?;
    put_number(number, lines)?;
    put_text(": none\n", lines)
}

/// Appends the versions of a key, oldest first.
pub(crate) fn put_key(machine: &Machine, key: u64, lines: &mut Vec<u8>) -> Result<(), NoMemory> {
    let mut is_there = false;
    for index in 0..machine.versions() {
        let v = VersionId::new(index as u64);
        if machine.key_of(v) == Some(key) {
            put_version(machine, v, lines)?;
            is_there = true;
        }
    }
    if is_there {
        return Ok(());
    }
    put_none("key ", key, lines)
}

/// Appends the line of a bucket, also of one that nobody locks.
pub(crate) fn put_one_bucket(
    machine: &Machine,
    bucket: u64,
    lines: &mut Vec<u8>,
) -> Result<(), NoMemory> {
    if bucket >= machine.buckets() {
        return put_none("bucket ", bucket, lines);
    }
    if machine.lock_count(bucket) > 0 {
        return put_bucket(machine, bucket, lines);
    }
    put_text("bucket ", lines)?;
    put_number(bucket, lines)?;
    put_text(": locks 0; holders none\n", lines)
}

/// Appends, of each transaction that waits for others or whose commit depends on others, how many these are, and which.
pub(crate) fn put_waits(
    alloc: Global,
    schedule: &Schedule,
    machine: &Machine,
    lines: &mut Vec<u8>,
) -> Result<(), NoMemory> {
    let mut is_there = false;
    for place in 0..schedule.txn_count() {
        let t = TxnId::new(place as u64 + 1);
        if put_waits_of(alloc, schedule, machine, t, lines)? {
            is_there = true;
        }
    }
    if is_there {
        return Ok(());
    }
    put_text("nobody waits\n", lines)
}

/// Appends the lines of one transaction, if it waits or depends on others.
fn put_waits_of(
    alloc: Global,
    schedule: &Schedule,
    machine: &Machine,
    t: TxnId,
    lines: &mut Vec<u8>,
) -> Result<bool, NoMemory> {
    if !machine.is_declared(t) {
        return Ok(false);
    }
    let (waits, commits) = (machine.waits(t), machine.commit_deps(t));
    if waits == 0 && commits == 0 {
        return Ok(false);
    }
    put_name(schedule, t, lines)?;
    put_text(": waits ", lines)?;
    put_number(waits, lines)?;
    put_text("; commits ", lines)?;
    put_number(commits, lines)?;
    put_text("\n", lines)?;
    put_wait_reasons(alloc, schedule, machine, t, lines)?;
    put_commit_reasons(alloc, schedule, machine, t, lines)?;
    Ok(true)
}

fn put_wait_reasons(
    alloc: Global,
    schedule: &Schedule,
    machine: &Machine,
    t: TxnId,
    lines: &mut Vec<u8>,
) -> Result<(), NoMemory> {
    if !machine.is_declared(t) {
        return Ok(());
    }
    let reasons = wait_reasons(alloc, machine, t)?;
    put_reasons(schedule, machine, t, reasons.as_slice(), lines)
}

fn put_commit_reasons(
    alloc: Global,
    schedule: &Schedule,
    machine: &Machine,
    t: TxnId,
    lines: &mut Vec<u8>,
) -> Result<(), NoMemory> {
    if !machine.is_declared(t) {
        return Ok(());
    }
    let reasons = commit_reasons(alloc, machine, t)?;
    put_reasons(schedule, machine, t, reasons.as_slice(), lines)
}
