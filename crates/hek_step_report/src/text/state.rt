//! The state of a machine as text.
ghost use Rattle.std.specs.Prelude.{◌≡◌, ◌<◌, ◌++◌, ◌∷◌, [], length, codes, IfOk, OnOk};
ghost use Rattle.hek_rules.specs.Names.{level_word};
ghost use Rattle.hek_rules.specs.Plan.{IsDeclared};
ghost use Rattle.hek_rules.specs.World.{World, txn_in};
ghost use Rattle.hek_txn.specs.TxnTable.{Declared};
ghost use Rattle.hek_asm.specs.Canonical.{name_at};
ghost use Rattle.hek_machine.specs.Judgements.{IsShown};
ghost use Rattle.hek_machine.specs.Stands.{StandsFor};
ghost use Rattle.hek_step_report.specs.Clock.{clock_text};
ghost use Rattle.hek_step_report.specs.StateText.{bucket_line, bucket_lines, locks_line, row_line, row_text, version_line, version_lines, drawn_text, phase_text, level_at, txn_front, phase_fields, counter_fields, flag_fields, flags_text, held_fields, other_fields, declared_line, txn_line, txn_lines, lines_of_state, state_text};

use crate::text::putting::{
    put_entries, put_number, put_numbers, put_text, put_txns, put_versions,
};
use crate::text::word::{put_begin_field, put_end_field, put_flag};
use hek_machine::Machine;
use hek_rules::{NoMemory, Schedule, State, Time, TxnId, VersionId};
use hek_word::{BeginWord, EndWord};
use std::alloc::Global;
use std::io::Write;

/// The line of a clock.
pub fn clock_line(alloc: Global, clock: Time) -> Result<Vec<u8>, NoMemory>
    ensures { IfOk result (λ line. line.items ≡ clock_text clock) }
{
    let clock = clock.number();
    let mut line = Vec::new(alloc);
    match writeln!(line, "clock {clock}") {
        Ok(()) => Ok(line),
        Err(_) => Err(NoMemory),
    }
}

/// A line for each version of a machine, each transaction of its schedule and each locked bucket.
pub fn state_lines(
    alloc: Global,
    schedule: &Schedule,
    machine: &Machine,
) -> Result<Vec<u8>, NoMemory>
    ensures { IfOk result (λ lines. IsShown machine.now (λ w. lines_of_state schedule.now w) lines.items) }
{
    let mut lines = Vec::new(alloc);
    put_all_versions(machine, &mut lines)?;
    put_all_txns(schedule, machine, &mut lines)?;
    put_all_buckets(machine, &mut lines)?;
    Ok(lines)
}

/// Appends the lines of a machine's state: its clock, and what `state_lines` has.
pub fn put_state(
    alloc: Global,
    schedule: &Schedule,
    machine: &Machine,
    lines: &mut Vec<u8>,
) -> Result<(), NoMemory>
    ensures { OnOk result (IsShown machine.now (λ w. lines.old.items ++ state_text schedule.now w) lines.new.items) }
{
    let clock = clock_line(alloc, machine.clock())?;
    lines.extend_from_slice(clock.as_slice())?;
    let state = state_lines(alloc, schedule, machine)?;
    lines.extend_from_slice(state.as_slice())?;
    Ok(())
}

fn put_all_versions(machine: &Machine, lines: &mut Vec<u8>) -> Result<(), NoMemory>
    ensures { OnOk result (IsShown machine.now (λ w. lines.old.items ++ version_lines w) lines.new.items) }
{
    for index in 0..machine.versions() {
        put_version(machine, VersionId::new(index as u64), lines)?;
    }
    Ok(())
}

fn put_all_txns(schedule: &Schedule, machine: &Machine, lines: &mut Vec<u8>) -> Result<(), NoMemory>
    ensures { OnOk result (IsShown machine.now (λ w. lines.old.items ++ txn_lines schedule.now w) lines.new.items) }
{
    for place in 0..schedule.txn_count() {
        put_txn(schedule, machine, TxnId::new(place as u64 + 1), lines)?;
    }
    Ok(())
}

fn put_all_buckets(machine: &Machine, lines: &mut Vec<u8>) -> Result<(), NoMemory>
    ensures { OnOk result (IsShown machine.now (λ w. lines.old.items ++ bucket_lines w) lines.new.items) }
{
    for bucket in 0..machine.buckets() {
        put_bucket(machine, bucket, lines)?;
    }
    Ok(())
}

/// Appends the line of a version: its row and what its two words say. Past the last version only the line's end.
pub fn put_version(machine: &Machine, v: VersionId, lines: &mut Vec<u8>) -> Result<(), NoMemory>
    ensures { OnOk result ((w : World) → StandsFor machine.now w → v < length w.versions → lines.new.items ≡ lines.old.items ++ version_line w v) }
{
    let Some(key) = machine.key_of(v) else {
        return put_text("\n", lines);
    };
    let Some(value) = machine.value_of(v) else {
        return put_text("\n", lines);
    };
    let Some(begin) = machine.begin_word(v) else {
        return put_text("\n", lines);
    };
    let Some(end) = machine.end_word(v) else {
        return put_text("\n", lines);
    };
    put_row_line(v, (key, value), begin, end, lines)
}

fn put_row_line(
    v: VersionId,
    row: (u64, u64),
    begin: BeginWord,
    end: EndWord,
    lines: &mut Vec<u8>,
) -> Result<(), NoMemory>
    ensures { OnOk result (lines.new.items ≡ lines.old.items ++ row_line v row.0 row.1 begin end) }
{
    put_row(v, row.0, row.1, lines)?;
    put_begin_field(begin, lines)?;
    put_end_field(end, lines)?;
    put_text("\n", lines)
}

fn put_row(v: VersionId, key: u64, value: u64, lines: &mut Vec<u8>) -> Result<(), NoMemory>
    ensures { OnOk result (lines.new.items ≡ lines.old.items ++ row_text v key value) }
{
    put_text("version ", lines)?;
    put_number(v.index(), lines)?;
    put_text(": key ", lines)?;
    put_number(key, lines)?;
    put_text(" value ", lines)?;
    put_number(value, lines)
}

/// Appends the line of a transaction: its fields and lists.
pub fn put_txn(
    schedule: &Schedule,
    machine: &Machine,
    t: TxnId,
    lines: &mut Vec<u8>,
) -> Result<(), NoMemory>
    requires { IsDeclared (length schedule.now.txns) t }
    ensures { OnOk result (IsShown machine.now (λ w. lines.old.items ++ txn_line schedule.now w t) lines.new.items) }
{
    if !machine.is_declared(t) {
        return Ok(());
    }
    put_declared(schedule, machine, t, lines)
}

fn put_declared(
    schedule: &Schedule,
    machine: &Machine,
    t: TxnId,
    lines: &mut Vec<u8>,
) -> Result<(), NoMemory>
    requires named { IsDeclared (length schedule.now.txns) t }
    requires held { Declared machine.now.txns t }
    ensures { OnOk result (IsShown machine.now (λ w. lines.old.items ++ declared_line schedule.now w t) lines.new.items) }
{
    put_name(schedule, t, lines)?;
    put_phase(machine, t, lines)?;
    put_counters(machine, t, lines)?;
    put_flags(machine, t, lines)?;
    put_held(machine, t, lines)?;
    put_others(machine, t, lines)?;
    put_text("\n", lines)
}

fn put_name(schedule: &Schedule, t: TxnId, lines: &mut Vec<u8>) -> Result<(), NoMemory>
    requires { IsDeclared (length schedule.now.txns) t }
    ensures { OnOk result (lines.new.items ≡ lines.old.items ++ txn_front schedule.now t) }
{
    put_text("txn ", lines)?;
    put_number(t.number(), lines)?;
    put_text(" ", lines)?;
    put_own_name(schedule, t, lines)?;
    put_text(": ", lines)?;
    put_level(schedule, t, lines)
}

fn put_own_name(schedule: &Schedule, t: TxnId, lines: &mut Vec<u8>) -> Result<(), NoMemory>
    requires { IsDeclared (length schedule.now.txns) t }
    ensures { OnOk result (lines.new.items ≡ lines.old.items ++ name_at schedule.now t) }
{
    put_text(schedule.name_of(t), lines)
}

fn put_level(schedule: &Schedule, t: TxnId, lines: &mut Vec<u8>) -> Result<(), NoMemory>
    requires { IsDeclared (length schedule.now.txns) t }
    ensures { OnOk result (lines.new.items ≡ lines.old.items ++ level_word (level_at schedule.now t)) }
{
    put_text(schedule.level_of(t).word(), lines)
}

// The state of a transaction, and the times that it drew.
fn put_phase(machine: &Machine, t: TxnId, lines: &mut Vec<u8>) -> Result<(), NoMemory>
    requires { Declared machine.now.txns t }
    ensures { OnOk result (IsShown machine.now (λ w. lines.old.items ++ phase_fields (txn_in w.txns t)) lines.new.items) }
{
    put_text("; ", lines)?;
    put_state_word(machine.state(t), lines)?;
    put_text("; begin ", lines)?;
    put_drawn(machine.begin_time(t), lines)?;
    put_text("; end ", lines)?;
    put_drawn(machine.end_time(t), lines)
}

fn put_state_word(state: State, lines: &mut Vec<u8>) -> Result<(), NoMemory>
    ensures { OnOk result (lines.new.items ≡ lines.old.items ++ phase_text state) }
{
    match state {
        State::NotBegun => put_text("not begun", lines),
        State::Active => put_text("active", lines),
        State::Preparing => put_text("preparing", lines),
        State::Committed => put_text("committed", lines),
        State::Terminated => put_text("terminated", lines),
        State::Aborted(cause) => {
            put_text("aborted ", lines)?;
            put_text(cause.word(), lines)
        }
    }
}

// A time, or `none` for 0: drawn times begin at 1.
fn put_drawn(time: Time, lines: &mut Vec<u8>) -> Result<(), NoMemory>
    ensures { OnOk result (lines.new.items ≡ lines.old.items ++ drawn_text time) }
{
    match time.number() {
        0 => put_text("none", lines),
        ticks => put_number(ticks, lines),
    }
}

fn put_counters(machine: &Machine, t: TxnId, lines: &mut Vec<u8>) -> Result<(), NoMemory>
    requires { Declared machine.now.txns t }
    ensures { OnOk result (IsShown machine.now (λ w. lines.old.items ++ counter_fields w t) lines.new.items) }
{
    put_text("; waits ", lines)?;
    put_number(machine.waits(t), lines)?;
    put_text("; commits ", lines)?;
    put_number(machine.commit_deps(t), lines)
}

fn put_flags(machine: &Machine, t: TxnId, lines: &mut Vec<u8>) -> Result<(), NoMemory>
    requires { Declared machine.now.txns t }
    ensures { OnOk result (IsShown machine.now (λ w. lines.old.items ++ flag_fields (txn_in w.txns t)) lines.new.items) }
{
    put_both_flags(machine.no_more_waits(t), machine.abort_now(t), lines)
}

fn put_both_flags(no_more_waits: bool, abort_now: bool, lines: &mut Vec<u8>) -> Result<(), NoMemory>
    ensures { OnOk result (lines.new.items ≡ lines.old.items ++ flags_text no_more_waits abort_now) }
{
    put_text("; no-more-waits ", lines)?;
    put_flag(no_more_waits, lines)?;
    put_text("; abort-now ", lines)?;
    put_flag(abort_now, lines)
}

// What a transaction holds: read locks, versions to stamp, bucket locks.
fn put_held(machine: &Machine, t: TxnId, lines: &mut Vec<u8>) -> Result<(), NoMemory>
    requires { Declared machine.now.txns t }
    ensures { OnOk result (IsShown machine.now (λ w. lines.old.items ++ held_fields w t) lines.new.items) }
{
    let reads = machine.read_list(t)?;
    let writes = machine.write_list(t)?;
    let buckets = machine.bucket_list(t)?;
    put_versions("reads", reads.as_slice(), lines)?;
    put_entries("writes", writes.as_slice(), lines)?;
    put_numbers("buckets", buckets.as_slice(), lines)
}

// The transactions that wait for this one, and those that depend on it.
fn put_others(machine: &Machine, t: TxnId, lines: &mut Vec<u8>) -> Result<(), NoMemory>
    requires { Declared machine.now.txns t }
    ensures { OnOk result (IsShown machine.now (λ w. lines.old.items ++ other_fields w t) lines.new.items) }
{
    let waiting = machine.waiting_list(t)?;
    let dependents = machine.dependents(t)?;
    put_txns("waiting", waiting.as_slice(), lines)?;
    put_txns("dependents", dependents.as_slice(), lines)
}

/// Appends the line of a bucket: its LockCount, and the transactions that lock it. A bucket without locks has no line.
pub fn put_bucket(machine: &Machine, bucket: u64, lines: &mut Vec<u8>) -> Result<(), NoMemory>
    requires { bucket < length machine.now.buckets }
    ensures { OnOk result (IsShown machine.now (λ w. lines.old.items ++ bucket_line w bucket) lines.new.items) }
{
    let count = machine.lock_count(bucket);
    let holders = machine.lock_list(bucket)?;
    put_locks(bucket, count, holders.as_slice(), lines)
}

fn put_locks(
    bucket: u64,
    count: usize,
    holders: &[TxnId],
    lines: &mut Vec<u8>,
) -> Result<(), NoMemory>
    ensures { OnOk result (lines.new.items ≡ lines.old.items ++ locks_line bucket count holders.now) }
{
    if count == 0 {
        return Ok(());
    }
    put_text("bucket ", lines)?;
    put_number(bucket, lines)?;
    put_text(": locks ", lines)?;
    put_number(count as u64, lines)?;
    put_txns("holders", holders, lines)?;
    put_text("\n", lines)
}
