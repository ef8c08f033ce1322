//! The state of a machine.
ghost use Rattle.std.specs.Prelude.{◌<◌, length};
ghost use Rattle.hek_txn.specs.TxnTable.{Declared};

use crate::json::txn_change::{put_versions, put_writes};
use crate::json::word::{put_begin, put_end};
use hek_machine::Machine;
use hek_report::{Lines, StateText};
use hek_rules::{Schedule, TxnId, VersionId};

/// Appends the line of a machine's state, as `hek run --state` prints it.
pub fn put_state(schedule: &Schedule, machine: &Machine, out: &mut Lines) {
    out.begin_line();
    out.put_number("clock", machine.clock().number());
    put_all_versions(schedule, machine, out);
    put_all_txns(schedule, machine, out);
    put_all_buckets(schedule, machine, out);
    out.end_line();
}

fn put_all_versions(schedule: &Schedule, machine: &Machine, out: &mut Lines) {
    out.put_key("versions");
    out.begin_array();
    for index in 0..machine.versions() {
        write_version(schedule, machine, VersionId::new(index as u64), out);
    }
    out.end_array();
}

fn write_version(schedule: &Schedule, machine: &Machine, version: VersionId, out: &mut Lines) {
    out.begin_object();
    out.put_number("version", version.index());
    out.put_maybe("key", machine.key_of(version));
    out.put_maybe("value", machine.value_of(version));
    if let Some(word) = machine.begin_word(version) {
        put_begin("begin", schedule, word, out);
    }
    if let Some(word) = machine.end_word(version) {
        put_end("end", schedule, word, out);
    }
    out.end_object();
}

fn put_all_txns(schedule: &Schedule, machine: &Machine, out: &mut Lines) {
    out.put_key("txns");
    out.begin_array();
    for place in 0..machine.txns() {
        write_txn(schedule, machine, TxnId::new(place + 1), out);
    }
    out.end_array();
}

fn write_txn(schedule: &Schedule, machine: &Machine, t: TxnId, out: &mut Lines) {
    if !machine.is_declared(t) {
        return;
    }
    out.begin_object();
    out.put_number("number", t.number());
    out.put_name("txn", schedule, t);
    put_phase(machine, t, out);
    put_counters(machine, t, out);
    put_held(machine, t, out);
    put_others(schedule, machine, t, out);
    out.end_object();
}

fn put_phase(machine: &Machine, t: TxnId, out: &mut Lines)
    requires { Declared machine.now.txns t }
{
    out.put_text("level", machine.level(t).word());
    out.put_shown("state", &StateText(machine.state(t)));
    out.put_time("begin", machine.begin_time(t));
    out.put_time("end", machine.end_time(t));
}

fn put_counters(machine: &Machine, t: TxnId, out: &mut Lines)
    requires { Declared machine.now.txns t }
{
    out.put_number("waits", machine.waits(t));
    out.put_number("commits", machine.commit_deps(t));
    out.put_flag("no_more_waits", machine.no_more_waits(t));
    out.put_flag("abort_now", machine.abort_now(t));
}

/// What a transaction holds: read locks, words to stamp, bucket locks.
fn put_held(machine: &Machine, t: TxnId, out: &mut Lines)
    requires { Declared machine.now.txns t }
{
    let Ok(reads) = machine.read_list(t) else {
        return out.lack_memory();
    };
    put_versions("reads", reads.as_slice(), out);
    let Ok(writes) = machine.write_list(t) else {
        return out.lack_memory();
    };
    put_writes("writes", writes.as_slice(), out);
    let Ok(buckets) = machine.bucket_list(t) else {
        return out.lack_memory();
    };
    out.put_numbers("buckets", buckets.as_slice());
}

/// The transactions that wait for this one, and those that depend on it.
fn put_others(schedule: &Schedule, machine: &Machine, t: TxnId, out: &mut Lines)
    requires { Declared machine.now.txns t }
{
    let Ok(waiting) = machine.waiting_list(t) else {
        return out.lack_memory();
    };
    out.put_names("waiting", schedule, waiting.as_slice());
    let Ok(dependents) = machine.dependents(t) else {
        return out.lack_memory();
    };
    out.put_names("dependents", schedule, dependents.as_slice());
}

/// The locked buckets.
fn put_all_buckets(schedule: &Schedule, machine: &Machine, out: &mut Lines) {
    out.put_key("buckets");
    out.begin_array();
    for bucket in 0..machine.buckets() {
        write_bucket(schedule, machine, bucket, out);
    }
    out.end_array();
}

/// A bucket with its locks, or nothing if it has none.
fn write_bucket(schedule: &Schedule, machine: &Machine, bucket: u64, out: &mut Lines)
    requires { bucket < length machine.now.buckets }
{
    let count = machine.lock_count(bucket);
    if count == 0 {
        return;
    }
    let Ok(holders) = machine.lock_list(bucket) else {
        return out.lack_memory();
    };
    out.begin_object();
    out.put_number("bucket", bucket);
    out.put_number("locks", count as u64);
    out.put_names("holders", schedule, holders.as_slice());
    out.end_object();
}
