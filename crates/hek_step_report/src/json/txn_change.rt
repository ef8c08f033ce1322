//! Fields of a transaction that a step changed, and the lists that a transaction has.
use hek_report::{Lines, StateText};
use hek_rules::{Schedule, State, Time, VersionId, WriteEntry};
use hek_why::TxnChange;

/// The name of the field, and its value before and after.
pub(crate) fn put_txn_change(schedule: &Schedule, change: &TxnChange, out: &mut Lines) {
    out.put_text("field", field_of(change));
    match change {
        TxnChange::State(old, new) => put_states(*old, *new, out),
        TxnChange::BeginTime(old, new) | TxnChange::EndTime(old, new) => {
            put_times(*old, *new, out);
        }
        TxnChange::Waits(old, new) | TxnChange::CommitDeps(old, new) => {
            out.put_both_numbers(*old, *new);
        }
        TxnChange::NoMoreWaits(old, new) | TxnChange::AbortNow(old, new) => {
            put_flags(*old, *new, out);
        }
        _ => put_list_change(schedule, change, out),
    }
}

/// The name of the field that a change is of.
fn field_of(change: &TxnChange) -> &'static str {
    match change {
        TxnChange::State(_, _) => "state",
        TxnChange::BeginTime(_, _) => "begin",
        TxnChange::EndTime(_, _) => "end",
        TxnChange::Waits(_, _) => "waits",
        TxnChange::CommitDeps(_, _) => "commits",
        TxnChange::NoMoreWaits(_, _) => "no_more_waits",
        TxnChange::AbortNow(_, _) => "abort_now",
        TxnChange::Reads(_, _) => "reads",
        TxnChange::Writes(_, _) => "writes",
        TxnChange::Buckets(_, _) => "buckets",
        TxnChange::Waiting(_, _) => "waiting",
        TxnChange::Dependents(_, _) => "dependents",
    }
}

/// What a transaction holds, which ones wait for it, and which depend on it. Any other change has no list.
fn put_list_change(schedule: &Schedule, change: &TxnChange, out: &mut Lines) {
    match change {
        TxnChange::Reads(old, new) => {
            put_versions("before", old.as_slice(), out);
            put_versions("after", new.as_slice(), out);
        }
        TxnChange::Writes(old, new) => {
            put_writes("before", old.as_slice(), out);
            put_writes("after", new.as_slice(), out);
        }
        TxnChange::Buckets(old, new) => {
            out.put_numbers("before", old.as_slice());
            out.put_numbers("after", new.as_slice());
        }
        TxnChange::Waiting(old, new) | TxnChange::Dependents(old, new) => {
            out.put_both_names(schedule, old.as_slice(), new.as_slice());
        }
        _ => (),
    }
}

fn put_states(old: State, new: State, out: &mut Lines) {
    out.put_shown("before", &StateText(old));
    out.put_shown("after", &StateText(new));
}

fn put_times(old: Time, new: Time, out: &mut Lines) {
    out.put_time("before", old);
    out.put_time("after", new);
}

fn put_flags(old: bool, new: bool, out: &mut Lines) {
    out.put_flag("before", old);
    out.put_flag("after", new);
}

/// The versions that a transaction read-locks.
pub(crate) fn put_versions(name: &str, versions: &[VersionId], out: &mut Lines) {
    out.put_key(name);
    out.begin_array();
    for version in versions {
        out.write_number(version.index());
    }
    out.end_array();
}

/// The words that a transaction writes, each with its version.
pub(crate) fn put_writes(name: &str, entries: &[WriteEntry], out: &mut Lines) {
    out.put_key(name);
    out.begin_array();
    for entry in entries {
        write_entry(*entry, out);
    }
    out.end_array();
}

fn write_entry(entry: WriteEntry, out: &mut Lines) {
    let (word, version) = match entry {
        WriteEntry::BeginOf(v) => ("begin", v.index()),
        WriteEntry::EndOf(v) => ("end", v.index()),
    };
    out.begin_object();
    out.put_text("word", word);
    out.put_number("version", version);
    out.end_object();
}
