//! Changes of a step.
use crate::json::txn_change::put_txn_change;
use crate::json::word::{put_begin, put_begins, put_end, put_ends};
use hek_report::Lines;
use hek_rules::{Schedule, VersionId};
use hek_why::Change;
use hek_word::{BeginWord, EndWord};

/// The changes, in the order of the state.
pub(crate) fn put_changes(schedule: &Schedule, changes: &[Change], out: &mut Lines) {
    out.put_key("changes");
    out.begin_array();
    for change in changes {
        out.begin_object();
        out.put_text("kind", kind_of(change));
        put_change(schedule, change, out);
        out.end_object();
    }
    out.end_array();
}

/// The kind of a change.
fn kind_of(change: &Change) -> &'static str {
    match change {
        Change::Clock(_, _) => "clock",
        Change::Begin { .. } => "begin",
        Change::End { .. } => "end",
        Change::NewVersion { .. } => "version",
        Change::Txn { .. } => "txn",
        Change::LockCount { .. } | Change::LockList { .. } => "bucket",
    }
}

/// What a change has beside its kind.
fn put_change(schedule: &Schedule, change: &Change, out: &mut Lines) {
    match change {
        Change::Clock(old, new) => out.put_both_numbers(old.number(), new.number()),
        Change::Begin {
            version,
            before,
            after,
        } => {
            out.put_version(*version);
            put_begins(schedule, *before, *after, out);
        }
        Change::End {
            version,
            before,
            after,
        } => {
            out.put_version(*version);
            put_ends(schedule, *before, *after, out);
        }
        Change::NewVersion {
            version,
            key,
            value,
            begin,
            end,
        } => put_new(schedule, *version, (*key, *value), *begin, *end, out),
        Change::Txn { txn, change } => {
            out.put_name("txn", schedule, *txn);
            put_txn_change(schedule, change, out);
        }
        Change::LockCount {
            bucket,
            before,
            after,
        } => {
            put_bucket(*bucket, "locks", out);
            out.put_both_numbers(*before as u64, *after as u64);
        }
        Change::LockList {
            bucket,
            before,
            after,
        } => {
            put_bucket(*bucket, "holders", out);
            out.put_both_names(schedule, before.as_slice(), after.as_slice());
        }
    }
}

/// A version that did not exist before; the row is its key and its value.
fn put_new(
    schedule: &Schedule,
    version: VersionId,
    row: (u64, u64),
    begin: BeginWord,
    end: EndWord,
    out: &mut Lines,
) {
    out.put_version(version);
    out.put_number("key", row.0);
    out.put_number("value", row.1);
    put_begin("begin", schedule, begin, out);
    put_end("end", schedule, end, out);
}

fn put_bucket(bucket: u64, field: &str, out: &mut Lines) {
    out.put_number("bucket", bucket);
    out.put_text("field", field);
}
