//! What a step changed: each word, counter, flag and list that differs, in the words of `hek run --state`.
use crate::text::field::Field;
use crate::text::word::{put_begin, put_end};
use hek_report::{Hole, StateText, Text};
use hek_rules::{NoMemory, Schedule, TxnId, VersionId};
use hek_why::{Change, TxnChange};
use hek_word::{BeginWord, EndWord};

/// Appends a line, after two spaces, for each change: the clock, the versions, the transactions and the buckets, in the
/// order of the state.
pub(crate) fn put_changes(
    schedule: &Schedule,
    changes: &[Change],
    lines: &mut Vec<u8>,
) -> Result<(), NoMemory> {
    let mut text = Text::after(lines);
    for change in changes {
        text.put("  ");
        put_change(schedule, change, &mut text);
        text.put("\n");
    }
    text.done()
}

fn put_change(schedule: &Schedule, change: &Change, text: &mut Text<'_>) {
    match change {
        Change::Clock(old, new) => text.form(
            "clock @ -> @",
            &[Hole::Number(old.number()), Hole::Number(new.number())],
        ),
        Change::Begin {
            version,
            before,
            after,
        } => put_begin_change(*version, *before, *after, text),
        Change::End {
            version,
            before,
            after,
        } => put_end_change(*version, *before, *after, text),
        Change::NewVersion {
            version,
            key,
            value,
            begin,
            end,
        } => put_new_version(*version, (*key, *value), *begin, *end, text),
        Change::Txn { txn, change } => put_txn_change(schedule, *txn, change, text),
        Change::LockCount {
            bucket,
            before,
            after,
        } => text.form(
            "bucket @ locks @ -> @",
            &[
                Hole::Number(*bucket),
                Hole::Number(*before as u64),
                Hole::Number(*after as u64),
            ],
        ),
        Change::LockList {
            bucket,
            before,
            after,
        } => {
            text.form("bucket @", &[Hole::Number(*bucket)]);
            put_values("holders", &before.as_slice(), &after.as_slice(), text);
        }
    }
}

fn put_begin_change(v: VersionId, old: BeginWord, new: BeginWord, text: &mut Text<'_>) {
    text.form(
        "version @ begin @ -> @ ",
        &[
            Hole::Number(v.index()),
            Hole::Bits(old.bits()),
            Hole::Bits(new.bits()),
        ],
    );
    let put = put_begin(new, text.bytes());
    text.note(put);
}

fn put_end_change(v: VersionId, old: EndWord, new: EndWord, text: &mut Text<'_>) {
    text.form(
        "version @ end @ -> @ ",
        &[
            Hole::Number(v.index()),
            Hole::Bits(old.bits()),
            Hole::Bits(new.bits()),
        ],
    );
    let put = put_end(new, text.bytes());
    text.note(put);
}

/// A version that did not exist before, as its line of the state. The row is its key and its value.
fn put_new_version(
    v: VersionId,
    row: (u64, u64),
    begin: BeginWord,
    end: EndWord,
    text: &mut Text<'_>,
) {
    text.form(
        "version @ none -> key @ value @; @ ",
        &[
            Hole::Number(v.index()),
            Hole::Number(row.0),
            Hole::Number(row.1),
            Hole::Bits(begin.bits()),
        ],
    );
    text.show(&begin);
    text.form("; @ ", &[Hole::Bits(end.bits())]);
    text.show(&end);
}

fn put_txn_change(schedule: &Schedule, t: TxnId, change: &TxnChange, text: &mut Text<'_>) {
    text.form(
        "txn @ @",
        &[Hole::Number(t.number()), Hole::txn(schedule, t)],
    );
    match change {
        TxnChange::State(old, new) => {
            text.put(" ");
            text.show(&StateText(*old));
            text.put(" -> ");
            text.show(&StateText(*new));
        }
        TxnChange::BeginTime(old, new) => put_values("begin", old, new, text),
        TxnChange::EndTime(old, new) => put_values("end", old, new, text),
        TxnChange::Waits(old, new) => put_values("waits", old, new, text),
        TxnChange::CommitDeps(old, new) => put_values("commits", old, new, text),
        TxnChange::NoMoreWaits(old, new) => put_values("no-more-waits", old, new, text),
        TxnChange::AbortNow(old, new) => put_values("abort-now", old, new, text),
        TxnChange::Reads(old, new) => {
            put_values("reads", &old.as_slice(), &new.as_slice(), text);
        }
        TxnChange::Writes(old, new) => {
            put_values("writes", &old.as_slice(), &new.as_slice(), text);
        }
        TxnChange::Buckets(old, new) => {
            put_values("buckets", &old.as_slice(), &new.as_slice(), text);
        }
        TxnChange::Waiting(old, new) => {
            put_values("waiting", &old.as_slice(), &new.as_slice(), text);
        }
        TxnChange::Dependents(old, new) => {
            put_values("dependents", &old.as_slice(), &new.as_slice(), text);
        }
    }
}

/// The label of a field, and its value before and after.
fn put_values<F: Field>(label: &str, old: &F, new: &F, text: &mut Text<'_>) {
    text.form(" @", &[Hole::Word(label)]);
    old.put_value(text);
    text.put(" ->");
    new.put_value(text);
}
