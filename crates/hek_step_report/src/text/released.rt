//! What a release gave back, in words.
use crate::released::{Release, release_in};
use crate::rule_choice::reply_rule;
use hek_report::{Hole, Text};
use hek_rules::{NoMemory, Schedule, TxnId, VersionId};
use hek_why::Step;

/// Appends the line of what the release of a step gave back, after two spaces, if it is one that gave something back. With
/// `ruled` the definition that decided it is at the end.
pub fn put_release(
    schedule: &Schedule,
    step: &Step<'_>,
    ruled: bool,
    lines: &mut Vec<u8>,
) -> Result<(), NoMemory> {
    let (Some(release), Some(txn)) = (release_in(step), step.event.txn()) else {
        return Ok(());
    };
    let mut text = Text::after(lines);
    text.put("  ");
    put_given(schedule, txn, release, &mut text);
    if ruled {
        let name = reply_rule(step, &[]).definition;
        text.form(" [@]", &[Hole::Word(name)]);
    }
    text.put("\n");
    text.done()
}

fn put_given(schedule: &Schedule, txn: TxnId, release: Release, text: &mut Text<'_>) {
    let name = Hole::txn(schedule, txn);
    match release {
        Release::LastRead(version, writer, waits) => {
            let (version, writer) = (Hole::Number(version.index()), Hole::txn(schedule, writer));
            text.form(
                "@ was the last reader of version @, which @ writes; ",
                &[name, version, writer],
            );
            put_left(writer, waits, text);
        }
        Release::Read(version, writer, readers) => {
            put_read(schedule, name, version, writer, text);
            put_readers(readers, text);
        }
        Release::Bucket(bucket) => text.form("@ locked bucket @", &[name, Hole::Number(bucket)]),
        Release::Waiter(waiter, waits) => {
            let waiter = Hole::txn(schedule, waiter);
            text.form("@ waited for @, which listed it; ", &[waiter, name]);
            put_left(waiter, waits, text);
        }
    }
}

/// `a read-locked version 0, which b writes`.
fn put_read<'a>(
    schedule: &'a Schedule,
    name: Hole<'a>,
    version: VersionId,
    writer: Option<TxnId>,
    text: &mut Text<'_>,
) {
    let writer = match writer {
        Some(writer) => Hole::txn(schedule, writer),
        None => Hole::Word("nobody"),
    };
    text.form(
        "@ read-locked version @, which @ writes",
        &[name, Hole::Number(version.index()), writer],
    );
}

/// `; 2 other readers are left`.
fn put_readers(readers: u8, text: &mut Text<'_>) {
    match readers {
        0 => {}
        1 => text.put("; 1 other reader is left"),
        _ => text.form(
            "; @ other readers are left",
            &[Hole::Number(u64::from(readers))],
        ),
    }
}

/// `b waits for nobody any more`, or `b waits for 2 more`.
fn put_left(waiter: Hole<'_>, waits: u64, text: &mut Text<'_>) {
    match waits {
        0 => text.form("@ waits for nobody any more", &[waiter]),
        _ => text.form("@ waits for @ more", &[waiter, Hole::Number(waits)]),
    }
}
