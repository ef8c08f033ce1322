//! Reasons in plain words, a line each.
use crate::text::looked::put_looked;
use crate::text::met::{put_end_word, put_stopped};
use crate::text::refused::put_refused;
use hek_machine::Machine;
use hek_report::{Hole, StateText, Text};
use hek_rules::{Cause, NoMemory, Schedule, State, TxnId, VersionId};
use hek_why::{Reason, Step};

/// Appends a line, after two spaces, for each reason of an event of t. The machine is the one before the event.
pub fn put_reasons(
    schedule: &Schedule,
    machine: &Machine,
    t: TxnId,
    reasons: &[Reason],
    lines: &mut Vec<u8>,
) -> Result<(), NoMemory> {
    let mut text = Text::after(lines);
    for reason in reasons {
        text.put("  ");
        put_reason(schedule, machine, t, reason, &mut text);
        text.put("\n");
    }
    text.done()
}

/// Appends a line, after two spaces, for each reason of a step of t, with the name of the definition that decided it at
/// its end: ` [Table.commit_rule]`.
pub(crate) fn put_ruled_reasons(
    schedule: &Schedule,
    step: &Step<'_>,
    t: TxnId,
    reasons: &[Reason],
    lines: &mut Vec<u8>,
) -> Result<(), NoMemory> {
    let mut text = Text::after(lines);
    for reason in reasons {
        text.put("  ");
        put_reason(schedule, step.before, t, reason, &mut text);
        text.form(" [@]\n", &[Hole::Word(reason.rule_name(step.reply))]);
    }
    text.done()
}

fn put_reason(
    schedule: &Schedule,
    machine: &Machine,
    t: TxnId,
    reason: &Reason,
    text: &mut Text<'_>,
) {
    let me = Hole::txn(schedule, t);
    match reason {
        Reason::ReadLocked { version, readers } => {
            put_read_locked(schedule, machine, t, *version, readers.as_slice(), text);
        }
        Reason::Listed { holder, bucket } => put_listed(schedule, t, *holder, *bucket, text),
        Reason::Depends(u) => text.form(
            "@ depends on @, which is preparing",
            &[me, Hole::txn(schedule, *u)],
        ),
        Reason::Looked { version, sight } => {
            put_looked(schedule, machine, t, *version, *sight, text);
        }
        Reason::Stopped {
            version,
            cause,
            met,
        } => put_stopped(schedule, machine, t, *version, *cause, *met, text),
        Reason::DoomedBy(u) => text.form(
            "@ depended on @, which has aborted",
            &[me, Hole::txn(schedule, *u)],
        ),
        Reason::AbortedBefore(cause) => put_aborted(me, *cause, text),
        Reason::WaitsFor {
            waiter,
            next,
            version,
        } => put_edge(schedule, machine, *waiter, *next, *version, text),
        Reason::Refused {
            refusal,
            phase,
            state,
            finished,
        } => put_refused(schedule, t, *refusal, *phase, *state, *finished, text),
        Reason::Holds {
            reads,
            buckets,
            waiters,
            writes,
        } => put_holds(me, [*reads, *buckets, *waiters, *writes], text),
        Reason::Begin {
            version,
            before,
            after,
        } => text.form(
            "version @ begin @ -> @",
            &words(*version, before.bits(), after.bits()),
        ),
        Reason::End {
            version,
            before,
            after,
        } if before.bits() == after.bits() => text.form(
            "version @ end @ stays",
            &words(*version, before.bits(), after.bits()),
        ),
        Reason::End {
            version,
            before,
            after,
        } => text.form(
            "version @ end @ -> @",
            &words(*version, before.bits(), after.bits()),
        ),
    }
}

/// A version, and a word of it before and after.
fn words(v: VersionId, before: u64, after: u64) -> [Hole<'static>; 3] {
    [
        Hole::Number(v.index()),
        Hole::Bits(before),
        Hole::Bits(after),
    ]
}

/// `b waits for a, which read-locks version 0 (8040000000000002)`.
fn put_read_locked(
    schedule: &Schedule,
    machine: &Machine,
    t: TxnId,
    v: VersionId,
    readers: &[TxnId],
    text: &mut Text<'_>,
) {
    text.form("@ waits for ", &[Hole::txn(schedule, t)]);
    text.names(schedule, readers);
    let verb = if readers.len() == 1 { "locks" } else { "lock" };
    text.form(
        ", which read-@ version @",
        &[Hole::Word(verb), Hole::Number(v.index())],
    );
    put_end_word(machine, v, text);
}

/// `b waits for a, which locks bucket 0`, or, if a has given the bucket back, `b waits for a, which lists it`.
fn put_listed(
    schedule: &Schedule,
    t: TxnId,
    holder: TxnId,
    bucket: Option<u64>,
    text: &mut Text<'_>,
) {
    let (me, holder) = (Hole::txn(schedule, t), Hole::txn(schedule, holder));
    match bucket {
        Some(bucket) => text.form(
            "@ waits for @, which locks bucket @",
            &[me, holder, Hole::Number(bucket)],
        ),
        None => text.form("@ waits for @, which lists it", &[me, holder]),
    }
}

fn put_aborted(me: Hole<'_>, cause: Cause, text: &mut Text<'_>) {
    text.form("@ is ", &[me]);
    text.show(&StateText(State::Aborted(cause)));
    text.put(" already");
}

/// `b waits for a, which read-locks version 0 (8040000000000002)`, or `b waits for a, which lists it`.
fn put_edge(
    schedule: &Schedule,
    machine: &Machine,
    waiter: TxnId,
    next: TxnId,
    version: Option<VersionId>,
    text: &mut Text<'_>,
) {
    match version {
        Some(v) => put_read_locked(schedule, machine, waiter, v, &[next], text),
        None => put_listed(schedule, waiter, next, None, text),
    }
}

/// What a transaction has left to give back and to stamp.
fn put_holds(me: Hole<'_>, counts: [usize; 4], text: &mut Text<'_>) {
    let [reads, buckets, waiters, writes] = counts;
    text.form(
        "@ has left: reads @, buckets @, waiting @, writes @",
        &[
            me,
            Hole::Number(reads as u64),
            Hole::Number(buckets as u64),
            Hole::Number(waiters as u64),
            Hole::Number(writes as u64),
        ],
    );
}
