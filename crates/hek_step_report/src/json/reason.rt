//! Reasons of replies.
use crate::json::party::put_party;
use crate::json::word::{put_begin, put_begins, put_end, put_ends};
use crate::looks::looks_at;
use crate::phase::phase_text;
use crate::released::{Release, release_in};
use crate::rule_choice::reply_rule;
use hek_machine::Machine;
use hek_report::{Lines, StateText};
use hek_rules::{
    BeginRecord, Cause, Level, Refusal, Schedule, Sight, State, Time, TxnId, VersionId,
};
use hek_why::{Met, Phase, Reason, Step};

/// The reasons of a step, in their order, of a release first what it gave back; each, if `ruled` is set, with the name of the definition that decided it.
pub(crate) fn put_reasons(
    schedule: &Schedule,
    step: &Step<'_>,
    reasons: &[Reason],
    ruled: bool,
    out: &mut Lines,
) {
    out.put_key("why");
    out.begin_array();
    put_release(schedule, step, ruled, out);
    for reason in reasons {
        out.begin_object();
        out.put_text("kind", kind_of(reason));
        put_reason(schedule, step, reason, out);
        if ruled {
            out.put_text("rule", reason.rule_name(step.reply));
        }
        out.end_object();
    }
    out.end_array();
}

/// What the release of a step gave back, if it is one that gave something back.
fn put_release(schedule: &Schedule, step: &Step<'_>, ruled: bool, out: &mut Lines) {
    let Some(release) = release_in(step) else {
        return;
    };
    out.begin_object();
    out.put_text("kind", "gave-back");
    put_given(schedule, release, out);
    if ruled {
        out.put_text("rule", reply_rule(step, &[]).definition);
    }
    out.end_object();
}

fn put_given(schedule: &Schedule, release: Release, out: &mut Lines) {
    match release {
        Release::LastRead(version, writer, waits) => {
            out.put_version(version);
            out.put_name("waiter", schedule, writer);
            out.put_number("waits", waits);
        }
        Release::Read(version, writer, readers) => {
            out.put_version(version);
            out.put_maybe_name("writer", schedule, writer);
            out.put_number("readers", readers as u64);
        }
        Release::Bucket(bucket) => out.put_number("bucket", bucket),
        Release::Waiter(waiter, waits) => {
            out.put_name("waiter", schedule, waiter);
            out.put_number("waits", waits);
        }
    }
}

/// The kind of a reason.
fn kind_of(reason: &Reason) -> &'static str {
    match reason {
        Reason::ReadLocked { .. } => "read-locked",
        Reason::Listed { .. } => "listed",
        Reason::Depends(_) => "depends",
        Reason::Looked { .. } => "looked",
        Reason::Stopped { .. } => "stopped",
        Reason::DoomedBy(_) => "doomed",
        Reason::AbortedBefore(_) => "aborted",
        Reason::WaitsFor { .. } => "waits-for",
        Reason::Refused { .. } => "refused",
        Reason::Holds { .. } => "holds",
        Reason::Begin { .. } => "begin",
        Reason::End { .. } => "end",
    }
}

/// What a reason has beside its kind.
fn put_reason(schedule: &Schedule, step: &Step<'_>, reason: &Reason, out: &mut Lines) {
    match reason {
        Reason::Looked { version, sight } => {
            out.put_version(*version);
            put_sight(schedule, *sight, out);
            put_look(schedule, step, *version, out);
        }
        Reason::Stopped {
            version,
            cause,
            met,
        } => put_stop(schedule, step.before, *version, *cause, *met, out),
        Reason::ReadLocked { version, readers } => {
            out.put_version(*version);
            out.put_names("readers", schedule, readers.as_slice());
            put_end_of(schedule, step.before, *version, out);
        }
        Reason::WaitsFor {
            waiter,
            next,
            version,
        } => put_edge(schedule, step.before, *waiter, *next, *version, out),
        _ => put_plain_reason(schedule, reason, out),
    }
}

/// What a reason has beside its kind, of those that don't ask the machine.
fn put_plain_reason(schedule: &Schedule, reason: &Reason, out: &mut Lines) {
    match reason {
        Reason::Listed { holder, bucket } => {
            out.put_name("holder", schedule, *holder);
            out.put_maybe("bucket", *bucket);
        }
        Reason::Depends(u) => out.put_name("on", schedule, *u),
        Reason::DoomedBy(u) => out.put_name("by", schedule, *u),
        Reason::AbortedBefore(cause) => out.put_text("cause", (*cause).word()),
        Reason::Refused {
            refusal,
            phase,
            state,
            finished,
        } => put_refused(*refusal, *phase, *state, *finished, out),
        Reason::Holds {
            reads,
            buckets,
            waiters,
            writes,
        } => put_holds([*reads, *buckets, *waiters, *writes], out),
        _ => put_words(schedule, reason, out),
    }
}

/// The words that an event changed, or left as they were. Any other reason has none.
fn put_words(schedule: &Schedule, reason: &Reason, out: &mut Lines) {
    match reason {
        Reason::Begin {
            version,
            before,
            after,
        } => {
            out.put_version(*version);
            put_begins(schedule, *before, *after, out);
        }
        Reason::End {
            version,
            before,
            after,
        } => {
            out.put_version(*version);
            put_ends(schedule, *before, *after, out);
        }
        _ => (),
    }
}

/// The Begin word of a version, if there is the version.
fn put_begin_of(schedule: &Schedule, machine: &Machine, version: VersionId, out: &mut Lines) {
    if let Some(word) = machine.begin_word(version) {
        put_begin("begin", schedule, word, out);
    }
}

/// The End word of a version, if there is the version.
fn put_end_of(schedule: &Schedule, machine: &Machine, version: VersionId, out: &mut Lines) {
    if let Some(word) = machine.end_word(version) {
        put_end("end", schedule, word, out);
    }
}

/// Why a member of a cycle waits for the next.
fn put_edge(
    schedule: &Schedule,
    machine: &Machine,
    waiter: TxnId,
    next: TxnId,
    version: Option<VersionId>,
    out: &mut Lines,
) {
    out.put_name("txn", schedule, waiter);
    out.put_name("for", schedule, next);
    if let Some(version) = version {
        out.put_version(version);
        put_end_of(schedule, machine, version, out);
    }
}

/// How a version is seen, and which commit that depends on.
fn put_sight(schedule: &Schedule, sight: Sight, out: &mut Lines) {
    let word = match sight {
        Sight::Seen | Sight::SeenIf(_) => "seen",
        Sight::Hidden | Sight::HiddenIf(_) | Sight::HiddenActive(_) => "passed over",
    };
    out.put_text("sight", word);
    match sight {
        Sight::SeenIf(u) | Sight::HiddenIf(u) => out.put_name("if", schedule, u),
        _ => (),
    }
}

/// The time at which the step's transaction looks at a version, its words, and the transactions that these name.
fn put_look(schedule: &Schedule, step: &Step<'_>, version: VersionId, out: &mut Lines) {
    let machine = step.before;
    out.put_number(
        "at",
        looks_at(machine, step.event.txn().unwrap_or(TxnId::new(0))).number(),
    );
    put_begin_of(schedule, machine, version, out);
    put_end_of(schedule, machine, version, out);
    if let Some(u) = maker_of(machine, version) {
        put_party("maker", schedule, machine, u, out);
    }
    if let Some(u) = writer_of(machine, version) {
        put_party("writer", schedule, machine, u, out);
    }
}

/// The transaction that a Begin word names.
fn maker_of(machine: &Machine, version: VersionId) -> Option<TxnId> {
    match machine.begin_word(version)?.content() {
        BeginRecord::At(_) => None,
        BeginRecord::By(u) => Some(u),
    }
}

/// The transaction that an End word names.
fn writer_of(machine: &Machine, version: VersionId) -> Option<TxnId> {
    machine.end_word(version)?.writer()
}

/// A stop at a version: its cause, what was met there, and the word that says so.
fn put_stop(
    schedule: &Schedule,
    machine: &Machine,
    version: VersionId,
    cause: Cause,
    met: Met,
    out: &mut Lines,
) {
    out.put_version(version);
    out.put_text("cause", cause.word());
    match met {
        Met::Writer(u) => put_party("writer", schedule, machine, u, out),
        Met::Creator(u) => put_party("maker", schedule, machine, u, out),
        Met::Readers(count) => out.put_number("readers", u64::from(count)),
        Met::EndedAt(time) => out.put_number("ended", time.number()),
        Met::MadeAt(time) => out.put_number("made", time.number()),
    }
    match met {
        Met::Creator(_) | Met::MadeAt(_) => put_begin_of(schedule, machine, version, out),
        _ => put_end_of(schedule, machine, version, out),
    }
}

/// The state of the transaction, and the phase that the event is for.
fn put_refused(refusal: Refusal, phase: Phase, state: State, finished: bool, out: &mut Lines) {
    out.put_text("refusal", refusal.name());
    out.put_shown("state", &StateText(state));
    out.put_flag("finished", finished);
    out.put_text("wanted", phase_text(phase));
}

/// What a transaction has left to give back and to stamp.
fn put_holds(counts: [usize; 4], out: &mut Lines) {
    let [reads, buckets, waiting, writes] = counts;
    out.put_number("reads", reads as u64);
    out.put_number("buckets", buckets as u64);
    out.put_number("waiting", waiting as u64);
    out.put_number("writes", writes as u64);
}
