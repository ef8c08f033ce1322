//! Answers as text.
use crate::counted::{Rest, Tally};
use crate::counts::Counts;
use crate::report::{Answer, Kind};
use hek_anomalies::{Cause, EdgeKind, Evidence};
use hek_history_report::Teller;
use hek_ladder::{Binding, Promise, Scene};
use hek_levels_search::Progress;
use hek_report::{Hole, Text};

/// The words that an answer begins with: how what is asked stands, and at which level. `right` and `wrong` say themselves that it is each
/// transaction's own.
fn put_front(answer: Answer<'_>, text: &mut Text<'_>) {
    match answer.promise {
        None => text.put(answer.word),
        Some(Promise::Own) if answer.progress.is_none() => text.put(answer.word),
        Some(promise) => text.form("@ at @", &[answer.word, promise.word()]),
    }
}

/// The lines of an answer: what is counted, how far a search came, or an anomaly's name and its cycle, and the strongest levels that hold.
pub(crate) fn put_answer(scene: &Scene, answer: Answer<'_>, text: &mut Text<'_>) {
    put_front(answer, text);
    if let Some(counts) = answer.counts {
        put_counted(scene, answer.promise, counts, text);
    }
    if let Some(progress) = answer.progress {
        put_progress(progress, scene.effort, text);
    }
    match answer.cause {
        Some(cause) => put_cause(scene, answer.kind, cause, text),
        None => text.put("\n"),
    }
    put_held(answer.held, text);
}

/// What keeps a log from what is asked.
fn put_cause(scene: &Scene, kind: Kind, cause: &Cause, text: &mut Text<'_>) {
    let teller = Teller {
        alloc: scene.alloc,
        log: &scene.log,
    };
    text.form(": @\n", &[cause.anomaly.name()]);
    teller.put_lines(cause, text);
    if kind == Kind::Verdict {
        put_binding(scene.binding, cause, text);
    }
}

/// What is counted of the order that was found.
fn put_counted(scene: &Scene, promise: Option<Promise>, counts: Counts, text: &mut Text<'_>) {
    if promise == Some(Promise::Own) {
        text.put(": each has what its level promises");
    }
    let transactions = Hole::Count(counts.transactions, "transaction");
    text.form(": @, @", &[transactions, Hole::Count(counts.reads, "read")]);
    match counts.elsewhere {
        None => {}
        Some(0) => text.put(", in the order of their ends"),
        Some(count) => text.form(", @ of them elsewhere than by end time", &[count]),
    }
    let binding = scene.binding;
    let are_numbered = binding.versions && scene.log.has_versions();
    for (binds, words) in [
        (are_numbered, ", versions by their numbers"),
        (binding.sessions, ", sessions kept"),
        (binding.real, ", real time kept"),
    ] {
        if binds {
            text.put(words);
        }
    }
}

/// How far a search came.
fn put_progress(progress: Progress, effort: usize, text: &mut Text<'_>) {
    let conflicts = Hole::Count(progress.conflicts as u64, "conflict");
    text.form(
        ": after @ the search has no order, and no proof that there is none\n",
        &[conflicts],
    );
    let repairs = Hole::Count(effort as u64, "repair");
    let more = Hole::Number(effort.saturating_mul(10) as u64);
    text.form(
        "  it gave up at @ of an order; --effort @ goes on ten times as far",
        &[repairs, more],
    );
}

/// Whether an anomaly rests on what binds, and not on answers alone: on versions, sessions, real time.
fn rests_on(cause: &Cause) -> [bool; 3] {
    let mut rests = [cause.steps > 0; 3];
    for edge in cause.cycle.iter() {
        if let Evidence::Versions | Evidence::EndTimes = edge.evidence {
            rests[0] = true;
        }
        match edge.kind {
            EdgeKind::Session => rests[1] = true,
            EdgeKind::RealTime => rests[2] = true,
            _ => {}
        }
    }
    rests
}

/// The lines that say which orders are asked for, if an anomaly rests on that.
fn put_binding(binding: Binding, cause: &Cause, text: &mut Text<'_>) {
    let [versions, sessions, real] = rests_on(cause);
    for (is_said, orders, option) in [
        (
            binding.versions && versions,
            "the orders in which the versions of a key come as the log has them",
            "--order any",
        ),
        (
            binding.real && real,
            "the orders of real time",
            "--order any",
        ),
        (
            binding.sessions && sessions,
            "the orders that keep sessions",
            "--no-sessions",
        ),
    ] {
        if is_said {
            text.form("  in @; @ asks for any\n", &[orders, option]);
        }
    }
}

/// The line of the strongest levels that hold.
pub(crate) fn put_held(held: &[Promise], text: &mut Text<'_>) {
    for (place, promise) in held.iter().enumerate() {
        let pattern = if place == 0 { "holds at @" } else { " and @" };
        text.form(pattern, &[promise.word()]);
    }
    text.put(if held.is_empty() { "" } else { "\n" });
}

/// The line of how many anomalies there are of each name, and of the rest. If it stands alone, the words of the verdict are before it.
pub(crate) fn put_counts(
    front: Option<Answer<'_>>,
    tally: &Tally,
    rest: Rest,
    text: &mut Text<'_>,
) {
    match front {
        Some(verdict) => put_front(verdict, text),
        None => text.put("in all"),
    }
    text.put(": ");
    tally.put_words(text);
    let verb = if rest == Rest::Holds { "" } else { "is " };
    text.form("; the rest @@\n", &[verb, rest.word()]);
}
