//! Answers as JSON, one object on each line, each with its kind. The members of an object are in the order of their names.
use crate::counted::{Rest, Tally};
use crate::report::{Answer, Kind};
use hek_history_report::Teller;
use hek_ladder::{Binding, Promise, Scene};
use hek_report::Lines;

/// Puts the member `holds`, if there are any: the strongest levels that hold.
fn put_held(held: &[Promise], out: &mut Lines) {
    if held.is_empty() {
        return;
    }
    out.put_key("holds");
    out.begin_array();
    for promise in held {
        out.write_text(promise.word());
    }
    out.end_array();
}

/// The word of a kind.
fn kind_word(kind: Kind) -> &'static str {
    match kind {
        Kind::Verdict => "verdict",
        Kind::Level => "level",
        Kind::Anomaly => "anomaly",
    }
}

/// The object of an answer.
pub(crate) fn put_answer(scene: &Scene, answer: Answer<'_>, out: &mut Lines) {
    let teller = Teller {
        alloc: scene.alloc,
        log: &scene.log,
    };
    out.begin_line();
    if let Some(cause) = answer.cause {
        out.put_text("anomaly", cause.anomaly.name());
    }
    if let Some(progress) = answer.progress {
        out.put_number("conflicts", progress.conflicts as u64);
    }
    if let Some(cause) = answer.cause {
        teller.put_cycle(cause, out);
    }
    if let Some(counts) = answer.counts {
        out.put_maybe("elsewhere", counts.elsewhere);
    }
    if let Some(level) = answer.excluded {
        out.put_text("excluded", level.word());
    }
    put_held(answer.held, out);
    out.put_text("kind", kind_word(answer.kind));
    if let Some(promise) = answer.promise {
        out.put_text("level", promise.word());
    }
    put_rest(scene, teller, answer, out);
    out.end_line();
}

/// The members of an answer from `order` on.
fn put_rest(scene: &Scene, teller: Teller<'_>, answer: Answer<'_>, out: &mut Lines) {
    out.put_text("order", scene.binding.word());
    if let Some(counts) = answer.counts {
        out.put_number("reads", counts.reads);
    }
    if let Some(cause) = answer.cause {
        teller.put_reads(cause, out);
    }
    out.put_flag("sessions", scene.binding.sessions);
    if let Some(cause) = answer.cause {
        teller.put_steps(cause, out);
    }
    if let Some(counts) = answer.counts {
        out.put_number("transactions", counts.transactions);
    }
    if answer.kind != Kind::Anomaly {
        out.put_text("verdict", answer.word);
    }
}

/// The object of how many anomalies there are of each name.
pub(crate) fn put_counts(binding: Binding, tally: &Tally, rest: Rest, out: &mut Lines) {
    out.begin_line();
    tally.put_member(out);
    out.put_text("kind", "counts");
    out.put_text("order", binding.word());
    out.put_text("rest", rest.word());
    out.put_flag("sessions", binding.sessions);
    out.end_line();
}
