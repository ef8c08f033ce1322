//! The data of a run's page, as an object of JSON.
use crate::comments::Comments;
use crate::heading::{Heading, put_heading};
use crate::step_text::StepText;
use crate::story::{StepRange, Story, story_of};
use hek_history_report::{put_members, together_of};
use hek_report::Lines;
use hek_rules::{NoMemory, Schedule, Transcript, Verdict};
use hek_serial::check;
use std::alloc::Global;
use std::str;

/// The data of the page of a schedule.
pub(crate) fn data_of(
    alloc: Global,
    schedule: &Schedule,
    range: StepRange,
    heading: &Heading<'_>,
    comments: &Comments,
) -> Result<Vec<u8>, NoMemory> {
    let story = story_of(alloc, schedule, range)?;
    let mut out = Lines::new(alloc);
    out.begin_line();
    out.put_text("kind", "run");
    put_heading(alloc, heading, comments, &mut out);
    out.put_number("buckets", schedule.buckets());
    out.put_number("done", range.done as u64);
    put_story(range, comments, &story, &mut out);
    put_verdicts(alloc, schedule, &story.transcript, &mut out)?;
    out.end_line();
    out.take()
}

/// Puts a member of lines, which are UTF-8.
pub(crate) fn put_lines(name: &str, lines: &[u8], out: &mut Lines) {
    out.put_text(name, text_of(lines));
}

/// Lines as text.
pub(crate) fn text_of(lines: &[u8]) -> &str {
    str::from_utf8(lines).unwrap_or("")
}

/// Puts the run.
fn put_story(range: StepRange, comments: &Comments, story: &Story, out: &mut Lines) {
    put_lines("opening", story.opening.lines.as_slice(), out);
    put_lines("waits", story.opening.waits.as_slice(), out);
    put_lines("asked", story.opening.asked.as_slice(), out);
    put_lines("trace", story.trace.as_slice(), out);
    out.put_key("steps");
    out.begin_array();
    let mut number = range.done as u64;
    for step in &story.steps {
        number = number.saturating_add(1);
        put_step(step, number, comments, out);
    }
    out.end_array();
}

/// Puts `fault`, the number of the first event whose reply its level doesn't promise, or 0; and `together`, whether the
/// committed transactions can follow one another.
fn put_verdicts(
    alloc: Global,
    schedule: &Schedule,
    transcript: &Transcript,
    out: &mut Lines,
) -> Result<(), NoMemory> {
    out.put_number("fault", number_of(check(alloc, transcript)?));
    let together = together_of(alloc, schedule, transcript)?;
    out.put_key("together");
    out.begin_object();
    put_members(schedule, &together, out);
    out.end_object();
    Ok(())
}

/// The number of the first event that isn't right, or 0.
fn number_of(verdict: Verdict) -> u64 {
    match verdict {
        Verdict::Serial => 0,
        Verdict::NotSerial(number) => number,
    }
}

/// Puts the object of a step: its texts, null for waits that are those before it; and what is noted and asked there.
fn put_step(step: &StepText, number: u64, comments: &Comments, out: &mut Lines) {
    out.begin_object();
    put_lines("changed", step.changed.as_slice(), out);
    put_lines("gone", step.gone.as_slice(), out);
    put_lines("why", step.why.as_slice(), out);
    put_rule(step, out);
    put_lines("sees", step.sees.as_slice(), out);
    match &step.waits {
        Some(waits) => put_lines("waits", waits.as_slice(), out),
        None => out.put_null("waits"),
    }
    put_lines("ends", step.ends.as_slice(), out);
    out.put_text("note", comments.note_of(number));
    out.put_text("question", comments.question_of(number));
    out.end_object();
}

/// Puts the row of the table of replies: its name and its texts.
fn put_rule(step: &StepText, out: &mut Lines) {
    out.put_text("rule", step.rule);
    out.put_text("sentence", step.sentence);
    out.put_text("definition", step.definition);
    out.put_text("comes", step.comes);
}
