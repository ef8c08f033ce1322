//! Histories and outcomes as text.
ghost use Rattle.std.specs.Prelude.{◌≡◌, length, IfOk};
ghost use Rattle.std.specs.List.{AllByRecursion};
ghost use Rattle.hek_asm.specs.Trace.{NamesDeclared, trace};
ghost use Rattle.hek_worker.specs.History.{IsHistory, history_events, replies_in};

use crate::outcome::Outcome;
use hek_asm::{put_reply, put_trace};
use hek_history_report::{put_details, put_word};
use hek_report::{Hole, Text};
use hek_rules::{Event, NoMemory, Reply, Schedule, TxnId};
use hek_threads::Entry;
use std::alloc::Global;

/// The trace of a history.
#[tactic(auto, using(crate::proofs::Histories::paired))]
pub(crate) fn trace_text(
    alloc: Global,
    schedule: &Schedule,
    history: Vec<Entry>,
) -> Result<Vec<u8>, NoMemory>
    requires { IsHistory (length schedule.now.txns) history.items }
    ensures { IfOk result (λ text. text.items ≡ trace schedule.now (history_events history.items) (replies_in history.items)) }
{
    let events = events_in(alloc, history.as_slice())?;
    let replies = replies_of(alloc, history)?;
    text_of(alloc, schedule, events.as_slice(), replies.as_slice())
}

/// The events of a history.
fn events_in(alloc: Global, history: &[Entry]) -> Result<Vec<Event>, NoMemory>
    ensures { IfOk result (λ events. events.items ≡ history_events history.now) }
{
    Ok(history.iter().map(|entry| entry.event).collect(alloc)?)
}

/// The replies of a history.
fn replies_of(alloc: Global, history: Vec<Entry>) -> Result<Vec<Reply>, NoMemory>
    ensures { IfOk result (λ replies. replies.items ≡ replies_in history.items) }
{
    Ok(history.into_iter().map(reply_of).collect(alloc)?)
}

fn reply_of(entry: Entry) -> Reply
    ensures { result ≡ entry.reply }
{
    let Entry {
        worker: _,
        event: _,
        reply,
    } = entry;
    reply
}

/// The trace of events and replies.
fn text_of(
    alloc: Global,
    schedule: &Schedule,
    events: &[Event],
    replies: &[Reply],
) -> Result<Vec<u8>, NoMemory>
    requires declared { AllByRecursion (NamesDeclared (length schedule.now.txns)) events.now }
    requires paired { length replies.now ≡ length events.now }
    ensures { IfOk result (λ text. text.items ≡ trace schedule.now events.now replies.now) }
{
    let mut text = Vec::new(alloc);
    put_trace(schedule, events, replies, &mut text)?;
    Ok(text)
}

/// Appends an outcome: each transaction by name, with how it ended; the committed rows; whether the committed
/// transactions can follow one another.
pub(crate) fn put_outcome(
    schedule: &Schedule,
    outcome: &Outcome,
    lines: &mut Vec<u8>,
) -> Result<(), NoMemory> {
    let mut text = Text::after(lines);
    for (place, end) in outcome.ends.iter().enumerate() {
        let txn = TxnId::new((place as u64).saturating_add(1));
        text.form("@ ", &[Hole::txn(schedule, txn)]);
        put_reply(end, text.bytes())?;
        text.put("; ");
    }
    text.put("rows");
    for (key, value) in outcome.rows.items() {
        text.form(" @=@", &[Hole::Number(*key), Hole::Number(*value)]);
    }
    text.put("; ");
    put_word(&outcome.together, &mut text);
    text.done()
}

/// How many outcomes there were in how many runs.
pub(crate) fn put_heading(outcomes: usize, runs: u64, lines: &mut Vec<u8>) -> Result<(), NoMemory> {
    let mut text = Text::after(lines);
    text.form(
        "outcomes @; runs @\n",
        &[Hole::Number(outcomes as u64), Hole::Number(runs)],
    );
    text.done()
}

/// The line of an outcome, and of how many runs had it. In which other order it is serializable, or who comes before whom,
/// is that of the first run that had it.
pub(crate) fn put_seen(
    schedule: &Schedule,
    runs: u64,
    outcome: &Outcome,
    lines: &mut Vec<u8>,
) -> Result<(), NoMemory> {
    let mut text = Text::after(lines);
    text.form("@ ", &[Hole::Number(runs)]);
    put_outcome(schedule, outcome, text.bytes())?;
    put_details(schedule, &outcome.together, &mut text);
    text.put("\n");
    text.done()
}
