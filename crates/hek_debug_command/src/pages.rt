//! Answers to the questions of a session.
use crate::condition::Condition;
use crate::held::{Held, HeldStop, count_held};
use crate::help::{HELP, help_on};
use crate::listing::put_steps;
use crate::question::Question;
use crate::reply_kind::ReplyKind;
use crate::shown::{
    put_clock, put_key, put_one_bucket, put_one_txn, put_one_version, put_state, put_waits,
};
use crate::stop_text::{put_name, put_number, put_text};
use hek_debug::{Debugger, Mark};
use hek_rules::{NoMemory, Schedule, TxnId};
use hek_run_command::explain_step;
use hek_step_report::{Extras, Why};
use std::alloc::Global;

const WHY: Extras = Extras {
    why: Some(Why::Reasons),
    changes: false,
};

const CHANGES: Extras = Extras {
    why: None,
    changes: true,
};

/// Appends the answer to a question. `quit` has none.
pub(crate) fn put_answer(
    alloc: Global,
    debugger: &Debugger,
    held: &[Held],
    question: Question,
    lines: &mut Vec<u8>,
) -> Result<(), NoMemory> {
    match question {
        Question::Why => put_last(alloc, debugger, WHY, lines),
        Question::Changes => put_last(alloc, debugger, CHANGES, lines),
        Question::Steps(listing) => put_steps(alloc, debugger, listing, lines),
        Question::Marks => put_marks(debugger, held, lines),
        Question::Help => put_text(HELP, lines),
        Question::HelpOn(name) => put_text(help_on(name), lines),
        Question::Quit => Ok(()),
        shown => put_shown(alloc, debugger, shown, lines),
    }
}

/// Appends the answer to a question about the state.
fn put_shown(
    alloc: Global,
    debugger: &Debugger,
    question: Question,
    lines: &mut Vec<u8>,
) -> Result<(), NoMemory> {
    let (schedule, machine) = (debugger.schedule(), debugger.machine());
    match question {
        Question::State => put_state(alloc, debugger, lines),
        Question::Txn(t) => put_one_txn(schedule, machine, t, lines),
        Question::Version(v) => put_one_version(machine, v, lines),
        Question::Key(key) => put_key(machine, key, lines),
        Question::Bucket(bucket) => put_one_bucket(machine, bucket, lines),
        Question::Clock => put_clock(alloc, machine, lines),
        Question::Waits => put_waits(alloc, schedule, machine, lines),
        _ => Ok(()),
    }
}

/// The last step that was done, as in a trace, with what is asked for under it.
fn put_last(
    alloc: Global,
    debugger: &Debugger,
    extras: Extras,
    lines: &mut Vec<u8>,
) -> Result<(), NoMemory> {
    let at = debugger.at();
    if at == 0 {
        return put_text("no step is done\n", lines);
    }
    let mut machine = debugger.machine_at(at - 1)?;
    explain_step(
        alloc,
        debugger.schedule(),
        &mut machine,
        at - 1,
        extras,
        lines,
    )
}

/// Each breakpoint and watch, as the command that sets it.
fn put_marks(debugger: &Debugger, held: &[Held], lines: &mut Vec<u8>) -> Result<(), NoMemory> {
    if count_held(held) == 0 {
        return put_text("none\n", lines);
    }
    let mut index = 0u64;
    for one in held {
        index = index.saturating_add(1);
        put_held(debugger, index, *one, lines)?;
    }
    Ok(())
}

/// The line of a breakpoint or watch. One that was taken away has none.
fn put_held(
    debugger: &Debugger,
    index: u64,
    held: Held,
    lines: &mut Vec<u8>,
) -> Result<(), NoMemory> {
    let word = if held.is_temporary {
        " tbreak "
    } else {
        " break "
    };
    match held.stop {
        HeldStop::Gone => Ok(()),
        HeldStop::Reply(kind) => {
            put_number(index, lines)?;
            put_text(word, lines)?;
            put_reply_kind(kind, lines)?;
            put_text("\n", lines)
        }
        HeldStop::If(condition) => {
            put_number(index, lines)?;
            put_text(word, lines)?;
            put_condition(debugger.schedule(), condition, lines)?;
            put_text("\n", lines)
        }
        HeldStop::Mark => match debugger.mark(index) {
            None => Ok(()),
            Some(mark) => {
                put_number(index, lines)?;
                put_mark(debugger.schedule(), word, mark, lines)?;
                put_text("\n", lines)
            }
        },
    }
}

fn put_reply_kind(kind: ReplyKind, lines: &mut Vec<u8>) -> Result<(), NoMemory> {
    let (first, second) = kind.words();
    put_named("reply ", first, lines)?;
    put_second(second, lines)
}

fn put_condition(
    schedule: &Schedule,
    condition: Condition,
    lines: &mut Vec<u8>,
) -> Result<(), NoMemory> {
    put_of_txn(schedule, "if waits ", condition.txn(), lines)?;
    put_named(" ", condition.comparison.word(), lines)?;
    put_numbered(" ", condition.bound, lines)
}

/// The second word of a kind of replies, if it has one.
fn put_second(word: &str, lines: &mut Vec<u8>) -> Result<(), NoMemory> {
    if word.is_empty() {
        return Ok(());
    }
    put_named(" ", word, lines)
}

/// A mark as the command that sets it. `word` is that of a breakpoint, which may be temporary.
fn put_mark(
    schedule: &Schedule,
    word: &str,
    mark: Mark,
    lines: &mut Vec<u8>,
) -> Result<(), NoMemory> {
    let set = mark;
    if is_breakpoint(set) {
        put_text(word, lines)?;
    }
    match mark {
        Mark::At(position) => put_numbered("at ", position, lines),
        Mark::OnEvent(kind) => put_named("event ", kind.word(), lines),
        Mark::OnTxn(t) => put_of_txn(schedule, "txn ", t, lines),
        Mark::WatchBegin(v) => put_numbered(" watch begin ", v.index(), lines),
        Mark::WatchEnd(v) => put_numbered(" watch end ", v.index(), lines),
        Mark::WatchWaits(t) => put_of_txn(schedule, " watch waits ", t, lines),
    }
}

fn is_breakpoint(mark: Mark) -> bool {
    matches!(mark, Mark::At(_) | Mark::OnEvent(_) | Mark::OnTxn(_))
}

fn put_numbered(label: &str, number: u64, lines: &mut Vec<u8>) -> Result<(), NoMemory> {
    put_text(label, lines)?;
    put_number(number, lines)
}

fn put_named(label: &str, name: &str, lines: &mut Vec<u8>) -> Result<(), NoMemory> {
    put_text(label, lines)?;
    put_text(name, lines)
}

fn put_of_txn(
    schedule: &Schedule,
    label: &str,
    t: TxnId,
    lines: &mut Vec<u8>,
) -> Result<(), NoMemory> {
    put_text(label, lines)?;
    put_name(schedule, t, lines)
}
