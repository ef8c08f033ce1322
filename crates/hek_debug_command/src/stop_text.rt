//! What a debugger answers, as text.
ghost use Rattle.std.specs.Prelude.{◌≡◌, ◌<◌, ◌++◌, ◌∷◌, [], codes, OnOk};
ghost use Rattle.std.specs.Fmt.{decimal};
ghost use Rattle.hek_rules.specs.Lines.{joined_words};
ghost use Rattle.hek_asm.specs.Trace.{reply_words};
ghost use Rattle.hek_debug.specs.Sessions.{world_at};
ghost use Rattle.hek_debug_command.specs.Debugged.{reason_text, answer_text, stop_line, hex_digit, hex_text, seen_text, count_text, name_text, watch_line, watch_lines, told_text};

use hek_asm::put_reply;
use hek_debug::{Debugger, Mark, Reason, Stop};
use hek_rules::{NoMemory, Reply, Schedule, TxnId};
use std::io::Write;

/// Where a debugger is, and what each of its watches looks at there.
pub(crate) fn put_told(
    debugger: &Debugger,
    stop: &Stop,
    lines: &mut Vec<u8>,
) -> Result<(), NoMemory>
    ensures { OnOk result (lines.new.items ≡ lines.old.items ++ told_text debugger.now stop.now) }
{
    put_stop(stop, lines)?;
    put_watches(debugger, lines)
}

/// The same as `put_told`, with another reason of the stop: a word of a session, and a number that may follow it.
pub(crate) fn put_told_as(
    debugger: &Debugger,
    stop: &Stop,
    word: &str,
    number: Option<u64>,
    lines: &mut Vec<u8>,
) -> Result<(), NoMemory> {
    put_text("at ", lines)?;
    put_number(stop.at, lines)?;
    put_text(word, lines)?;
    if let Some(number) = number {
        put_number(number, lines)?;
    }
    put_answer(&stop.last, lines)?;
    put_text("\n", lines)?;
    put_watches(debugger, lines)
}

/// The line of a stop.
fn put_stop(stop: &Stop, lines: &mut Vec<u8>) -> Result<(), NoMemory>
    ensures { OnOk result (lines.new.items ≡ lines.old.items ++ stop_line stop.now) }
{
    let at = stop.at;
    put_text("at ", lines)?;
    put_number(at, lines)?;
    put_reason(stop.reason, lines)?;
    put_answer(&stop.last, lines)?;
    put_text("\n", lines)
}

pub(crate) fn put_text(text: &str, lines: &mut Vec<u8>) -> Result<(), NoMemory>
    ensures { OnOk result (lines.new.items ≡ lines.old.items ++ text.now) }
{
    lines.extend_from_slice(text.as_bytes())?;
    Ok(())
}

pub(crate) fn put_number(number: u64, lines: &mut Vec<u8>) -> Result<(), NoMemory>
    ensures { OnOk result (lines.new.items ≡ lines.old.items ++ decimal number) }
{
    match write!(lines, "{number}") {
        Ok(()) => Ok(()),
        Err(_) => Err(NoMemory),
    }
}

fn put_reason(reason: Reason, lines: &mut Vec<u8>) -> Result<(), NoMemory>
    ensures { OnOk result (lines.new.items ≡ lines.old.items ++ reason_text reason) }
{
    match reason {
        Reason::End => put_text(" end", lines),
        Reason::Stepped => put_text(" stepped", lines),
        Reason::Break(index) => {
            put_text(" break ", lines)?;
            put_number(index, lines)
        }
        Reason::Back => put_text(" back", lines),
        Reason::Set(index) => {
            put_text(" set ", lines)?;
            put_number(index, lines)
        }
        Reason::Cleared => put_text(" cleared", lines),
    }
}

/// The reply to the last step, if there is one.
fn put_answer(last: &Option<Reply>, lines: &mut Vec<u8>) -> Result<(), NoMemory>
    ensures { OnOk result (lines.new.items ≡ lines.old.items ++ answer_text last.now) }
{
    match last {
        None => Ok(()),
        Some(reply) => {
            put_text(" -> ", lines)?;
            put_reply(reply, lines)
        }
    }
}

/// A line for each watch.
fn put_watches(debugger: &Debugger, lines: &mut Vec<u8>) -> Result<(), NoMemory>
    ensures { OnOk result (lines.new.items ≡ lines.old.items ++ watch_lines debugger.now.plan (world_at debugger.now.plan debugger.now.at) 1 debugger.now.marks) }
{
    let marks = debugger.marks();
    for place in 0..marks.len() {
        put_watch(debugger, place as u64 + 1, marks[place], lines)?;
    }
    Ok(())
}

/// The line of a watch. A breakpoint has none.
fn put_watch(
    debugger: &Debugger,
    index: u64,
    mark: Mark,
    lines: &mut Vec<u8>,
) -> Result<(), NoMemory>
    ensures { OnOk result (lines.new.items ≡ lines.old.items ++ watch_line debugger.now.plan (world_at debugger.now.plan debugger.now.at) index mark) }
{
    let watch = mark;
    let seen = watch.look(debugger.machine());
    match mark {
        Mark::WatchBegin(v) => put_word(index, " begin ", v.index(), seen, lines),
        Mark::WatchEnd(v) => put_word(index, " end ", v.index(), seen, lines),
        Mark::WatchWaits(t) => put_waits(debugger.schedule(), index, t, seen, lines),
        Mark::At(_) | Mark::OnEvent(_) | Mark::OnTxn(_) => Ok(()),
    }
}

fn put_word(
    index: u64,
    label: &str,
    version: u64,
    seen: Option<u64>,
    lines: &mut Vec<u8>,
) -> Result<(), NoMemory>
    ensures { OnOk result (lines.new.items ≡ lines.old.items ++ (decimal index ++ (label.now ++ (decimal version ++ (32 ∷ (seen_text seen ++ 10 ∷ [])))))) }
{
    put_number(index, lines)?;
    put_text(label, lines)?;
    put_number(version, lines)?;
    put_text(" ", lines)?;
    put_seen(seen, lines)?;
    put_text("\n", lines)
}

/// The word that a watch looks at.
fn put_seen(seen: Option<u64>, lines: &mut Vec<u8>) -> Result<(), NoMemory>
    ensures { OnOk result (lines.new.items ≡ lines.old.items ++ seen_text seen) }
{
    match seen {
        Some(bits) => put_hex(16, bits, lines),
        None => put_text("none", lines),
    }
}

/// The last `count` digits of a number in upper-case hexadecimal.
fn put_hex(count: u64, number: u64, lines: &mut Vec<u8>) -> Result<(), NoMemory>
    ensures { OnOk result (lines.new.items ≡ lines.old.items ++ hex_text count number) }
{
    if count == 0 {
        return Ok(());
    }
    put_hex(count - 1, number / 16, lines)?;
    lines.push(hex_digit((number % 16) as u8))?;
    Ok(())
}

fn hex_digit(digit: u8) -> u8
    requires { digit < 16 }
    ensures { result ≡ hex_digit digit }
{
    if digit < 10 {
        b'0' + digit
    } else {
        b'A' - 10 + digit
    }
}

fn put_waits(
    schedule: &Schedule,
    index: u64,
    t: TxnId,
    seen: Option<u64>,
    lines: &mut Vec<u8>,
) -> Result<(), NoMemory>
    ensures { OnOk result (lines.new.items ≡ lines.old.items ++ (decimal index ++ (codes " waits " ++ (name_text schedule.now t ++ (32 ∷ (count_text seen ++ 10 ∷ [])))))) }
{
    put_number(index, lines)?;
    put_text(" waits ", lines)?;
    put_name(schedule, t, lines)?;
    put_text(" ", lines)?;
    put_count(seen, lines)?;
    put_text("\n", lines)
}

/// The name of a transaction, if it is declared.
pub(crate) fn put_name(schedule: &Schedule, t: TxnId, lines: &mut Vec<u8>) -> Result<(), NoMemory>
    ensures { OnOk result (lines.new.items ≡ lines.old.items ++ name_text schedule.now t) }
{
    if t.number() == 0 || t.number() > schedule.txn_count() as u64 {
        return Ok(());
    }
    put_text(schedule.name_of(t), lines)
}

/// The counter that a watch looks at.
fn put_count(seen: Option<u64>, lines: &mut Vec<u8>) -> Result<(), NoMemory>
    ensures { OnOk result (lines.new.items ≡ lines.old.items ++ count_text seen) }
{
    match seen {
        Some(count) => put_number(count, lines),
        None => put_text("none", lines),
    }
}
