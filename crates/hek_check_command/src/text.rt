//! A verdict as text.
use crate::check::put_serial_reply;
use crate::faults::Fault;
use crate::reported::Reported;
use crate::sources::{Source, missing_reads};
use hek_history_report::put_phrase;
use hek_report::{Hole, Text};
use hek_rules::NoMemory;
use std::alloc::Global;

/// Appends what follows the words of a verdict and their end: how much is judged, the serial reply of the first event at
/// fault, and each event at fault.
pub(crate) fn put_rest(
    alloc: Global,
    reported: &Reported<'_>,
    lines: &mut Vec<u8>,
) -> Result<(), NoMemory> {
    if reported.asked.summary {
        put_summary(reported, lines)?;
    }
    if reported.asked.why {
        put_reason(reported.faults, lines)?;
    }
    if reported.asked.all {
        put_faults(alloc, reported, lines)?;
    }
    Ok(())
}

/// The end of the verdict's line: how much is judged, and whether the committed transactions can follow one another.
fn put_summary(reported: &Reported<'_>, lines: &mut Vec<u8>) -> Result<(), NoMemory> {
    let mut text = Text::after(lines);
    text.put(" ");
    text.show(&reported.judged);
    if let Some(together) = reported.together {
        text.put("; the outcome is ");
        put_phrase(reported.schedule, together, &mut text);
    }
    text.put("\n");
    text.done()
}

/// The line with the serial reply of the first fault.
fn put_reason(faults: &[Fault], lines: &mut Vec<u8>) -> Result<(), NoMemory> {
    let Some(fault) = faults.first() else {
        return Ok(());
    };
    let mut text = Text::after(lines);
    text.put("serial reply: ");
    put_serial_reply(fault.serial.as_ref(), text.bytes())?;
    text.put("\n");
    text.done()
}

/// The lines of all faults.
fn put_faults(alloc: Global, reported: &Reported<'_>, lines: &mut Vec<u8>) -> Result<(), NoMemory> {
    let names = names_of(alloc, reported.text)?;
    let mut trace = reported.text.lines();
    let mut next = 0usize;
    for fault in reported.faults {
        let line = trace.nth(fault.place.saturating_sub(next)).unwrap_or("");
        next = fault.place.saturating_add(1);
        put_fault(alloc, reported, names.as_slice(), line, fault, lines)?;
    }
    Ok(())
}

/// The name in each line of a trace: of its transaction, or `detect`.
fn names_of<'t>(alloc: Global, text: &'t str) -> Result<Vec<&'t str>, NoMemory> {
    let mut names = Vec::new(alloc);
    for line in text.lines() {
        names.push(line.split(' ').nth(1).unwrap_or(""))?;
    }
    Ok(names)
}

/// The line of a fault: its line of the trace, the serial reply, and where each pair comes from that the reply has and the
/// serial reply lacks, and each that it lacks and the serial reply has: `; read 10=100 loaded; missed 10=200 by b at 4`.
fn put_fault(
    alloc: Global,
    reported: &Reported<'_>,
    names: &[&str],
    line: &str,
    fault: &Fault,
    lines: &mut Vec<u8>,
) -> Result<(), NoMemory> {
    let mut text = Text::after(lines);
    text.form("@; serial reply: ", &[Hole::Word(line)]);
    put_serial_reply(fault.serial.as_ref(), text.bytes())?;
    let missing = missing_reads(alloc, reported.transcript, fault)?;
    for (pair, source) in missing.read.as_slice() {
        put_source("read", *pair, *source, names, &mut text);
    }
    for (pair, source) in missing.missed.as_slice() {
        put_source("missed", *pair, *source, names, &mut text);
    }
    text.put("\n");
    text.done()
}

fn put_source(label: &str, pair: (u64, u64), source: Source, names: &[&str], text: &mut Text<'_>) {
    let (key, value) = pair;
    let holes = [Hole::Word(label), Hole::Number(key), Hole::Number(value)];
    text.form("; @ @=@", &holes);
    match source {
        Source::Loaded => text.put(" loaded"),
        Source::Nowhere => text.put(" written by none"),
        Source::Write(place) => {
            let name = Hole::Word(names.get(place).copied().unwrap_or(""));
            let number = Hole::Number((place as u64).saturating_add(1));
            text.form(" by @ at @", &[name, number]);
        }
    }
}
