//! A verdict as objects of JSON.
use crate::faults::Fault;
use crate::reported::Reported;
use crate::sources::{Source, missing_reads};
use hek_history_report::put_members;
use hek_report::Lines;
use hek_rules::{NoMemory, Verdict};
use std::alloc::Global;

/// Appends the object of a verdict, and that of each event at fault, if they are asked for.
pub(crate) fn put_reported(
    alloc: Global,
    reported: &Reported<'_>,
    lines: &mut Vec<u8>,
) -> Result<(), NoMemory> {
    let mut objects = Lines::after(alloc, lines);
    put_verdict(reported, &mut objects);
    if reported.asked.all {
        for fault in reported.faults {
            put_fault(alloc, reported, fault, &mut objects)?;
        }
    }
    objects.put_back(lines)
}

/// The line of a verdict, with how much is judged if that is asked for.
fn put_verdict(reported: &Reported<'_>, out: &mut Lines) {
    out.begin_line();
    match reported.verdict {
        Verdict::Serial => out.put_text("verdict", "serial"),
        Verdict::NotSerial(number) => put_not_serial(reported, number, out),
    }
    if reported.asked.summary {
        out.put_number("committed", reported.judged.committed as u64);
        out.put_number("judged", reported.judged.events as u64);
    }
    if let Some(together) = reported.together {
        out.put_key("together");
        out.begin_object();
        put_members(reported.schedule, together, out);
        out.end_object();
    }
    out.end_line();
}

/// The verdict that the event with a number is the first at fault, with its serial reply if that is asked for.
fn put_not_serial(reported: &Reported<'_>, number: u64, out: &mut Lines) {
    out.put_text("verdict", "not serial");
    out.put_number("step", number);
    if !reported.asked.why {
        return;
    }
    if let Some(fault) = reported.faults.first() {
        out.put_maybe_reply("serial_reply", reported.schedule, fault.serial.as_ref());
    }
}

/// The number of the event at a place.
fn number_of(place: usize) -> u64 {
    (place as u64).saturating_add(1)
}

/// The line of an event at fault: its step, its serial reply, and the pairs of the one reply that the other lacks.
fn put_fault(
    alloc: Global,
    reported: &Reported<'_>,
    fault: &Fault,
    out: &mut Lines,
) -> Result<(), NoMemory> {
    let place = fault.place;
    let (Some(event), Some(reply)) = (
        reported.transcript.events().get(place),
        reported.transcript.replies().get(place),
    ) else {
        return Ok(());
    };
    out.begin_step(reported.schedule, number_of(place), event, reply);
    out.put_maybe_reply("serial_reply", reported.schedule, fault.serial.as_ref());
    let missing = missing_reads(alloc, reported.transcript, fault)?;
    put_missing("read", reported, missing.read.as_slice(), out);
    put_missing("missed", reported, missing.missed.as_slice(), out);
    out.end_line();
    Ok(())
}

/// Pairs with their sources.
fn put_missing(
    name: &str,
    reported: &Reported<'_>,
    pairs: &[((u64, u64), Source)],
    out: &mut Lines,
) {
    out.put_key(name);
    out.begin_array();
    for (pair, source) in pairs {
        out.begin_object();
        out.put_number("key", pair.0);
        out.put_number("value", pair.1);
        put_source(reported, *source, out);
        out.end_object();
    }
    out.end_array();
}

fn put_source(reported: &Reported<'_>, source: Source, out: &mut Lines) {
    match source {
        Source::Loaded => out.put_text("source", "loaded"),
        Source::Nowhere => out.put_text("source", "none"),
        Source::Write(place) => {
            out.put_text("source", "write");
            put_writer(reported, place, out);
        }
    }
}

/// The transaction and the number of a write.
fn put_writer(reported: &Reported<'_>, place: usize, out: &mut Lines) {
    if let Some(event) = reported.transcript.events().get(place) {
        if let Some(txn) = event.txn() {
            out.put_name("txn", reported.schedule, txn);
        }
    }
    out.put_number("step", number_of(place));
}
