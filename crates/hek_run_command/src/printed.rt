//! Steps, states and faults as text or as objects of JSON.
ghost use Rattle.std.specs.Prelude.{length};
ghost use Rattle.hek_asm.specs.Trace.{NamesDeclared};

use hek_asm::{AsmKind, put_line};
use hek_diagnostics::{Diagnostic, explain_event};
use hek_machine::Machine;
use hek_report::{INPUT, Lines, Printing, put};
use hek_rules::{Event, NoMemory, Reply, Schedule};
use hek_step_report::{Told, json, text};
use std::alloc::Global;
use std::io::Write;

/// Appends the line of a step with nothing beside its event and reply.
pub(crate) fn put_plain(
    alloc: Global,
    printing: Printing,
    schedule: &Schedule,
    number: u64,
    event: &Event,
    reply: &Reply,
    lines: &mut Vec<u8>,
) -> Result<(), NoMemory>
    requires { NamesDeclared (length schedule.now.txns) event.now }
{
    match printing {
        Printing::Text => put_line(schedule, number, event, reply, lines),
        Printing::Json => {
            let mut objects = Lines::after(alloc, lines);
            json::put_plain(schedule, number, event, reply, &mut objects);
            objects.put_back(lines)
        }
    }
}

/// Appends the lines of a step.
pub(crate) fn put_told(
    alloc: Global,
    printing: Printing,
    schedule: &Schedule,
    told: &Told<'_>,
    lines: &mut Vec<u8>,
) -> Result<(), NoMemory>
    requires { NamesDeclared (length schedule.now.txns) told.now.step.now.event }
{
    match printing {
        Printing::Text => text::put_told(schedule, told, lines),
        Printing::Json => {
            let mut objects = Lines::after(alloc, lines);
            json::put_told(schedule, told, &mut objects);
            objects.put_back(lines)
        }
    }
}

/// Appends the lines of a machine's state.
pub(crate) fn put_state(
    alloc: Global,
    printing: Printing,
    schedule: &Schedule,
    machine: &Machine,
    lines: &mut Vec<u8>,
) -> Result<(), NoMemory> {
    match printing {
        Printing::Text => text::put_state(alloc, schedule, machine, lines),
        Printing::Json => {
            let mut objects = Lines::after(alloc, lines);
            json::put_state(schedule, machine, &mut objects);
            objects.put_back(lines)
        }
    }
}

/// Appends the line of a line of the input that is no event: its number, and what is wrong with it.
pub(crate) fn put_fault(
    alloc: Global,
    printing: Printing,
    schedule: &Schedule,
    number: u64,
    line: &[u8],
    kind: AsmKind,
    lines: &mut Vec<u8>,
) -> Result<(), NoMemory> {
    match printing {
        Printing::Text => put(writeln!(lines, "? line {number}: {kind}")),
        Printing::Json => {
            let found = explain_event(alloc, INPUT, schedule, line, number)?;
            let mut objects = Lines::after(alloc, lines);
            put_fault_object(number, kind, found.as_ref(), &mut objects);
            objects.put_back(lines)
        }
    }
}

/// Puts the object of a line that is no event, with what is found wrong with it.
fn put_fault_object(
    number: u64,
    kind: AsmKind,
    found: Option<&Diagnostic<'_>>,
    objects: &mut Lines,
) {
    objects.begin_line();
    objects.put_number("line", number);
    objects.put_number("code", kind.number());
    objects.put_text("fault", kind.name());
    if let Some(found) = found {
        put_found(found, objects);
    }
    objects.end_line();
}

/// Puts what is found wrong with a line: where, what is wrong, what is wanted, what is meant, and what to do instead.
fn put_found(found: &Diagnostic<'_>, objects: &mut Lines) {
    objects.put_number("column", found.place.column() as u64);
    objects.put_shown("message", &found.message());
    if let Some(wanted) = found.wanted() {
        objects.put_shown("wanted", wanted);
    }
    if let Some(meant) = found.meant() {
        objects.put_text("meant", meant);
    }
    if let Some(instead) = found.instead() {
        objects.put_shown("instead", &instead);
    }
}
