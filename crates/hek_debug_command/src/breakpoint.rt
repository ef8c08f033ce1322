//! Breakpoints of a session: those of the debugger, and those that only a session has.
use crate::condition::Condition;
use crate::reply_kind::ReplyKind;
use hek_debug::{Debugger, Mark};
use hek_machine::Machine;
use hek_rules::{Event, Reply};

/// Where a breakpoint fits.
#[derive(Clone, Copy)]
pub(crate) enum Breakpoint {
    /// Where this mark of the debugger does.
    Mark(Mark),
    /// After a step with a reply of this kind.
    Reply(ReplyKind),
    /// After a step that makes this condition true.
    If(Condition),
}

/// A step that was done, and the machine after it.
#[derive(Clone, Copy)]
pub(crate) struct Seen<'a> {
    number: u64,
    event: Event,
    reply: &'a Reply,
    machine: &'a Machine,
}

impl<'a> Seen<'a> {
    /// The last step that a debugger has done, with its reply.
    pub(crate) fn last_of(debugger: &'a Debugger, reply: &'a Reply) -> Option<Seen<'a>> {
        let number = debugger.at();
        let steps = debugger.schedule().steps();
        if number == 0 || number > steps.len() as u64 {
            return None;
        }
        Some(Seen {
            number,
            event: steps[(number - 1) as usize],
            reply,
            machine: debugger.machine(),
        })
    }
}

impl Breakpoint {
    /// Whether its condition is true, if it has one.
    pub(crate) fn is_met(self, machine: &Machine) -> bool {
        match self {
            Breakpoint::If(condition) => condition.is_met(machine),
            Breakpoint::Mark(_) | Breakpoint::Reply(_) => false,
        }
    }

    /// Whether it fits after a step, before which its condition was true or not.
    pub(crate) fn fits(self, seen: &Seen<'_>, was_met: bool) -> bool {
        match self {
            Breakpoint::Mark(mark) => fits_mark(mark, seen),
            Breakpoint::Reply(kind) => kind.has(seen.reply),
            Breakpoint::If(condition) => !was_met && condition.is_met(seen.machine),
        }
    }
}

/// Whether a breakpoint of the debugger fits after a step.
fn fits_mark(mark: Mark, seen: &Seen<'_>) -> bool {
    match mark {
        Mark::At(place) => seen.number == place,
        Mark::OnEvent(kind) => seen.event.kind() == kind,
        Mark::OnTxn(t) => seen.event.txn() == Some(t),
        Mark::WatchBegin(_) | Mark::WatchEnd(_) | Mark::WatchWaits(_) => false,
    }
}
