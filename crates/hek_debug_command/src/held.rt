//! The breakpoints and watches of a session, by their indexes.
use crate::breakpoint::{Breakpoint, Seen};
use crate::condition::Condition;
use crate::reply_kind::ReplyKind;
use hek_debug::Mark;
use hek_machine::Machine;
use hek_rules::NoMemory;
use std::alloc::Global;

/// A breakpoint or watch of a session. The debugger has a mark for each index: `NEVER` for those that only the session
/// knows.
#[derive(Clone, Copy)]
pub(crate) struct Held {
    pub(crate) stop: HeldStop,
    /// Whether it goes away once a run stops at it.
    pub(crate) is_temporary: bool,
}

/// What the session knows of a breakpoint or watch.
#[derive(Clone, Copy)]
pub(crate) enum HeldStop {
    /// It is the debugger's mark.
    Mark,
    /// A breakpoint on replies, which only the session has.
    Reply(ReplyKind),
    /// A breakpoint with a condition, which only the session has.
    If(Condition),
    /// It was taken away.
    Gone,
}

/// A mark at which no run stops: after a step the position is 1 or more.
pub(crate) const NEVER: Mark = Mark::At(0);

/// A mark of the debugger, which stays.
pub(crate) const MARK: Held = Held {
    stop: HeldStop::Mark,
    is_temporary: false,
};

/// What an index is whose breakpoint or watch was taken away.
pub(crate) const GONE: Held = Held {
    stop: HeldStop::Gone,
    is_temporary: false,
};

/// Appends a breakpoint or watch.
pub(crate) fn push_held(all: &mut Vec<Held>, held: Held) -> Result<(), NoMemory> {
    all.reserve(1)?;
    all.push_reserved(held);
    Ok(())
}

/// How many breakpoints and watches were not taken away.
pub(crate) fn count_held(held: &[Held]) -> u64 {
    let mut count = 0u64;
    for one in held {
        if !is_gone(*one) {
            count = count.saturating_add(1);
        }
    }
    count
}

fn is_gone(held: Held) -> bool {
    matches!(held.stop, HeldStop::Gone)
}

/// Whether a breakpoint or watch has this index.
pub(crate) fn is_held(held: &[Held], index: u64) -> bool {
    if index == 0 || index > held.len() as u64 {
        return false;
    }
    !is_gone(held[(index - 1) as usize])
}

/// Whether the breakpoint with this index goes away once a run stops at it.
pub(crate) fn is_temporary(held: &[Held], index: u64) -> bool {
    if index == 0 || index > held.len() as u64 {
        return false;
    }
    held[(index - 1) as usize].is_temporary
}

/// Whether a breakpoint is one that only the session has.
pub(crate) fn has_own(held: &[Held]) -> bool {
    held.iter().any(|one| matches!(one.stop, HeldStop::Reply(_) | HeldStop::If(_)))
}

/// Whether a run is more than the debugger's own: a breakpoint is one that only the session has, or goes away.
pub(crate) fn is_run_here(held: &[Held]) -> bool {
    has_own(held) || held.iter().any(|one| one.is_temporary)
}

/// Of each breakpoint, whether its condition is true, if it has one.
pub(crate) fn met(alloc: Global, held: &[Held], machine: &Machine) -> Result<Vec<bool>, NoMemory> {
    let mut met = Vec::new(alloc);
    for one in held {
        met.push(is_met(*one, machine))?;
    }
    Ok(met)
}

fn is_met(held: Held, machine: &Machine) -> bool {
    match held.stop {
        HeldStop::If(condition) => condition.is_met(machine),
        HeldStop::Mark | HeldStop::Reply(_) | HeldStop::Gone => false,
    }
}

/// The index of the first breakpoint of the session's own that fits after a step; `were_met` has of each whether its
/// condition was true before.
pub(crate) fn first_own(held: &[Held], were_met: &[bool], seen: &Seen<'_>) -> Option<u64> {
    for (place, one) in held.iter().enumerate() {
        let was_met = were_met.get(place).copied().unwrap_or(false);
        if fits(*one, seen, was_met) {
            return Some((place as u64).saturating_add(1));
        }
    }
    None
}

fn fits(held: Held, seen: &Seen<'_>, was_met: bool) -> bool {
    match held.stop {
        HeldStop::Reply(kind) => Breakpoint::Reply(kind).fits(seen, was_met),
        HeldStop::If(condition) => Breakpoint::If(condition).fits(seen, was_met),
        HeldStop::Mark | HeldStop::Gone => false,
    }
}

/// The least of two indexes, where there are any.
pub(crate) fn least(one: Option<u64>, other: Option<u64>) -> Option<u64> {
    match (one, other) {
        (Some(one), Some(other)) => Some(one.min(other)),
        (Some(index), None) | (None, Some(index)) => Some(index),
        (None, None) => None,
    }
}
