//! What a session does with its debugger: the debugger's own commands, and those that only a session has.
ghost use Rattle.std.specs.Prelude.{◌≡◌, min, length, OnOk};

use crate::breakpoint::{Breakpoint, Seen};
use crate::debug::do_one;
use crate::held::{
    GONE, Held, HeldStop, MARK, NEVER, count_held, first_own, has_own, is_run_here, is_temporary,
    least, met, push_held,
};
use crate::stop_text::{put_told, put_told_as};
use hek_debug::{Command, Debugger, Mark, Reason, Stop};
use hek_report::{HekFault, send};
use hek_rules::NoMemory;
use std::alloc::Global;
use std::io::Write;

/// How many steps `reverse` looks at first. If no mark fits after one of them, it looks at those before, from the start.
const NEAR: u64 = 10_000;

/// Where a run of a session stops.
#[derive(Clone, Copy)]
enum Halt {
    /// No step is left.
    End,
    /// The breakpoint or watch with this index fits.
    Break(u64),
    /// What the run was to reach fits.
    Until,
}

/// A debugger, and what each of its marks is to the session.
#[derive(Drop)]
pub(crate) struct Moves {
    pub(crate) debugger: Debugger,
    pub(crate) held: Vec<Held>,
}

impl Moves {
    /// Does a command of the debugger, and writes its answer.
    pub(crate) fn command<'a, W: Write>(
        &mut self,
        alloc: Global,
        command: Command,
        out: &mut W,
    ) -> Result<(), HekFault<'a>> {
        match command {
            Command::Set(mark) => self.set(alloc, mark, MARK, out),
            Command::Clear => self.clear(alloc, out),
            Command::Run if is_run_here(self.held.as_slice()) => self.run(alloc, None, out),
            command => do_one(alloc, &mut self.debugger, command, out),
        }
    }

    /// Goes to a position, or to the end if it is past the end.
    pub(crate) fn goto<'a, W: Write>(
        &mut self,
        alloc: Global,
        to: u64,
        out: &mut W,
    ) -> Result<(), HekFault<'a>> {
        goto(alloc, &mut self.debugger, to, out)
    }

    /// Sets a breakpoint.
    pub(crate) fn set_breakpoint<'a, W: Write>(
        &mut self,
        alloc: Global,
        breakpoint: Breakpoint,
        is_temporary: bool,
        out: &mut W,
    ) -> Result<(), HekFault<'a>> {
        let (mark, stop) = match breakpoint {
            Breakpoint::Mark(mark) => (mark, HeldStop::Mark),
            Breakpoint::Reply(kind) => (NEVER, HeldStop::Reply(kind)),
            Breakpoint::If(condition) => (NEVER, HeldStop::If(condition)),
        };
        let held = Held { stop, is_temporary };
        self.set(alloc, mark, held, out)
    }

    /// Runs as `run` does, and to a step at which a breakpoint fits that isn't kept.
    pub(crate) fn until<'a, W: Write>(
        &mut self,
        alloc: Global,
        breakpoint: Breakpoint,
        out: &mut W,
    ) -> Result<(), HekFault<'a>> {
        self.run(alloc, Some(breakpoint), out)
    }

    fn set<'a, W: Write>(
        &mut self,
        alloc: Global,
        mark: Mark,
        held: Held,
        out: &mut W,
    ) -> Result<(), HekFault<'a>> {
        push_held(&mut self.held, held)?;
        let done = do_one(alloc, &mut self.debugger, Command::Set(mark), out);
        self.held.truncate(self.debugger.marks().len());
        done
    }

    /// Takes all breakpoints and watches away, and says how many they were.
    fn clear<'a, W: Write>(&mut self, alloc: Global, out: &mut W) -> Result<(), HekFault<'a>> {
        let count = count_held(self.held.as_slice());
        let stop = stop_after(&mut self.debugger, Command::Clear)?;
        self.held.clear();
        self.tell(alloc, &stop, " cleared ", Some(count), out)
    }

    /// Takes one breakpoint or watch away. The others keep their indexes.
    pub(crate) fn delete<'a, W: Write>(
        &mut self,
        alloc: Global,
        index: u64,
        out: &mut W,
    ) -> Result<(), HekFault<'a>> {
        let stop = stop_after(&mut self.debugger, Command::Step(0))?;
        self.take_away(index);
        self.tell(alloc, &stop, " deleted ", Some(index), out)
    }

    /// Takes a breakpoint or watch away, if there is one.
    fn take_away(&mut self, index: u64) {
        if index > 0 && index <= self.held.len() as u64 {
            self.held[(index - 1) as usize] = GONE;
            self.debugger.exchange(index, NEVER);
        }
    }

    /// Takes the breakpoint away at which a run has stopped, if it is a temporary one.
    fn take_temporary(&mut self, index: u64) {
        if is_temporary(self.held.as_slice(), index) {
            self.take_away(index);
        }
    }

    /// Writes where the debugger is, after a command that only a session has.
    fn tell<'a, W: Write>(
        &self,
        alloc: Global,
        stop: &Stop,
        word: &str,
        number: Option<u64>,
        out: &mut W,
    ) -> Result<(), HekFault<'a>> {
        let mut lines = Vec::new(alloc);
        put_told_as(&self.debugger, stop, word, number, &mut lines)?;
        send(&mut lines, out)
    }

    /// Runs as `run` does, also to the breakpoints that only the session has, and to one that isn't kept.
    fn run<'a, W: Write>(
        &mut self,
        alloc: Global,
        until: Option<Breakpoint>,
        out: &mut W,
    ) -> Result<(), HekFault<'a>> {
        match self.run_on(alloc, until)? {
            Halt::End => self.stop(alloc, Command::Step(0), Reason::End, out),
            Halt::Break(index) => {
                self.take_temporary(index);
                self.stop(alloc, Command::Step(0), Reason::Break(index), out)
            }
            Halt::Until => {
                let stop = stop_after(&mut self.debugger, Command::Step(0))?;
                self.tell(alloc, &stop, " until", None, out)
            }
        }
    }

    /// Does steps until a breakpoint or a watch fits, or no step is left.
    fn run_on(&mut self, alloc: Global, until: Option<Breakpoint>) -> Result<Halt, NoMemory> {
        for _ in self.debugger.at()..self.count_steps() {
            let before = until;
            let after = until;
            let was_met = self.is_met(before);
            if let Some(index) = self.look_on(alloc)? {
                return Ok(Halt::Break(index));
            }
            if self.is_reached(after, was_met)? {
                return Ok(Halt::Until);
            }
        }
        Ok(Halt::End)
    }

    fn count_steps(&self) -> u64 {
        self.debugger.schedule().steps().len() as u64
    }

    /// Whether the condition of a breakpoint is true, if it has one.
    fn is_met(&self, breakpoint: Option<Breakpoint>) -> bool {
        match breakpoint {
            Some(breakpoint) => breakpoint.is_met(self.debugger.machine()),
            None => false,
        }
    }

    /// Whether a breakpoint fits after the last step, before which its condition was true or not.
    fn is_reached(
        &mut self,
        breakpoint: Option<Breakpoint>,
        was_met: bool,
    ) -> Result<bool, NoMemory> {
        let Some(breakpoint) = breakpoint else {
            return Ok(false);
        };
        let stop = stop_after(&mut self.debugger, Command::Step(0))?;
        let Some(reply) = &stop.last else {
            return Ok(false);
        };
        match Seen::last_of(&self.debugger, reply) {
            Some(seen) => Ok(breakpoint.fits(&seen, was_met)),
            None => Ok(false),
        }
    }

    /// Does the next step, if one is left, and gives the least index of those that fit after it.
    fn look_on(&mut self, alloc: Global) -> Result<Option<u64>, NoMemory> {
        if self.debugger.at() >= self.debugger.schedule().steps().len() as u64 {
            return Ok(None);
        }
        if !has_own(self.held.as_slice()) {
            return self.debugger.advance_and_look();
        }
        let were_met = met(alloc, self.held.as_slice(), self.debugger.machine())?;
        let mark = self.debugger.advance_and_look()?;
        let own = self.first_own(were_met.as_slice())?;
        Ok(least(mark, own))
    }

    /// The index of the first breakpoint of the session's own that fits after the last step.
    fn first_own(&mut self, were_met: &[bool]) -> Result<Option<u64>, NoMemory> {
        let stop = stop_after(&mut self.debugger, Command::Step(0))?;
        let Some(reply) = &stop.last else {
            return Ok(None);
        };
        match Seen::last_of(&self.debugger, reply) {
            Some(seen) => Ok(first_own(self.held.as_slice(), were_met, &seen)),
            None => Ok(None),
        }
    }

    /// Goes back to the last position before this one at which a breakpoint or a watch fits, or to the start.
    pub(crate) fn reverse<'a, W: Write>(
        &mut self,
        alloc: Global,
        out: &mut W,
    ) -> Result<(), HekFault<'a>> {
        let at = self.debugger.at();
        match self.last_fit_before(alloc, at)? {
            None => self.stop(alloc, Command::Back(u64::MAX), Reason::Back, out),
            Some((place, index)) => {
                let count = self.debugger.at().saturating_sub(place);
                self.take_temporary(index);
                self.stop(alloc, Command::Back(count), Reason::Break(index), out)
            }
        }
    }

    /// The last position before another at which a breakpoint or a watch fits, and the least index of those.
    fn last_fit_before(
        &mut self,
        alloc: Global,
        from: u64,
    ) -> Result<Option<(u64, u64)>, NoMemory> {
        if count_held(self.held.as_slice()) == 0 {
            return Ok(None);
        }
        let near = from.saturating_sub(NEAR);
        match self.last_fit(alloc, near, from)? {
            None if near > 0 => self.last_fit(alloc, 0, near.saturating_add(1)),
            found => Ok(found),
        }
    }

    /// Goes back to `start`, and on to the step before position `end`: the last position between these at which a
    /// breakpoint or a watch fits, and the least index of those.
    fn last_fit(
        &mut self,
        alloc: Global,
        start: u64,
        end: u64,
    ) -> Result<Option<(u64, u64)>, NoMemory> {
        let count = self.debugger.at().saturating_sub(start);
        let _at_start = stop_after(&mut self.debugger, Command::Back(count))?;
        let mut found = None;
        for place in start.saturating_add(1)..end {
            if let Some(index) = self.look_on(alloc)? {
                found = Some((place, index));
            }
        }
        Ok(found)
    }

    /// Does a command, and writes where the debugger is then, with another reason.
    fn stop<'a, W: Write>(
        &mut self,
        alloc: Global,
        command: Command,
        reason: Reason,
        out: &mut W,
    ) -> Result<(), HekFault<'a>> {
        let Stop { at, last, .. } = stop_after(&mut self.debugger, command)?;
        let mut lines = Vec::new(alloc);
        put_told(&self.debugger, &Stop { at, last, reason }, &mut lines)?;
        send(&mut lines, out)
    }
}

/// Does a command, and gives where the debugger is then.
fn stop_after(debugger: &mut Debugger, command: Command) -> Result<Stop, NoMemory> {
    match debugger.command(command) {
        Ok(stop) => Ok(stop),
        Err(_) => Err(NoMemory),
    }
}

/// Goes to a position, by the debugger's `step` or `back`.
fn goto<'a, W: Write>(
    alloc: Global,
    debugger: &mut Debugger,
    to: u64,
    out: &mut W,
) -> Result<(), HekFault<'a>>
    ensures { OnOk result (debugger.new ≡ record debugger.old { at = min to (length debugger.old.plan.steps) }) }
{
    let at = debugger.at();
    if to < at {
        return do_one(alloc, debugger, Command::Back(at - to), out);
    }
    do_one(alloc, debugger, Command::Step(to - at), out)
}
