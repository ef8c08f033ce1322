//! What a file gives to play: a schedule, or a program.
use hek_permute::{Ending, Outcome};
use hek_program::{Always, AtEnd, Program, ProgramFault, Rule, read_program};
use hek_report::{HekFault, ScheduleFile, schedule_in};
use hek_rules::{Event, NoMemory, Schedule};
use std::alloc::Global;
use std::io::Read;
use std::str;

/// A schedule, the rules of its steps, and the program whose they are.
#[derive(Clone, Copy)]
pub struct Given<'p> {
    pub schedule: &'p Schedule,
    pub rules: &'p [Rule],
    program: &'p Program,
}

impl<'p> Given<'p> {
    /// The parts of a program.
    pub fn of(program: &'p Program) -> Given<'p> {
        Given {
            schedule: program.schedule(),
            rules: program.rules(),
            program,
        }
    }

    /// The same rules over another schedule.
    pub fn over<'s>(&'s self, schedule: &'s Schedule) -> Given<'s> {
        Given {
            schedule,
            rules: self.rules,
            program: self.program,
        }
    }

    /// What is to hold.
    pub(crate) fn always(&self) -> &'p [Always] {
        self.program.always()
    }

    /// Whether the step at a place is a `fail` under a condition.
    pub fn fails_if(&self, place: usize, step: &Event) -> bool {
        let Event::Fail(_) = step else {
            return false;
        };
        match self.rules.get(place) {
            Some(rule) => !rule.when.comparisons().is_empty(),
            None => false,
        }
    }

    /// The line of the first invariant that an outcome breaks.
    pub(crate) fn broken_by(
        &self,
        alloc: Global,
        outcome: &Outcome,
    ) -> Result<Option<u64>, NoMemory> {
        if self.program.always().is_empty() {
            return Ok(None);
        }
        let mut committed = Vec::new(alloc);
        for end in outcome.ends() {
            committed.push(*end == Ending::Committed)?;
        }
        let end = AtEnd {
            rows: outcome.rows().items(),
            committed: committed.as_slice(),
        };
        Ok(self.program.broken_by(&end))
    }
}

/// The program in a file; a schedule is the program of its steps.
pub fn program_in<'a, R: Read + Drop>(
    alloc: Global,
    file: ScheduleFile<R>,
) -> Result<Program, HekFault<'a>> {
    match file {
        ScheduleFile::Text(text) => program_of_text(alloc, text.as_slice()),
        ScheduleFile::Image(reader) => {
            let schedule = schedule_in(alloc, ScheduleFile::Image(reader))?;
            Ok(Program::plain(alloc, schedule))
        }
    }
}

pub(crate) fn program_of_text<'a>(alloc: Global, text: &[u8]) -> Result<Program, HekFault<'a>> {
    let Ok(text) = str::from_utf8(text) else {
        return Err(HekFault::NotText);
    };
    match read_program(alloc, text) {
        Ok(program) => Ok(program),
        Err(fault) => Err(fault_of_text(fault)),
    }
}

/// The fault of a program's text as that of a command.
fn fault_of_text<'a>(fault: ProgramFault) -> HekFault<'a> {
    match fault {
        ProgramFault::NoMemory => HekFault::NoMemory,
        ProgramFault::Line { line, kind } => HekFault::Line { line, kind },
        ProgramFault::At {
            line,
            column,
            wanted,
        } => HekFault::Wanted {
            line,
            column,
            wanted: wanted.text(),
        },
    }
}
