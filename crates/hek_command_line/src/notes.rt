//! Notes on words that a command takes without a fault though they come to nothing.
use crate::call::Call;
use crate::commands::Command;
use crate::disk::Disk;
use crate::explain::schedule_of;
use crate::opening::without_mark;
use hek_check_command::{note_nothing, note_together};
use hek_report::INPUT;
use hek_rules::{EventKind, Schedule, next_line, next_word, number};
use std::io::{Read, Write};

impl<D: Disk, I: Read + Drop, W: Write, E: Write> Call<'_, '_, '_, '_, D, I, W, E> {
    /// Notes what comes to nothing in a command that had no fault.
    pub fn note(&mut self) {
        if self.command == Command::Debug && !self.flag("auto") {
            self.note_breaks();
        } else if self.command == Command::Check {
            self.note_check();
        } else if self.command == Command::Page {
            self.note_page();
        }
    }

    /// A trace without a commit; and one that is right at each level, whose transactions can't follow one another by end time,
    /// but where a level or more than the verdict is asked for.
    fn note_check(&mut self) {
        let trace = self.kept.other_bytes(self.alloc);
        let trace = without_mark(trace.as_slice());
        note_nothing(self.alloc, trace, &mut self.faults);
        if self.given("level").is_some() || self.flag("summary") || self.flag("json") {
            return;
        }
        if let Some(schedule) = schedule_of(self.alloc, self.kept.file_bytes(self.alloc)) {
            note_together(self.alloc, &schedule, trace, &mut self.faults);
        }
    }

    /// A page without steps, since it ends before it begins or begins after the last one; and one of a schedule in which no
    /// transaction begins.
    fn note_page(&mut self) {
        if let (Some(from), Some(to)) = (self.number("from"), self.number("to")) {
            if from > to {
                let _ = writeln!(
                    self.faults,
                    "hek: note: the page shows no step: --from {from} is after --to {to}"
                );
            }
        }
        if self.flag("auto") || self.flag("orders") {
            return;
        }
        let Some(schedule) = schedule_of(self.alloc, self.kept.file_bytes(self.alloc)) else {
            return;
        };
        let steps = schedule.steps().len() as u64;
        match self.number("from") {
            Some(from) if from > steps => {
                let _ = writeln!(
                    self.faults,
                    "hek: note: the page shows no step: --from {from} is past the last, {steps}"
                );
            }
            _ => {}
        }
        if is_unbegun(&schedule) {
            let _ = writeln!(
                self.faults,
                "hek: note: no transaction begins: --auto begins and ends them"
            );
        }
    }

    /// The breakpoints of a file of commands that are past the last step. A session says so itself.
    fn note_breaks(&mut self) {
        if self.kept.other.is_none() || self.kept.other == Some(INPUT) {
            return;
        }
        let Some(schedule) = schedule_of(self.alloc, self.kept.file_bytes(self.alloc)) else {
            return;
        };
        let steps = schedule.steps().len() as u64;
        let commands = self.kept.other_bytes(self.alloc);
        let mut rest = without_mark(commands.as_slice());
        for line_number in 1..u64::MAX {
            let Some((line, after)) = next_line(rest) else {
                return;
            };
            rest = after;
            match break_of(line) {
                Some(step) if step > steps => {
                    let _ = writeln!(
                        self.faults,
                        "hek: note: command line {line_number}: step {step} is past the last, {steps}"
                    );
                }
                _ => {}
            }
        }
    }
}

/// Whether a schedule has steps, and no transaction of it begins.
fn is_unbegun(schedule: &Schedule) -> bool {
    for step in schedule.steps() {
        if matches!(step.kind(), EventKind::Begin) {
            return false;
        }
    }
    !schedule.steps().is_empty()
}

/// The step of a line `break at N`.
fn break_of(line: &[u8]) -> Option<u64> {
    let (first, rest) = next_word(line)?;
    let (second, rest) = next_word(rest)?;
    let (third, _) = next_word(rest)?;
    if first == b"break".as_slice() && second == b"at".as_slice() {
        return number(third);
    }
    None
}
