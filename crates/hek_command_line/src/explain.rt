//! What follows a command: the line of its fault, with what is wrong, what is wanted and what is meant where that is asked for, and
//! the fault as an object of JSON; or notes.
use crate::advice::{Advice, advice_of};
use crate::call::{Answer, Call};
use crate::disk::Disk;
use crate::lock_words::advise_words;
use crate::opening::without_mark;
use crate::programs::{bare_of, explain_line, explain_place};
use crate::reasons::{why_not_read, why_not_written};
use crate::said::Said;
use crate::sought::advise_sought;
use hek_diagnostics::{explain_bytes, explain_image, explain_trace};
use hek_image::LoadFault;
use hek_report::{HekFault, ScheduleFile, report, schedule_in};
use hek_rules::{NoMemory, Schedule};
use std::alloc::Global;
use std::io::{Cursor, ErrorKind, Read, Write};
use std::str;

/// The exit status of a fault, where 1 isn't.
const AT_FAULT: u8 = 4;

/// The exit status after a fault: 4 in place of 1 where 1 is an answer.
pub fn status_at_fault(status: u8, asks: bool) -> u8 {
    if asks && status == 1 {
        AT_FAULT
    } else {
        status
    }
}

/// The schedule of the bytes of FILE, which a command has read without a fault.
pub fn schedule_of(alloc: Global, bytes: Vec<u8>) -> Option<Schedule> {
    let file = if bytes.starts_with(b"HKSC") {
        ScheduleFile::Image(Cursor::new(bytes))
    } else {
        let mut text = Vec::new(alloc);
        text.extend_from_slice(without_mark(bytes.as_slice())).ok()?;
        ScheduleFile::Text(text)
    };
    schedule_in(alloc, file).ok()
}

impl<'a, D: Disk, I: Read + Drop, W: Write, E: Write> Call<'_, '_, '_, 'a, D, I, W, E> {
    /// The exit status after what came of the command, whose fault is reported. That the reader of its output has left is no
    /// fault.
    pub fn finish(&mut self, ran: Answer<'a>) -> u8 {
        let status = match ran {
            Ok(status) => self.end_well(status),
            Err(HekFault::CannotWrite) if self.out.stream.has_lost_reader() => 0,
            Err(HekFault::CannotWrite) if self.lacks_memory() => self.report(HekFault::NoMemory),
            Err(fault) => self.report(fault),
        };
        let _ = self.out.flush();
        let _ = self.faults.flush();
        status
    }

    /// Whether memory ran out where something was written.
    fn lacks_memory(&self) -> bool {
        let short = Some(ErrorKind::OutOfMemory);
        self.kept.failure() == short || self.out.stream.failure() == short
    }

    /// Notes what comes to nothing; of a fault that the command itself told has the object written.
    fn end_well(&mut self, status: u8) -> u8 {
        if self.explains && status == 0 {
            self.note();
        }
        if self.flag("json") {
            if let Some(fault) = self.faults.fault() {
                let mut said = Said::new(self.alloc, status, fault);
                self.put_object(status, &mut said);
            }
        }
        status
    }

    /// Writes the line of a fault, and what is said of it. Answers the exit status.
    fn report(&mut self, fault: HekFault<'a>) -> u8 {
        let status = report(fault, &mut self.faults);
        let status = status_at_fault(status, self.command.asks(self.found));
        let is_json = self.flag("json");
        if !self.explains && !is_json {
            return status;
        }
        let alloc = self.alloc;
        let Ok(line) = format!(in alloc; "{fault}") else {
            if is_json {
                self.put_no_memory(status);
            }
            return status;
        };
        let line = line.as_str();
        let mut said = Said::new(alloc, status, line.strip_prefix("hek: ").unwrap_or(line));
        if self.kept.is_whole() {
            self.explain(fault, &mut said);
        }
        if self.explains {
            self.put_lines(&mut said);
        }
        if is_json {
            self.put_object(status, &mut said);
        }
        status
    }

    /// Writes the lines of what is said. What can't be written is left out.
    fn put_lines(&mut self, said: &mut Said) {
        if let Ok(lines) = said.take_lines() {
            let _ = self.faults.write_all(lines.as_slice());
        }
    }

    /// Writes the object of a fault, or that memory ran out for it. What can't be written is left out.
    fn put_object(&mut self, status: u8, said: &mut Said) {
        match said.take_object() {
            Ok(object) => {
                let _ = self.out.write_all(object.as_slice());
            }
            Err(_) => self.put_no_memory(status),
        }
    }

    /// Writes the object that says that memory ran out, which takes none.
    fn put_no_memory(&mut self, status: u8) {
        let _ = writeln!(
            self.out,
            r#"{{"kind":"fault","status":{status},"fault":"no memory"}}"#
        );
    }

    /// Explains a fault, as far as something is known of it.
    fn explain(&self, fault: HekFault<'_>, said: &mut Said) {
        match fault {
            HekFault::BadArgument => self.explain_argument(said),
            HekFault::Line { line, kind } => {
                let bytes = self.kept.file_bytes(self.alloc);
                let text = without_mark(bytes.as_slice());
                explain_line(
                    self.command,
                    self.found,
                    self.kept.name(),
                    text,
                    line,
                    kind,
                    said,
                );
            }
            HekFault::Wanted {
                line,
                column,
                wanted,
            } => {
                let bytes = self.kept.file_bytes(self.alloc);
                let text = without_mark(bytes.as_slice());
                explain_place(self.kept.name(), text, line, column, wanted, said);
            }
            HekFault::Image(LoadFault::Read) => why_not_read(self.kept.name(), self.kept, said),
            HekFault::Image(fault) => self.explain_image(fault, said),
            HekFault::TraceLine(line) => self.explain_trace(line, said),
            HekFault::NotText => self.explain_bytes(said),
            HekFault::CannotRead(name) => why_not_read(name, self.kept, said),
            HekFault::CannotWrite => {
                why_not_written(self.out.stream.failure(), self.found, self.kept, said);
            }
            HekFault::NotAWord
            | HekFault::NoReader
            | HekFault::BadWaits
            | HekFault::CommandLine(_)
            | HekFault::NoWorker
            | HekFault::Mismatch(_)
            | HekFault::NoMemory => {}
        }
    }

    /// Says what is wrong with an argument.
    fn explain_argument(&self, said: &mut Said) {
        if let Some(advice) = advice_of(self.command, self.found) {
            advice.say(said);
        } else if let Some(text) = self.given("find") {
            match self.schedule_sought_in() {
                Ok(schedule) => advise_sought(text, schedule.as_ref(), said),
                Err(NoMemory) => said.lack_memory(),
            }
        } else if let Some(value) = self.given("order") {
            Advice::of_order(value).say(said);
        } else {
            advise_words(self.found, said);
        }
    }

    /// The schedule of FILE, in which something is sought: that of a program without what it computes.
    fn schedule_sought_in(&self) -> Result<Option<Schedule>, NoMemory> {
        let bytes = self.kept.file_bytes(self.alloc);
        if bytes.is_empty() {
            return Ok(None);
        }
        let bare = bare_of(self.alloc, without_mark(bytes.as_slice()))?;
        match schedule_of(self.alloc, bare.unwrap_or(bytes)) {
            Some(schedule) => Ok(Some(schedule)),
            // The command has read the file without a fault.
            None => Err(NoMemory),
        }
    }

    fn explain_image(&self, fault: LoadFault, said: &mut Said) {
        let bytes = self.kept.file_bytes(self.alloc);
        let name = self.kept.name();
        said.file(name);
        if let Some(found) = explain_image(name, bytes.as_slice(), fault) {
            let alloc = self.alloc;
            said.shown(format!(in alloc; "{found}"));
        }
    }

    fn explain_trace(&self, line: u64, said: &mut Said) {
        let alloc = self.alloc;
        let Some(schedule) = schedule_of(alloc, self.kept.file_bytes(alloc)) else {
            return;
        };
        let bytes = self.kept.other_bytes(alloc);
        let name = self.kept.other.unwrap_or("");
        let text = without_mark(bytes.as_slice());
        if let Ok(Some(found)) = explain_trace(alloc, name, &schedule, text, line) {
            said.shown(format!(in alloc; "{found}"));
            said.diagnostic(name, &found);
        }
    }

    /// Says what the file looks like that is not a text.
    fn explain_bytes(&self, said: &mut Said) {
        let other = self.kept.other_bytes(self.alloc);
        match (self.kept.other, self.kept.file) {
            (Some(name), _) if str::from_utf8(other.as_slice()).is_err() => {
                put_looks(name, other.as_slice(), false, said);
            }
            (_, Some(name)) => {
                let bytes = self.kept.file_bytes(self.alloc);
                put_looks(name, bytes.as_slice(), true, said);
            }
            (_, None) => {}
        }
    }
}

fn put_looks(name: &str, bytes: &[u8], is_schedule: bool, said: &mut Said) {
    let alloc = said.alloc;
    let found = explain_bytes(name, bytes, is_schedule);
    said.file(name);
    said.shown(format!(in alloc; "{found}"));
}
