//! `permute`.
use crate::call::{Answer, Call};
use crate::disk::Disk;
use hek_permute_command::{
    Choice, TableFault, part_of, permute_command, permute_in_threads, sum_of_tables,
};
use hek_report::HekFault;
use std::io::{IsTerminal, Read, Write};
use std::thread::Threads;

impl<'a, D: Disk, I: Read + Drop, W: Write, E: Write + IsTerminal> Call<
    '_,
    '_,
    '_,
    'a,
    D,
    I,
    W,
    E,
> {
    /// Plays orders, with as many threads of the system as the words ask for where outcomes are counted, and writes what the
    /// words ask for.
    pub fn permute<T: Threads + Sync>(&mut self, system: &T) -> Answer<'a> {
        if self.flag("add") {
            return self.add_tables();
        }
        let jobs = self.number("jobs").unwrap_or(1);
        let choice = self.choice(jobs);
        let file = self.schedule_file()?;
        let out = &mut self.out;
        if jobs == 1 {
            return permute_command(self.alloc, file, choice, out, &mut self.faults);
        }
        permute_in_threads(
            system,
            jobs,
            self.alloc,
            file,
            choice,
            out,
            &mut self.faults,
        )
    }

    fn choice(&self, jobs: u64) -> Choice<'a> {
        let part = self.given("part");
        Choice {
            level: self.level(),
            form: self.form(),
            limit: self.number("limit"),
            part: match part {
                Some(word) => part_of(word).unwrap_or((1, 1)),
                None => (1, 1),
            },
            each: self.flag("each"),
            order: self.given("order"),
            levels: self.flag("levels"),
            find: self.given("find"),
            progress: self.faults.is_terminal() && (jobs == 1 || part.is_none()),
            stats: self.flag("stats"),
            printing: self.printing(),
        }
    }

    /// Prints the sum of the tables that the words name, or which line of which table is none of a table's.
    fn add_tables(&mut self) -> Answer<'a> {
        let more = self.found.get_strs("TABLE").unwrap_or(&[]);
        let mut tables = Vec::new(self.alloc);
        self.push_table(self.word("FILE"), &mut tables)?;
        for name in more {
            self.push_table(name, &mut tables)?;
        }
        match sum_of_tables(self.alloc, tables.as_slice()) {
            Ok(mut lines) => self.send(&mut lines),
            Err(TableFault::NoMemory) => Err(HekFault::NoMemory),
            Err(TableFault::TooMany) => {
                let _ = writeln!(self.faults, "hek: permute: too many orders to count");
                Ok(1)
            }
            Err(TableFault::Line(table, line)) => {
                let name = match table.checked_sub(1) {
                    Some(place) => more.get(place).copied().unwrap_or(""),
                    None => self.word("FILE"),
                };
                let _ = writeln!(
                    self.faults,
                    "hek: permute: {name}: line {line} is not of a table like the others"
                );
                Ok(1)
            }
        }
    }

    /// Reads the text of a table.
    fn push_table(&mut self, name: &'a str, tables: &mut Vec<String>) -> Result<(), HekFault<'a>> {
        let bytes = self.bytes_of(name)?;
        let Ok(text) = String::from_utf8(bytes) else {
            return Err(HekFault::NotText);
        };
        tables.push(text).map_err(|_| HekFault::NoMemory)
    }
}
