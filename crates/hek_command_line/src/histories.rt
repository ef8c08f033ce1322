//! `history`.
use crate::call::{Answer, Call, OUTPUT};
use crate::disk::{Disk, LateFile};
use hek_history_command::{Asked, Choice, Extent, history_command};
use hek_ladder::{Promise, Wish};
use hek_report::HekFault;
use std::io::{Read, Write};

impl<'a, D: Disk, I: Read + Drop, W: Write, E: Write> Call<'_, '_, '_, 'a, D, I, W, E> {
    /// Judges a log by what the words ask for. The order that was found goes to a file, or to standard output after the verdict.
    pub fn history(&mut self) -> Answer<'a> {
        match self.given("order-out") {
            None => {
                let mut none: Option<Vec<u8>> = None;
                self.judge(&mut none)
            }
            Some(OUTPUT) => {
                let mut order = Some(Vec::new(self.alloc));
                let status = self.judge(&mut order)?;
                if let Some(mut lines) = order {
                    self.send(&mut lines)?;
                }
                Ok(status)
            }
            Some(name) => self.judge_into(name),
        }
    }

    /// Judges a log, and writes the order that was found into a file.
    fn judge_into(&mut self, name: &'a str) -> Answer<'a> {
        if self.refuses_same(name) {
            return Ok(2);
        }
        let mut file = Some(LateFile::new(self.disk, name, self.kept));
        let ran = self.judge(&mut file);
        match file {
            Some(file) => file.settle(matches!(ran, Ok(0 | 1 | 3)), ran),
            None => ran,
        }
    }

    /// Judges a log.
    fn judge<O: Write>(&mut self, order: &mut Option<O>) -> Answer<'a> {
        let choice = Choice {
            asked: self.asked(),
            wish: self.wish(),
            extent: Extent::named(self.given("all")),
            effort: self.effort(),
            explains: self.explains,
            printing: self.printing(),
        };
        let name = self.word("FILE");
        let file = self.open(name)?;
        history_command(
            self.alloc,
            file,
            name,
            choice,
            order,
            &mut self.out,
            &mut self.faults,
        )
    }

    /// What the words ask of a log.
    fn asked(&self) -> Asked {
        match (self.flag("levels"), self.flag("guarantees")) {
            (true, true) => return Asked::Both,
            (true, false) => return Asked::Levels,
            (false, true) => return Asked::Guarantees,
            (false, false) => {}
        }
        match Promise::named(self.given("level").unwrap_or("")) {
            Some(promise) => Asked::One(promise),
            None => Asked::Verdict,
        }
    }

    /// Which known facts the words ask to bind.
    fn wish(&self) -> Wish {
        let sessions = match (self.flag("sessions"), self.flag("no-sessions")) {
            (true, _) => Some(true),
            (false, true) => Some(false),
            (false, false) => None,
        };
        Wish {
            order: Wish::order_named(self.given("order").unwrap_or("")),
            sessions,
        }
    }

    /// How many repairs of an order the words allow with `--effort`.
    fn effort(&self) -> Option<usize> {
        Some(self.number("effort")? as usize)
    }
}
