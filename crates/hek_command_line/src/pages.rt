//! `page`: the page of a run, of an explorer, or of a log.
use crate::call::{Answer, Call, OUTPUT};
use crate::disk::Disk;
use crate::page_data::write_data;
use crate::programs::is_program;
use clap::ArgMatches;
use hek_history_command::{Asked, Choice, Extent as LogExtent, history_command};
use hek_ladder::Wish;
use hek_page_command::{
    Explored, Extent, Heading, MOST_NODES, Making, Part, explorer_command, levels_command,
    made_file, page_command, program_command,
};
use hek_permute_command::{MovesChoice, plays_of_page};
use hek_report::{HekFault, Printing, ScheduleFile};
use std::io::{Cursor, IsTerminal, Read, Write};
use std::str;

/// How the name of a log ends.
const LOG_NAME: &[u8] = b".jsonl";

/// The schedule of a page without a run.
const NO_RUN: &[u8] = b"buckets 1\n";

const WHOLE: Part = Part {
    from: None,
    to: None,
};

const AS_SERIALIZABLE: Choice = Choice {
    asked: Asked::Verdict,
    wish: Wish {
        order: None,
        sessions: None,
    },
    extent: LogExtent::First,
    effort: None,
    explains: false,
    printing: Printing::Json,
};

/// Whether the words name a log: FILE ends as one, and they don't say that it is a schedule.
pub fn is_log(found: &ArgMatches<'_>) -> bool {
    let says = found.get_flag("text") || found.get_flag("image");
    !says
        && found
            .get_str("FILE")
            .unwrap_or("")
            .as_bytes()
            .ends_with(LOG_NAME)
}

/// What the story of a page is told by: the text, and its plays as lines of JSON.
#[derive(Drop)]
struct Told {
    text: String,
    plays: Vec<u8>,
}

impl<'a, D: Disk, I: Read + Drop, W: Write + IsTerminal, E: Write> Call<
    '_,
    '_,
    '_,
    'a,
    D,
    I,
    W,
    E,
> {
    /// The page goes to standard output, or with `-o` to a file.
    pub fn page(&mut self) -> Answer<'a> {
        match self.given("output") {
            Some(target) if target != OUTPUT => {
                if self.refuses_same(target) {
                    return Ok(2);
                }
                self.write_to(target);
            }
            None if !self.flag("json") && self.refuses_page() => return Ok(2),
            _ => {}
        }
        let ran = self.write_page();
        self.out.settle(matches!(ran, Ok(0)), ran)
    }

    /// Says that a page would go to a terminal, if it would.
    fn refuses_page(&mut self) -> bool {
        let is_shown = self.out.is_terminal();
        if is_shown {
            let _ = writeln!(
                self.faults,
                "hek: a page is for a browser, and standard output is a terminal: write it with -o FILE; `-o -` prints it"
            );
        }
        is_shown
    }

    /// Writes the page that the words ask for, or its data alone.
    fn write_page(&mut self) -> Answer<'a> {
        if !self.flag("json") {
            return self.write_whole();
        }
        self.out.memory = Some(Vec::new(self.alloc));
        let ran = self.write_whole();
        let page = self.out.memory.take();
        match (ran, page) {
            (Ok(0), Some(page)) => write_data(page.as_slice(), &mut self.out),
            (ran, _) => ran,
        }
    }

    fn write_whole(&mut self) -> Answer<'a> {
        if is_log(self.found) {
            self.log_page()
        } else {
            self.run_page()
        }
    }

    /// Writes the page of a run, or of an explorer.
    fn run_page(&mut self) -> Answer<'a> {
        let file = self.schedule_file()?;
        let told = self.told_in(&file)?;
        let heading = Heading {
            text: told.text.as_str(),
            plays: told.plays.as_slice(),
            ..self.heading()
        };
        let making = self.making();
        let extent = self.extent();
        let Some(explored) = self.explored() else {
            let part = self.part();
            let file = made_file(self.alloc, file, making)?;
            return page_command(
                self.alloc,
                file,
                part,
                heading,
                &mut self.out,
                &mut self.faults,
            );
        };
        let out = &mut self.out;
        let faults = &mut self.faults;
        if is_program(&file) {
            return program_command(self.alloc, file, explored, extent, heading, out, faults);
        }
        let file = made_file(self.alloc, file, making)?;
        match explored {
            Explored::AllLevels => levels_command(self.alloc, file, extent, heading, out, faults),
            Explored::At(_) => explorer_command(self.alloc, file, extent, heading, out, faults),
        }
    }

    /// What the story is told by of a schedule text; nothing of an image. A part of a run, and the machine alone, have no plays.
    /// Where a text is at fault its page says so.
    fn told_in<R: Read + Drop>(&self, file: &ScheduleFile<R>) -> Result<Told, HekFault<'a>> {
        let mut told = Told {
            text: String::new(self.alloc),
            plays: Vec::new(self.alloc),
        };
        let ScheduleFile::Text(bytes) = file else {
            return Ok(told);
        };
        let Ok(text) = str::from_utf8(bytes.as_slice()) else {
            return Ok(told);
        };
        if told.text.push_str(text).is_err() {
            return Err(HekFault::NoMemory);
        }
        let is_part = self.given("from").is_some() || self.given("to").is_some();
        if self.flag("machine") || is_part {
            return Ok(told);
        }
        match plays_of_page(self.alloc, bytes.as_slice(), self.moves_choice()) {
            Ok(plays) => told.plays = plays,
            Err(HekFault::NoMemory) => return Err(HekFault::NoMemory),
            Err(_) => {}
        }
        Ok(told)
    }

    /// How the words ask for the moves of a page's own run.
    fn moves_choice(&self) -> MovesChoice {
        MovesChoice {
            auto: self.flag("auto") || self.flag("orders") || self.flag("levels"),
            level: self.level(),
            told: false,
            printing: Printing::Json,
        }
    }

    /// Which explorer the words ask for, if they ask for one.
    fn explored(&self) -> Option<Explored> {
        if self.flag("levels") {
            Some(Explored::AllLevels)
        } else if self.flag("orders") {
            Some(Explored::At(self.level()))
        } else {
            None
        }
    }

    /// Which orders an explorer has.
    fn extent(&self) -> Extent {
        Extent {
            form: self.form(),
            limit: self.number("limit").unwrap_or(MOST_NODES),
        }
    }

    /// What the words make of a schedule before its page.
    fn making(&self) -> Making {
        Making {
            level: self.level(),
            auto: self.flag("auto"),
        }
    }

    /// Which steps a page shows.
    fn part(&self) -> Part {
        Part {
            from: self.number("from"),
            to: self.number("to"),
        }
    }

    /// What the words say of a page's title and links.
    fn heading(&self) -> Heading<'a> {
        Heading {
            file: self.word("FILE"),
            title: self.given("title"),
            lesson: self.number("lesson"),
            previous: self.given("previous"),
            next: self.given("next"),
            text: "",
            plays: &[],
        }
    }

    /// Writes the page of a log: the story of its transactions, with what is said of it as serializable. Answers the exit
    /// status, that of `hek history` at a fault of the log.
    fn log_page(&mut self) -> Answer<'a> {
        let name = self.word("FILE");
        let log = self.bytes_of(name)?;
        let Ok(text) = str::from_utf8(log.as_slice()) else {
            return Err(HekFault::NotText);
        };
        let mut said = Vec::new(self.alloc);
        let status = self.judge_log(log.as_slice(), &mut said)?;
        if !matches!(status, 0 | 1 | 3) {
            return Ok(status);
        }
        let plays = said.as_slice();
        let heading = Heading {
            text,
            plays,
            ..self.heading()
        };
        let Ok(none) = Vec::from_slice(self.alloc, NO_RUN) else {
            return Err(HekFault::NoMemory);
        };
        let file: ScheduleFile<Cursor<Vec<u8>>> = ScheduleFile::Text(none);
        page_command(
            self.alloc,
            file,
            WHOLE,
            heading,
            &mut self.out,
            &mut self.faults,
        )
    }

    /// What is said of a log as serializable: an object of JSON.
    fn judge_log(&mut self, log: &[u8], said: &mut Vec<u8>) -> Answer<'a> {
        let mut nowhere: Option<Vec<u8>> = None;
        let name = self.word("FILE");
        let faults = &mut self.faults;
        history_command(
            self.alloc,
            log,
            name,
            AS_SERIALIZABLE,
            &mut nowhere,
            said,
            faults,
        )
    }
}
