//! `run`, `debug`, `drive`, `threads` and `check`.
use crate::call::{Answer, Call};
use crate::disk::Disk;
use crate::opening::without_mark;
use crate::programs::plain_file;
use crate::rows::RULES;
use crate::sources::SourceFiles;
use hek_check_command::{Asked, check_command, reported_command};
use hek_debug_command::{CommandFile, Manner, debug_command, debug_session, explained_command};
use hek_history_command::run_log_command;
use hek_permute_command::{MovesChoice, moves_command};
use hek_report::{INPUT, Printing};
use hek_run_command::{Driving, Steps, drive_command, run_command, state_command, steps_command};
use hek_step_report::{Extras, Why};
use hek_threads_command::{Pace, Progress, repeat_command, threads_command};
use std::io::{IsTerminal, Read, Write};
use std::sync::Wait;
use std::thread::Threads;

impl<'a, D: Disk, I: Read + IsTerminal + Drop, W: Write, E: Write + IsTerminal> Call<
    '_,
    '_,
    '_,
    'a,
    D,
    I,
    W,
    E,
> {
    pub fn run_schedule(&mut self) -> Answer<'a> {
        if self.flag("moves") {
            return self.run_moves();
        }
        if self.flag("history") {
            let file = self.schedule_to_run(true)?;
            return run_log_command(self.alloc, file, &mut self.out);
        }
        let limit = self.number("state-at");
        let asked = Steps {
            extras: self.extras(),
            limit,
            state: limit.is_some() || self.flag("state"),
            printing: self.printing(),
        };
        self.run_steps(asked)
    }

    /// Runs the steps, and prints them as they are asked for.
    fn run_steps(&mut self, asked: Steps) -> Answer<'a> {
        let file = self.schedule_to_run(true)?;
        if asked.printing == Printing::Json || !asked.extras.is_none() {
            steps_command(self.alloc, file, asked, &mut self.out)
        } else if asked.state {
            state_command(self.alloc, file, asked.limit, &mut self.out)
        } else {
            run_command(self.alloc, file, &mut self.out)
        }
    }

    /// Prints the moves of a run.
    fn run_moves(&mut self) -> Answer<'a> {
        let choice = MovesChoice {
            auto: self.flag("auto"),
            level: self.level(),
            told: self.given("why").is_some(),
            printing: self.printing(),
        };
        let mut file = self.schedule_file()?;
        if !choice.auto {
            file = plain_file(self.alloc, file)?;
        }
        moves_command(self.alloc, file, choice, &mut self.out)
    }

    /// What the words ask for under each line of a trace.
    fn extras(&self) -> Extras {
        let why = match self.given("why") {
            None => None,
            Some(word) if word == RULES => Some(Why::Rules),
            Some(_) => Some(Why::Reasons),
        };
        Extras {
            why,
            changes: self.flag("changes"),
        }
    }

    pub fn drive(&mut self) -> Answer<'a> {
        let printing = self.printing();
        let is_typed = self.is_typed();
        let driving = Driving {
            extras: self.extras(),
            state: self.flag("state"),
            ends: self.flag("ends"),
            prompts: is_typed && printing == Printing::Text,
            is_typed,
            explains: self.explains,
            printing,
        };
        let file = self.schedule_to_run(false)?;
        let events = self.open(INPUT)?;
        drive_command(
            self.alloc,
            file,
            events,
            driving,
            &mut self.out,
            &mut self.faults,
        )
    }

    /// Debugs a schedule by the commands of a file, or by those that are typed.
    pub fn debug(&mut self) -> Answer<'a> {
        match self.given("COMMANDS") {
            Some(name) if name != INPUT => self.debug_by(name),
            _ => {
                let manner = self.manner();
                let file = self.schedule_to_run(true)?;
                let typed = self.open(INPUT)?;
                let sources = SourceFiles { disk: self.disk };
                let out = &mut self.out;
                debug_session(
                    self.alloc,
                    file,
                    typed,
                    &sources,
                    manner,
                    out,
                    &mut self.faults,
                )
            }
        }
    }

    fn manner(&self) -> Manner {
        Manner {
            prompts: self.is_typed(),
            explains: self.explains,
        }
    }

    /// Debugs a schedule by the commands of a file, and explains one that is no command where that is wanted.
    fn debug_by(&mut self, name: &'a str) -> Answer<'a> {
        let file = self.schedule_to_run(true)?;
        let commands = self.bytes_of(name)?;
        let text = without_mark(commands.as_slice());
        if self.explains {
            let commands = CommandFile { name, text };
            explained_command(self.alloc, file, commands, &mut self.out, &mut self.faults)
        } else {
            debug_command(self.alloc, file, text, &mut self.out)
        }
    }

    /// Runs each transaction in its own thread, once or many times. Many runs show on a terminal how many are over.
    pub fn run_in_threads<T: Threads + Wait + Sync>(&mut self, system: &T) -> Answer<'a> {
        let pace = Pace {
            turns: self.number("turns").unwrap_or(0),
            seed: self.number("seed"),
        };
        let printing = self.printing();
        let times = self.number("repeat");
        let file = self.schedule_to_run(false)?;
        let Some(times) = times else {
            return threads_command(system, self.alloc, file, pace, printing, &mut self.out);
        };
        let shows = self.faults.is_terminal();
        let mut progress = Progress::new(&mut self.faults, shows, times);
        let out = &mut self.out;
        repeat_command(
            system,
            self.alloc,
            file,
            pace,
            times,
            printing,
            &mut progress,
            out,
        )
    }

    /// Judges a trace, with what is asked for.
    pub fn check(&mut self) -> Answer<'a> {
        let asked = Asked {
            level: self.level(),
            why: self.flag("why"),
            summary: self.flag("summary"),
            all: self.flag("all"),
            printing: self.printing(),
        };
        let file = self.schedule_file()?;
        let trace = self.bytes_of(self.word("TRACE"))?;
        let trace = without_mark(trace.as_slice());
        if asked.summary || asked.all || asked.printing == Printing::Json {
            reported_command(self.alloc, file, trace, asked, &mut self.out)
        } else {
            check_command(
                self.alloc,
                file,
                trace,
                asked.level,
                asked.why,
                &mut self.out,
            )
        }
    }
}
