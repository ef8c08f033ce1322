//! How many runs are over, on a line of a terminal.
use std::io::Write;

/// After how many runs the line is written anew: some times a second.
const PACE: u64 = 1_024;

/// Counts runs, and writes a line without an end at each `PACE` of them: what comes after its flush stands in its place.
#[derive(Drop)]
pub struct Progress<'e, E: Write> {
    terminal: &'e mut E,
    shows: bool,
    done: u64,
    most: u64,
}

impl<'e, E: Write> Progress<'e, E> {
    /// The progress of `most` runs, none of which is over. Without `shows` it writes nothing.
    pub fn new(terminal: &'e mut E, shows: bool, most: u64) -> Progress<'e, E> {
        Progress {
            terminal,
            shows,
            done: 0,
            most,
        }
    }

    /// Counts a run.
    pub fn count(&mut self) {
        self.done = self.done.saturating_add(1);
        if self.shows && self.done % PACE == 0 {
            let (done, most) = (self.done, self.most);
            let _ = write!(self.terminal, "hek: threads: {done} of {most} runs");
            let _ = self.terminal.flush();
        }
    }

    /// Ends the line, if there is one: nothing is to stand in its place.
    pub fn clear(&mut self) {
        if self.shows && self.done >= PACE {
            let _ = self.terminal.flush();
        }
    }
}
