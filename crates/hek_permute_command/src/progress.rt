//! How far the plays of orders have come, on a line of a terminal.
use hek_explore::Survey;
use hek_permute::{Outcome, Pace, Watch};
use hek_rules::TxnId;
use std::io::Write;

/// After how many orders the line is written anew: some times a second.
const PACE: u64 = 16_384;

/// How many states beginnings of orders lead to. Those after equally many moves are a layer.
#[derive(Clone, Copy, Default)]
pub struct Census {
    /// How many moves an order has, and how many of them are played in every order.
    pub moves: u64,
    pub played: u64,
    /// How many states these lead to, how many the widest layer has, and how many the last one has.
    pub states: u64,
    pub widest: u64,
    pub last: u64,
    /// How many beginnings of orders were played for that.
    pub plays: u64,
}

/// Counts orders and states, and writes a line without an end at each `PACE` plays: what comes after its flush stands in its
/// place.
#[derive(Drop)]
pub struct Progress<'e, E: Write> {
    terminal: &'e mut E,
    shows: bool,
    tells: bool,
    done: u64,
    most: Option<u64>,
    census: Census,
}

impl<'e, E: Write> Progress<'e, E> {
    /// The progress of `most` orders, if it is known how many there are, none of which has been played. With `shows` it is
    /// shown; with `tells` a line says of each exploration how many states it met.
    pub fn new(
        terminal: &'e mut E,
        shows: bool,
        tells: bool,
        most: Option<u64>,
    ) -> Progress<'e, E> {
        Progress {
            terminal,
            shows,
            tells,
            done: 0,
            most,
            census: Census::default(),
        }
    }

    /// How many states the last exploration has met.
    pub(crate) fn census(&self) -> Census {
        self.census
    }

    /// Counts an order.
    pub fn count(&mut self) {
        self.done = self.done.saturating_add(1);
        if self.shows && self.done % PACE == 0 {
            let done = self.done;
            let most = self.most.unwrap_or(done);
            let _ = write!(self.terminal, "hek: permute: {done} of {most} orders");
            let _ = self.terminal.flush();
        }
    }

    /// Counts the play of the beginning of an order. It is not known how many there will be.
    fn count_beginning(&mut self) {
        self.done = self.done.saturating_add(1);
        if self.shows && self.done % PACE == 0 {
            let done = self.done;
            let _ = write!(self.terminal, "hek: permute: {done} beginnings of orders");
            let _ = self.terminal.flush();
        }
    }

    /// Counts a play that leads to a state.
    fn count_state(&mut self) {
        self.done = self.done.saturating_add(1);
        self.census.plays = self.census.plays.saturating_add(1);
        if self.shows && self.done % PACE == 0 {
            let Census {
                moves,
                played,
                states,
                ..
            } = self.census;
            let next = played.saturating_add(1);
            let _ = write!(
                self.terminal,
                "hek: permute: move {next} of {moves}, {states} states"
            );
            let _ = self.terminal.flush();
        }
    }

    /// Writes the line of an exploration, if it is to be told.
    pub(crate) fn tell(&mut self) {
        if !self.tells {
            return;
        }
        self.clear();
        let Census {
            played,
            states,
            widest,
            plays,
            ..
        } = self.census;
        let _ = writeln!(
            self.terminal,
            "hek: permute: {states} states in {played} layers, at most {widest} in one; {plays} plays"
        );
    }

    /// Ends the line, if there is one: nothing is to stand in its place.
    pub fn clear(&mut self) {
        if self.shows && self.done >= PACE {
            let _ = self.terminal.flush();
        }
    }
}

impl<E: Write> Watch for Progress<'_, E> {
    fn see(&mut self, _order: &[TxnId], _outcome: &Outcome) -> bool {
        self.count();
        true
    }
}

impl<E: Write> Pace for Progress<'_, E> {
    fn count_play(&mut self) {
        self.count_beginning();
    }
}

impl<E: Write> Survey for Progress<'_, E> {
    fn begin(&mut self, moves: u64) {
        self.census = Census {
            moves,
            ..Census::default()
        };
    }

    fn count_play(&mut self) {
        self.count_state();
    }

    fn end_layer(&mut self, states: usize) {
        let states = states as u64;
        self.census.played = self.census.played.saturating_add(1);
        self.census.states = self.census.states.saturating_add(states);
        self.census.widest = self.census.widest.max(states);
        self.census.last = states;
    }
}
