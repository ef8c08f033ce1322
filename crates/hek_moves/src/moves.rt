//! Moves, as values.
ghost use Rattle.std.specs.Prelude.{◌≡◌, ◌∷◌, ◌++◌, [], OnOk};

use crate::after::After;
use crate::lane::Lanes;
use hek_program::Always;
use hek_rules::{
    Cause, Event, NoMemory, Pairs, Refusal, Reply, Time, Transcript, TxnId, VersionId,
};
use std::alloc::Global;
use std::marker::Model;
use std::mem;

/// Why a transaction waits for another.
#[derive(Clone, Copy, PartialEq, Eq)]
pub enum Hold {
    /// The other has read the row with this key, which it writes.
    Read(u64),
    /// The other has looked where it makes a row.
    Looked,
    /// It has read what the other wrote and hasn't committed.
    Uncommitted,
}

/// For whom a transaction waits, and why.
#[derive(Clone, Copy)]
pub struct Holder {
    pub txn: TxnId,
    pub hold: Hold,
}

/// What a move is.
#[derive(Drop)]
pub enum Kind {
    Begins,
    /// A read: the value that it found, and the move that wrote it if one did.
    Reads(Option<u64>, Option<usize>),
    Scans(Pairs),
    /// A write, with the version that it made; a deletion makes none.
    Writes(Option<VersionId>),
    /// A write that wrote nothing: its row is there already, or isn't there.
    Misses,
    /// A step that a program left out, since its condition didn't hold.
    Skips,
    /// The transaction wants to commit, and waits for these.
    Waits(Vec<Holder>),
    /// It draws its end time.
    Precommits(Time),
    Commits,
    Aborts(Cause),
    Refused(Refusal),
    /// Steps before any other move.
    Idles,
}

/// A move of a transaction.
#[derive(Drop)]
pub struct Move {
    pub txn: TxnId,
    /// The event of the step that makes it; of one that is left out, the event that it would have been.
    pub event: Event,
    pub kind: Kind,
    /// The place, among the steps of the text, of the one that it comes from.
    pub source: Option<usize>,
    /// Why it came out so, in words; empty where there is nothing to say.
    pub why: Vec<u8>,
}

/// The end of a wait: the places of the wait's move, and of the one whose step ended it.
#[derive(Clone, Copy)]
pub struct WaitEnd {
    pub wait: usize,
    pub by: usize,
}

/// The moves of a run, in order.
#[derive(Drop)]
pub struct Moves {
    pub(crate) items: Vec<Move>,
    /// For each step of the run the place of the move that it belongs to.
    pub(crate) of_step: Vec<usize>,
    pub(crate) ends: Vec<WaitEnd>,
    /// What was committed before: at the start, and after each step that changed it but the last one.
    pub(crate) past: Vec<After>,
    /// What is committed.
    pub(crate) latest: After,
    /// All steps with their replies.
    pub(crate) transcript: Transcript,
    /// What is known of each transaction.
    pub(crate) lanes: Lanes,
}

impl Model for Moves {
    ghost use Rattle.hek_moves.specs.Moves.{Told};

    ghost Value = { Told };

    ghost view = { λ m. record { moves = m.items.items; of_step = m.of_step.items; latest = m.latest } };
}

impl Moves {
    /// No moves of so many transactions, where nothing is committed, and a transcript without steps.
    pub(crate) fn new(
        alloc: Global,
        transcript: Transcript,
        txns: usize,
    ) -> Result<Moves, NoMemory> {
        let lanes = Lanes::new(alloc, txns)?;
        Ok(Moves {
            items: Vec::new(alloc),
            of_step: Vec::new(alloc),
            ends: Vec::new(alloc),
            past: Vec::new(alloc),
            latest: After::nothing(alloc),
            transcript,
            lanes,
        })
    }

    /// The moves, where each step belongs to the one at this place.
    pub(crate) fn with_steps(self, of_step: Vec<usize>) -> Moves
        ensures { result ≡ record self { of_step = of_step.items } }
    {
        let mut moves = self;
        moves.of_step = of_step;
        moves
    }

    /// Adds a step with its reply to the transcript.
    pub(crate) fn record(&mut self, event: Event, reply: Reply) -> Result<(), NoMemory>
        ensures { self.new ≡ self.old }
    {
        self.transcript.push(event, reply)
    }

    /// Notes what is committed before the first step.
    pub(crate) fn begin(&mut self, opening: After)
        ensures { self.new.latest ≡ opening }
    {
        self.latest = opening;
    }

    /// Notes what is committed after a step. Where it is what was committed before, the move that made it so stays.
    pub(crate) fn note(&mut self, next: After) -> Result<(), NoMemory>
        ensures rows { OnOk result (self.new.latest.rows ≡ next.rows) }
        ensures committed { OnOk result (self.new.latest.committed ≡ next.committed) }
        ensures holds { OnOk result (self.new.latest.holds ≡ next.holds) }
    {
        if self.latest.same(&next) {
            self.latest.rows = next.rows;
            self.latest.committed = next.committed;
            self.latest.holds = next.holds;
            return Ok(());
        }
        let past = mem::replace(&mut self.latest, next);
        self.past.push(past)?;
        Ok(())
    }

    /// All steps with their replies.
    pub fn transcript(&self) -> &Transcript {
        &self.transcript
    }

    /// The line of the first invariant that doesn't hold after the last step.
    pub fn broken(&self, always: &[Always]) -> Option<u64> {
        for (one, holds) in always.iter().zip(self.latest.holds.iter()) {
            if !*holds {
                return Some(one.line);
            }
        }
        None
    }

    /// The moves, in order.
    pub fn items(&self) -> &[Move]
        ensures { result.now ≡ self.now.moves }
    {
        self.items.as_slice()
    }

    /// For each step the place of its move.
    pub fn of_step(&self) -> &[usize]
        ensures { result.now ≡ self.now.of_step }
    {
        self.of_step.as_slice()
    }

    /// The waits that ended, in order.
    pub fn ends(&self) -> &[WaitEnd] {
        self.ends.as_slice()
    }

    /// What was committed at the start, and after each step that changed it but the last one.
    pub fn past(&self) -> &[After] {
        self.past.as_slice()
    }

    /// What is committed after the last step.
    pub fn now(&self) -> &After
        ensures { result.now ≡ self.now.latest }
    {
        &self.latest
    }

    /// What was committed at the start.
    pub(crate) fn opening(&self) -> &After {
        match self.past.first() {
            Some(first) => first,
            None => &self.latest,
        }
    }

    /// Adds a move, and answers its place.
    pub(crate) fn open(&mut self, made: Move) -> Result<usize, NoMemory>
        ensures { OnOk result (self.new.moves ≡ self.old.moves ++ made ∷ []) }
    {
        let place = self.items.len();
        self.lanes.note(made.txn, place, &made.kind);
        self.items.push(made)?;
        Ok(place)
    }

    /// Notes that a transaction's wait at a place ends with a step of the move at another.
    pub(crate) fn end_wait(&mut self, txn: TxnId, wait: usize, by: usize) -> Result<(), NoMemory> {
        self.lanes.end_wait(txn);
        self.ends.push(WaitEnd { wait, by })?;
        Ok(())
    }

    /// The place of the move that made a version of this key with this value.
    pub(crate) fn writer_of(&self, version: VersionId, key: u64, value: u64) -> Option<usize> {
        for (place, it) in self.items.iter().enumerate() {
            if it.made(version) && wrote(it.event, key, value) {
                return Some(place);
            }
        }
        None
    }
}

impl Move {
    /// Whether the move made a version.
    fn made(&self, version: VersionId) -> bool {
        match self.kind {
            Kind::Writes(Some(made)) => made == version,
            _ => false,
        }
    }
}

/// Whether an event writes a value at a key.
fn wrote(event: Event, key: u64, value: u64) -> bool {
    match event {
        Event::Insert(_, at, its) | Event::Update(_, at, its) => at == key && its == value,
        _ => false,
    }
}

/// The transactions that committed, in the order of their end times.
pub fn serial_order(alloc: Global, moves: &Moves) -> Result<Vec<TxnId>, NoMemory> {
    let mut drawn = Vec::new(alloc);
    for it in moves.items() {
        if let Kind::Precommits(time) = it.kind {
            if moves.lanes.of(it.txn).has_committed {
                drawn.push((time, it.txn))?;
            }
        }
    }
    if drawn.sort().is_err() {
        return Err(NoMemory);
    }
    let mut order = Vec::new(alloc);
    for (_, txn) in &drawn {
        order.push(*txn)?;
    }
    Ok(order)
}
