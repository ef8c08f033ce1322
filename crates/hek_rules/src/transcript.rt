//! Transcripts: the events of a run with their replies, over the rows and levels of a schedule.
ghost use Rattle.std.specs.Prelude.{◌≡◌, ◌-◌, ◌<◌, ◌++◌, [], ◌∷◌, map, length, slice_get, OnOk, OnErr, IfOk, Some};
ghost use Rattle.hek_rules.specs.Plan.{IsDeclared, levels_of};

use crate::event::{Event, Level};
use crate::id::TxnId;
use crate::memory::NoMemory;
use crate::reply::Reply;
use crate::schedule::Schedule;
use std::alloc::Global;
use std::marker::Model;

/// The number of buckets, the rows and the levels that a run began with, and each event with its reply.
#[derive(Drop)]
pub struct Transcript {
    buckets: u64,
    rows: Vec<(u64, u64)>,
    levels: Vec<Level>,
    events: Vec<Event>,
    replies: Vec<Reply>,
}

impl Model for Transcript {
    ghost use Rattle.std.specs.Prelude.{◌<◌, ◌≡◌, length};
    ghost use Rattle.std.specs.List.{zip};
    ghost use Rattle.hek_rules.specs.Recorded.{Recorded};

    ghost Value = { Recorded };

    ghost view = { λ t. record { buckets = t.buckets; rows = t.rows.items; levels = t.levels.items; history = zip t.events.items t.replies.items } };

    ghost invariant = { λ t. (0 < t.buckets) × (length t.replies.items ≡ length t.events.items) };
}

fn copy_rows(alloc: Global, schedule: &Schedule) -> Result<Vec<(u64, u64)>, NoMemory>
    ensures { IfOk result (λ rows. rows.items ≡ schedule.now.rows) }
{
    let mut rows = Vec::with_capacity(alloc, schedule.row_count())?;
    for place in 0..schedule.row_count() {
        rows.push(schedule.row(place))?;
    }
    Ok(rows)
}

fn copy_levels(alloc: Global, schedule: &Schedule) -> Result<Vec<Level>, NoMemory>
    ensures { IfOk result (λ levels. levels.items ≡ levels_of schedule.now) }
{
    let mut levels = Vec::with_capacity(alloc, schedule.txn_count())?;
    for place in 0..schedule.txn_count() {
        levels.push(schedule.level_of(TxnId::new(place as u64 + 1)))?;
    }
    Ok(levels)
}

impl Transcript {
    /// A transcript without events, over a schedule's rows and levels.
    pub fn new(alloc: Global, schedule: &Schedule) -> Result<Transcript, NoMemory>
        ensures { IfOk result (λ t. t ≡ record { buckets = schedule.now.buckets; rows = schedule.now.rows; levels = levels_of schedule.now; history = [] }) }
    {
        Ok(Transcript {
            buckets: schedule.buckets(),
            rows: copy_rows(alloc, schedule)?,
            levels: copy_levels(alloc, schedule)?,
            events: Vec::new(alloc),
            replies: Vec::new(alloc),
        })
    }

    /// Appends an event with its reply. Out of memory, the reply is dropped and the transcript is unchanged.
    pub fn push(&mut self, event: Event, reply: Reply) -> Result<(), NoMemory>
        ensures ok { OnOk result (self.new ≡ record self.old { history = self.old.history ++ (event, reply) ∷ [] }) }
        ensures err { OnErr result (self.new ≡ self.old) }
    {
        self.events.push(event)?;
        match self.replies.push(reply) {
            Ok(()) => Ok(()),
            Err(_) => {
                let _event = self.events.pop();
                Err(NoMemory)
            }
        }
    }

    /// The number of buckets, at least one.
    pub fn buckets(&self) -> u64
        ensures value { result ≡ self.now.buckets }
        ensures some { 0 < result }
    {
        self.buckets
    }

    /// How many rows the run began with.
    pub fn row_count(&self) -> usize
        ensures { result ≡ length self.now.rows }
    {
        self.rows.len()
    }

    /// The key and the value of the row at a place.
    pub fn row(&self, place: usize) -> (u64, u64)
        requires { place < length self.now.rows }
        ensures { slice_get self.now.rows place ≡ Some result }
    {
        self.rows[place]
    }

    /// The rows in their order.
    pub fn rows(&self) -> &[(u64, u64)]
        ensures { result.now ≡ self.now.rows }
    {
        self.rows.as_slice()
    }

    /// How many transactions are declared: their IDs are 1 to this number.
    pub fn txn_count(&self) -> usize
        ensures { result ≡ length self.now.levels }
    {
        self.levels.len()
    }

    /// The level of a declared transaction.
    pub fn level_of(&self, txn: TxnId) -> Level
        requires { IsDeclared (length self.now.levels) txn }
        ensures { slice_get self.now.levels (txn - 1) ≡ Some result }
    {
        self.levels[(txn.number() - 1) as usize]
    }

    /// The levels, that of ID 1 first.
    pub fn levels(&self) -> &[Level]
        ensures { result.now ≡ self.now.levels }
    {
        self.levels.as_slice()
    }

    /// The events, in order.
    pub fn events(&self) -> &[Event]
        ensures { result.now ≡ map (λ (p : Event × Reply). p.0) self.now.history }
    {
        self.events.as_slice()
    }

    /// The replies, each at the place of its event.
    pub fn replies(&self) -> &[Reply]
        ensures { result.now ≡ map (λ (p : Event × Reply). p.1) self.now.history }
    {
        self.replies.as_slice()
    }
}
