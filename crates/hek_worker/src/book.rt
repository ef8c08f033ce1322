//! A machine with the history of its events.
ghost use Rattle.std.specs.Prelude.{◌≡◌, ◌+◌, ◌++◌, ◌∷◌, [], ◌↔◌, IsTrue, IfOk, OnErr, Err, length};
ghost use Rattle.hek_rules.specs.Run.{reply as reply_in};
ghost use Rattle.hek_machine.specs.Stands.{StandsFor};
ghost use Rattle.hek_worker.specs.History.{MayStep, Replays, is_own, world_of};

use crate::entry::{Entry, ThreadFault};
use crate::room::{ReplyRoom, copy_into};
use hek_machine::Machine;
use hek_rules::{Event, NoMemory, Reply, Schedule, TxnId};
use std::alloc::Global;
use std::marker::Model;

/// A machine with the history of its events. Contracts see the schedule that the machine was loaded with, and the
/// history. The type keeps two facts: the replies in the history are those of the rule table, and the machine
/// represents the table's world after it.
#[derive(Drop)]
pub struct Book<'a> {
    alloc: Global,
    schedule: &'a Schedule,
    machine: Machine,
    history: Vec<Entry>,
}

impl<'a> Model for Book<'a> {
    ghost use Rattle.hek_worker.specs.Kept.{Kept};

    ghost Value = { Kept };

    ghost use Rattle.hek_worker.specs.History.{Replays};

    ghost view = { λ b. record { plan = b.schedule.now; history = b.history.items } };

    ghost invariant = { λ b. Replays b.schedule.now b.machine b.history.items };
}

impl<'a> Book<'a> {
    /// The book of a loaded machine, before any event.
    pub fn load(alloc: Global, schedule: &'a Schedule) -> Result<Book<'a>, NoMemory>
        ensures { IfOk result (λ b. b ≡ record { plan = schedule.now; history = [] }) }
    {
        let machine = Machine::load(alloc, schedule)?;
        Ok(Book {
            alloc,
            schedule,
            machine,
            history: Vec::new(alloc),
        })
    }

    /// An equal book, with separate room.
    pub fn copy(&self) -> Result<Book<'a>, NoMemory>
        ensures { IfOk result (λ b. b ≡ self.now) }
    {
        let machine = self.machine.copy()?;
        let history = copied(self.alloc, self.history())?;
        Ok(Book {
            alloc: self.alloc,
            schedule: self.schedule,
            machine,
            history,
        })
    }

    /// The machine, which represents the table's world after the history.
    pub fn machine(&self) -> &Machine
        ensures { StandsFor result.now (world_of self.now) }
    {
        &self.machine
    }

    /// The entries so far, in order.
    pub fn history(&self) -> &[Entry]
        ensures { result.now ≡ self.now.history }
    {
        self.history.as_slice()
    }

    /// Whether this worker may make this event: the worker is declared, the event is its own or `Detect`, and a scan's
    /// bucket exists.
    pub fn may_step(&self, worker: TxnId, event: Event) -> bool
        ensures { IsTrue result ↔ MayStep self.now.plan worker event }
    {
        let declared = worker.number() > 0 && worker.number() <= self.schedule.txn_count() as u64;
        let own = owns(worker, &event);
        let placed = placed(self.schedule.buckets(), &event);
        declared && own && placed
    }

    /// Room for a copy of the machine's reply to this event: only a scan and a search for a deadlock need some.
    fn reply_room(&self, event: &Event) -> Result<ReplyRoom, NoMemory>
        ensures { IfOk result (λ room. room ≡ room_for (world_of self.now) event.now) }
    {
        let (pairs, members) = match event {
            Event::Scan(_, _) => (self.machine.versions(), 0),
            Event::Detect => (0, self.machine.txns() as usize),
            _ => (0, 0),
        };
        ReplyRoom::new(self.alloc, pairs, members)
    }

    /// Does one event and adds its entry. Answers the entry's place, counted from 1, and the reply. Out of memory,
    /// nothing has happened.
    pub fn step(&mut self, worker: TxnId, event: Event) -> Result<(u64, Reply), NoMemory>
        requires { MayStep self.old.plan worker event }
        ensures plan { self.new.plan ≡ self.old.plan }
        ensures number { IfOk result (λ r. r.0 ≡ length self.old.history + 1) }
        ensures reply { IfOk result (λ r. r.1 ≡ reply_in (world_of self.old) event) }
        ensures entry { IfOk result (λ r. self.new.history ≡ self.old.history ++ record { worker = worker; event = event; reply = r.1 } ∷ []) }
        ensures err { OnErr result (self.new ≡ self.old) }
    {
        let room = self.reply_room(&event)?;
        self.history.reserve(1)?;
        let made = event;
        let reply = self.machine.step(event)?;
        let kept = copy_into(&reply, room);
        self.history.push_reserved(Entry {
            worker,
            event: made,
            reply: kept,
        });
        Ok((self.history.len() as u64, reply))
    }

    /// Does one event if the worker may make it; Mismatch if it may not.
    pub fn attempt(&mut self, worker: TxnId, event: Event) -> Result<(u64, Reply), ThreadFault>
        ensures plan { self.new.plan ≡ self.old.plan }
        ensures mismatch { (result ≡ Err (ThreadFault.Mismatch worker)) ↔ ¬ (MayStep self.old.plan worker event) }
        ensures number { IfOk result (λ r. r.0 ≡ length self.old.history + 1) }
        ensures reply { IfOk result (λ r. r.1 ≡ reply_in (world_of self.old) event) }
        ensures entry { IfOk result (λ r. self.new.history ≡ self.old.history ++ record { worker = worker; event = event; reply = r.1 } ∷ []) }
        ensures err { OnErr result (self.new ≡ self.old) }
    {
        let tried = event;
        if !self.may_step(worker, tried) {
            return Err(ThreadFault::Mismatch(worker));
        }
        match self.step(worker, event) {
            Ok(answer) => Ok(answer),
            Err(_) => Err(ThreadFault::NoMemory),
        }
    }

    /// The machine and the history.
    pub fn into_parts(self) -> (Machine, Vec<Entry>)
        ensures history { result.1.items ≡ self.entry.history }
        ensures replays { Replays self.entry.plan result.0 self.entry.history }
    {
        let Book {
            alloc: _,
            schedule: _,
            machine,
            history,
        } = self;
        (machine, history)
    }

    /// Whether the machine was loaded with this schedule.
    pub fn is_of(&self, schedule: &Schedule) -> bool
        ensures { IsTrue result ↔ (self.now.plan ≡ schedule.now) }
    {
        self.schedule.same(schedule)
    }
}

ghost use Rattle.hek_laws.specs.Runs.{IsPlaced};
ghost use Rattle.hek_worker.specs.Room.{room_for};

// Equal entries.
fn copied(alloc: Global, history: &[Entry]) -> Result<Vec<Entry>, NoMemory>
    ensures { IfOk result (λ entries. entries.items ≡ history.now) }
{
    let mut entries = Vec::with_capacity(alloc, history.len())?;
    for entry in history {
        entries.push(Entry {
            worker: entry.worker,
            event: entry.event,
            reply: entry.reply.copy()?,
        })?;
    }
    Ok(entries)
}

// Whether the event is this transaction's, or a search for a deadlock.
fn owns(worker: TxnId, event: &Event) -> bool
    ensures { result ≡ is_own worker event.now }
{
    match event.txn() {
        Some(txn) => txn == worker,
        None => true,
    }
}

// Whether a scan's bucket exists.
fn placed(buckets: u64, event: &Event) -> bool
    ensures { IsTrue result ↔ IsPlaced buckets event.now }
{
    match event {
        Event::Scan(_, bucket) => *bucket < buckets,
        _ => true,
    }
}
