//! What a run of workers gives, and what a worker keeps.
ghost use Rattle.std.specs.Prelude.{◌≡◌};
ghost use Rattle.hek_worker.specs.declared.entry.ThreadFault.TheVariants as threads;

use hek_rules::{Event, NoMemory, Reply, TxnId};
use std::alloc::{AllocError, AllocFailed};
use std::marker::Model;
use thiserror::Error;

/// One event, the worker that made it, and the reply.
#[derive(Drop, Debug)]
pub struct Entry {
    pub worker: TxnId,
    pub event: Event,
    pub reply: Reply,
}

/// One worker's events and replies. Contracts see it as their list.
#[derive(Drop, Debug)]
pub struct Part {
    turns: Vec<(Event, Reply)>,
}

impl Model for Part {
    ghost use Rattle.std.specs.Prelude.{List};
    ghost use Rattle.hek_rules.specs.declared.event.Event.{Event};
    ghost use Rattle.hek_rules.specs.declared.reply.Reply.{Reply};

    ghost Value = { List (Event × Reply) };

    ghost view = { λ p. p.turns.items };
}

impl Part {
    /// The part with these events and replies, in this order.
    pub fn of(turns: Vec<(Event, Reply)>) -> Part
        ensures { result ≡ turns.items }
    {
        Part { turns }
    }

    /// The events and replies, in order.
    pub fn as_slice(&self) -> &[(Event, Reply)]
        ensures { result.now ≡ self.now }
    {
        self.turns.as_slice()
    }
}

/// Why a run has no report, or an event no reply.
#[derive(Clone, Copy, Debug, PartialEq, Eq, Error)]
pub enum ThreadFault {
    /// A worker's thread can't be started.
    #[error("no worker")]
    NoWorker,
    #[error("no memory")]
    NoMemory,
    /// This worker may not make its event, or its transcript is not what it should be. The ID 0 is no worker's: the
    /// book is of another schedule.
    #[error("mismatch {number}", number = .0.number())]
    Mismatch(TxnId),
}

impl From<NoMemory> for ThreadFault {
    ghost from_gives = { λ _ e. e ≡ threads.NoMemory };

    fn from(_e: NoMemory) -> ThreadFault {
        ThreadFault::NoMemory
    }
}

impl From<AllocError> for ThreadFault {
    ghost from_gives = { λ _ e. e ≡ threads.NoMemory };

    fn from(_e: AllocError) -> ThreadFault {
        ThreadFault::NoMemory
    }
}

impl<T: Drop> From<AllocFailed<T>> for ThreadFault {
    ghost from_gives = { λ _ e. e ≡ threads.NoMemory };

    fn from(_e: AllocFailed<T>) -> ThreadFault {
        ThreadFault::NoMemory
    }
}
