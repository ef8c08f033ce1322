//! The lock around the book: one event is one hold of it.
ghost use Rattle.std.specs.Prelude.{◌≡◌, ◌<◌, IfOk};

use hek_rules::{Event, Reply, TxnId};
use hek_worker::{Book, ThreadFault};
use std::sync::{Mutex, Wait};

/// A book that threads share.
#[derive(Drop)]
pub struct Shared<'a> {
    book: Mutex<Book<'a>>,
}

impl<'a> Shared<'a> {
    /// The lock, with the book in it.
    pub fn new(book: Book<'a>) -> Shared<'a> {
        Shared {
            book: Mutex::new(book),
        }
    }

    /// Does one event in one hold of the lock, and gives the number of its entry, from 1, and the reply. Mismatch if
    /// the worker may not make it (`Book::may_step`).
    pub fn step<R: Wait>(
        &self,
        rt: &R,
        worker: TxnId,
        event: Event,
    ) -> Result<(u64, Reply), ThreadFault>
        ensures { IfOk result (λ r. 0 < r.0) }
    {
        self.book.lock(rt).attempt(worker, event)
    }

    /// Takes the book out of the lock, once no thread shares it.
    pub fn into_book(self) -> Book<'a> {
        let Shared { book } = self;
        book.into_inner()
    }
}

/// Does one event at a time, in one hold of a lock. A worker is generic over this trait: a scope's closure has no proof
/// where it captures a type that names a lifetime.
pub trait Steps {
    fn step_once<R: Wait>(
        &self,
        rt: &R,
        worker: TxnId,
        event: Event,
    ) -> Result<(u64, Reply), ThreadFault>
        ensures { IfOk result (λ r. 0 < r.0) };
}

impl<'a> Steps for Shared<'a> {
    fn step_once<R: Wait>(
        &self,
        rt: &R,
        worker: TxnId,
        event: Event,
    ) -> Result<(u64, Reply), ThreadFault> {
        self.step(rt, worker, event)
    }
}
