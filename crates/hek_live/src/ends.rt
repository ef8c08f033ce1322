//! The words, and the seats of the threads that share them.
ghost use Rattle.std.specs.Prelude.{◌≡◌, ◌<◌, []};

use crate::rule::Counted;
use crate::view::View;
use atomic_table::Table;
use hek_rules::LockChange;
use std::alloc::Global;

/// Record locks that threads share. Each word is infinity, which is the word of a version that nobody holds, or a lock.
/// Its ReadLockCount is the number of seats that hold its read token, and its WriteLock the ID under which a seat holds
/// its write token.
#[derive(Drop)]
pub struct LiveWords {
    pub(crate) table: Table<LockChange, View, usize, Counted, Global>,
    ghost counted: { table.shared.key ≡ table.shared.table_id.words },
    ghost some: { 0 < table.shared.table_id.words },
}

/// The access of one thread to the words, with the tokens that it holds. It has no bytes. A seat that is dropped keeps
/// its tokens forever.
#[derive(Drop)]
pub struct Seat {
    pub(crate) seat: atomic_table::Seat<LockChange, View>,
    ghost bare: { seat.me.1 ≡ [] },
}
