//! Read locks and write locks of versions, with their writers' wait counters. No call takes memory: callers reserve
//! room in a transaction's lists before.
#![tactic(auto)]

mod clear;
mod read;
mod release;
mod write;

pub use clear::{clear_write, cleared, is_stale};
pub use read::{can_read_lock, read_lock};
pub use release::release_read;
pub use write::{can_write_lock, write_lock};
