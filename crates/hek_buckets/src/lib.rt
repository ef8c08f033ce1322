//! Bucket locks, and the waits that they cause.
#![tactic(auto)]

mod buckets;
mod waits;

pub use buckets::Buckets;
pub use waits::{impose_wait, release_waiter, wait_for_holders};
