//! The phases of a transaction after its reads and writes: commit dependencies, precommit, commit, abort, stamps, end.
//! No call takes memory: callers reserve room in a transaction's lists before.
#![tactic(auto)]

mod dependents;
mod phases;
mod stamps;

pub use dependents::depend;
pub use phases::{abort, commit, end, precommit};
pub use stamps::stamp_next;
