//! The step from a history to the log that levels see: what each transaction found that it had not itself changed, and what
//! it left.
#![tactic(auto)]

mod answers;
mod fitting;
mod own;
mod reads;
mod step;
mod transaction;

pub use step::log_of;
