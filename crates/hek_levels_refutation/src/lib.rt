//! Whether a certificate shows that a log has no explanation by the rules of a level or of guarantees.
#![tactic(auto)]

mod candidates;
mod claim;
mod ordering;
mod premises;
mod refutation;
mod seeing;

pub use claim::{Claim, Link, Shown, Step};
pub use refutation::refutes;
