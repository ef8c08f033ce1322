//! Deadlock detection: the wait graph, its victim, and the victim's cycle.
#![tactic(auto)]

mod detector;
mod graph;
mod laws;
mod levels;
mod nodes;
mod search;

pub use detector::detect;
pub use laws::victim_is_that_of_the_world;
