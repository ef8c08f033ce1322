//! Looks for what shows that a log has an explanation by some rules, or that it has none. What it finds is a verdict only once it was
//! judged by hek_levels or hek_levels_refutation.
#![tactic(auto)]

mod certificate;
mod claims;
mod clock;
mod cycle;
mod facts;
mod front;
mod graph;
mod guessed;
mod hops;
mod judging;
mod keys;
mod known;
mod lanes;
mod listing;
mod lists;
mod narrowing;
mod nodes;
mod order;
mod problem;
mod queues;
mod repair;
mod replay;
mod resolve;
mod rows_within;
mod seek;
mod sight;
mod sourcing;
mod start;
mod steps;
mod visible;

pub use judging::{Guess, Hint, Progress, Shown, Verdict, judge};
pub use keys::Keys;
pub use lists::{add, at, part, put, reverse_from};
pub use problem::{
    Absence, Candidates, Counted, Left, NO_READING, Problem, Reading, Source, meets, reduced,
};
