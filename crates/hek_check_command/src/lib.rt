//! The command `check`: the verdict on a trace, how much of it is judged, and each of its faults.
#![tactic(auto)]

mod check;
mod faults;
mod json;
mod judged;
mod noted;
mod reported;
mod sources;
mod text;
mod verdict;

pub use check::check_command;
pub use faults::{Fault, faults_of};
pub use judged::{Judged, note_nothing};
pub use noted::note_together;
pub use reported::{Asked, reported_command};
