//! The command `threads`: each transaction of a schedule runs in its own thread.
#![tactic(auto)]

mod json;
mod outcome;
mod progress;
mod repeat;
mod text;
mod threads;

pub use progress::Progress;
pub use repeat::repeat_command;
pub use threads::{Pace, threads_command};
