//! The command `history`: which levels a log satisfies, from serializable down, and what keeps it from the others. Also the log of a run
//! of the machine.
#![tactic(auto)]

mod all;
mod choice;
mod counted;
mod counts;
mod explained;
mod forgetting;
mod history;
mod json;
mod levels;
mod numbers;
mod order_lines;
mod report;
mod run_log;
mod text;
mod verdict;

pub use choice::{Asked, Choice, Extent};
pub use history::history_command;
pub use run_log::run_log_command;
