//! Objects of JSON: those of steps and of states, one on each line.
mod change;
mod party;
mod reason;
mod state;
mod step;
mod txn_change;
mod word;

pub use state::put_state;
pub use step::{put_plain, put_told};
