//! Which levels the log of a history holds at, where the history is explained or records a serial transcript, as contracts of
//! functions with empty bodies.
#![tactic(auto)]

mod laws;

pub use laws::{serial_explanations_explain, serial_runs_hold, snapshot_explanations_explain};
