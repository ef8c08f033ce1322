//! Laws of runs whose transactions are each at their own level: first committers win, and a run explains itself. They are contracts
//! of functions with empty bodies.
#![tactic(auto)]

mod laws;

pub use laws::{first_committers_win, runs_are_recorded, runs_explain_themselves};
