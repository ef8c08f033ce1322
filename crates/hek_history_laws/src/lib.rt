//! Laws between the checker of transcripts and the definition of explanations, as contracts of functions with empty
//! bodies.
#![tactic(auto)]

mod laws;

pub use laws::{serial_runs_are_recorded, serial_runs_have_explanations};
