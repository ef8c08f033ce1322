//! The machine: each event is one rule of the rule table.
#![tactic(auto)]

mod checks;
mod claims;
mod detects;
mod effects;
mod engine;
mod judging;
mod machine;
mod new_versions;
mod pairs;
mod phases;
mod reads;
mod releases;
mod room;
mod runs;
mod scans;
mod scratch;
mod shown;
mod steps;
mod walks;
mod writes;

pub use hek_rules::WriteEntry;
pub use machine::Machine;
pub use runs::{Trace, run, run_at};
