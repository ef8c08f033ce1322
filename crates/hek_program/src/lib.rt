//! Programs: schedules whose writes are computed from what their transactions read, and what is to hold at the end.
#![tactic(auto)]

mod always;
mod condition;
mod fault;
mod laws;
mod lookup;
mod parse;
mod program;
mod reader;
mod rule;
mod term;
mod token;
mod told;
mod written;

pub use always::{Always, AtEnd};
pub use condition::{Comparison, Condition, Relation};
pub use fault::{ProgramFault, Wanted};
pub use laws::plain_steps_are_constant;
pub use lookup::Lookup;
pub use program::Program;
pub use reader::read_program;
pub use rule::{Act, Rule, act_of};
pub use term::{Amount, Factor, Product, Sum};
pub use told::{Own, known_after, value_at};
pub use written::{ComputedLine, bare_text, computed_line};
