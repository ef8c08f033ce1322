//! Schedules and traces as texts.
#![tactic(auto)]

mod assemble;
mod fault;
mod laws;
mod likely;
mod line;
mod own_steps;
mod piece;
mod reading;
mod reply;
mod schedule_text;
mod trace;
mod writing;

pub use assemble::assemble_text;
pub use fault::{AsmFault, AsmKind, TraceFault};
pub use laws::{canonical_text_is_exact, traces_are_exact};
pub use reading::read_trace;
pub use reply::{put_reply, write_reply};
pub use schedule_text::canonical;
pub use trace::{put_line, put_step, put_trace, write_trace};
