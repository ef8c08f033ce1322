//! The step debugger: it does the steps of a schedule one by one or up to a mark, and undoes them.
#![tactic(auto)]

mod command;
mod debugger;
mod keeping;
mod laws;
mod mark;
mod place;
mod reading;

pub use command::{Command, DebugFault, Reason, Stop};
pub use debugger::Debugger;
pub use laws::runs_stop_at_the_first_mark;
pub use mark::Mark;
pub use reading::{CommandFault, CommandLine, read_command, read_commands};
