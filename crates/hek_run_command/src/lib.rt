//! The commands that run a schedule: `run`, with reasons, changes and states, and `drive`, a machine that is driven event
//! by event.
#![tactic(auto)]

mod drive;
mod driven_line;
mod one_step;
mod printed;
mod run;
mod steps;
mod telling;

pub use drive::{Driving, drive_command};
pub use driven_line::read_event;
pub use one_step::explain_step;
pub use run::{run_command, state_command};
pub use steps::{Steps, put_run, steps_command};
