//! What each command reports with: faults and their statuses, files with schedules, lines that go out, names, and
//! objects of JSON.
#![tactic(auto)]

mod event;
mod fault;
mod input;
mod lines;
mod members;
mod name;
mod phase;
mod printing;
mod reply;
mod schedule_file;
mod sending;
mod texts;

pub use fault::{HekFault, read_fault, report};
pub use input::{INPUT, buffered};
pub use lines::Lines;
pub use name::{is_named, put};
pub use phase::StateText;
pub use printing::Printing;
pub use schedule_file::{ScheduleFile, read_text, schedule_in, schedule_of_text};
pub use sending::{send, send_if_many, send_lines};
pub use texts::{Hole, Text};
