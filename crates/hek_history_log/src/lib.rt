//! Logs of histories: JSON Lines, one transaction on each line. `read_log` reads a log as a history with its names,
//! keys and values; `write_run` writes a run of the machine as a log.
#![tactic(auto)]

mod fault;
mod fields;
mod finish;
mod input;
mod log_line;
mod logged;
mod numbering;
mod operations;
mod pinpoint;
mod reader;
mod run;
mod shown;
mod spot;
mod symbols;

pub use fault::{LogFault, Wanted};
pub use logged::{Log, Turn, Version};
pub use pinpoint::{Mistake, Pinpoint, mistake_in};
pub use reader::{FaultWatch, read_log, read_log_watching};
pub use run::write_run;
pub use shown::Label;
