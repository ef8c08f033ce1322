//! The command line of the program: the table of commands and what is made from it, the files that are opened, and the command that is
//! called.
#![tactic(auto)]

mod advice;
mod arguments;
mod build;
mod call;
mod colour;
mod command_line;
mod commands;
mod disk;
mod explain;
mod file_rows;
mod help;
mod histories;
mod kept;
mod lock_words;
mod manual;
mod notes;
mod opening;
mod order_rows;
mod page_data;
mod page_rows;
mod pages;
mod permute;
mod programs;
mod reasons;
mod rows;
mod run_rows;
mod runs;
mod said;
mod schedule;
mod settings;
mod shells;
mod shown;
mod sought;
mod sources;
mod streams;
mod system_disk;
mod words;

pub use command_line::{Surroundings, program};
pub use disk::Disk;
pub use settings::{Settings, When};
pub use system_disk::SystemDisk;
