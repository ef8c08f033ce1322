//! The command `permute`: every order of a schedule's moves, and the outcomes; and `run --auto`, one order.
#![tactic(auto)]

mod add;
mod auto;
mod choice;
mod counts;
mod details;
mod each;
mod find;
mod given;
mod json;
mod kinds;
mod leveled_file;
mod lines;
mod moves;
mod one;
mod origin;
mod page_plays;
mod permute;
mod play;
mod players;
mod printed;
mod progress;
mod rows;
mod text;

pub use add::{TableFault, sum_of_tables};
pub use auto::auto_file;
pub use choice::{Choice, part_of};
pub use given::{Given, program_in};
pub use json::put_judged;
pub use leveled_file::level_file;
pub use moves::{MovesChoice, moves_command};
pub use one::{fault_of, leveled};
pub use page_plays::plays_of_page;
pub use permute::{permute_command, permute_in_threads};
