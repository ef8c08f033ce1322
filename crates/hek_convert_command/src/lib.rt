//! The commands that turn one form into another: `asm` and `dis`, texts and images of schedules; `release` and `word`,
//! lock words and what they say.
#![tactic(auto)]

mod answer;
mod asm;
mod book;
mod bounds;
mod changes;
mod dis;
mod entries;
mod entry;
mod fault;
mod held;
mod objects;
mod release;
mod words;

pub use asm::asm_command;
pub use bounds::Bounds;
pub use changes::changes_command;
pub use dis::dis_command;
pub use release::{hex_number, release_command};
pub use words::word_command;
