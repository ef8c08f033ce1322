//! The command `debug`: commands of the step debugger from a text, or typed in a session.
#![tactic(auto)]

mod breakpoint;
mod condition;
mod debug;
mod elsewhere;
mod explain;
mod held;
mod help;
mod listing;
mod mistake;
mod moves;
mod name;
mod operand;
mod pages;
mod question;
mod reply_kind;
mod session;
mod shown;
mod stop_text;
mod typed;
mod words;

pub use debug::debug_command;
pub use explain::{CommandFile, explained_command};
pub use session::{Manner, Sources, debug_session};
pub use words::put_words;
