//! The machine for programs in C and other languages: the trace of a schedule's text, and the state after some of its steps, in
//! memory of the caller's. The header is include/hek_machine.h.
#![tactic(auto)]

mod copied;
mod made;
mod run;
mod state;
#[cfg(test)]
mod tests;

pub use made::HekMade;
