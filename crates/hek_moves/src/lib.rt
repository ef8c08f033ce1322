//! Moves: a run as its transactions see it. A move is a read, a write, a wait or an end, with the steps that belong to it.
#![tactic(auto)]

mod after;
mod folding;
mod json;
mod kind;
mod lane;
mod moves;
mod say;
mod sentence;
mod text;
mod waiting;
mod why;

pub use after::After;
pub use folding::{Origin, moves_of};
pub use json::put_moves;
pub use moves::{Hold, Holder, Kind, Move, Moves, WaitEnd, serial_order};
pub use text::put_move_lines;
