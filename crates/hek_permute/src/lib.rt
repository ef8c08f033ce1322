//! Every order of a schedule's moves: each is played on a new machine, and the outcomes are counted. A move can be
//! computed from what its transaction has seen.
#![tactic(auto)]

mod fault;
mod find;
mod leveled;
mod moves;
mod number;
mod one_play;
mod order;
mod outcome;
mod parts;
mod play;
mod seen;
mod tally;
mod whole;

pub use fault::OrderFault;
pub use find::{Pace, Sought, find_order};
pub use leveled::schedule_with;
pub use moves::{Form, Move, Moves, first_order, move_count, moves_of};
pub use number::{all_orders_are_numbered, order_at, order_count};
pub use one_play::{each_order_has_one_outcome, each_order_has_one_play, plain_moves_are_constant};
pub use order::next_order;
pub use outcome::{Ending, Outcome, end_of, outcome_of, some_waited};
pub use parts::play_parts;
pub use play::{Place, Play, first_places, make_move, play_order};
pub use tally::{Row, Tally};
pub use whole::{Watch, play_all};
