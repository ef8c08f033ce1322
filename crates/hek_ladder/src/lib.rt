//! What a log is asked: which levels and guarantees it satisfies, in which order of its transactions.
#![tactic(auto)]

mod asking;
mod binding;
mod guesses;
mod ladder;
mod promise;
mod scene;
mod turns;
mod twins;

pub use asking::{Finding, ask, causes_of};
pub use binding::{Binding, Wish, has_times};
pub use ladder::{Ladder, Rung, Standing};
pub use promise::Promise;
pub use scene::{Levels, Scene};
pub use twins::order_of;
