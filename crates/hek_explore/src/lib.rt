//! All orders of a schedule's moves, counted by the states that they reach; and the laws by which one play counts for many,
//! as contracts of functions with empty bodies.
#![tactic(auto)]

mod class;
mod code;
mod crew;
mod groups;
mod grow;
mod key;
mod numbers;
mod spot;
mod state;
mod survey;
mod walk;

ghost use Rattle.hek_explore.specs.Laws.{EqualKeysMakeTwins, PlaysExtendAlike, TwinsHaveEqualKeys, TwinsHaveOneOutcome};

pub use key::{Key, Look, TxnKey, VersionKey};
pub use state::key_after;
pub use survey::Survey;
pub use walk::{explore, explore_in_threads};

/// Two plays are twins and have led to the same places. If one goes on by a move, so does the other, to the same
/// places, and these are twins again, unless the clock comes to its end.
pub fn plays_extend_alike()
    ensures { PlaysExtendAlike }
{}

/// Plays that are twins have one outcome.
pub fn twins_have_one_outcome()
    ensures { TwinsHaveOneOutcome }
{}

/// Plays with equal keys are twins, and have led to the same places.
pub fn equal_keys_make_twins()
    ensures { EqualKeysMakeTwins }
{}

/// Plays that are twins and have led to the same places have equal keys.
pub fn twins_have_equal_keys()
    ensures { TwinsHaveEqualKeys }
{}
