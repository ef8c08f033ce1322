//! Which levels and guarantees imply which.
#![tactic(auto)]

mod laws;

pub use laws::{
    bare_says, explained_is_read_uncommitted, fewer_turns_imply, found_says, guarantees_imply,
    levels_imply,
};
