//! What a reader sees of a version.
#![tactic(auto)]

mod visibility;

pub use hek_rules::Sight;
pub use visibility::{from_creator, see, under_writer};
