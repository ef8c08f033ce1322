//! Changes of a version's words as a transaction makes them, each by one exchange of a word, and which change leads from one
//! word to the next.
#![tactic(auto)]

mod begin;
mod change;
mod display;
mod end;
mod holders;
mod intended;
mod lack;
mod laws;
mod left;
mod nearest;

pub use begin::begin_change;
pub use change::{BeginChange, EndChange};
pub use end::end_change;
pub use holders::{HolderFault, Standing, holder_fault, move_reader};
pub use lack::Lack;
pub use laws::holders_follow_changes;
pub use nearest::{Nearest, nearest_change};
