//! Versions in order of creation, found by key or bucket.
#![tactic(auto)]

mod adding;
mod chains;
mod living;
mod places;
mod slots;
mod store;
mod version;

pub use places::{KeyVersions, Versions};
pub use store::Store;
pub use version::Version;
