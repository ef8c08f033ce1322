//! Schedules as images, byte by byte.
#![tactic(auto)]

mod fault;
mod fields;
mod item;
mod items;
mod laws;
mod loading;
mod pieces;
mod place;
mod reading;
mod writing;

pub use fault::LoadFault;
pub use laws::images_are_exact;
pub use loading::load_image;
pub use writing::write_image;
