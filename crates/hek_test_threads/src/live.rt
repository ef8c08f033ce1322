//! Lock words that change without a lock round them.

mod alone;
mod crossing;
mod crowd;
mod support;
mod worker;
