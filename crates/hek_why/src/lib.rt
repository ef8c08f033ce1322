//! Why an event has its reply: the reasons, read off the machine before the event. What an event changed.
#![tactic(auto)]

mod change;
mod difference;
mod dooms;
mod explain;
mod facts;
mod items;
mod kept;
mod met;
mod reason;
mod refused;
mod rule_name;
mod see;
mod stops;
mod txn_difference;
mod waits;
mod walk_sights;
mod walked;

pub use change::{Change, TxnChange};
pub use difference::changes;
pub use dooms::Dooms;
pub use explain::{Step, reasons};
pub use facts::read_time;
pub use items::Items;
pub use reason::{Met, Phase, Reason};
pub use waits::{commit_reasons, wait_reasons};
pub use walk_sights::sights;
pub use walked::looks;
