//! What a log of transactions satisfies: the levels from read committed to serializable and the guarantees of sessions, in
//! one form. An order of transactions with a source for each read is judged.
#![tactic(auto)]

mod absent;
mod certificate;
mod judging;
mod log;
mod logged;
mod newest;
mod places;
mod points;
mod rows;
mod rules;
mod sourced;
mod sweep;
mod turns;
mod uncommitted;

pub use certificate::{Certificate, Missing, Sources, Writer};
pub use judging::explains;
pub use log::{Change, Log, Need, Place, Read, Scan, Transaction, Turn};
pub use logged::{
    at, does_write, is_committed, is_earlier, is_kept, is_possible, misses, offers, passing_of,
    read_at, reads_of, scans_of, turns_of, writes_of,
};
pub use points::explains_by_points;
pub use rules::{Asked, Guarantees, Level, Links, Own, Rules};
pub use sourced::source_at;
pub use uncommitted::{bare, find_lost};
