//! One thread for each transaction. Each event is one hold of one lock, which also keeps the history.
#![tactic(auto)]

mod lottery;
mod parts;
mod runner;
mod shared;
mod worker;

pub use hek_worker::{
    Book, Entry, Part, Position, Stage, ThreadFault, begin_first_end_last, committed_where_full,
    is_work, none_refused, reads_and_writes_in_order, transcript_of, transcripts_are_lawful,
    transcripts_have_three_forms, waits_use_turns,
};
pub use lottery::Lottery;
pub use parts::compare;
pub use runner::{Report, run_workers, run_workers_with_exit};
pub use shared::Shared;
pub use worker::{Exit, Gate};
