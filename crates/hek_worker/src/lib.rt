//! What one worker does for its transaction, event by event, and the book: a machine with the history of all workers.
//! No threads.
#![tactic(auto)]

mod book;
mod entry;
mod laws;
mod room;
mod stage;
mod transcribed;

pub use book::Book;
pub use entry::{Entry, Part, ThreadFault};
pub use laws::{
    begin_first_end_last, committed_where_full, none_refused, reads_and_writes_in_order,
    transcripts_are_lawful, transcripts_have_three_forms, waits_use_turns,
};
pub use stage::{Position, Stage, is_work};
pub use transcribed::transcript_of;
