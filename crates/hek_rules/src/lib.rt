//! The types that all of Hek uses: transactions, versions, times, the records of the two words of a version, events
//! and replies. The definitions of the scheme are in specs/.
#![tactic(auto)]

mod check;
mod device;
mod event;
mod form;
mod id;
mod kind;
mod laws;
mod lists;
mod memory;
mod name;
mod reply;
mod schedule;
mod serial;
mod text;
mod transcript;
mod word;
pub mod worked;

pub use check::Check;
pub use device::{
    Ending, FromRead, FromWrite, MemorySink, MemorySource, Sink, Source, WriteFault, put_all,
};
pub use event::{Aim, Cause, Effect, Event, Level, Sight, State, WriteEntry};
pub use form::{ReplyForm, ReplyOperands};
pub use id::{Time, TxnId, VersionId};
pub use kind::{EventKind, events_are_their_parts};
pub use laws::victim_is_that_of_walks;
pub use lists::{Members, Pairs};
pub use memory::NoMemory;
pub use name::{name_ok, name_text};
pub use reply::{Refusal, Reply, ReplyParts};
pub use schedule::{MAX_BUCKETS, MAX_ROWS, MAX_STEPS, MAX_TXNS, Schedule};
pub use serial::{Verdict, Write};
pub use text::{next_line, next_word, number, same_bytes};
pub use transcript::Transcript;
pub use word::{BeginRecord, Dropped, EndRecord, LockChange};
