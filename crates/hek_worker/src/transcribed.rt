//! A history as the transcript that a checker reads.
ghost use Rattle.std.specs.Prelude.{◌≡◌, IfOk};
ghost use Rattle.hek_worker.specs.History.{recorded_by};

use crate::entry::Entry;
use hek_rules::{NoMemory, Schedule, Transcript};
use std::alloc::Global;

/// The transcript of a history over a schedule's rows and levels: events and replies, without the workers.
pub fn transcript_of(
    alloc: Global,
    schedule: &Schedule,
    history: Vec<Entry>,
) -> Result<Transcript, NoMemory>
    ensures { IfOk result (λ told. told ≡ recorded_by schedule.now history.items) }
{
    let mut told = Transcript::new(alloc, schedule)?;
    for entry in history {
        let Entry {
            worker: _,
            event,
            reply,
        } = entry;
        told.push(event, reply)?;
    }
    Ok(told)
}
