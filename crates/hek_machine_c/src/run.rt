//! The trace of a schedule.
ghost use Rattle.std.specs.Prelude.{◌≡◌, ◌≢◌, ◌<◌, ◌≤◌, ℕ, List, length, MatchResult};
ghost use Rattle.std.specs.Str.{IsUtf8};
ghost use Rattle.hek_machine_c.specs.Made.{HasFaultAt, MakingFails, IsIn, IsTraceOfText};

use crate::copied::{copied, owned};
use crate::made::{HekMade, failed};
use hek_report::{HekFault, ScheduleFile};
use hek_run_command::run_command;
use std::alloc::Global;

/// Runs the schedule that a text describes, and writes its trace into the room at `out`, as `hek run --text` prints it.
#[unsafe(no_mangle)]
pub extern "C" fn hek_run(alloc: Global, text: &[u8], out: &mut [u8]) -> HekMade
    ensures made { result.status ≡ 0 → (lines : List ℕ) × IsTraceOfText text.now lines × IsIn lines out.old out.new × (result.length ≡ length lines) }
    ensures kept { result.status ≢ 0 → out.new ≡ out.old }
    ensures line { result.status ≡ 1 → HasFaultAt result.line text.now }
    ensures not_text { result.status ≡ 2 → ¬ (IsUtf8 text.now) }
    ensures no_room { result.status ≡ 4 → (lines : List ℕ) × IsTraceOfText text.now lines × (length out.old < length lines) × (result.length ≡ length lines) }
    ensures statuses { result.status ≤ 4 }
{
    match trace(alloc, text) {
        Ok(lines) => copied(lines.as_slice(), out),
        Err(fault) => failed(fault),
    }
}

fn trace<'a>(alloc: Global, text: &[u8]) -> Result<Vec<u8>, HekFault<'a>>
    ensures { MatchResult result (λ lines. IsTraceOfText text.now lines.items) (MakingFails text.now) }
{
    let file: ScheduleFile<&[u8]> = ScheduleFile::Text(owned(alloc, text)?);
    let mut lines = Vec::new(alloc);
    run_command(alloc, file, &mut lines)?;
    Ok(lines)
}
