//! The command `dis`: the canonical text of a schedule.
ghost use Rattle.std.specs.Prelude.{◌≡◌, MatchResult};
ghost use Rattle.hek_convert_command.specs.Converted.{Disassembles};
ghost use Rattle.hek_report.specs.Files.{PrintFails};

use hek_asm::canonical;
use hek_report::{HekFault, ScheduleFile, schedule_in};
use std::alloc::Global;
use std::io::{Read, Write};

/// Writes the canonical text of the schedule in a file. Answers the exit status.
pub fn dis_command<'a, R: Read + Drop, W: Write>(
    alloc: Global,
    file: ScheduleFile<R>,
    out: &mut W,
) -> Result<u8, HekFault<'a>>
    ensures { MatchResult result (λ status. (status ≡ 0) × Disassembles R.remaining file (W.contents out.old) (W.contents out.new)) (PrintFails R.remaining file) }
{
    let schedule = schedule_in(alloc, file)?;
    let text = canonical(alloc, &schedule)?;
    match out.write_all(text.as_bytes()) {
        Ok(()) => Ok(0),
        Err(_) => Err(HekFault::CannotWrite),
    }
}
