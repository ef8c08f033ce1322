//! A schedule file at another level.
use crate::one::leveled;
use hek_asm::canonical;
use hek_report::{HekFault, ScheduleFile, schedule_in};
use hek_rules::Level;
use std::alloc::Global;
use std::io::Read;

/// The text of the schedule in a file, with all transactions at one level.
pub fn level_file<'a, R: Read + Drop>(
    alloc: Global,
    file: ScheduleFile<R>,
    level: Level,
) -> Result<ScheduleFile<R>, HekFault<'a>> {
    let schedule = schedule_in(alloc, file)?;
    let made = leveled(alloc, &schedule, Some(level), schedule.steps())?;
    let text = canonical(alloc, &made)?;
    Ok(ScheduleFile::Text(text.into_bytes()))
}
