//! The lines of a text that are steps.
use hek_report::ScheduleFile;
use hek_rules::NoMemory;
use std::alloc::Global;
use std::io::Read;
use std::str;

/// The words with which a line begins that is no step.
const HEADS: [&str; 4] = ["buckets", "row", "txn", "always"];

/// The number, from 1, of each line that is a step; none of an image.
pub(crate) fn step_lines_in<R: Read + Drop>(
    alloc: Global,
    file: &ScheduleFile<R>,
) -> Result<Vec<u64>, NoMemory> {
    match file {
        ScheduleFile::Text(text) => step_lines(alloc, text.as_slice()),
        ScheduleFile::Image(_) => Ok(Vec::new(alloc)),
    }
}

pub(crate) fn step_lines(alloc: Global, text: &[u8]) -> Result<Vec<u64>, NoMemory> {
    let mut lines = Vec::new(alloc);
    let Ok(text) = str::from_utf8(text) else {
        return Ok(lines);
    };
    let mut number = 0u64;
    for line in text.split('\n') {
        number = number.saturating_add(1);
        if is_step(line) {
            lines.push(number)?;
        }
    }
    Ok(lines)
}

/// Whether a line has words of which the first begins a step.
fn is_step(line: &str) -> bool {
    let said = match line.split_once('#') {
        Some((front, _)) => front,
        None => line,
    };
    match said.split_whitespace().next() {
        Some(word) => !HEADS.contains(&word),
        None => false,
    }
}
