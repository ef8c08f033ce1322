//! A note on a trace in which each transaction has what its level promises, though they can't follow one another by end time.
use crate::verdict::transcript_of_text;
use hek_history_report::{Together, put_phrase, together_of};
use hek_report::Text;
use hek_rules::{NoMemory, Schedule, Transcript, Verdict};
use hek_serial::check;
use std::alloc::Global;
use std::io::Write;
use std::str;

/// Notes in `faults` whether the committed transactions of a trace can follow one another, where each has what its own
/// level promises and they can't do so by end time. Without the memory to find out it says nothing.
pub fn note_together<E: Write>(alloc: Global, schedule: &Schedule, trace: &[u8], faults: &mut E) {
    let Ok(text) = str::from_utf8(trace) else {
        return;
    };
    let Ok(transcript) = transcript_of_text(alloc, schedule, text) else {
        return;
    };
    if let Ok(Some(line)) = note_of(alloc, schedule, &transcript) {
        let _ = faults.write_all(line.as_slice());
    }
}

/// The line of the note, if there is one.
fn note_of(
    alloc: Global,
    schedule: &Schedule,
    transcript: &Transcript,
) -> Result<Option<Vec<u8>>, NoMemory> {
    match check(alloc, transcript)? {
        Verdict::Serial => line_of(alloc, schedule, transcript),
        Verdict::NotSerial(_) => Ok(None),
    }
}

/// The line of a trace that is right at each level, if its transactions can't follow one another by end time.
fn line_of(
    alloc: Global,
    schedule: &Schedule,
    transcript: &Transcript,
) -> Result<Option<Vec<u8>>, NoMemory> {
    let together = together_of(alloc, schedule, transcript)?;
    line_with(alloc, schedule, &together)
}

fn line_with(
    alloc: Global,
    schedule: &Schedule,
    together: &Together,
) -> Result<Option<Vec<u8>>, NoMemory> {
    if matches!(together, Together::ByEndTime) {
        return Ok(None);
    }
    let mut line = Vec::new(alloc);
    let mut text = Text::after(&mut line);
    text.put("hek: note: each transaction got what its level promises; the outcome is ");
    put_phrase(schedule, together, &mut text);
    text.put("\n");
    text.done()?;
    Ok(Some(line))
}
