//! The schedule of a page at another level, or finished by itself; its comments stay where they were.
use crate::texts::plain_start;
use hek_asm::canonical;
use hek_permute_command::{auto_file, leveled};
use hek_report::{HekFault, ScheduleFile, schedule_in};
use hek_rules::{Level, NoMemory, Schedule};
use std::alloc::Global;
use std::io::Read;
use std::str;

/// What is made of a schedule before its page: all transactions at a level, if one is given, and the steps that
/// `hek run --auto` makes.
#[derive(Clone, Copy)]
pub struct Making {
    pub level: Option<Level>,
    pub auto: bool,
}

/// The schedule that is made of the one in a file, as a text. A comment above a step stays above this step.
pub fn made_file<'a, R: Read + Drop>(
    alloc: Global,
    file: ScheduleFile<R>,
    making: Making,
) -> Result<ScheduleFile<R>, HekFault<'a>> {
    if making.level.is_none() && !making.auto {
        return Ok(file);
    }
    let mut remarks = remarks_in(alloc, &file)?;
    match remade(alloc, file, making)? {
        ScheduleFile::Text(made) => {
            let text = remarked(alloc, made.as_slice(), &mut remarks)?;
            Ok(ScheduleFile::Text(text.into_bytes()))
        }
        ScheduleFile::Image(reader) => Ok(ScheduleFile::Image(reader)),
    }
}

/// The schedule without its comments.
fn remade<'a, R: Read + Drop>(
    alloc: Global,
    file: ScheduleFile<R>,
    making: Making,
) -> Result<ScheduleFile<R>, HekFault<'a>> {
    if making.auto {
        return auto_file(alloc, file, making.level);
    }
    let schedule = schedule_in(alloc, file)?;
    let schedule = at_level(alloc, schedule, making.level)?;
    let text = canonical(alloc, &schedule)?;
    Ok(ScheduleFile::Text(text.into_bytes()))
}

/// The schedule at this level, or at its own levels.
fn at_level<'a>(
    alloc: Global,
    schedule: Schedule,
    level: Option<Level>,
) -> Result<Schedule, HekFault<'a>> {
    if level.is_none() {
        return Ok(schedule);
    }
    leveled(alloc, &schedule, level, schedule.steps())
}

/// The comments of a text: the lines above its first line with words, and those above steps.
#[derive(Drop)]
struct Remarks {
    head: String,
    above: Vec<Remark>,
}

/// Lines of comments above a step, the words of the step with one space between them, without what is computed; whether
/// something is; and whether they stand in the new text.
#[derive(Drop)]
struct Remark {
    step: String,
    is_computed: bool,
    lines: String,
    is_placed: bool,
}

impl Remark {
    /// Whether a line of the new text is this step.
    fn is_of(&self, line: &str) -> bool {
        match line.strip_prefix(self.step.as_str()) {
            Some("") => true,
            Some(rest) => self.is_computed && rest.starts_with(' '),
            None => false,
        }
    }
}

/// The comments of the schedule in a file: an image has none.
fn remarks_in<R: Read + Drop>(alloc: Global, file: &ScheduleFile<R>) -> Result<Remarks, NoMemory> {
    let mut remarks = Remarks {
        head: String::new(alloc),
        above: Vec::new(alloc),
    };
    let ScheduleFile::Text(bytes) = file else {
        return Ok(remarks);
    };
    let mut block = String::new(alloc);
    let mut is_head = true;
    for line in str::from_utf8(bytes.as_slice()).unwrap_or("").lines() {
        take_line(alloc, line, &mut is_head, &mut block, &mut remarks)?;
    }
    Ok(remarks)
}

/// Takes a line of a text: a comment joins those above it, and words end these.
fn take_line(
    alloc: Global,
    line: &str,
    is_head: &mut bool,
    block: &mut String,
    remarks: &mut Remarks,
) -> Result<(), NoMemory> {
    let (words, remark) = line.split_once('#').unwrap_or((line, ""));
    let (step, is_computed) = plain_start(alloc, words)?;
    if step.is_empty() {
        return add_remark(remark, block);
    }
    let lines = String::from_str(alloc, block.as_str())?;
    block.clear();
    if *is_head {
        *is_head = false;
        remarks.head = lines;
        return Ok(());
    }
    if lines.is_empty() {
        return Ok(());
    }
    remarks.above.push(Remark {
        step,
        is_computed,
        lines,
        is_placed: false,
    })?;
    Ok(())
}

/// Adds a line with this comment, if there is one.
fn add_remark(remark: &str, lines: &mut String) -> Result<(), NoMemory> {
    if remark.trim().is_empty() {
        return Ok(());
    }
    lines.push('#')?;
    lines.push_str(remark)?;
    lines.push('\n')?;
    Ok(())
}

/// The words of a text with one space between them.
pub(crate) fn joined(alloc: Global, text: &str) -> Result<String, NoMemory> {
    let mut words = String::new(alloc);
    for word in text.split_whitespace() {
        if !words.is_empty() {
            words.push(' ')?;
        }
        words.push_str(word)?;
    }
    Ok(words)
}

/// A text without comments, with these above their steps.
fn remarked(alloc: Global, made: &[u8], remarks: &mut Remarks) -> Result<String, NoMemory> {
    let mut text = String::from_str(alloc, remarks.head.as_str())?;
    for line in str::from_utf8(made).unwrap_or("").lines() {
        place_remark(line, remarks.above.as_mut_slice(), &mut text)?;
        text.push_str(line)?;
        text.push('\n')?;
    }
    Ok(text)
}

/// Adds the first comment above such a step that isn't placed yet, if there is one.
fn place_remark(line: &str, remarks: &mut [Remark], text: &mut String) -> Result<(), NoMemory> {
    for remark in remarks {
        if !remark.is_placed && remark.is_of(line) {
            remark.is_placed = true;
            text.push_str(remark.lines.as_str())?;
            return Ok(());
        }
    }
    Ok(())
}
