//! What the comments of a schedule text say.
ghost use Rattle.std.specs.Prelude.{IfErr};
ghost use Rattle.hek_report.specs.Files.{IsStop};

use hek_report::{HekFault, ScheduleFile};
use hek_rules::NoMemory;
use std::alloc::Global;
use std::io::Read;
use std::str;

/// The comments of a schedule text that are lines without words.
#[derive(Drop)]
pub struct Comments {
    /// Those above the first line with words, joined by spaces.
    pub about: String,
    /// The questions there, joined by spaces: what follows `#?`.
    pub question: String,
    notes: Vec<Note>,
}

/// The comments right above a step, joined by spaces, the questions among them, and the step's number.
#[derive(Drop)]
struct Note {
    step: u64,
    text: String,
    question: String,
}

/// The comments of the schedule in a file. An image has none, nor has what isn't text.
pub fn comments_in<'a, R: Read + Drop>(
    alloc: Global,
    file: &ScheduleFile<R>,
) -> Result<Comments, HekFault<'a>>
    ensures stops { IfErr result IsStop }
{
    let ScheduleFile::Text(bytes) = file else {
        return Ok(no_comments(alloc));
    };
    let text = str::from_utf8(bytes.as_slice()).unwrap_or("");
    match comments_of(alloc, text) {
        Ok(comments) => Ok(comments),
        Err(_) => Err(HekFault::NoMemory),
    }
}

/// The comments of an image: it has none.
fn no_comments(alloc: Global) -> Comments {
    Comments {
        about: String::new(alloc),
        question: String::new(alloc),
        notes: Vec::new(alloc),
    }
}

/// The comments of a schedule text.
fn comments_of(alloc: Global, text: &str) -> Result<Comments, NoMemory> {
    let mut reading = Reading {
        alloc,
        comments: no_comments(alloc),
        block: String::new(alloc),
        question: String::new(alloc),
        steps: 0,
        is_head: true,
    };
    for line in text.lines() {
        reading.take_line(line)?;
    }
    Ok(reading.comments)
}

impl Comments {
    /// The note of the step of a number, or an empty text.
    pub fn note_of(&self, step: u64) -> &str {
        for note in &self.notes {
            if note.step == step {
                return note.text.as_str();
            }
        }
        ""
    }

    /// The question above the step of a number, or an empty text.
    pub(crate) fn question_of(&self, step: u64) -> &str {
        for note in &self.notes {
            if note.step == step {
                return note.question.as_str();
            }
        }
        ""
    }
}

/// A reading of a text, line by line: the comments since the last line with words, and how many steps have come.
#[derive(Drop)]
struct Reading {
    alloc: Global,
    comments: Comments,
    block: String,
    question: String,
    steps: u64,
    is_head: bool,
}

impl Reading {
    fn take_line(&mut self, line: &str) -> Result<(), NoMemory> {
        let (words, remark) = line.split_once('#').unwrap_or((line, ""));
        match words.split_whitespace().next() {
            None => match remark.strip_prefix('?') {
                Some(question) => add_remark(question.trim(), &mut self.question),
                None => add_remark(remark.trim(), &mut self.block),
            },
            Some(word) => self.pass_words(word),
        }
    }

    /// Passes a line that begins with this word: the comments above it belong to it.
    fn pass_words(&mut self, word: &str) -> Result<(), NoMemory> {
        let block = String::from_str(self.alloc, self.block.as_str())?;
        let question = String::from_str(self.alloc, self.question.as_str())?;
        self.block.clear();
        self.question.clear();
        if !is_declaration(word) {
            self.steps = self.steps.saturating_add(1);
        }
        if self.is_head {
            self.is_head = false;
            self.comments.about = block;
            self.comments.question = question;
            return Ok(());
        }
        self.add_note(word, block, question)
    }

    fn add_note(&mut self, word: &str, text: String, question: String) -> Result<(), NoMemory> {
        if !is_declaration(word) && !(text.is_empty() && question.is_empty()) {
            let step = self.steps;
            let note = Note {
                step,
                text,
                question,
            };
            self.comments.notes.push(note)?;
        }
        Ok(())
    }
}

/// Adds a remark to others, after a space if there are some.
fn add_remark(remark: &str, remarks: &mut String) -> Result<(), NoMemory> {
    if remark.is_empty() {
        return Ok(());
    }
    if !remarks.is_empty() {
        remarks.push(' ')?;
    }
    remarks.push_str(remark)?;
    Ok(())
}

/// Whether a line that begins with this word is no step.
pub(crate) fn is_declaration(word: &str) -> bool {
    matches!(word, "buckets" | "row" | "txn")
}
