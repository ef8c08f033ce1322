//! Lines that hold an object of JSON each.
use hek_rules::NoMemory;
use json::Writer;
use std::alloc::{AllocError, Global};
use std::mem;

/// Lines that are written one after another. Each holds one object, from `begin_line` to `end_line`.
///
/// Writing fails only if memory runs out. That is kept, so that no member has to be asked for it, and `take` says it.
#[derive(Drop)]
pub struct Lines {
    pub(crate) alloc: Global,
    /// The lines that have ended, while none is begun.
    text: Vec<u8>,
    /// Writes the line that is begun, after the lines before it.
    pub(crate) writer: Writer,
    /// Whether memory ran out. Then what is written from there on doesn't count.
    is_short: bool,
}

impl Lines {
    /// No lines.
    pub fn new(alloc: Global) -> Lines {
        Lines::after(alloc, &mut Vec::new(alloc))
    }

    /// Lines that come after some bytes, which are taken out of their list until `put_back`.
    pub fn after(alloc: Global, bytes: &mut Vec<u8>) -> Lines {
        Lines {
            alloc,
            text: mem::replace(bytes, Vec::new(alloc)),
            writer: Writer::new(Vec::new(alloc)),
            is_short: false,
        }
    }

    /// Begins a line, and its object.
    pub fn begin_line(&mut self) {
        let text = mem::replace(&mut self.text, Vec::new(self.alloc));
        self.writer = Writer::new(text);
        self.begin_object();
    }

    /// Ends the object, and its line.
    pub fn end_line(&mut self) {
        self.end_object();
        let writer = mem::replace(&mut self.writer, Writer::new(Vec::new(self.alloc)));
        self.text = writer.into_inner();
        self.put_empty_line();
    }

    /// Ends a line that has nothing more. With no line begun, this is an empty line.
    pub fn put_empty_line(&mut self) {
        if self.text.push(b'\n').is_err() {
            self.lack_memory();
        }
    }

    /// How many bytes the lines have that have ended.
    pub fn len(&self) -> usize {
        self.text.len()
    }

    /// Whether no line has ended.
    pub fn is_empty(&self) -> bool {
        self.text.is_empty()
    }

    /// Whether memory sufficed so far.
    pub fn is_whole(&self) -> bool {
        !self.is_short
    }

    /// Takes the lines out. NoMemory if memory ran out in one of them.
    pub fn take(&mut self) -> Result<Vec<u8>, NoMemory> {
        if self.is_short {
            return Err(NoMemory);
        }
        Ok(mem::replace(&mut self.text, Vec::new(self.alloc)))
    }

    /// Puts the lines into a list of bytes, in place of what it holds. NoMemory if memory ran out in one of them.
    pub fn put_back(&mut self, bytes: &mut Vec<u8>) -> Result<(), NoMemory> {
        *bytes = self.take()?;
        Ok(())
    }

    /// Keeps that memory ran out.
    pub fn lack_memory(&mut self) {
        self.is_short = true;
    }

    /// Keeps whether a part was written.
    pub(crate) fn note(&mut self, written: Result<(), AllocError>) {
        if written.is_err() {
            self.is_short = true;
        }
    }
}
