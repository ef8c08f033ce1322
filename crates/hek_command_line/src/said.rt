//! What is said of a fault: the lines under its own, and the object that it is in JSON.
use hek_diagnostics::{Diagnostic, Excerpt};
use hek_report::{Lines, Text};
use hek_rules::NoMemory;
use std::alloc::Global;
use std::{mem, str};

/// What is said of a fault, as far as something is known of it.
#[derive(Drop)]
pub struct Said {
    pub alloc: Global,
    lines: Vec<u8>,
    /// Whether memory ran out for the lines.
    is_short: bool,
    object: Lines,
}

impl Said {
    /// Nothing yet but the exit status and the line of the fault.
    pub fn new(alloc: Global, status: u8, fault: &str) -> Said {
        let mut object = Lines::new(alloc);
        object.begin_line();
        object.put_text("kind", "fault");
        object.put_number("status", u64::from(status));
        object.put_text("fault", fault);
        Said {
            alloc,
            lines: Vec::new(alloc),
            is_short: false,
            object,
        }
    }

    /// Keeps that memory ran out for the lines.
    pub fn lack_memory(&mut self) {
        self.is_short = true;
    }

    /// Keeps whether memory sufficed for some of the lines.
    fn note(&mut self, put: Result<(), NoMemory>) {
        if put.is_err() {
            self.is_short = true;
        }
    }

    /// The lines.
    pub fn take_lines(&mut self) -> Result<Vec<u8>, NoMemory> {
        if self.is_short {
            return Err(NoMemory);
        }
        Ok(mem::replace(&mut self.lines, Vec::new(self.alloc)))
    }

    /// The line with the object.
    pub fn take_object(&mut self) -> Result<Vec<u8>, NoMemory> {
        self.object.end_line();
        self.object.take()
    }

    /// A member whose text is this pattern with its values.
    fn member(&mut self, name: &str, pattern: &str, values: &[&str]) {
        let mut bytes = Vec::new(self.alloc);
        let mut text = Text::after(&mut bytes);
        text.form(pattern, values);
        if text.done().is_err() {
            return self.object.lack_memory();
        }
        if let Ok(text) = str::from_utf8(bytes.as_slice()) {
            self.object.put_text(name, text);
        }
    }

    /// The file at fault, in the object alone.
    pub fn file(&mut self, name: &str) {
        self.object.put_text("file", name);
    }

    /// The place at fault, in the object alone.
    pub fn place(&mut self, name: &str, line: u64, column: u64) {
        self.file(name);
        self.object.put_number("line", line);
        self.object.put_number("column", column);
    }

    /// A text with carets under some of its characters.
    pub fn carets(&mut self, pattern: &str, values: &[&str], before: usize, count: usize) {
        self.put(&["  | ", pattern, "\n  | "], values);
        let mut text = Text::after(&mut self.lines);
        text.marks(" ", before);
        text.marks("^", count.max(1));
        let put = text.done();
        self.note(put);
    }

    /// What is wrong, after a mark or the carets.
    pub fn line(&mut self, mark: &str, pattern: &str, values: &[&str]) {
        self.put(&[mark, pattern, "\n"], values);
        self.member("message", pattern, values);
    }

    pub fn message(&mut self, pattern: &str, values: &[&str]) {
        self.line(" ", pattern, values);
    }

    pub fn wanted(&mut self, pattern: &str, values: &[&str]) {
        self.put(&["  | wanted: ", pattern, "\n"], values);
        self.member("wanted", pattern, values);
    }

    pub fn meant(&mut self, pattern: &str, values: &[&str]) {
        self.put(&["  | did you mean `", pattern, "`?\n"], values);
        self.member("meant", pattern, values);
    }

    /// A pattern with its values between what is before and after it.
    fn put(&mut self, parts: &[&str; 3], values: &[&str]) {
        let &[before, pattern, after] = parts;
        let mut text = Text::after(&mut self.lines);
        text.put(before);
        text.form(pattern, values);
        text.put(after);
        let put = text.done();
        self.note(put);
    }

    /// Lines as they are.
    pub fn text(&mut self, lines: &str) {
        self.put(&[lines, "", ""], &[]);
    }

    /// Lines that are made, unless memory ran out.
    pub fn shown<F: Drop>(&mut self, made: Result<String, F>) {
        match made {
            Ok(lines) => self.text(lines.as_str()),
            Err(_) => self.lack_memory(),
        }
    }

    /// The place and the line at fault, with carets under what is wrong.
    pub fn excerpt(&mut self, name: &str, number: u64, excerpt: Excerpt<'_>) {
        let column = excerpt.column();
        self.place(name, number, column as u64);
        let alloc = self.alloc;
        self.shown(format!(in alloc; "  {name}:{number}:{column}\n{excerpt}"));
    }

    /// A diagnostic of a text, in the object alone.
    pub fn diagnostic(&mut self, name: &str, found: &Diagnostic<'_>) {
        self.place(name, found.place.number, found.place.column() as u64);
        let alloc = self.alloc;
        let message = found.message();
        match format!(in alloc; "{message}") {
            Ok(message) => self.object.put_text("message", message.as_str()),
            Err(_) => self.object.lack_memory(),
        }
        if let Some(wanted) = found.wanted() {
            match format!(in alloc; "{wanted}") {
                Ok(wanted) => self.object.put_text("wanted", wanted.as_str()),
                Err(_) => self.object.lack_memory(),
            }
        }
        if let Some(meant) = found.meant() {
            self.object.put_text("meant", meant);
        }
    }
}

/// The digits of a number; none without memory.
pub fn digits(alloc: Global, number: u64) -> String {
    match format!(in alloc; "{number}") {
        Ok(digits) => digits,
        Err(_) => String::new(alloc),
    }
}

/// Two values, at one lifetime.
pub fn pair<'v>(first: &'v str, second: &'v str) -> [&'v str; 2] {
    [first, second]
}
