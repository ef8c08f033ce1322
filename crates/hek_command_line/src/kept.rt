//! The bytes that a command reads, kept so that a fault of them can be explained, and why a file could not be read or written.
use crate::commands::Command;
use clap::ArgMatches;
use hek_report::INPUT;
use std::alloc::Global;
use std::cell::{Cell, RefCell};
use std::io;
use std::io::{ErrorKind, Read};

/// The bytes of FILE, and of TRACE or COMMANDS, as far as a command has read them.
#[derive(Drop)]
pub struct Kept<'a> {
    /// Whether bytes are kept.
    keeps: bool,
    pub file: Option<&'a str>,
    pub other: Option<&'a str>,
    file_bytes: RefCell<Vec<u8>>,
    other_bytes: RefCell<Vec<u8>>,
    /// Whether FILE is open, where TRACE or COMMANDS has the same name.
    is_opened: Cell<bool>,
    /// Why a file could not be read or written, if one could not.
    failure: Cell<Option<ErrorKind>>,
    /// Memory for kept bytes ran out.
    is_short: Cell<bool>,
}

impl<'a> Kept<'a> {
    /// What a command reads with these words, kept if its faults are explained. A log is read line by line, so its bytes
    /// are not kept.
    pub fn new(
        alloc: Global,
        command: Command,
        found: &ArgMatches<'a>,
        explains: bool,
    ) -> Kept<'a> {
        Kept {
            keeps: explains && command != Command::History,
            file: found.get_str("FILE"),
            other: found.get_str("TRACE").or(found.get_str("COMMANDS")),
            file_bytes: RefCell::new(Vec::new(alloc)),
            other_bytes: RefCell::new(Vec::new(alloc)),
            is_opened: Cell::new(false),
            failure: Cell::new(None),
            is_short: Cell::new(false),
        }
    }

    /// The name of FILE.
    pub fn name(&self) -> &'a str {
        self.file.unwrap_or("")
    }

    /// Why a file could not be read or written, if one could not.
    pub fn failure(&self) -> Option<ErrorKind> {
        self.failure.get()
    }

    /// Notes why a file could not be read or written.
    pub fn note(&self, kind: ErrorKind) {
        self.failure.set(Some(kind));
    }

    /// Whether there was memory for all that had to be kept.
    pub fn is_whole(&self) -> bool {
        !self.is_short.get()
    }

    /// Whether the words name standard input twice, which can be read once.
    pub fn is_input_twice(&self) -> bool {
        self.file == Some(INPUT) && self.other == Some(INPUT)
    }

    /// Where the bytes of a file are kept.
    fn cell_of(&self, name: &str) -> Option<&RefCell<Vec<u8>>> {
        if !self.keeps {
            return None;
        }
        if self.file == Some(name) && !self.is_opened.get() {
            self.is_opened.set(true);
            return Some(&self.file_bytes);
        }
        if self.other == Some(name) {
            return Some(&self.other_bytes);
        }
        None
    }

    /// The bytes of FILE.
    pub fn file_bytes(&self, alloc: Global) -> Vec<u8> {
        taken(alloc, &self.file_bytes)
    }

    /// The bytes of TRACE or COMMANDS.
    pub fn other_bytes(&self, alloc: Global) -> Vec<u8> {
        taken(alloc, &self.other_bytes)
    }
}

/// Takes the bytes out.
fn taken(alloc: Global, cell: &RefCell<Vec<u8>>) -> Vec<u8> {
    match cell.try_replace(Vec::new(alloc)) {
        Ok(bytes) => bytes,
        Err(_) => Vec::new(alloc),
    }
}

/// A reader whose bytes are kept, if there is a place for them.
#[derive(Drop)]
pub struct KeptReader<'c, 'a, R: Read + Drop> {
    reader: R,
    cell: Option<&'c RefCell<Vec<u8>>>,
    kept: &'c Kept<'a>,
}

impl<'c, 'a, R: Read + Drop> KeptReader<'c, 'a, R> {
    /// A reader whose bytes are kept as those of the file of this name.
    pub fn new(reader: R, name: &str, kept: &'c Kept<'a>) -> KeptReader<'c, 'a, R> {
        KeptReader {
            reader,
            cell: kept.cell_of(name),
            kept,
        }
    }

    /// Keeps bytes. Once memory runs out none are kept.
    fn keep(&mut self, bytes: &[u8]) {
        let Some(cell) = self.cell else {
            return;
        };
        let mut is_kept = false;
        if let Ok(mut kept) = cell.try_borrow_mut() {
            is_kept = kept.extend_from_slice(bytes).is_ok();
            if !is_kept {
                kept.clear();
            }
        }
        if !is_kept {
            self.cell = None;
            self.kept.is_short.set(true);
        }
    }
}

impl<R: Read + Drop> Read for KeptReader<'_, '_, R> {
    fn read(&mut self, buf: &mut [u8]) -> io::Result<usize> {
        let count = match self.reader.read(buf) {
            Ok(count) => count,
            Err(error) => {
                self.kept.note(error.kind());
                return Err(error);
            }
        };
        let count = count.min(buf.len());
        self.keep(&buf[..count]);
        Ok(count)
    }
}
