//! The standard streams of a call: what goes out, in colours where that is wished, and why it took no more.
use crate::colour::{PLAIN, Paint, end_of};
use crate::shown::show;
use std::alloc::Global;
use std::io::{ErrorKind, IsTerminal, Write};
use std::{io, mem, str};

/// The most bytes of a line that are kept.
const MOST: usize = 4_096;

/// What begins the line of a fault, and that of a note.
const FAULT: &str = "hek: ";

const NOTE: &str = "hek: note: ";

/// What clears the line of a terminal.
const CLEAR: &[u8] = b"\r\x1b[K";

/// A standard stream, whose reader may leave before its end, as the reader of a pipe does that has seen enough. Where it has
/// colours, a line goes out once it ends, or when the stream is flushed. A line of a stream of faults that is flushed before its
/// end tells how far something is: what is written next, or a second flush, takes it away.
#[derive(Drop)]
pub struct Stream<'o, W: Write> {
    alloc: Global,
    out: &'o mut W,
    paint: Paint,
    /// The line that has not ended, if the stream has colours.
    line: Vec<u8>,
    /// The first line, as far as it is kept, and whether it is over.
    first: Vec<u8>,
    is_over: bool,
    /// Where the line is that was written last, and whether one that is flushed goes away.
    last: Last,
    passes: bool,
    failure: Option<ErrorKind>,
}

/// Where a line is.
#[derive(Clone, Copy, PartialEq)]
enum Last {
    Ended,
    Begun,
    /// Begun and flushed, so that it goes away.
    Passing,
}

impl<'o, W: Write> Stream<'o, W> {
    /// A stream over an output, which has not failed yet.
    pub fn new(alloc: Global, out: &'o mut W, paint: Paint) -> Stream<'o, W> {
        Stream {
            alloc,
            out,
            paint,
            line: Vec::new(alloc),
            first: Vec::new(alloc),
            is_over: false,
            last: Last::Ended,
            passes: false,
            failure: None,
        }
    }

    /// A stream of faults.
    pub fn of_faults(alloc: Global, out: &'o mut W, paint: Paint) -> Stream<'o, W> {
        let mut stream = Stream::new(alloc, out, paint);
        stream.passes = true;
        stream
    }

    /// Writes to a file in its place: text with pictures, or an image.
    pub fn write_to<F: Write>(&self, bytes: &[u8], file: &mut F) -> io::Result<()> {
        match self.paint {
            Paint::Image => file.write_all(bytes),
            Paint::None | Paint::Replies | Paint::Faults => show(self.alloc, bytes, file),
        }
    }

    /// Whether the reader has left, so that what was written last went nowhere.
    pub fn has_lost_reader(&self) -> bool {
        self.failure == Some(ErrorKind::BrokenPipe)
    }

    /// Why it took no more, if it failed.
    pub fn failure(&self) -> Option<ErrorKind> {
        self.failure
    }

    /// What the first line says, if it is that of a fault.
    pub fn fault(&self) -> Option<&str> {
        let line = str::from_utf8(self.first.as_slice()).ok()?;
        if line.starts_with(NOTE) {
            return None;
        }
        line.strip_prefix(FAULT)
    }

    /// Keeps the bytes of the first line.
    fn keep(&mut self, bytes: &[u8]) {
        for byte in bytes {
            if self.is_over {
                return;
            }
            self.is_over = *byte == b'\n' || self.first.len() >= MOST;
            if !self.is_over && self.first.push(*byte).is_err() {
                self.is_over = true;
            }
        }
    }

    /// Notes an error, the first one.
    fn noted(&mut self, error: io::Error) -> io::Error {
        if self.failure.is_none() {
            self.failure = Some(error.kind());
        }
        error
    }

    /// Writes bytes: text with pictures, and where there are colours each line once it ends.
    fn put(&mut self, bytes: &[u8]) -> io::Result<()> {
        match self.paint {
            Paint::Image => self.out.write_all(bytes),
            Paint::None => show(self.alloc, bytes, self.out),
            Paint::Replies | Paint::Faults => self.put_lines(bytes),
        }
    }

    /// Writes the lines that end with these bytes.
    fn put_lines(&mut self, bytes: &[u8]) -> io::Result<()> {
        for byte in bytes {
            self.line.extend_from_slice(&[*byte])?;
            if *byte == b'\n' {
                self.send()?;
            }
        }
        Ok(())
    }

    /// Writes the line that is there, in colours.
    fn send(&mut self) -> io::Result<()> {
        let line = mem::replace(&mut self.line, Vec::new(self.alloc));
        let line = line.as_slice();
        let Some((start, colour)) = self.paint.part_of(line) else {
            return show(self.alloc, line, self.out);
        };
        let (front, rest) = line.split_at(start.min(line.len()));
        let (part, end) = rest.split_at(end_of(rest).min(rest.len()));
        show(self.alloc, front, self.out)?;
        self.out.write_all(colour.front())?;
        show(self.alloc, part, self.out)?;
        self.out.write_all(PLAIN)?;
        show(self.alloc, end, self.out)
    }

    /// Takes away a line that tells how far something is.
    fn clear(&mut self) -> io::Result<()> {
        if self.last == Last::Passing {
            self.last = Last::Ended;
            self.out.write_all(CLEAR)?;
        }
        Ok(())
    }

    /// Writes bytes in place of a line that goes away.
    fn put_next(&mut self, bytes: &[u8]) -> io::Result<()> {
        self.clear()?;
        match bytes.last() {
            Some(b'\n') => self.last = Last::Ended,
            Some(_) => self.last = Last::Begun,
            None => {}
        }
        self.put(bytes)
    }

    /// Writes what is kept of a line, unless the stream has failed: then it is no whole line.
    fn put_rest(&mut self) -> io::Result<()> {
        self.clear()?;
        let line = mem::replace(&mut self.line, Vec::new(self.alloc));
        if self.failure.is_none() {
            show(self.alloc, line.as_slice(), self.out)?;
        }
        if self.last == Last::Begun && self.passes {
            self.last = Last::Passing;
            if !self.is_over {
                self.first.clear();
            }
        }
        self.out.flush()
    }
}

impl<W: Write> Write for Stream<'_, W> {
    fn write(&mut self, buf: &[u8]) -> io::Result<usize> {
        self.keep(buf);
        match self.put_next(buf) {
            Ok(()) => Ok(buf.len()),
            Err(error) => Err(self.noted(error)),
        }
    }

    fn flush(&mut self) -> io::Result<()> {
        match self.put_rest() {
            Ok(()) => Ok(()),
            Err(error) => Err(self.noted(error)),
        }
    }
}

impl<W: Write + IsTerminal> IsTerminal for Stream<'_, W> {
    fn is_terminal(&self) -> bool {
        self.out.is_terminal()
    }
}
