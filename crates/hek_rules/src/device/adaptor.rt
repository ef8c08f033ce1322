//! Readers and writers of the standard library as devices.
ghost use Rattle.std.specs.Prelude.{◌≡◌, [], false, is_some, unwrap_or};

use super::{Sink, Source};
use std::io::{Read, Write};
use std::marker::Model;

/// A reader as a source.
#[derive(Drop)]
pub struct FromRead<R: Read + Drop> {
    inner: R,
    failed: bool,
}

impl<R: Read + Drop> Model for FromRead<R> {
    ghost use Rattle.hek_rules.specs.Devices.{Device};

    ghost Value = { Device R };

    ghost view = { λ s. record { inner = s.inner; failed = s.failed } };
}

impl<R: Read + Drop> FromRead<R> {
    /// A source over a reader.
    pub fn new(reader: R) -> FromRead<R>
        ensures { result ≡ record { inner = reader; failed = false } }
    {
        FromRead {
            inner: reader,
            failed: false,
        }
    }

    /// The reader, with the bytes that it has left.
    pub fn into_inner(self) -> R
        ensures { result ≡ self.inner }
    {
        self.inner
    }
}

impl<R: Read + Drop> Source for FromRead<R> {
    ghost left = { λ s. unwrap_or (R.remaining s.inner) [] };

    ghost tells = { λ s. is_some (R.remaining s.inner) };

    ghost failed = { λ s. s.failed };

    fn take(&mut self, buffer: &mut [u8]) -> Option<usize> {
        match self.inner.read(buffer) {
            Ok(count) => Some(count),
            Err(_) => {
                self.failed = true;
                None
            }
        }
    }
}

/// A writer as a sink.
#[derive(Drop)]
pub struct FromWrite<W: Write + Drop> {
    inner: W,
    failed: bool,
}

impl<W: Write + Drop> Model for FromWrite<W> {
    ghost use Rattle.hek_rules.specs.Devices.{Device};

    ghost Value = { Device W };

    ghost view = { λ s. record { inner = s.inner; failed = s.failed } };
}

impl<W: Write + Drop> FromWrite<W> {
    /// A sink over a writer.
    pub fn new(writer: W) -> FromWrite<W>
        ensures { result ≡ record { inner = writer; failed = false } }
    {
        FromWrite {
            inner: writer,
            failed: false,
        }
    }

    /// The writer, with the bytes that it holds.
    pub fn into_inner(self) -> W
        ensures { result ≡ self.inner }
    {
        self.inner
    }
}

impl<W: Write + Drop> Sink for FromWrite<W> {
    ghost holds = { λ s. unwrap_or (W.contents s.inner) [] };

    ghost tells = { λ s. is_some (W.contents s.inner) };

    ghost failed = { λ s. s.failed };

    fn put(&mut self, bytes: &[u8]) -> Option<usize> {
        match self.inner.write(bytes) {
            Ok(count) if count > 0 || bytes.is_empty() => Some(count),
            _ => {
                self.failed = true;
                None
            }
        }
    }
}
