//! Devices over memory for tests: they can give or take a few bytes at a time, fail, or never end.
ghost use Rattle.std.specs.Prelude.{◌≡◌, ◌<◌, ◌≤◌, [], ◌++◌, take, drop, length, true, false, IsTrue, Some, IfSome, is_none};
ghost use Rattle.hek_rules.specs.Devices.{bytes_given};
ghost use Rattle.hek_rules.specs.MemoryDevices.{is_finite, take_answer, after_take, put_count, after_put};

use super::{Sink, Source};
use std::alloc::Global;
use std::marker::Model;

/// What a source does after its last byte.
#[derive(Clone, Copy, Debug, PartialEq, Eq)]
pub enum Ending {
    Ends,
    Fails,
    /// The source gives zeros forever.
    Endless,
}

/// A source of bytes in memory.
#[derive(Drop)]
pub struct MemorySource<'a> {
    rest: &'a [u8],
    piece: usize,
    ending: Ending,
    given: u64,
    failed: bool,
}

impl<'a> Model for MemorySource<'a> {
    ghost use Rattle.std.specs.Prelude.{◌<◌};
    ghost use Rattle.hek_rules.specs.MemoryDevices.{Supply};

    ghost Value = { Supply };

    ghost view = { λ s. record { rest = s.rest.now; piece = s.piece; ending = s.ending; given = s.given; failed = s.failed } };

    ghost invariant = { λ s. 0 < s.piece };
}

impl<'a> MemorySource<'a> {
    /// A source that gives at most `piece` bytes per take.
    pub fn new(bytes: &'a [u8], piece: usize, ending: Ending) -> MemorySource<'a>
        requires { 0 < piece }
        ensures { result ≡ record { rest = bytes.now; piece = piece; ending = ending; given = 0; failed = false } }
    {
        MemorySource {
            rest: bytes,
            piece,
            ending,
            given: 0,
            failed: false,
        }
    }

    /// How many bytes the source has given, at most `u64::MAX`.
    pub fn given(&self) -> u64
        ensures { result ≡ self.now.given }
    {
        self.given
    }

    // The answer of a take into a buffer of this length.
    fn answer(&self, len: usize) -> Option<usize>
        ensures { result ≡ take_answer self.now len }
    {
        if len == 0 {
            return Some(0);
        }
        if !self.rest.is_empty() {
            return Some(self.piece.min(len.min(self.rest.len())));
        }
        match self.ending {
            Ending::Ends => Some(0),
            Ending::Fails => None,
            Ending::Endless => Some(self.piece.min(len)),
        }
    }
}

// Fills the buffer with the bytes at the front, or with zeros if there are none, and answers the bytes that are left.
fn give<'a>(bytes: &'a [u8], buffer: &mut [u8]) -> &'a [u8]
    requires { 0 < length bytes.now → length buffer.old ≤ length bytes.now }
    ensures rest { result.now ≡ drop (length buffer.old) bytes.now }
    ensures given { 0 < length bytes.now → buffer.new ≡ take (length buffer.old) bytes.now }
    ensures len { length buffer.new ≡ length buffer.old }
{
    if bytes.is_empty() {
        buffer.fill(0);
        return bytes;
    }
    let (front, rest) = bytes.split_at(buffer.len());
    buffer.copy_from_slice(front);
    rest
}

impl<'a> Source for MemorySource<'a> {
    ghost left = { λ s. s.rest };

    ghost tells = { λ s. is_finite s.ending };

    ghost failed = { λ s. s.failed };

    fn take(&mut self, buffer: &mut [u8]) -> Option<usize>
        requires { self.old.failed ≡ false }
        ensures within { IfSome result (λ n. n ≤ length buffer.new) }
        ensures bytes { IsTrue (is_finite self.old.ending) → self.old.rest ≡ bytes_given result buffer.new ++ self.new.rest }
        ensures end { IsTrue (is_finite self.old.ending) → result ≡ Some 0 → 0 < length buffer.new → self.new.rest ≡ [] }
        ensures tells { IsTrue (is_finite self.old.ending) → IsTrue (is_finite self.new.ending) }
        ensures fails { self.new.failed ≡ is_none result }

        ensures answer { result ≡ take_answer self.old (length buffer.old) }
        ensures source { self.new ≡ after_take self.old result }
    {
        let answer = self.answer(buffer.len());
        match answer {
            Some(count) => {
                self.rest = give(self.rest, buffer.split_at_mut(count).0);
                self.given = self.given.saturating_add(count as u64);
            }
            None => self.failed = true,
        }
        answer
    }
}

/// A sink for bytes in memory, which fails when it has no room left.
#[derive(Drop)]
pub struct MemorySink {
    bytes: Vec<u8>,
    room: usize,
    piece: usize,
    failed: bool,
}

impl Model for MemorySink {
    ghost use Rattle.std.specs.Prelude.{◌<◌};
    ghost use Rattle.hek_rules.specs.MemoryDevices.{Filling};

    ghost Value = { Filling };

    ghost view = { λ s. record { bytes = s.bytes.items; room = s.room; piece = s.piece; failed = s.failed } };

    ghost invariant = { λ s. 0 < s.piece };
}

impl MemorySink {
    /// A sink with room for `room` bytes, which takes at most `piece` bytes per put.
    pub fn new(alloc: Global, room: usize, piece: usize) -> MemorySink
        requires { 0 < piece }
        ensures { result ≡ record { bytes = []; room = room; piece = piece; failed = false } }
    {
        MemorySink {
            bytes: Vec::new(alloc),
            room,
            piece,
            failed: false,
        }
    }

    /// The bytes that were put.
    pub fn bytes(&self) -> &[u8]
        ensures { result.now ≡ self.now.bytes }
    {
        self.bytes.as_slice()
    }
}

impl Sink for MemorySink {
    ghost holds = { λ s. s.bytes };

    ghost tells = { λ s. true };

    ghost failed = { λ s. s.failed };

    /// None if no byte of some has room, or if memory is refused.
    fn put(&mut self, bytes: &[u8]) -> Option<usize>
        requires { self.old.failed ≡ false }
        ensures within { IfSome result (λ n. n ≤ length bytes.now) }
        ensures moves { IfSome result (λ n. 0 < length bytes.now → 0 < n) }
        ensures bytes { IsTrue true → self.new.bytes ≡ self.old.bytes ++ bytes_given result bytes.now }
        ensures tells { IsTrue true → IsTrue true }
        ensures fails { self.new.failed ≡ is_none result }

        ensures answer { IfSome result (λ n. n ≡ put_count self.old (length bytes.now)) }
        ensures sink { self.new ≡ after_put self.old bytes.now result }
    {
        let count = self.piece.min(bytes.len().min(self.room));
        if count == 0 && !bytes.is_empty() {
            self.failed = true;
            return None;
        }
        match self.bytes.extend_from_slice(bytes.split_at(count).0) {
            Ok(()) => {
                self.room -= count;
                Some(count)
            }
            Err(_) => {
                self.failed = true;
                None
            }
        }
    }
}
