//! Living versions: the versions of a key without some of the first, which a reader does not see.
ghost use Rattle.std.specs.Prelude.{◌≡◌, ℕ, ◌%◌, ◌<◌, ◌≤◌, Some, length, slice_index_or, slice_set};
ghost use Rattle.hek_rules.specs.Words.{end_time, writer_of};
ghost use Rattle.hek_store.specs.Chained.{AreLinks, keys_of, next_links, no_ends};
ghost use Rattle.hek_store.specs.Living.{IsLiving, IsStart, is_gone, is_over, is_past, is_at_or_by, is_writer, is_replaced, loses_writer, start_for};
ghost use Rattle.hek_store.specs.Places.{key_versions_left};

use crate::chains::Ends;
use crate::places::KeyVersions;
use crate::slots::slot_of;
use crate::store::Store;
use crate::version::Version;
use hek_rules::{BeginRecord, Time, TxnId};
use hek_word::{BeginWord, EndWord};

/// Whether the word is a time that is not after this one.
pub(crate) fn is_past(end: EndWord, time: Time) -> bool
    ensures { result ≡ is_past time (end_time end) }
{
    match end.time() {
        Some(until) => until <= time,
        None => false,
    }
}

/// Whether no transaction that looks at this time or later sees the version: its Begin is infinity, or its Begin is a
/// time and its End has come.
fn is_over(version: &Version, time: Time) -> bool
    ensures { result ≡ is_over time version.now }
{
    match version.begin.time() {
        Some(from) => is_past(version.end, time) || from.number() == Time::INFINITY,
        None => false,
    }
}

fn is_at_or_by(begin: BeginWord, reader: TxnId) -> bool
    ensures { result ≡ is_at_or_by reader begin }
{
    match begin.content() {
        BeginRecord::At(_) => true,
        BeginRecord::By(creator) => creator.number() == reader.number(),
    }
}

fn is_writer(end: EndWord, reader: TxnId) -> bool
    ensures { result ≡ is_writer reader (writer_of end) }
{
    match end.writer() {
        Some(writer) => writer.number() == reader.number(),
        None => false,
    }
}

/// Whether the transaction writes over the version, which another transaction is not still making.
fn is_replaced(version: &Version, reader: TxnId) -> bool
    ensures { result ≡ is_replaced reader version.now }
{
    is_at_or_by(version.begin, reader) && is_writer(version.end, reader)
}

/// Whether the first word names a writer that the second does not name.
pub(crate) fn loses_writer(was: EndWord, now: EndWord) -> bool
    ensures { result ≡ loses_writer (writer_of was) (writer_of now) }
{
    match was.writer() {
        Some(writer) => !is_writer(now, writer),
        None => false,
    }
}

/// Whether the reader, or everybody if there is none, does not see the version when looking at this time or later.
fn is_gone(version: &Version, reader: &Option<TxnId>, time: Time) -> bool
    ensures { result ≡ is_gone reader.now time version.now }
{
    match reader {
        None => is_over(version, time),
        Some(t) => is_over(version, time) || is_replaced(version, *t),
    }
}

/// The link to the first version on a slot's chain, from a link on, that is not gone.
fn next_left(
    links: &[u32],
    versions: &[Version],
    start: u32,
    reader: &Option<TxnId>,
    time: Time,
) -> u32
    requires rising { AreLinks links.now }
    requires within { start ≤ length links.now }
    requires paired { length versions.now ≡ length links.now }
    ensures { (slots slot : ℕ)
        → links.now ≡ next_links (λ k. k % slots) 0 (keys_of versions.now)
        → IsStart slots slot (is_gone reader.now time) versions.now start
        → IsStart slots slot (is_gone reader.now time) versions.now result }
{
    let mut link = start;
    while link != 0 && is_gone(&versions[link as usize - 1], reader, time) {
        link = links[link as usize - 1];
    }
    link
}

/// Starts the slot of this key at its first version again, since a version that was passed over may be seen again.
pub(crate) fn look_again(starts: &mut Vec<u32>, ends: &Vec<Ends>, slots: u64, key: u64)
    requires any { 0 < slots }
    requires begun { length starts.old.items ≡ slots }
    requires count { length ends.now.items ≡ slots }
    ensures { starts.new.items
        ≡ slice_set starts.old.items (key % slots) (slice_index_or ends.now.items (key % slots) no_ends).first }
{
    let slot = slot_of(key, slots);
    starts[slot] = ends[slot].first;
}

/// The start of a slot for a reader: the slot's own one if it was passed over for this reader, otherwise that for all.
fn start_for(
    starts: &Vec<u32>,
    own_starts: &Vec<u32>,
    owners: &Vec<TxnId>,
    slot: usize,
    reader: TxnId,
) -> u32
    requires begun { slot < length starts.now.items }
    requires own_begun { slot < length own_starts.now.items }
    requires owned { slot < length owners.now.items }
    ensures { result ≡ start_for starts.now.items own_starts.now.items owners.now.items slot reader }
{
    if owners[slot].number() == reader.number() {
        own_starts[slot]
    } else {
        starts[slot]
    }
}

impl Store {
    /// The versions of a key in order of creation, without some of the first that the reader does not see when looking
    /// at this time or later: those that are over, and those that the reader has written over. Each takes time
    /// in the versions of other keys that share its slot.
    pub fn living_of(&self, key: u64, reader: TxnId, time: Time) -> KeyVersions<'_>
        ensures { IsLiving self.now.versions key (is_gone (Some reader) time) (key_versions_left result) }
    {
        if time < self.passed {
            return self.versions_of(key);
        }
        let slot = slot_of(key, self.slots);
        KeyVersions {
            links: self.next_of.as_slice(),
            versions: self.versions.as_slice(),
            key,
            link: start_for(&self.starts, &self.own_starts, &self.owners, slot, reader),
        }
    }

    /// Passes over the first versions of the key's slot that the reader does not see at this time or later, unless
    /// versions are passed over for a later time already. What is over is passed over for all readers; what the reader
    /// has written over, for the last reader of the slot alone. Takes time in the versions passed over; what is over is
    /// passed over once between two growths of the store, and a growth starts again.
    pub fn pass_over(&mut self, key: u64, reader: TxnId, time: Time)
        ensures { self.new ≡ self.old }
    {
        if time < self.passed {
            return;
        }
        let slot = slot_of(key, self.slots);
        let next = next_left(
            self.next_of.as_slice(),
            self.versions.as_slice(),
            self.starts[slot],
            &None,
            time,
        );
        let own = start_for(&self.starts, &self.own_starts, &self.owners, slot, reader);
        let own_next = next_left(
            self.next_of.as_slice(),
            self.versions.as_slice(),
            own,
            &Some(reader),
            time,
        );
        self.passed = time;
        self.starts[slot] = next;
        self.own_starts[slot] = own_next;
        self.owners[slot] = reader;
    }
}
