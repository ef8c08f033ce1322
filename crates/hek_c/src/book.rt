//! Who holds the End words of an engine: notes of their exchanges, in memory of the caller's.
ghost use Rattle.std.specs.Prelude.{◌≡◌, ℕ, ◌<◌, ◌≤◌, Some, None, find, if◌then◌else◌};
ghost use Rattle.hek_rules.specs.declared.word.EndRecord.{EndRecord as SpecRecord};
ghost use Rattle.hek_changes.specs.Changes.{IsEndChange, IsEndOf};
ghost use Rattle.hek_changes.specs.Holders.{fault_of, readers_then};
ghost use Rattle.hek_rules.specs.Words.{readers_of, writer_of};
ghost use Rattle.hek_c.specs.Book.{chained, fault_number, has_room, is_over_in, kept, last_in, reader_over, readers_in, standing_of, IsAnswer, IsChangeAnswer, IsLastOf, IsNoneAnswer, Notes};

use crate::changes::number_of;
use crate::end::{hek_readers, hek_writer};
use hek_changes::{
    EndChange, HolderFault, Standing, end_change, holder_fault, move_reader, nearest_change,
};
use hek_rules::TxnId;

/// How many read locks of a word have slots.
const SLOTS: u32 = 126;

const BROKEN: u32 = 1;

const NO_RULE: u32 = 2;

const NO_ROOM: u32 = 7;

const NO_BOOK: u32 = 8;

/// What is known of one End word. A word of zeros is one of which no exchange is known.
#[repr(C)]
#[derive(Drop)]
pub struct HekWord {
    /// What its last exchange left.
    pub last: u64,
    /// 0 until an exchange is noted.
    pub noted: u32,
    /// How many read locks are known: the first so many of `readers` are their holders.
    pub reads: u32,
    pub readers: [u64; 126],
}

/// What a note answers: what the exchange does wrong, 0 if nothing; the change that it is, or that comes nearest; and the word that
/// would have been right.
#[repr(C)]
#[derive(Clone, Copy)]
pub struct HekNoted {
    pub wanted: u64,
    pub fault: u32,
    pub change: u32,
}

/// Notes that the transaction exchanged the word `before` for the word `after`, and answers what it did wrong. `over` has a byte for
/// each transaction, by its ID: 0 while it lives. Where it is empty, no writer is said to live.
#[unsafe(no_mangle)]
pub extern "C" fn hek_note(
    word: &mut HekWord,
    txn: u64,
    before: u64,
    after: u64,
    over: &[u8],
) -> HekNoted
    ensures no_book { SLOTS < word.old.reads → (result ≡ record { wanted = before; fault = 8; change = 0 }) × (word.new ≡ word.old) }
    ensures noted { word.old.reads ≤ SLOTS → Notes txn before after over.now word.old word.new result }
{
    if word.reads > SLOTS {
        return HekNoted {
            wanted: before,
            fault: NO_BOOK,
            change: 0,
        };
    }
    let last = last_of(word);
    let found = end_change(before, after, TxnId::new(txn));
    let answer = answer_to(word, found, txn, before, after, over);
    word.last = after;
    word.noted = 1;
    in_chain(last, before, answer)
}

/// The first of a word's known readers that is over, or else its writer, if that is over; 0 if there is none. At the end of a test
/// this holds a lock that nobody gives up.
#[unsafe(no_mangle)]
pub extern "C" fn hek_leaked(word: &HekWord, over: &[u8]) -> u64
    ensures reader { (u : ℕ) → reader_over over.now word.now ≡ Some u → result ≡ u }
    ensures writer { (e : SpecRecord) (u : ℕ) → reader_over over.now word.now ≡ None → IsLastOf e word.now → writer_of e ≡ Some u → result ≡ (if is_over_in over.now u then u else 0) }
    ensures free { (e : SpecRecord) → reader_over over.now word.now ≡ None → IsLastOf e word.now → writer_of e ≡ None → result ≡ 0 }
    ensures unknown { reader_over over.now word.now ≡ None → last_in word.now ≡ None → result ≡ 0 }
{
    let readers: &[u64] = &word.readers;
    let known = word.reads.min(SLOTS) as usize;
    if let Some(reader) = first_over(&readers[..known], over) {
        return reader;
    }
    let writer = match last_of(word) {
        Some(last) => hek_writer(last),
        None => 0,
    };
    if is_over(over, writer) { writer } else { 0 }
}

/// The first of these transactions that is over.
fn first_over(readers: &[u64], over: &[u8]) -> Option<u64>
    ensures { result ≡ find (λ reader. is_over_in over.now reader) readers.now }
{
    readers
        .iter()
        .copied()
        .find(|reader| is_over(over, *reader))
}

/// The answer to an exchange that is this change, or none, without what the exchange before it left. The transaction's read lock is moved.
fn answer_to(
    word: &mut HekWord,
    found: Option<EndChange>,
    txn: u64,
    before: u64,
    after: u64,
    over: &[u8],
) -> HekNoted
    requires { word.old.reads ≤ SLOTS }
    ensures within { word.new.reads ≤ SLOTS }
    ensures readers { readers_in word.new ≡ kept (readers_then txn found (readers_in word.old)) (readers_in word.old) }
    ensures answer { IsAnswer txn before after over.now (readers_in word.old) found result }
{
    match found {
        None => none_answer(txn, before, after),
        Some(change) => follow(word, change, txn, before, after, over),
    }
}

/// What the last exchange of a word left, if one is known.
fn last_of(word: &HekWord) -> Option<u64>
    ensures { result ≡ last_in word.now }
{
    if word.noted == 0 {
        None
    } else {
        Some(word.last)
    }
}

/// The answer, in the light of what the exchange before it left.
fn in_chain(last: Option<u64>, before: u64, answer: HekNoted) -> HekNoted
    ensures { result ≡ chained last before answer }
{
    match last {
        Some(last) if last != before => HekNoted {
            wanted: last,
            fault: BROKEN,
            change: answer.change,
        },
        _ => answer,
    }
}

/// The answer to an exchange that is no change.
fn none_answer(txn: u64, before: u64, after: u64) -> HekNoted
    ensures { IsNoneAnswer txn before result }
{
    let Some(nearest) = nearest_change(before, after, TxnId::new(txn)) else {
        return HekNoted {
            wanted: before,
            fault: NO_RULE,
            change: 0,
        };
    };
    let wanted = match nearest.left {
        Ok(left) => left.bits(),
        Err(_) => before,
    };
    HekNoted {
        wanted,
        fault: NO_RULE,
        change: number_of(nearest.change),
    }
}

/// Moves the transaction's read lock as a change does, and answers the change.
fn follow(
    word: &mut HekWord,
    change: EndChange,
    txn: u64,
    before: u64,
    after: u64,
    over: &[u8],
) -> HekNoted
    requires { word.old.reads ≤ SLOTS }
    ensures within { word.new.reads ≤ SLOTS }
    ensures readers { readers_in word.new ≡ kept (readers_then txn (Some change) (readers_in word.old)) (readers_in word.old) }
    ensures answer { IsChangeAnswer txn before after over.now (readers_in word.old) change result }
{
    let found = fault_by_holders(word, change, txn, before, over);
    let has_room = move_within(word, change, txn);
    let fault = fault_code(found, has_room);
    HekNoted {
        wanted: if fault == 0 { after } else { before },
        fault,
        change: number_of(change),
    }
}

/// What a change of a word does wrong by who holds it.
fn fault_by_holders(
    word: &HekWord,
    change: EndChange,
    txn: u64,
    before: u64,
    over: &[u8],
) -> Option<HolderFault>
    requires { word.now.reads ≤ SLOTS }
    ensures { (e : SpecRecord) → IsEndOf e before → result ≡ fault_of txn change (readers_of e) (readers_in word.now) (standing_of over.now txn e) }
{
    let readers: &[u64] = &word.readers;
    let known = word.reads as usize;
    let standing = standing(over, txn, before);
    holder_fault(
        change,
        hek_readers(before),
        &readers[..known],
        TxnId::new(txn),
        standing,
    )
}

/// How a transaction that exchanges a word stands to its writer, and whether it is over.
fn standing(over: &[u8], txn: u64, before: u64) -> Standing
    ensures { (e : SpecRecord) → IsEndOf e before → result ≡ standing_of over.now txn e }
{
    let writer = hek_writer(before);
    Standing {
        writer_lives: over.len() > 0 && writer != 0 && writer != txn && !is_over(over, writer),
        is_over: is_over(over, txn),
    }
}

/// Whether a transaction is over.
fn is_over(over: &[u8], txn: u64) -> bool
    ensures { result ≡ is_over_in over.now txn }
{
    match over.get(txn as usize) {
        Some(byte) => *byte > 0,
        None => false,
    }
}

/// Moves the transaction's read lock as a change does, if there is a slot for one that comes. Answers whether there was.
fn move_within(word: &mut HekWord, change: EndChange, txn: u64) -> bool
    requires { word.old.reads ≤ SLOTS }
    ensures room { result ≡ has_room (readers_then txn (Some change) (readers_in word.old)) }
    ensures within { word.new.reads ≤ SLOTS }
    ensures readers { readers_in word.new ≡ kept (readers_then txn (Some change) (readers_in word.old)) (readers_in word.old) }
{
    let known = word.reads as usize;
    let slots: &mut [u64] = &mut word.readers;
    match move_reader(change, slots, known, TxnId::new(txn)) {
        Some(left) => {
            word.reads = left as u32;
            true
        }
        None => false,
    }
}

/// The number of a fault; that of a lack of room, if there is no other.
fn fault_code(found: Option<HolderFault>, has_room: bool) -> u32
    ensures { result ≡ fault_number found has_room }
{
    match found {
        Some(HolderFault::WriterLives) => 3,
        Some(HolderFault::NeverCame) => 4,
        Some(HolderFault::CameTwice) => 5,
        Some(HolderFault::IsOver) => 6,
        None if has_room => 0,
        None => NO_ROOM,
    }
}
