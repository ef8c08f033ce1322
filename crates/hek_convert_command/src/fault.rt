//! What is said of an exchange at fault: what it is, the reason, the word that would have been right, the place, and who holds the word.
ghost use Rattle.std.specs.Prelude.{◌≡◌, ◌++◌, ◌↔◌, ℕ, Some, codes, IfOk};
ghost use Rattle.std.specs.Fmt.{decimal};
ghost use Rattle.hek_convert_command.specs.Changed.{HasFront, IsFaultText, IsWriterIn, bits_text, holder_front, name_text, place_text, side_front};

use crate::book::Book;
use crate::entry::{Exchange, Side, WordName};
use hek_changes::{EndChange, HolderFault, Lack, Nearest, nearest_change};
use hek_report::put;
use hek_rules::{NoMemory, TxnId};
use hek_word::{BeginWord, EndWord};
use std::alloc::Global;
use std::fmt;
use std::io::Write;

/// A fault of an exchange.
#[derive(Clone, Copy)]
pub(crate) struct Fault {
    /// What it is, with a colon and a blank behind it.
    pub front: &'static str,
    /// The change of an End word that comes nearest to an exchange that is none.
    pub nearest: Option<EndChange>,
    pub reason: Reason,
    /// The word that would have been right.
    pub wanted: u64,
}

#[derive(Clone, Copy)]
pub(crate) enum Reason {
    Plain(&'static str),
    Holder(HolderFault),
    Lack(Lack),
}

impl fmt::Display for Reason {
    fn fmt<W: fmt::Write>(&self, f: &mut fmt::Formatter<W>) -> fmt::Result {
        match self {
            Reason::Plain(text) => write!(f, "{text}"),
            Reason::Holder(fault) => write!(f, "{fault}"),
            Reason::Lack(lack) => write!(f, "{lack}"),
        }
    }
}

/// The exchange before it left the word this number.
pub(crate) fn broken_fault(last: u64) -> Fault {
    Fault {
        front: "broken: ",
        nearest: None,
        reason: Reason::Plain("the exchange before it left another word"),
        wanted: last,
    }
}

/// A change that is at fault by who holds the word: the word would have stayed.
pub(crate) fn held_fault(fault: HolderFault, exchange: &Exchange) -> Fault
    ensures { result.front.now ≡ holder_front fault }
{
    let front = match fault {
        HolderFault::WriterLives => "writer lives: ",
        HolderFault::NeverCame => "never came: ",
        HolderFault::CameTwice => "came twice: ",
        HolderFault::IsOver => "is over: ",
    };
    Fault {
        front,
        nearest: None,
        reason: Reason::Holder(fault),
        wanted: exchange.old,
    }
}

/// An exchange that is no change: what comes nearest to it.
pub(crate) fn none_fault(exchange: &Exchange) -> Fault
    ensures { result.front.now ≡ codes "none: " }
{
    let (nearest, reason, wanted) = missed(exchange);
    Fault {
        front: "none: ",
        nearest,
        reason,
        wanted,
    }
}

/// The change of an End word that comes nearest to an exchange, what keeps it from that, and the word that would have been right.
fn missed(exchange: &Exchange) -> (Option<EndChange>, Reason, u64) {
    if exchange.old == exchange.new {
        return (None, Reason::Plain("nothing changes"), exchange.old);
    }
    let txn = exchange.txn;
    if !is_of_begin(exchange) {
        if let Some(nearest) = nearest_change(exchange.old, exchange.new, txn) {
            return missed_end(exchange, &nearest);
        }
    }
    (None, Reason::Plain(begin_reason(exchange)), exchange.old)
}

/// Whether an exchange is to be one of a Begin word.
fn is_of_begin(exchange: &Exchange) -> bool {
    let Some(word) = exchange.word else {
        return false;
    };
    let side = word.side;
    matches!(side, Side::Begin)
}

/// What keeps an exchange from the change of an End word that comes nearest to it.
fn missed_end(exchange: &Exchange, nearest: &Nearest) -> (Option<EndChange>, Reason, u64) {
    let (reason, wanted) = match nearest.left {
        Ok(left) => (Reason::Plain(left_reason(exchange, left)), left.bits()),
        Err(lack) => (Reason::Lack(lack), exchange.old),
    };
    (Some(nearest.change), reason, wanted)
}

/// Why the word that was left isn't the one that the change leaves.
fn left_reason(exchange: &Exchange, left: EndWord) -> &'static str {
    match EndWord::read(exchange.new) {
        None => "what it left is no End word",
        Some(new) if left.no_more() && !new.no_more() => {
            "the last reader goes under a writer, so NoMoreReadLocks is set"
        }
        Some(_) => "it leaves another word",
    }
}

/// What keeps an exchange from being a change of a Begin word.
fn begin_reason(exchange: &Exchange) -> &'static str {
    let Some(before) = BeginWord::read(exchange.old) else {
        return "the old number is no such word";
    };
    let Some(maker) = before.txn() else {
        return "the version has its time";
    };
    let txn = exchange.txn;
    if maker.number() != txn.number() {
        return "another transaction made the version";
    }
    "no transaction draws that time"
}

/// The line of an exchange whose word another number was left.
pub(crate) fn broken_line(
    alloc: Global,
    last: u64,
    number: u64,
    exchange: &Exchange,
    book: &Book,
) -> Result<Vec<u8>, NoMemory>
    ensures { IfOk result (λ text. HasFront (codes "broken: the word was " ++ (bits_text last ++ place_text number exchange.now)) text.items) }
{
    let mut text = broken_front(alloc, last)?;
    text.extend_from_slice(place(alloc, number, exchange)?.as_slice())?;
    text.extend_from_slice(holders(alloc, exchange, book)?.as_slice())?;
    Ok(text)
}

fn broken_front(alloc: Global, last: u64) -> Result<Vec<u8>, NoMemory>
    ensures { IfOk result (λ text. text.items ≡ codes "broken: the word was " ++ bits_text last) }
{
    let mut text = Vec::new(alloc);
    match write!(text, "broken: the word was {last:016X}") {
        Ok(()) => Ok(text),
        Err(_) => Err(NoMemory),
    }
}

/// The line of a change that is at fault by who holds the word.
pub(crate) fn held_line(
    alloc: Global,
    fault: HolderFault,
    number: u64,
    exchange: &Exchange,
    book: &Book,
) -> Result<Vec<u8>, NoMemory>
    ensures { IfOk result (λ text. IsFaultText (holder_front fault) number exchange.now text.items) }
{
    let fault = held_fault(fault, exchange);
    fault_line(alloc, &fault, number, exchange, book)
}

/// The line of an exchange that is no change.
pub(crate) fn none_line(
    alloc: Global,
    number: u64,
    exchange: &Exchange,
    book: &Book,
) -> Result<Vec<u8>, NoMemory>
    ensures { IfOk result (λ text. IsFaultText (codes "none: ") number exchange.now text.items) }
{
    let fault = none_fault(exchange);
    fault_line(alloc, &fault, number, exchange, book)
}

fn fault_line(
    alloc: Global,
    fault: &Fault,
    number: u64,
    exchange: &Exchange,
    book: &Book,
) -> Result<Vec<u8>, NoMemory>
    ensures { IfOk result (λ text. IsFaultText fault.now.front.now number exchange.now text.items) }
{
    let reason = reason_text(alloc, fault)?;
    let place = place(alloc, number, exchange)?;
    let holders = holders(alloc, exchange, book)?;
    let mut text = Vec::new(alloc);
    text.extend_from_slice(fault.front.as_bytes())?;
    text.extend_from_slice(reason.as_slice())?;
    text.extend_from_slice(place.as_slice())?;
    text.extend_from_slice(holders.as_slice())?;
    Ok(text)
}

/// `reader-went: the last reader goes under a writer, so NoMoreReadLocks is set; wanted C000000000000003`
fn reason_text(alloc: Global, fault: &Fault) -> Result<Vec<u8>, NoMemory> {
    let mut text = Vec::new(alloc);
    if let Some(change) = fault.nearest {
        put(write!(text, "{change}: "))?;
    }
    let reason = fault.reason;
    let wanted = fault.wanted;
    put(write!(text, "{reason}; wanted {wanted:016X}"))?;
    Ok(text)
}

/// ` (line 5: end-0 8040000000000003 -> 8000000000000003 by 2`
fn place(alloc: Global, number: u64, exchange: &Exchange) -> Result<Vec<u8>, NoMemory>
    ensures { IfOk result (λ text. text.items ≡ place_text number exchange.now) }
{
    let name = name(alloc, exchange.word)?;
    let mut text = Vec::new(alloc);
    text.extend_from_slice(line_front(alloc, number)?.as_slice())?;
    text.extend_from_slice(name.as_slice())?;
    text.extend_from_slice(numbers(alloc, exchange)?.as_slice())?;
    Ok(text)
}

fn line_front(alloc: Global, number: u64) -> Result<Vec<u8>, NoMemory>
    ensures { IfOk result (λ text. text.items ≡ codes " (line " ++ (decimal number ++ codes ": ")) }
{
    let mut text = Vec::new(alloc);
    match write!(text, " (line {number}: ") {
        Ok(()) => Ok(text),
        Err(_) => Err(NoMemory),
    }
}

fn numbers(alloc: Global, exchange: &Exchange) -> Result<Vec<u8>, NoMemory>
    ensures { IfOk result (λ text. text.items ≡ bits_text exchange.now.old ++ (codes " -> " ++ (bits_text exchange.now.new ++ (codes " by " ++ decimal exchange.now.txn)))) }
{
    let txn = exchange.txn;
    let (old, new, txn) = (exchange.old, exchange.new, txn.number());
    let mut text = Vec::new(alloc);
    match write!(text, "{old:016X} -> {new:016X} by {txn}") {
        Ok(()) => Ok(text),
        Err(_) => Err(NoMemory),
    }
}

/// The name of a word, and a blank; nothing, if the line doesn't name it.
fn name(alloc: Global, word: Option<WordName>) -> Result<Vec<u8>, NoMemory>
    ensures { IfOk result (λ text. text.items ≡ name_text word) }
{
    let mut text = Vec::new(alloc);
    let Some(word) = word else {
        return Ok(text);
    };
    let (side, version) = (side_name(word.side), word.version);
    match write!(text, "{side}{version} ") {
        Ok(()) => Ok(text),
        Err(_) => Err(NoMemory),
    }
}

pub(crate) fn side_name(side: Side) -> &'static str
    ensures { result.now ≡ side_front side }
{
    match side {
        Side::Begin => "begin-",
        Side::End => "end-",
    }
}

/// Who is known to hold the word after an exchange: its readers, and the writer before it. Then the line ends.
fn holders(alloc: Global, exchange: &Exchange, book: &Book) -> Result<Vec<u8>, NoMemory> {
    let mut text = Vec::new(alloc);
    put_holders(
        readers_of(exchange, book),
        writer_of(exchange.old),
        &mut text,
    )?;
    text.extend_from_slice(b")\n")?;
    Ok(text)
}

/// The read locks that are known of the End word that an exchange names.
pub(crate) fn readers_of<'b>(exchange: &Exchange, book: &'b Book) -> &'b [u64] {
    let Some(word) = exchange.word else {
        return &[];
    };
    match word.side {
        Side::Begin => &[],
        Side::End => book.readers(word.version),
    }
}

/// The writer that a number names as an End word.
pub(crate) fn writer_of(number: u64) -> Option<TxnId>
    ensures { (u : ℕ) → (result ≡ Some u) ↔ IsWriterIn number u }
{
    EndWord::read(number)?.writer()
}

/// Puts `; readers 1 2; writer 3`, as far as there are any.
pub(crate) fn put_holders(
    readers: &[u64],
    writer: Option<TxnId>,
    text: &mut Vec<u8>,
) -> Result<(), NoMemory> {
    if !readers.is_empty() {
        text.extend_from_slice(b"; readers")?;
    }
    for reader in readers {
        put(write!(text, " {reader}"))?;
    }
    if let Some(writer) = writer {
        let number = writer.number();
        put(write!(text, "; writer {number}"))?;
    }
    Ok(())
}
