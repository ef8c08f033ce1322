//! Who holds the words of a log, line after line.
ghost use Rattle.std.specs.Prelude.{◌≡◌, Some, IfOk, OnOk, IfErr};
ghost use Rattle.hek_report.specs.declared.fault.HekFault.TheVariants as hek;
ghost use Rattle.hek_changes.specs.Holders.{readers_then};
ghost use Rattle.hek_convert_command.specs.declared.entry.Side.TheVariants.{End};
ghost use Rattle.hek_convert_command.specs.Book.{IsUnread, NotesLeft, NotesOver, NotesReader, last_of, over_in, readers_in};

use crate::entry::{Side, WordName};
use hek_changes::{EndChange, move_reader};
use hek_report::HekFault;
use hek_rules::TxnId;
use indexmap::IndexMap;
use std::alloc::Global;

/// What each word was left with by its last exchange, by the index of its version; who read-locks each End word; and of each
/// transaction that is over the line that says so.
#[derive(Drop)]
pub(crate) struct Book {
    pub(crate) begins: IndexMap<u64, u64>,
    pub(crate) ends: IndexMap<u64, u64>,
    reads: IndexMap<u64, Vec<u64>>,
    over: IndexMap<u64, u64>,
    alloc: Global,
}

impl Book {
    /// A book of no line.
    pub fn new(alloc: Global) -> Book
        ensures { IsUnread result }
    {
        Book {
            begins: IndexMap::new(alloc),
            ends: IndexMap::new(alloc),
            reads: IndexMap::new(alloc),
            over: IndexMap::new(alloc),
            alloc,
        }
    }

    /// Notes that an exchange left the word this number. The answer is what the exchange before it left, None if this is
    /// the first.
    pub fn note_left<'a>(&mut self, word: WordName, new: u64) -> Result<Option<u64>, HekFault<'a>>
        ensures last { IfOk result (λ last. last ≡ last_of self.old word.side word.version) }
        ensures noted { OnOk result (NotesLeft self.old self.new word new) }
        ensures refused { IfErr result (λ fault. fault ≡ hek.NoMemory) }
    {
        let noted = match word.side {
            Side::Begin => self.begins.insert(word.version, new),
            Side::End => self.ends.insert(word.version, new),
        };
        match noted {
            Ok(last) => Ok(last),
            Err(_) => Err(HekFault::NoMemory),
        }
    }

    /// Notes that a line says that a transaction is over.
    pub fn note_over<'a>(&mut self, txn: TxnId, line: u64) -> Result<(), HekFault<'a>>
        ensures noted { OnOk result (NotesOver self.old self.new txn line) }
        ensures refused { IfErr result (λ fault. fault ≡ hek.NoMemory) }
    {
        match self.over.insert(txn.number(), line) {
            Ok(_) => Ok(()),
            Err(_) => Err(HekFault::NoMemory),
        }
    }

    /// Moves the transaction's read lock of a word as an exchange does that is this change of an End word, or none.
    pub fn note_reader<'a>(
        &mut self,
        word: WordName,
        txn: TxnId,
        change: Option<EndChange>,
    ) -> Result<(), HekFault<'a>>
        ensures noted { OnOk result (NotesReader self.old self.new word txn change) }
        ensures refused { IfErr result (λ fault. fault ≡ hek.NoMemory) }
    {
        match (word.side, change) {
            (Side::End, Some(change)) => self.move_reader(word.version, txn, change),
            _ => Ok(()),
        }
    }

    fn move_reader<'a>(
        &mut self,
        version: u64,
        txn: TxnId,
        change: EndChange,
    ) -> Result<(), HekFault<'a>>
        ensures noted { OnOk result (NotesReader self.old self.new (record { side = End; version = version }) txn (Some change)) }
        ensures refused { IfErr result (λ fault. fault ≡ hek.NoMemory) }
    {
        let mut readers = match self.reads.swap_remove(&version) {
            Some(readers) => readers,
            None => Vec::new(self.alloc),
        };
        moved(&mut readers, txn, change)?;
        match self.reads.insert(version, readers) {
            Ok(_) => Ok(()),
            Err(_) => Err(HekFault::NoMemory),
        }
    }

    /// Who read-locks the End word of a version, each as often as it is known to.
    pub fn readers(&self, version: u64) -> &[u64]
        ensures { result.now ≡ readers_in self.now version }
    {
        match self.reads.get(&version) {
            Some(readers) => readers.as_slice(),
            None => &[],
        }
    }

    /// The line that says that a transaction is over.
    pub fn over_line(&self, txn: TxnId) -> Option<u64>
        ensures { result ≡ over_in self.now txn }
    {
        self.over.get(&txn.number()).copied()
    }
}

/// Moves a transaction's read lock as a change does.
fn moved<'a>(readers: &mut Vec<u64>, txn: TxnId, change: EndChange) -> Result<(), HekFault<'a>>
    ensures moved { OnOk result (readers.new.items ≡ readers_then txn (Some change) readers.old.items) }
    ensures refused { IfErr result (λ fault. fault ≡ hek.NoMemory) }
{
    let known = readers.len();
    if readers.push(0).is_err() {
        return Err(HekFault::NoMemory);
    }
    match move_reader(change, readers.as_mut_slice(), known, txn) {
        Some(left) => readers.truncate(left),
        None => unreachable!(),
    }
    Ok(())
}
