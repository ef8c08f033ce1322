//! Who read-locks a word, exchange after exchange.
ghost use Rattle.std.specs.Prelude.{◌≡◌, ◌-◌, ◌≤◌, ◌++◌, ◌∷◌, [], if◌then◌else◌, true, Some, ◌==◌, length, take, position, MatchOption};
ghost use Rattle.hek_changes.specs.Holders.{fault_of, has, is_add, is_clear, is_drop, is_taken, reads_of, readers_then, without_one};

use crate::change::EndChange;
use hek_rules::TxnId;

/// What an exchange of an End word does wrong by who holds the word (section 4 of the paper: record locks).
#[derive(Clone, Copy)]
pub enum HolderFault {
    /// The name of a writer is taken out that isn't over.
    WriterLives,
    /// A read lock is given up that the transaction doesn't hold.
    NeverCame,
    /// A lock is taken by a transaction that read-locks the version already.
    CameTwice,
    /// A lock is taken by a transaction that is over.
    IsOver,
}

/// What is known of transactions before one of them exchanges a word.
#[derive(Clone, Copy)]
pub struct Standing {
    /// Whether the word has another writer, which isn't over.
    pub writer_lives: bool,
    /// Whether the transaction is over.
    pub is_over: bool,
}

/// What an exchange does wrong that is this change, by a transaction, of a word that counts so many readers before it, where these are
/// the read locks of the word that are known, each by its holder's number.
pub fn holder_fault(
    change: EndChange,
    counted: u64,
    readers: &[u64],
    txn: TxnId,
    standing: Standing,
) -> Option<HolderFault>
    ensures { result ≡ fault_of txn change counted readers.now standing }
{
    let held = reads_held(readers, txn);
    let all_known = counted <= readers.len() as u64;
    if clears(change) && standing.writer_lives {
        Some(HolderFault::WriterLives)
    } else if drops(change) && held == 0 && all_known {
        Some(HolderFault::NeverCame)
    } else if takes(change) && standing.is_over {
        Some(HolderFault::IsOver)
    } else if takes(change) && left_of(held, change) > 0 {
        Some(HolderFault::CameTwice)
    } else {
        None
    }
}

/// How many of these read locks the transaction holds.
fn reads_held(readers: &[u64], txn: TxnId) -> usize
    ensures { result ≡ reads_of txn readers.now }
{
    let number = txn.number();
    readers.iter().filter(|reader| **reader == number).count()
}

/// How many of its read locks the transaction keeps that makes the change.
fn left_of(held: usize, change: EndChange) -> usize
    ensures { result ≡ (if has is_drop change then held - 1 else held) }
{
    if drops(change) {
        held.saturating_sub(1)
    } else {
        held
    }
}

fn clears(change: EndChange) -> bool
    ensures { result ≡ has is_clear change }
{
    matches!(
        change,
        EndChange::WriterWent
            | EndChange::Cleared
            | EndChange::Stamped
            | EndChange::ClearedThenRead
            | EndChange::ClearedThenWritten
            | EndChange::ClearedThenReaderBecameWriter
    )
}

fn drops(change: EndChange) -> bool
    ensures { result ≡ has is_drop change }
{
    matches!(
        change,
        EndChange::ReaderWent
            | EndChange::ReaderBecameWriter
            | EndChange::ClearedThenReaderBecameWriter
    )
}

fn adds(change: EndChange) -> bool
    ensures { result ≡ has is_add change }
{
    matches!(change, EndChange::ReaderCame | EndChange::ClearedThenRead)
}

fn takes(change: EndChange) -> bool
    ensures { result ≡ has is_taken change }
{
    adds(change)
        || matches!(
            change,
            EndChange::WriterCame
                | EndChange::ClearedThenWritten
                | EndChange::ReaderBecameWriter
                | EndChange::ClearedThenReaderBecameWriter
        )
}

/// Moves the transaction's read lock of a word as this change does. The first `known` slots have the holders of the read locks that
/// are known. The answer is how many have one then; None, and nothing is changed, if a reader comes and no slot is free.
pub fn move_reader(change: EndChange, slots: &mut [u64], known: usize, txn: TxnId) -> Option<usize>
    requires { known ≤ length slots.old }
    ensures { MatchOption result ((slots.new ≡ slots.old) × (known ≡ length slots.old) × (has is_add change ≡ true)) (λ n. (n ≤ length slots.new) × (take n slots.new ≡ readers_then txn (Some change) (take known slots.old))) }
{
    if adds(change) {
        return add_reader(slots, known, txn);
    }
    if drops(change) {
        return Some(drop_reader(slots, known, txn));
    }
    Some(known)
}

fn add_reader(slots: &mut [u64], known: usize, txn: TxnId) -> Option<usize>
    requires { known ≤ length slots.old }
    ensures { MatchOption result ((slots.new ≡ slots.old) × (known ≡ length slots.old)) (λ n. (n ≤ length slots.new) × (take n slots.new ≡ take known slots.old ++ txn ∷ [])) }
{
    if known == slots.len() {
        return None;
    }
    slots[known] = txn.number();
    Some(known + 1)
}

fn drop_reader(slots: &mut [u64], known: usize, txn: TxnId) -> usize
    requires { known ≤ length slots.old }
    ensures within { result ≤ length slots.new }
    ensures dropped { take result slots.new ≡ without_one txn (take known slots.old) }
{
    let Some(place) = place_of(&slots[..known], txn) else {
        return known;
    };
    slots[place] = slots[known - 1];
    known - 1
}

/// Where the transaction's first read lock is among these.
fn place_of(readers: &[u64], txn: TxnId) -> Option<usize>
    ensures { result ≡ position (λ reader. reader == txn) readers.now }
{
    let number = txn.number();
    readers.iter().position(|reader| *reader == number)
}
