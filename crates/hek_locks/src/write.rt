//! Write locks (section 4 of the paper: record locks).
ghost use Rattle.std.specs.Prelude.{◌≡◌, ◌+◌, ◌<◌, ◌≤◌, ◌^◌, true, nat_eq, nat_lt, if◌then◌else◌, length};
ghost use Rattle.std.specs.Set.{remove_key};
ghost use Rattle.hek_rules.specs.Words.{IsTxn, CanTakeWriter, readers_of, without_reader};
ghost use Rattle.hek_rules.specs.declared.event.WriteEntry.TheVariants.{EndOf};
ghost use Rattle.hek_rules.specs.Listing.{is_among};
ghost use Rattle.hek_store.specs.Stored.{version_at};
ghost use Rattle.hek_txn.specs.Entries.{joined, same_entry};
ghost use Rattle.hek_txn.specs.TxnTable.{Declared, waits_of, read_set_of, write_set_of, with_read_set, with_write_set};
ghost use Rattle.hek_locks.specs.Locked.{KnowsWriter, CanFree, cleared_word, cleared_waits, more_waits, write_refused, answer_of, to_write, write_locked, write_lock_waits};

use crate::clear::{cleared, free_stale};
use hek_rules::{Cause, EndRecord, TxnId, VersionId, WriteEntry};
use hek_store::Store;
use hek_txn::Txns;
use hek_word::EndWord;

/// Whether v may be write-locked: Err with Conflict if v has ended, or has a writer that has not aborted.
pub fn can_write_lock(store: &Store, txns: &Txns, v: VersionId) -> Result<(), Cause>
    requires version { v < length store.now.versions }
    requires writer { KnowsWriter txns.now (version_at store.now v).end }
    ensures { result ≡ answer_of (write_refused store.now txns.now v) }
{
    if cleared(txns, store.end_of(v)).can_take_writer() {
        Ok(())
    } else {
        Err(Cause::Conflict)
    }
}

/// t gives up its read lock of v; returns whether it had one. `word` is the End word of v: without readers, t has none.
fn give_up(txns: &mut Txns, t: TxnId, v: VersionId, word: EndWord) -> bool
    requires txn { Declared txns.old t }
    requires reader { is_among (read_set_of txns.old t).items v ≡ true → 0 < readers_of word }
    ensures answer { result ≡ is_among (read_set_of txns.old t).items v }
    ensures txns { txns.new ≡ with_read_set txns.old t (read_set_of txns.new t) }
    ensures reads { (read_set_of txns.new t).items ≡ remove_key (nat_eq v) (read_set_of txns.old t).items }
    ensures room { (read_set_of txns.old t).room ≤ (read_set_of txns.new t).room }
{
    word.readers() > 0 && txns.take_read(t, v)
}

/// The word with one reader less, if a reader gave its lock up.
fn left_by(word: EndWord, gave_up: bool) -> EndWord
    requires { gave_up ≡ true → 0 < readers_of word }
    ensures { result ≡ (if gave_up then without_reader word else word) }
{
    if gave_up {
        let (left, _) = word.drop_reader();
        left
    } else {
        word
    }
}

/// t waits for the readers of a word, if the word has any.
fn count_readers(txns: &mut Txns, t: TxnId, word: EndWord)
    requires txn { Declared txns.old t }
    requires counted { waits_of txns.old t + 1 < 2 ^ 64 }
    ensures { txns.new ≡ (if nat_lt 0 (readers_of word) then more_waits txns.old t else txns.old) }
{
    if word.readers() > 0 {
        let waits = txns.waits(t);
        txns.set_waits(t, waits + 1);
    }
}

/// `txn` write-locks v. An aborted writer of v is cleared, `txn` gives up its read lock of v, and waits for the readers
/// that are left, once for the version.
pub fn write_lock(store: &mut Store, txns: &mut Txns, txn: TxnId, v: VersionId)
    requires version { v < length store.old.versions }
    requires txn { Declared txns.old txn }
    requires named { IsTxn txn }
    requires writer { KnowsWriter txns.old (version_at store.old v).end }
    requires reader { is_among (read_set_of txns.old txn).items v ≡ true → 0 < readers_of (cleared_word txns.old.cores (version_at store.old v).end) }
    requires room { 0 < (write_set_of txns.old txn).room }
    requires free { CanTakeWriter (to_write store.old txns.old txn v) }
    requires freed { CanFree txns.old (version_at store.old v).end }
    requires counted { waits_of (cleared_waits txns.old (version_at store.old v).end) txn + 1 < 2 ^ 64 }
    ensures store { store.new ≡ write_locked store.old txns.old txn v }
    ensures txns { txns.new ≡ with_write_set (with_read_set (write_lock_waits store.old txns.old txn v) txn (read_set_of txns.new txn)) txn (write_set_of txns.new txn) }
    ensures reads { (read_set_of txns.new txn).items ≡ remove_key (nat_eq v) (read_set_of txns.old txn).items }
    ensures writes { (write_set_of txns.new txn).items ≡ joined same_entry (write_set_of txns.old txn).items (EndOf v) }
    ensures read_room { (read_set_of txns.old txn).room ≤ (read_set_of txns.new txn).room }
    ensures write_room { (write_set_of txns.old txn).room ≤ (write_set_of txns.new txn).room + 1 }
{
    let word = store.end_of(v);
    let held = cleared(txns, word);
    let free = left_by(held, give_up(txns, txn, v, held));
    free_stale(txns, word);
    count_readers(txns, txn, free);
    store.set_end(v, free.take_writer(txn));
    txns.push_write(txn, WriteEntry::EndOf(v));
}
