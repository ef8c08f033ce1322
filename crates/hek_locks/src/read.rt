//! Read locks (section 4 of the paper: record locks).
ghost use Rattle.std.specs.Prelude.{◌≡◌, ◌+◌, ◌<◌, ◌≤◌, false, length};
ghost use Rattle.hek_rules.specs.Words.{CanAdd};
ghost use Rattle.hek_rules.specs.World.{is_made_by};
ghost use Rattle.hek_store.specs.Stored.{version_at};
ghost use Rattle.hek_txn.specs.TxnTable.{Declared, read_set_of, with_read_set};
ghost use Rattle.hek_locks.specs.Locked.{KnowsWriter, CanFree, CanWait, writer_waits, cleared_word, cleared_waits, reads_freely as freely, word_refusal, read_refused, answer_of, read_locked, read_lock_waits, read_lock_reads};

use crate::clear::{cleared, free_stale};
use hek_rules::{Cause, EndRecord, TxnId, VersionId};
use hek_store::Store;
use hek_txn::Txns;
use hek_word::EndWord;

fn is_maker(store: &Store, t: TxnId, v: VersionId) -> bool
    requires { v < length store.now.versions }
    ensures { result ≡ is_made_by t (version_at store.now v).begin }
{
    store.begin_of(v).txn() == Some(t)
}

fn reads_freely(store: &Store, txns: &Txns, t: TxnId, v: VersionId) -> bool
    requires version { v < length store.now.versions }
    requires txn { Declared txns.now t }
    ensures { result ≡ freely store.now txns.now t v }
{
    is_maker(store, t, v) || txns.reads(t, v)
}

/// Whether the word takes a reader that does not read the version yet, or why not.
fn judge_word(txns: &Txns, word: EndWord) -> Result<(), Cause>
    requires { KnowsWriter txns.now word }
    ensures { result ≡ answer_of (word_refusal txns.now.cores (cleared_word txns.now.cores word)) }
{
    match cleared(txns, word).content() {
        EndRecord::Until(_) => Ok(()),
        EndRecord::Lock { no_more: true, .. } => Err(Cause::NoMoreReads),
        EndRecord::Lock { readers: 255, .. } => Err(Cause::ReadersFull),
        EndRecord::Lock {
            readers: 0,
            writer: Some(u),
            ..
        } => {
            if txns.no_more_waits(u) {
                Err(Cause::NoMoreWaits)
            } else {
                Ok(())
            }
        }
        EndRecord::Lock { .. } => Ok(()),
    }
}

/// Whether `txn` may read-lock v, or why not. A transaction that made v or read-locks it may. The word is checked
/// first, since it allows most readers.
pub fn can_read_lock(store: &Store, txns: &Txns, txn: TxnId, v: VersionId) -> Result<(), Cause>
    requires version { v < length store.now.versions }
    requires txn { Declared txns.now txn }
    requires writer { KnowsWriter txns.now (version_at store.now v).end }
    ensures { result ≡ answer_of (read_refused store.now txns.now txn v) }
{
    match judge_word(txns, store.end_of(v)) {
        Ok(()) => Ok(()),
        Err(cause) => {
            if reads_freely(store, txns, txn, v) {
                Ok(())
            } else {
                Err(cause)
            }
        }
    }
}

/// Counts the first reader of a word: the word's writer waits for one version more.
fn count_first(txns: &mut Txns, word: EndWord)
    requires { CanWait txns.old word }
    ensures { txns.new ≡ writer_waits txns.old word }
{
    if let Some(u) = word.writer() {
        if word.readers() == 0 {
            let waits = txns.waits(u);
            txns.set_waits(u, waits + 1);
        }
    }
}

/// `txn` read-locks v, unless it made v or read-locks it already. An aborted writer of v is cleared; another writer
/// waits for its first reader.
pub fn read_lock(store: &mut Store, txns: &mut Txns, txn: TxnId, v: VersionId)
    requires version { v < length store.old.versions }
    requires txn { Declared txns.old txn }
    requires writer { KnowsWriter txns.old (version_at store.old v).end }
    requires room { 0 < (read_set_of txns.old txn).room }
    requires allowed { freely store.old txns.old txn v ≡ false → CanAdd (cleared_word txns.old.cores (version_at store.old v).end) }
    requires freed { CanFree txns.old (version_at store.old v).end }
    requires counted { freely store.old txns.old txn v ≡ false → CanWait (cleared_waits txns.old (version_at store.old v).end) (cleared_word txns.old.cores (version_at store.old v).end) }
    ensures store { store.new ≡ read_locked store.old txns.old txn v }
    ensures txns { txns.new ≡ with_read_set (read_lock_waits store.old txns.old txn v) txn (read_set_of txns.new txn) }
    ensures reads { (read_set_of txns.new txn).items ≡ read_lock_reads store.old txns.old txn v }
    ensures room { (read_set_of txns.old txn).room ≤ (read_set_of txns.new txn).room + 1 }
{
    if is_maker(store, txn, v) || !txns.enter_read(txn, v) {
        return;
    }
    let word = store.end_of(v);
    let held = cleared(txns, word);
    free_stale(txns, word);
    count_first(txns, held);
    store.set_end(v, held.add_reader());
}
