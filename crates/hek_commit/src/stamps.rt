//! Stamps (section 2 of the paper: postprocessing): a committed or aborted transaction takes its ID out of the words
//! that it wrote, one entry of its write set at a time.
ghost use Rattle.std.specs.Prelude.{◌≡◌, ◌<◌, ◌≤◌, length, slice_get};
ghost use Rattle.hek_rules.specs.Words.{IsTime};
ghost use Rattle.hek_rules.specs.World.{txn_in};
ghost use Rattle.hek_store.specs.Stored.{version_at};
ghost use Rattle.hek_txn.specs.TxnTable.{Declared, write_set_of, with_write_set};
ghost use Rattle.hek_locks.specs.Locked.{CanFree};
ghost use Rattle.hek_commit.specs.Stamped.{CanStamp, is_written_by as written_by, stamped_committed, committed_reply, stamped_aborted, freed_aborted, aborted_reply, stamped_store, stamped_txns, stamp_reply, rest_of, version_of};

use hek_locks::clear_write;
use hek_rules::{Reply, State, Time, TxnId, WriteEntry};
use hek_store::Store;
use hek_txn::Txns;
use hek_word::{BeginWord, EndWord};

/// Whether t is the writer of the word.
fn is_written_by(t: TxnId, word: EndWord) -> bool
    ensures { result ≡ written_by t word }
{
    word.writer() == Some(t)
}

/// The end time of a committed transaction replaces its ID in the word of an entry.
fn stamp_committed(store: &mut Store, end: Time, entry: WriteEntry) -> Reply
    requires time { IsTime end }
    requires version { version_of entry < length store.old.versions }
    ensures store { store.new ≡ stamped_committed store.old end entry }
    ensures reply { result ≡ committed_reply entry }
{
    match entry {
        WriteEntry::BeginOf(v) => {
            store.set_begin(v, BeginWord::at(end));
            Reply::StampedBegin(v)
        }
        WriteEntry::EndOf(v) => {
            store.set_end(v, EndWord::stamped(end));
            Reply::StampedEnd(v)
        }
    }
}

/// A version that an aborted transaction made never begins. A word that it still writes gets rid of its ID.
fn stamp_aborted(store: &mut Store, txns: &mut Txns, t: TxnId, entry: WriteEntry) -> Reply
    requires version { version_of entry < length store.old.versions }
    requires counted { CanFree txns.old (version_at store.old (version_of entry)).end }
    ensures store { store.new ≡ stamped_aborted store.old t entry }
    ensures txns { txns.new ≡ freed_aborted store.old txns.old t entry }
    ensures reply { result ≡ aborted_reply store.old t entry }
{
    match entry {
        WriteEntry::BeginOf(v) => {
            store.set_begin(v, BeginWord::infinity());
            Reply::StampedBegin(v)
        }
        WriteEntry::EndOf(v) => {
            if is_written_by(t, store.end_of(v)) {
                clear_write(store, txns, v);
                Reply::StampedEnd(v)
            } else {
                Reply::Left(v)
            }
        }
    }
}

/// Stamps the first entry of the write set of `txn`, which is Committed or Aborted, and takes the entry out of the set.
/// Returns Nothing if the set is empty, and Left if another transaction has taken the word over from an aborted `txn`.
pub fn stamp_next(store: &mut Store, txns: &mut Txns, txn: TxnId) -> Reply
    requires txn { Declared txns.old txn }
    requires end { IsTime (txn_in txns.old.cores txn).end }
    requires entry { CanStamp store.old txns.old (slice_get (write_set_of txns.old txn).items 0) }
    ensures store { store.new ≡ stamped_store store.old txns.old.cores txn (slice_get (write_set_of txns.old txn).items 0) }
    ensures txns { txns.new ≡ with_write_set (stamped_txns store.old txns.old txn (slice_get (write_set_of txns.old txn).items 0)) txn (write_set_of txns.new txn) }
    ensures writes { (write_set_of txns.new txn).items ≡ rest_of (write_set_of txns.old txn).items }
    ensures room { (write_set_of txns.old txn).room ≤ (write_set_of txns.new txn).room }
    ensures reply { result ≡ stamp_reply store.old txns.old.cores txn (slice_get (write_set_of txns.old txn).items 0) }
{
    let Some(entry) = txns.first_write(txn) else {
        return Reply::Nothing;
    };
    let stamped = entry;
    txns.remove_write(txn, stamped);
    if txns.state(txn) == State::Committed {
        stamp_committed(store, txns.end_time(txn), entry)
    } else {
        stamp_aborted(store, txns, txn, entry)
    }
}
