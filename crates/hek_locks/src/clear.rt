//! Clear: an aborted writer leaves a word, and its lock goes.
ghost use Rattle.std.specs.Prelude.{◌≡◌, ◌<◌, IsSome, length};
ghost use Rattle.hek_rules.specs.World.{is_aborted};
ghost use Rattle.hek_rules.specs.Words.{writer_of, without_writer};
ghost use Rattle.hek_store.specs.Stored.{version_at, with_end_word};
ghost use Rattle.hek_locks.specs.Locked.{KnowsWriter, CanFree, writer_freed, is_stale as stale, cleared_word, cleared_waits};

use hek_rules::{State, VersionId};
use hek_store::Store;
use hek_txn::Txns;
use hek_word::EndWord;

/// Whether an aborted writer holds the word; the next reader or writer may take the word from it. (Section 4 of the
/// paper: an aborted transaction gives its write locks up.)
pub fn is_stale(txns: &Txns, word: EndWord) -> bool
    requires { KnowsWriter txns.now word }
    ensures { result ≡ stale txns.now.cores word }
{
    match word.writer() {
        Some(u) => matches!(txns.state(u), State::Aborted(_)),
        None => false,
    }
}

/// The word without its writer if that writer has aborted: a new reader or writer is judged by this word.
pub fn cleared(txns: &Txns, word: EndWord) -> EndWord
    requires { KnowsWriter txns.now word }
    ensures { result ≡ cleared_word txns.now.cores word }
{
    if is_stale(txns, word) {
        word.clear_writer()
    } else {
        word
    }
}

/// The writer of the word no longer waits for the word's readers.
fn free_writer(txns: &mut Txns, word: EndWord)
    requires { CanFree txns.old word }
    ensures { txns.new ≡ writer_freed txns.old word }
{
    if let Some(u) = word.writer() {
        if word.readers() > 0 {
            let waits = txns.waits(u);
            txns.set_waits(u, waits - 1);
        }
    }
}

/// An aborted writer of the word no longer waits for the word's readers.
pub(crate) fn free_stale(txns: &mut Txns, word: EndWord)
    requires { CanFree txns.old word }
    ensures { txns.new ≡ cleared_waits txns.old word }
{
    if is_stale(txns, word) {
        free_writer(txns, word);
    }
}

/// Takes the writer of a version and NoMoreReadLocks out of the word; the writer no longer waits for the version's
/// readers. (Section 4 of the paper: an aborted transaction gives its write locks up.)
pub fn clear_write(store: &mut Store, txns: &mut Txns, v: VersionId)
    requires version { v < length store.old.versions }
    requires written { IsSome (writer_of (version_at store.old v).end) }
    requires counted { CanFree txns.old (version_at store.old v).end }
    ensures store { store.new ≡ with_end_word store.old v (without_writer (version_at store.old v).end) }
    ensures txns { txns.new ≡ writer_freed txns.old (version_at store.old v).end }
{
    let word = store.end_of(v);
    store.set_end(v, word.clear_writer());
    free_writer(txns, word);
}
