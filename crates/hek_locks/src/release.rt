//! The release of a read lock (section 4 of the paper: releasing read locks).
ghost use Rattle.std.specs.Prelude.{◌≡◌, ◌<◌, ◌≤◌, nat_eq, length};
ghost use Rattle.std.specs.Set.{remove_key};
ghost use Rattle.hek_rules.specs.Words.{readers_of, without_reader, dropped_of};
ghost use Rattle.hek_store.specs.Stored.{version_at, with_end_word};
ghost use Rattle.hek_txn.specs.TxnTable.{Declared, read_set_of, with_read_set};
ghost use Rattle.hek_locks.specs.Locked.{CanTell, after_drop, left_writer};

use hek_rules::{Dropped, TxnId, VersionId};
use hek_store::Store;
use hek_txn::Txns;

/// `txn` gives up its read lock of v. If v has a writer and no reader left, returns that writer: it waits for one
/// version less, and v takes no more readers.
pub fn release_read(store: &mut Store, txns: &mut Txns, txn: TxnId, v: VersionId) -> Option<TxnId>
    requires version { v < length store.old.versions }
    requires txn { Declared txns.old txn }
    requires reader { 0 < readers_of (version_at store.old v).end }
    requires writer { CanTell txns.old (dropped_of (version_at store.old v).end) }
    ensures store { store.new ≡ with_end_word store.old v (without_reader (version_at store.old v).end) }
    ensures txns { txns.new ≡ with_read_set (after_drop (dropped_of (version_at store.old v).end) txns.old) txn (read_set_of txns.new txn) }
    ensures reads { (read_set_of txns.new txn).items ≡ remove_key (nat_eq v) (read_set_of txns.old txn).items }
    ensures room { (read_set_of txns.old txn).room ≤ (read_set_of txns.new txn).room }
    ensures answer { result ≡ left_writer (dropped_of (version_at store.old v).end) }
{
    let (left, dropped) = store.end_of(v).drop_reader();
    store.set_end(v, left);
    let waiter = match dropped {
        Dropped::Last(u) => {
            let waits = txns.waits(u);
            txns.set_waits(u, waits - 1);
            Some(u)
        }
        Dropped::More | Dropped::Free => None,
    };
    txns.remove_read(txn, v);
    waiter
}
