//! Waits because of a bucket: a waiting list and a wait counter change together.
ghost use Rattle.std.specs.Prelude.{◌≡◌, ◌+◌, ◌-◌, ◌<◌, ◌≤◌, ◌≢◌, ◌^◌, Some, None, nat_eq, slice_get, length, MatchOption};
ghost use Rattle.std.specs.List.{All};
ghost use Rattle.std.specs.Set.{remove_key};
ghost use Rattle.hek_rules.specs.Listing.{is_among};
ghost use Rattle.hek_txn.specs.Entries.{joined};
ghost use Rattle.hek_txn.specs.TxnTable.{Declared, IsEven, waits_of, with_waits, waiting_list_of, with_waiting_list};
ghost use Rattle.hek_buckets.specs.LockLists.{holders_of};
ghost use Rattle.hek_buckets.specs.Waited.{imposed_waits, with_waiting, waiting_of, waiting_for, waiting_for_all, IsReady, StaysReady};

use crate::Buckets;
use hek_rules::TxnId;
use hek_txn::Txns;

/// `waiter` waits for `txn`, unless it does already.
pub fn impose_wait(txns: &mut Txns, txn: TxnId, waiter: TxnId)
    requires txn { Declared txns.old txn }
    requires waiter { Declared txns.old waiter }
    requires room { 0 < (waiting_list_of txns.old txn).room }
    requires counted { waits_of txns.old waiter + 1 < 2 ^ 64 }
    ensures txns { txns.new ≡ with_waiting_list (imposed_waits txns.old txn waiter) txn (waiting_list_of txns.new txn) }
    ensures items { (waiting_list_of txns.new txn).items ≡ joined nat_eq (waiting_list_of txns.old txn).items waiter }
    ensures room { (waiting_list_of txns.old txn).room ≤ (waiting_list_of txns.new txn).room + 1 }
{
    if !txns.has_waiter(txn, waiter) {
        let waits = txns.waits(waiter);
        txns.set_waits(waiter, waits + 1);
    }
    txns.push_waiter(txn, waiter);
}

/// The first waiter of `txn` no longer waits for it. Returns that waiter, or None if nobody waits.
pub fn release_waiter(txns: &mut Txns, txn: TxnId) -> Option<TxnId>
    requires txn { Declared txns.old txn }
    requires waiter { All (λ u. Declared txns.old u × (0 < waits_of txns.old u)) (waiting_list_of txns.old txn).items }
    ensures result { result ≡ slice_get (waiting_list_of txns.old txn).items 0 }
    ensures released { MatchOption result (txns.new ≡ txns.old) (λ u. txns.new ≡ with_waiting_list (with_waits txns.old u (waits_of txns.old u - 1)) txn (waiting_list_of txns.new txn)) }
    ensures items { MatchOption result (txns.new ≡ txns.old) (λ u. (waiting_list_of txns.new txn).items ≡ remove_key (nat_eq u) (waiting_list_of txns.old txn).items) }
    ensures room { (waiting_list_of txns.old txn).room ≤ (waiting_list_of txns.new txn).room }
{
    let u = txns.first_waiter(txn)?;
    let waits = txns.waits(u);
    txns.set_waits(u, waits - 1);
    txns.remove_waiter(txn, u);
    Some(u)
}

/// t waits for h, unless t is h or waits for h already.
fn wait_for(txns: &mut Txns, h: TxnId, t: TxnId)
    requires even { IsEven txns.old }
    requires txn { Declared txns.old t }
    requires holder { Declared txns.old h }
    requires ready { IsReady txns.old t h }
    requires counted { waits_of txns.old t + 1 < 2 ^ 64 }
    ensures frame { txns.new ≡ with_waiting txns.old t txns.new }
    ensures waiting { waiting_of txns.new t ≡ waiting_for t (waiting_of txns.old t) h }
    ensures ready { StaysReady txns.old txns.new t }
{
    if h != t && !txns.has_waiter(h, t) {
        impose_wait(txns, h, t);
    }
}

/// `txn` waits for each other holder of a bucket whose waiting list lacks it, in their order.
pub fn wait_for_holders(buckets: &Buckets, txns: &mut Txns, bucket: u64, txn: TxnId)
    requires bucket { bucket < length buckets.now }
    requires even { IsEven txns.old }
    requires txn { Declared txns.old txn }
    requires holders { All (λ h. Declared txns.old h × IsReady txns.old txn h) (holders_of buckets.now bucket).items }
    requires counted { waits_of txns.old txn + length (holders_of buckets.now bucket).items < 2 ^ 64 }
    ensures frame { txns.new ≡ with_waiting txns.old txn txns.new }
    ensures waiting { waiting_of txns.new txn ≡ waiting_for_all txn (waiting_of txns.old txn) (holders_of buckets.now bucket).items }
{
    for &h in buckets.holders(bucket) {
        wait_for(txns, h, txn);
    }
}
