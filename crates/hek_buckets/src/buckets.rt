//! The locks of each bucket.
ghost use Rattle.std.specs.Prelude.{◌≡◌, ◌+◌, ◌<◌, ◌≤◌, ◌==◌, nat_eq, length, IfOk, OnOk};
ghost use Rattle.std.specs.Set.{remove_key};
ghost use Rattle.hek_txn.specs.Entries.{joined, AreEmpty, AreCopies};
ghost use Rattle.hek_buckets.specs.LockLists.{holders_of, with_holders};

use hek_rules::{NoMemory, Schedule, TxnId};
use hek_txn::{EntryList, copied_lists, empty_lists};
use std::alloc::Global;
use std::marker::Model;

/// The LockList of each bucket: the transactions that lock it, in order of entry.
#[derive(Drop)]
pub struct Buckets {
    holders: Vec<EntryList<TxnId>>,
}

impl Model for Buckets {
    ghost use Rattle.std.specs.Prelude.{ℕ, List};
    ghost use Rattle.hek_txn.specs.Entries.{Entries};

    ghost Value = { List (Entries ℕ) };

    ghost view = { λ b. b.holders.items };
}

impl Buckets {
    /// The buckets of a schedule, without holders.
    pub fn load(alloc: Global, schedule: &Schedule) -> Result<Buckets, NoMemory>
        ensures { IfOk result (λ buckets. AreEmpty schedule.now.buckets buckets) }
    {
        Ok(Buckets {
            holders: empty_lists(alloc, schedule.buckets() as usize)?,
        })
    }

    /// How many buckets there are.
    pub fn len(&self) -> u64
        ensures { result ≡ length self.now }
    {
        self.holders.len() as u64
    }

    /// Whether there are no buckets.
    pub fn is_empty(&self) -> bool
        ensures { result ≡ (length self.now == 0) }
    {
        self.holders.is_empty()
    }

    /// Makes room for another holder of a bucket.
    pub fn reserve(&mut self, bucket: u64) -> Result<(), NoMemory>
        requires { bucket < length self.old }
        ensures buckets { self.new ≡ with_holders self.old bucket (holders_of self.new bucket) }
        ensures items { (holders_of self.new bucket).items ≡ (holders_of self.old bucket).items }
        ensures room { OnOk result (0 < (holders_of self.new bucket).room) }
        ensures kept { (holders_of self.old bucket).room ≤ (holders_of self.new bucket).room }
    {
        let list = &mut self.holders[bucket as usize];
        list.reserve(1)
    }

    /// `txn` locks a bucket, unless it locks the bucket already.
    pub fn lock(&mut self, bucket: u64, txn: TxnId)
        requires bucket { bucket < length self.old }
        requires room { 0 < (holders_of self.old bucket).room }
        ensures buckets { self.new ≡ with_holders self.old bucket (holders_of self.new bucket) }
        ensures items { (holders_of self.new bucket).items ≡ joined nat_eq (holders_of self.old bucket).items txn }
        ensures room { (holders_of self.old bucket).room ≤ (holders_of self.new bucket).room + 1 }
    {
        let list = &mut self.holders[bucket as usize];
        list.insert(txn);
    }

    /// `txn` gives up its lock of a bucket.
    pub fn unlock(&mut self, bucket: u64, txn: TxnId)
        requires { bucket < length self.old }
        ensures buckets { self.new ≡ with_holders self.old bucket (holders_of self.new bucket) }
        ensures items { (holders_of self.new bucket).items ≡ remove_key (nat_eq txn) (holders_of self.old bucket).items }
        ensures room { (holders_of self.old bucket).room ≤ (holders_of self.new bucket).room }
    {
        let list = &mut self.holders[bucket as usize];
        list.remove(txn);
    }

    /// LockList: the holders of a bucket, in order of entry.
    pub fn holders(&self, bucket: u64) -> &[TxnId]
        requires { bucket < length self.now }
        ensures { result.now ≡ (holders_of self.now bucket).items }
    {
        self.holders[bucket as usize].as_slice()
    }

    /// LockCount: how many transactions lock a bucket.
    pub fn count(&self, bucket: u64) -> u64
        requires { bucket < length self.now }
        ensures { result ≡ length (holders_of self.now bucket).items }
    {
        self.holders[bucket as usize].as_slice().len() as u64
    }

    /// Equal buckets, with separate room.
    pub fn copy(&self) -> Result<Buckets, NoMemory>
        ensures { IfOk result (AreCopies self.now) }
    {
        let alloc = *self.holders.allocator();
        Ok(Buckets {
            holders: copied_lists(alloc, self.holders.as_slice())?,
        })
    }
}
