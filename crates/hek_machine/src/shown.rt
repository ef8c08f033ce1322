//! What a machine shows: its words, counters and flags, and its lists, each in order of entry. No call changes the
//! machine. A list is copied, in time linear in its length.
ghost use Rattle.std.specs.Prelude.{◌≡◌, ◌↔◌, ◌<◌, IsTrue, length, IfOk};
ghost use Rattle.hek_rules.specs.Shown.{begin_word as begin_in, end_word as end_in, lock_count as locks_in, read_set, write_set, bucket_set, waiting_list as waiters_in, dependents_of, lock_list as lockers_in, committed_rows};
ghost use Rattle.hek_rules.specs.Waits.{waits, commit_deps};
ghost use Rattle.hek_rules.specs.World.{txn_in, declared};
ghost use Rattle.hek_txn.specs.TxnTable.{Declared};
ghost use Rattle.hek_machine.specs.Judgements.{IsShown};
ghost use Rattle.hek_machine.specs.Stands.{StandsForSome};
ghost use Rattle.hek_machine.specs.Observed.{of_version, key_in, value_in};

use crate::engine::Engine;
use crate::machine::Machine;
use hek_rules::{Level, NoMemory, Pairs, State, Time, TxnId, VersionId, WriteEntry};
use hek_word::{BeginWord, EndWord};
use std::alloc::Global;

fn listed<T: Copy>(alloc: Global, items: &[T]) -> Result<Vec<T>, NoMemory>
    ensures { IfOk result (λ list. list.items ≡ items.now) }
{
    Ok(items.iter().copied().collect(alloc)?)
}

impl Engine {
    fn has_version(&self, v: VersionId) -> bool
        ensures { IsTrue result ↔ (v < length self.now.store.versions) }
    {
        v.index() < self.store.len()
    }
}

impl Machine {
    /// The next begin or end time to be drawn, from 1 to 2^63 - 2 (section 2 of the paper: timestamps). At 2^63 - 2 no
    /// event draws a time.
    pub fn clock(&self) -> Time
        ensures shown { IsShown self.now (λ w. w.clock) result }
        ensures stands { StandsForSome self.now }
    {
        self.engine.clock
    }

    /// How many buckets there are.
    pub fn buckets(&self) -> u64
        ensures shown { IsShown self.now (λ w. w.buckets) result }
        ensures held { result ≡ length self.now.buckets }
    {
        self.engine.buckets.len()
    }

    /// How many transactions are declared: their IDs are 1 to this number.
    pub fn txns(&self) -> u64
        ensures shown { IsShown self.now (λ w. length w.txns) result }
        ensures held { result ≡ length self.now.txns.cores }
    {
        self.engine.txns.count()
    }

    /// Whether the schedule declares a transaction with this ID.
    pub fn is_declared(&self, txn: TxnId) -> bool
        ensures shown { IsShown self.now (λ w. declared w.txns txn) result }
        ensures held { IsTrue result ↔ Declared self.now.txns txn }
    {
        self.engine.txns.is_declared(txn)
    }

    /// How many versions there are: the rows of the schedule, and those that inserts and updates made. No version is
    /// removed.
    pub fn versions(&self) -> usize
        ensures { IsShown self.now (λ w. length w.versions) result }
    {
        self.engine.store.len() as usize
    }

    /// The Begin word of a version: the time from which it is valid, or the transaction that made it (section 2 of the
    /// paper). None past the last version.
    pub fn begin_word(&self, v: VersionId) -> Option<BeginWord>
        ensures { IsShown self.now (of_version begin_in v) result }
    {
        if self.engine.has_version(v) {
            Some(self.engine.store.begin_of(v))
        } else {
            None
        }
    }

    /// The End word of a version: the time until which it is valid, or a record lock (section 4 of the paper). None
    /// past the last version.
    pub fn end_word(&self, v: VersionId) -> Option<EndWord>
        ensures { IsShown self.now (of_version end_in v) result }
    {
        if self.engine.has_version(v) {
            Some(self.engine.store.end_of(v))
        } else {
            None
        }
    }

    /// The key of a version. None past the last version.
    pub fn key_of(&self, v: VersionId) -> Option<u64>
        ensures { IsShown self.now (of_version key_in v) result }
    {
        if self.engine.has_version(v) {
            Some(self.engine.store.key_of(v))
        } else {
            None
        }
    }

    /// The value of a version. None past the last version.
    pub fn value_of(&self, v: VersionId) -> Option<u64>
        ensures { IsShown self.now (of_version value_in v) result }
    {
        if self.engine.has_version(v) {
            Some(self.engine.store.value_of(v))
        } else {
            None
        }
    }

    /// WaitForCounter: on how many things the transaction waits (section 4 of the paper). A version that it writes and
    /// others read-lock counts once, and so does each transaction whose WaitingTxnList it is in.
    pub fn waits(&self, txn: TxnId) -> u64
        requires { Declared self.now.txns txn }
        ensures { IsShown self.now (λ w. waits w txn) result }
    {
        self.engine.txns.waits(txn)
    }

    /// CommitDepCounter: on how many Preparing transactions the commit of this one depends (section 2 of the paper).
    pub fn commit_deps(&self, txn: TxnId) -> u64
        requires { Declared self.now.txns txn }
        ensures { IsShown self.now (λ w. commit_deps w txn) result }
    {
        self.engine.txns.commit_deps(txn)
    }

    /// NoMoreWaitFors: the transaction has finished its reads and writes, and takes no further waits (section 4 of the
    /// paper).
    pub fn no_more_waits(&self, txn: TxnId) -> bool
        requires { Declared self.now.txns txn }
        ensures { IsShown self.now (λ w. (txn_in w.txns txn).no_more_waits) result }
    {
        self.engine.txns.no_more_waits(txn)
    }

    /// AbortNow: a transaction that this one depended on has aborted, so this one must abort too (section 2 of the
    /// paper).
    pub fn abort_now(&self, txn: TxnId) -> bool
        requires { Declared self.now.txns txn }
        ensures { IsShown self.now (λ w. (txn_in w.txns txn).abort_now) result }
    {
        self.engine.txns.abort_now(txn)
    }

    /// The isolation level of the transaction, as declared.
    pub fn level(&self, txn: TxnId) -> Level
        requires { Declared self.now.txns txn }
        ensures { IsShown self.now (λ w. (txn_in w.txns txn).level) result }
    {
        self.engine.txns.level(txn)
    }

    /// The begin time that the transaction drew, or 0 (section 2 of the paper: timestamps).
    pub fn begin_time(&self, txn: TxnId) -> Time
        requires { Declared self.now.txns txn }
        ensures { IsShown self.now (λ w. (txn_in w.txns txn).begin) result }
    {
        self.engine.txns.begin_time(txn)
    }

    /// The end time that the transaction drew, or 0 (section 2 of the paper: timestamps).
    pub fn end_time(&self, txn: TxnId) -> Time
        requires { Declared self.now.txns txn }
        ensures { IsShown self.now (λ w. (txn_in w.txns txn).end) result }
    {
        self.engine.txns.end_time(txn)
    }

    /// The state of the transaction (section 2 of the paper: the phases of a transaction).
    pub fn state(&self, txn: TxnId) -> State
        requires { Declared self.now.txns txn }
        ensures { IsShown self.now (λ w. (txn_in w.txns txn).state) result }
    {
        self.engine.txns.state(txn)
    }

    /// LockCount: how many transactions lock the bucket (section 4 of the paper: bucket locks). Buckets are numbered
    /// from 0.
    pub fn lock_count(&self, bucket: u64) -> usize
        requires { bucket < length self.now.buckets }
        ensures { IsShown self.now (λ w. locks_in w bucket) result }
    {
        self.engine.buckets.count(bucket) as usize
    }

    /// The read set: the versions that the transaction read-locks (section 4 of the paper: record locks).
    pub fn read_list(&self, txn: TxnId) -> Result<Vec<VersionId>, NoMemory>
        requires { Declared self.now.txns txn }
        ensures { IfOk result (λ list. IsShown self.now (λ w. read_set w txn) list.items) }
    {
        listed(self.engine.alloc, self.engine.txns.read_set(txn))
    }

    /// The write set: the versions that the transaction made or ended and has not stamped (section 2 of the paper).
    pub fn write_list(&self, txn: TxnId) -> Result<Vec<WriteEntry>, NoMemory>
        requires { Declared self.now.txns txn }
        ensures { IfOk result (λ list. IsShown self.now (λ w. write_set w txn) list.items) }
    {
        listed(self.engine.alloc, self.engine.txns.write_set(txn))
    }

    /// The bucket set: the buckets that the transaction locks, numbered from 0 (section 4 of the paper: bucket locks).
    pub fn bucket_list(&self, txn: TxnId) -> Result<Vec<u64>, NoMemory>
        requires { Declared self.now.txns txn }
        ensures { IfOk result (λ list. IsShown self.now (λ w. bucket_set w txn) list.items) }
    {
        listed(self.engine.alloc, self.engine.txns.bucket_set(txn))
    }

    /// WaitingTxnList: the transactions that wait for this one because of a bucket (section 4 of the paper: wait-for
    /// dependencies).
    pub fn waiting_list(&self, txn: TxnId) -> Result<Vec<TxnId>, NoMemory>
        requires { Declared self.now.txns txn }
        ensures { IfOk result (λ list. IsShown self.now (λ w. waiters_in w txn) list.items) }
    {
        listed(self.engine.alloc, self.engine.txns.waiting_list(txn))
    }

    /// CommitDepSet: the transactions whose commit depends on this one (section 2 of the paper: commit dependencies).
    pub fn dependents(&self, txn: TxnId) -> Result<Vec<TxnId>, NoMemory>
        requires { Declared self.now.txns txn }
        ensures { IfOk result (λ list. IsShown self.now (λ w. dependents_of w txn) list.items) }
    {
        listed(self.engine.alloc, self.engine.txns.dependents(txn))
    }

    /// LockList: the transactions that lock the bucket (section 4 of the paper: bucket locks). Buckets are numbered
    /// from 0.
    pub fn lock_list(&self, bucket: u64) -> Result<Vec<TxnId>, NoMemory>
        requires { bucket < length self.now.buckets }
        ensures { IfOk result (λ list. IsShown self.now (λ w. lockers_in w bucket) list.items) }
    {
        listed(self.engine.alloc, self.engine.buckets.holders(bucket))
    }

    /// The committed rows, in rising order of keys: the key and the value of each version that the schedule loaded or a
    /// committed transaction made, and that no committed transaction ended.
    pub fn rows(&self) -> Result<Pairs, NoMemory>
        ensures { IfOk result (λ rows. IsShown self.now committed_rows rows) }
    {
        self.engine.rows()
    }
}
