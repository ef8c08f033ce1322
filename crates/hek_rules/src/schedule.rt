//! Schedules: a number of buckets, rows, transactions and steps, within all limits.
ghost use Rattle.std.specs.Prelude.{◌≡◌, ◌+◌, ◌-◌, ◌<◌, ◌≤◌, ◌↔◌, [], ◌∷◌, ◌++◌, length, slice_get, IsTrue, OnOk, OnErr, IfSome, Some};
ghost use Rattle.hek_rules.specs.Plan.{IsPlan, IsDeclared, IsStep, row_fits, txn_fits, StepFits, has_key, has_name, id_of, names_of, levels_of, max_buckets};

use crate::event::{Event, Level};
use crate::id::TxnId;
use crate::memory::NoMemory;
use crate::name::{name_ok, name_text};
use indexmap::IndexMap;
use std::alloc::Global;
use std::marker::Model;

/// The most buckets that a schedule has. It has at least one.
pub const MAX_BUCKETS: u64 = 1_024;

/// The most rows that a schedule has.
pub const MAX_ROWS: usize = 65_536;

/// The most transactions that a schedule declares.
pub const MAX_TXNS: usize = 1_024;

/// The most steps that a schedule has.
pub const MAX_STEPS: usize = 1_000_000;

/// What a machine is loaded with, and the events that it runs: a number of buckets, rows, transactions, and steps. Each
/// key and each name occurs once, and a step's transaction and bucket exist.
#[derive(Drop)]
pub struct Schedule {
    buckets: u64,
    rows: IndexMap<u64, u64>,
    names: IndexMap<String, Level>,
    steps: Vec<Event>,
}

impl Model for Schedule {
    ghost use Rattle.hek_rules.specs.Plan.{Plan, IsPlan};

    ghost Value = { Plan };

    ghost use Rattle.hek_rules.specs.Scheduled.{plan_of};

    ghost view = { plan_of };

    ghost invariant = { λ s. IsPlan (plan_of s) };
}

impl Schedule {
    /// Does nothing. Its contract gives a caller's proof the limits and the distinct keys and names of the schedule.
    pub fn known(&self)
        ensures { IsPlan self.now }
    {
        let _buckets = self.buckets;
    }

    /// A schedule without rows, transactions or steps.
    pub fn new(alloc: Global, buckets: u64) -> Schedule
        requires { (0 < buckets) × (buckets ≤ max_buckets) }
        ensures { result ≡ record { buckets = buckets; rows = []; txns = []; steps = [] } }
    {
        Schedule {
            buckets,
            rows: IndexMap::new(alloc),
            names: IndexMap::new(alloc),
            steps: Vec::new(alloc),
        }
    }

    /// The number of buckets. A key's bucket is the key modulo this number.
    pub fn buckets(&self) -> u64
        ensures buckets { result ≡ self.now.buckets }
        ensures plan { IsPlan self.now }
    {
        self.buckets
    }

    /// How many rows there are.
    pub fn row_count(&self) -> usize
        ensures { result ≡ length self.now.rows }
    {
        self.rows.len()
    }

    /// The key and the value of the row at a place.
    pub fn row(&self, place: usize) -> (u64, u64)
        requires { place < length self.now.rows }
        ensures { slice_get self.now.rows place ≡ Some result }
    {
        let (key, value) = self.rows.get_index(place).unwrap();
        (*key, *value)
    }

    /// Whether a row has this key.
    pub fn has_key(&self, key: u64) -> bool
        ensures { result ≡ has_key self.now key }
    {
        self.rows.contains_key(&key)
    }

    /// Whether a row with this key may be added: there is room, and the key is new.
    pub fn row_fits(&self, key: u64) -> bool
        ensures { result ≡ row_fits self.now key }
    {
        self.rows.len() < MAX_ROWS && !self.has_key(key)
    }

    /// Adds a row at the end. Out of memory, the schedule is unchanged.
    pub fn add_row(&mut self, key: u64, value: u64) -> Result<(), NoMemory>
        requires { IsTrue (row_fits self.old key) }
        ensures ok { OnOk result (self.new ≡ record self.old { rows = self.old.rows ++ (key, value) ∷ [] }) }
        ensures err { OnErr result (self.new ≡ self.old) }
    {
        self.rows.insert(key, value)?;
        Ok(())
    }

    /// How many transactions are declared: their IDs are 1 to this number.
    pub fn txn_count(&self) -> usize
        ensures { result ≡ length self.now.txns }
    {
        self.names.len()
    }

    /// The transaction with this name, if there is one.
    pub fn id_of(&self, name: &[u8]) -> Option<TxnId>
        ensures value { result ≡ id_of self.now name.now }
        ensures declared { IfSome result (λ t. IsDeclared (length self.now.txns) t) }
    {
        let names = &self.names;
        let text = name_text(name)?;
        let place = names.get_index_of(text)?;
        Some(TxnId::new(place as u64 + 1))
    }

    /// Whether a transaction has this name.
    pub fn has_name(&self, name: &str) -> bool
        ensures { result ≡ has_name self.now name.now }
    {
        self.names.contains_key(name)
    }

    /// The name of a declared transaction.
    pub fn name_of(&self, txn: TxnId) -> &str
        requires { IsDeclared (length self.now.txns) txn }
        ensures { slice_get (names_of self.now) (txn - 1) ≡ Some result.now }
    {
        let (name, _) = self.names.get_index((txn.number() - 1) as usize).unwrap();
        name.as_str()
    }

    /// The level of a declared transaction.
    pub fn level_of(&self, txn: TxnId) -> Level
        requires { IsDeclared (length self.now.txns) txn }
        ensures { slice_get (levels_of self.now) (txn - 1) ≡ Some result }
    {
        let (_, level) = self.names.get_index((txn.number() - 1) as usize).unwrap();
        *level
    }

    /// Whether a transaction with this name may be added: there is room, the word is a name, and the name is new.
    pub fn txn_fits(&self, name: &str) -> bool
        ensures { result ≡ txn_fits self.now name.now }
    {
        self.names.len() < MAX_TXNS && name_ok(name.as_bytes()) && !self.has_name(name)
    }

    /// Adds a transaction at the end; the new count is its ID. Out of memory, the schedule is unchanged.
    pub fn add_txn(&mut self, name: &str, level: Level) -> Result<(), NoMemory>
        requires { IsTrue (txn_fits self.old name.now) }
        ensures ok { OnOk result (self.new ≡ record self.old { txns = self.old.txns ++ (name.now, level) ∷ [] }) }
        ensures err { OnErr result (self.new ≡ self.old) }
    {
        let name = String::from_str(*self.names.allocator(), name)?;
        self.names.insert(name, level)?;
        Ok(())
    }

    /// The steps, in order.
    pub fn steps(&self) -> &[Event]
        ensures { result.now ≡ self.now.steps }
    {
        self.steps.as_slice()
    }

    fn is_declared(&self, txn: TxnId) -> bool
        ensures { IsTrue result ↔ IsDeclared (length self.now.txns) txn }
    {
        txn.number() > 0 && txn.number() <= self.names.len() as u64
    }

    fn is_step(&self, event: Event) -> bool
        ensures { IsTrue result ↔ IsStep self.now.buckets (length self.now.txns) event }
    {
        match event {
            Event::Scan(txn, bucket) => self.is_declared(txn) && bucket < self.buckets,
            Event::Begin(txn)
            | Event::Read(txn, _)
            | Event::Insert(txn, _, _)
            | Event::Update(txn, _, _)
            | Event::Delete(txn, _)
            | Event::Finish(txn)
            | Event::Precommit(txn)
            | Event::Release(txn)
            | Event::Commit(txn)
            | Event::Fail(txn)
            | Event::Stamp(txn)
            | Event::End(txn) => self.is_declared(txn),
            Event::Detect => true,
        }
    }

    /// Whether a step may be added: there is room, its transaction is declared, and a scan's bucket exists.
    pub fn step_fits(&self, event: Event) -> bool
        ensures { IsTrue result ↔ StepFits self.now event }
    {
        self.steps.len() < MAX_STEPS && self.is_step(event)
    }

    /// Adds a step at the end. Out of memory, the schedule is unchanged.
    pub fn add_step(&mut self, event: Event) -> Result<(), NoMemory>
        requires { StepFits self.old event }
        ensures ok { OnOk result (self.new ≡ record self.old { steps = self.old.steps ++ event ∷ [] }) }
        ensures err { OnErr result (self.new ≡ self.old) }
    {
        self.steps.push(event)?;
        Ok(())
    }

    fn same_rows(&self, other: &Schedule) -> bool
        ensures { IsTrue result ↔ (self.now.rows ≡ other.now.rows) }
    {
        self.rows.as_slice() == other.rows.as_slice()
    }

    fn same_txns(&self, other: &Schedule) -> bool
        ensures { IsTrue result ↔ (self.now.txns ≡ other.now.txns) }
    {
        self.names.as_slice() == other.names.as_slice()
    }

    fn same_steps(&self, other: &Schedule) -> bool
        ensures { IsTrue result ↔ (self.now.steps ≡ other.now.steps) }
    {
        self.steps == other.steps
    }

    /// Whether the schedules are equal, in each part and its order.
    pub fn same(&self, other: &Schedule) -> bool
        ensures { IsTrue result ↔ (self.now ≡ other.now) }
    {
        self.buckets == other.buckets
            && self.same_rows(other)
            && self.same_txns(other)
            && self.same_steps(other)
    }
}
