//! Rows by key, bucket by bucket.
ghost use Rattle.std.specs.Prelude.{◌≡◌, ◌<◌, ◌↔◌, [], ℕ, IsTrue, OnOk, IfOk};
ghost use Rattle.hek_rules.specs.Listing.{value_of as value_in};
ghost use Rattle.hek_rules.specs.Serial.{AreIn, rows_of, lay as laid};
ghost use Rattle.hek_laws.specs.Rows.{AreRising, key_of as key_in};

use crate::number_map::NumberMap;
use hek_rules::{NoMemory, Write};
use std::alloc::Global;
use std::marker::Model;

/// The key that a change is of.
pub(crate) fn key_of(write: Write) -> u64
    ensures { result ≡ key_in write }
{
    match write {
        Write::Put(key, _) => key,
        Write::Remove(key) => key,
    }
}

/// Keys with their values, in a fixed number of buckets.
#[derive(Drop)]
pub(crate) struct Rows {
    parts: Vec<NumberMap>,
}

impl Model for Rows {
    ghost use Rattle.std.specs.Prelude.{length};
    ghost use Rattle.hek_serial.specs.BucketRows.{BucketRows, AreParts, gathered};

    ghost Value = { BucketRows };

    ghost view = { λ r. record { buckets = length r.parts.items; rows = gathered r.parts.items } };

    ghost invariant = { λ r. AreParts r.parts.items };
}

impl Rows {
    /// No rows, in this many buckets.
    pub(crate) fn new(alloc: Global, buckets: u64) -> Result<Rows, NoMemory>
        requires { 0 < buckets }
        ensures { IfOk result (λ rows. rows ≡ record { buckets = buckets; rows = [] }) }
    {
        let mut parts = Vec::new(alloc);
        for _bucket in 0..buckets {
            parts.push(NumberMap::new(alloc))?;
        }
        Ok(Rows { parts })
    }

    /// Makes a change to the rows.
    pub(crate) fn lay(&mut self, write: Write) -> Result<(), NoMemory>
        ensures { OnOk result (self.new ≡ record self.old { rows = laid write self.old.rows }) }
    {
        let bucket = key_of(write) % self.parts.len() as u64;
        self.parts[bucket as usize].lay(write)?;
        Ok(())
    }

    /// Makes a change, and answers the change that undoes it.
    pub(crate) fn change(&mut self, write: Write) -> Result<Write, NoMemory>
        ensures laid { OnOk result (self.new ≡ record self.old { rows = laid write self.old.rows }) }
        ensures back { IfOk result (λ back. laid back self.new.rows ≡ self.old.rows) }
    {
        let key = key_of(write);
        let before = self.value_of(key);
        self.lay(write)?;
        match before {
            Some(value) => Ok(Write::Put(key, value)),
            None => Ok(Write::Remove(key)),
        }
    }

    pub(crate) fn value_of(&self, key: u64) -> Option<u64>
        ensures value { result ≡ value_in self.now.rows key }
        ensures rising { AreRising self.now.rows }
    {
        let bucket = key % self.parts.len() as u64;
        self.parts[bucket as usize].value_of(key)
    }

    /// Whether each of the pairs is among the rows.
    pub(crate) fn has_all(&self, pairs: &[(u64, u64)]) -> bool
        ensures { IsTrue result ↔ AreIn self.now.rows pairs.now }
    {
        for pair in pairs {
            if self.value_of(pair.0) != Some(pair.1) {
                return false;
            }
        }
        true
    }

    /// Whether the pairs are the rows of a bucket.
    pub(crate) fn is_bucket(&self, bucket: u64, pairs: &[(u64, u64)]) -> bool
        ensures { IsTrue result ↔ (pairs.now ≡ rows_of self.now.buckets bucket self.now.rows) }
    {
        if bucket < self.parts.len() as u64 {
            self.parts[bucket as usize].is(pairs)
        } else {
            pairs.is_empty()
        }
    }

    /// The rows of a bucket.
    pub(crate) fn bucket(&self, alloc: Global, bucket: u64) -> Result<Vec<(u64, u64)>, NoMemory>
        ensures { IfOk result (λ pairs. pairs.items ≡ rows_of self.now.buckets bucket self.now.rows) }
    {
        if bucket < self.parts.len() as u64 {
            let pairs = self.parts[bucket as usize].pairs(alloc)?;
            Ok(pairs)
        } else {
            Ok(Vec::new(alloc))
        }
    }
}
