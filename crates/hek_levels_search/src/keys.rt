//! The keys that a log names, in rising order, and those of a scan among them.
use crate::lists::{add, at, place_from};
use hek_history::Scope;
use hek_levels::{Change, Log, Read};
use hek_rules::NoMemory;
use std::alloc::Global;

/// Each key once, in rising order, and each key again in the buckets that scans are of.
#[derive(Drop)]
pub struct Keys {
    names: Vec<u64>,
    /// Into how many buckets scans divide the keys.
    divisions: Vec<u64>,
    /// Into how many buckets keys are divided, the bucket, and the place of the key.
    bucketed: Vec<(u64, u64, usize)>,
}

impl Keys {
    /// No key.
    pub fn new(alloc: Global) -> Keys {
        Keys {
            names: Vec::new(alloc),
            divisions: Vec::new(alloc),
            bucketed: Vec::new(alloc),
        }
    }

    /// Takes the keys that a log names: those of rows, of what was found, and of what is left.
    pub fn fill(&mut self, log: &Log) -> Result<(), NoMemory> {
        for row in &log.rows {
            add(&mut self.names, row.0)?;
        }
        for transaction in &log.transactions {
            self.add_reads(transaction.reads.as_slice())?;
            self.add_changes(transaction.writes.as_slice())?;
            for scan in &transaction.scans {
                self.add_division(scan.scope)?;
            }
        }
        self.names.sort_unstable();
        self.names.dedup();
        for place in 0..self.divisions.len() {
            let buckets = at(self.divisions.as_slice(), place, 0);
            self.divide(buckets)?;
        }
        self.bucketed.sort_unstable();
        Ok(())
    }

    fn add_reads(&mut self, reads: &[Read]) -> Result<(), NoMemory> {
        for read in reads {
            add(&mut self.names, read.key)?;
        }
        Ok(())
    }

    fn add_changes(&mut self, changes: &[Change]) -> Result<(), NoMemory> {
        for change in changes {
            add(&mut self.names, change.key)?;
        }
        Ok(())
    }

    /// Adds the number of buckets into which a scan divides keys, if it is new.
    fn add_division(&mut self, scope: Scope) -> Result<(), NoMemory> {
        if let Scope::Bucket(buckets, _) = scope {
            if !self.divisions.contains(&buckets) {
                add(&mut self.divisions, buckets)?;
            }
        }
        Ok(())
    }

    /// Adds each key in its bucket.
    fn divide(&mut self, buckets: u64) -> Result<(), NoMemory> {
        if buckets == 0 {
            return Ok(());
        }
        for place in 0..self.names.len() {
            let bucket = self.name(place) % buckets;
            add(&mut self.bucketed, (buckets, bucket, place))?;
        }
        Ok(())
    }

    pub fn len(&self) -> usize {
        self.names.len()
    }

    /// The place of a key.
    pub fn place_of(&self, key: u64) -> Option<usize> {
        let place = place_from(self.names.as_slice(), key);
        if place < self.names.len() && self.name(place) == key {
            Some(place)
        } else {
            None
        }
    }

    /// The key at a place.
    pub fn name(&self, place: usize) -> u64 {
        at(self.names.as_slice(), place, 0)
    }

    /// The place of the first key of a bucket, or of a later one, among the keys in buckets.
    fn bucket_from(&self, buckets: u64, bucket: u64) -> usize {
        let all = self.bucketed.as_slice();
        all.partition_point(|one| one.0 < buckets || (one.0 == buckets && one.1 < bucket))
    }

    /// How many places there are in buckets.
    pub fn bucketed_len(&self) -> usize {
        self.bucketed.len()
    }

    /// Into how many buckets scans divide the keys.
    pub fn divisions(&self) -> &[u64] {
        self.divisions.as_slice()
    }

    /// The place of a key among those in buckets, where the keys are divided into so many.
    pub fn place_in_bucket(&self, buckets: u64, key: usize) -> usize {
        let bucket = if buckets == 0 {
            0
        } else {
            self.name(key) % buckets
        };
        let its = (buckets, bucket, key);
        self.bucketed.as_slice().partition_point(|one| *one < its)
    }

    /// Where the keys that a scan is of stand: from a place up to another, among the keys or among those in buckets.
    pub fn places_of(&self, scope: Scope) -> (usize, usize) {
        match scope {
            Scope::Range(from, to) => (
                place_from(self.names.as_slice(), from),
                place_from(self.names.as_slice(), to),
            ),
            Scope::Bucket(buckets, bucket) => (
                self.bucket_from(buckets, bucket),
                self.bucket_from(buckets, bucket.saturating_add(1)),
            ),
        }
    }

    /// The key that a scan is of at one of its places.
    pub fn key_at(&self, scope: Scope, place: usize) -> usize {
        match scope {
            Scope::Range(_, _) => place,
            Scope::Bucket(_, _) => at(self.bucketed.as_slice(), place, (0, 0, 0)).2,
        }
    }
}
