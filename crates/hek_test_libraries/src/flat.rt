//! The store beside a flat one, which has its versions in one list and passes over all of them.
use crate::asserts::{holds, is};
use hek_rules::{NoMemory, Schedule, Time, TxnId, VersionId};
use hek_store::{Store, Version};
use hek_word::{BeginWord, EndWord};
use std::alloc::Global;
use std::process::Abort;
use std::test::Fail;

const BUCKETS: u64 = 3;

/// Keys are drawn from below this; the first four have rows.
const KEYS: u64 = 6;

#[derive(Drop)]
struct Flat {
    versions: Vec<Version>,
}

impl Flat {
    /// The places of the versions of a key, or where none is given of those in a bucket.
    fn places(&self, alloc: Global, key: Option<u64>, bucket: u64) -> Result<Vec<u64>, NoMemory> {
        let mut places = Vec::new(alloc);
        for (place, version) in self.versions.iter().enumerate() {
            let is_one = match key {
                Some(key) => version.key == key,
                None => version.key % BUCKETS == bucket,
            };
            if is_one {
                places.push(place as u64)?;
            }
        }
        Ok(places)
    }
}

/// Both stores, and a fixed sequence of numbers.
#[derive(Drop)]
struct Both {
    store: Store,
    flat: Flat,
    state: u64,
}

fn version(key: u64, value: u64) -> Version {
    Version {
        key,
        value,
        begin: BeginWord::at(Time::new(0)),
        end: EndWord::infinity(),
    }
}

impl Both {
    fn new(rt: &impl Abort, alloc: Global, seed: u64) -> Result<Both, NoMemory> {
        let mut schedule = Schedule::new(alloc, BUCKETS);
        let mut versions = Vec::new(alloc);
        for key in 0..4 {
            assert!(rt; schedule.row_fits(key));
            schedule.add_row(key, key)?;
            versions.push(version(key, key))?;
        }
        Ok(Both {
            store: Store::load(alloc, &schedule)?,
            flat: Flat { versions },
            state: seed,
        })
    }

    fn below(&mut self, count: u64) -> u64 {
        self.state = self
            .state
            .wrapping_mul(6364136223846793005)
            .wrapping_add(1442695040888963407);
        (self.state >> 33) % count.max(1)
    }

    /// Adds a version, or writes one of the words of a version that is there.
    fn step(&mut self, rt: &impl Abort) -> Result<(), NoMemory> {
        let drawn = self.below(4);
        if drawn > 1 {
            let key = self.below(KEYS);
            self.store.reserve_version()?;
            self.store.add_version(version(key, drawn));
            self.flat.versions.push(version(key, drawn))?;
            return Ok(());
        }
        let count = self.store.len();
        let place = self.below(count);
        let v = VersionId::new(place);
        holds(rt, place < self.store.len());
        if place >= self.store.len() {
            return Ok(());
        }
        let word = BeginWord::by(TxnId::new(drawn + 1));
        self.store.set_begin(v, word);
        if let Some(flat) = self.flat.versions.get_mut(place as usize) {
            flat.begin = word;
        }
        Ok(())
    }

    fn found_of(&self, alloc: Global, key: u64) -> Result<Vec<u64>, NoMemory> {
        let mut places = Vec::new(alloc);
        for v in self.store.versions_of(key) {
            places.push(v.index())?;
        }
        Ok(places)
    }

    fn found_in(&self, alloc: Global, bucket: u64) -> Result<Vec<u64>, NoMemory> {
        let mut places = Vec::new(alloc);
        for v in self.store.versions_in(bucket) {
            places.push(v.index())?;
        }
        Ok(places)
    }

    fn assert_same(&self, rt: &impl Abort, alloc: Global) -> Result<(), NoMemory> {
        for key in 0..KEYS {
            let wanted = self.flat.places(alloc, Some(key), 0)?;
            holds(rt, self.found_of(alloc, key)? == wanted);
            is(rt, self.store.bucket_of(key), key % BUCKETS);
        }
        for bucket in 0..BUCKETS {
            let wanted = self.flat.places(alloc, None, bucket)?;
            holds(rt, self.found_in(alloc, bucket)? == wanted);
        }
        is(rt, self.store.len(), self.flat.versions.len() as u64);
        Ok(())
    }
}

// 1,000 sequences of 60 steps, from four rows in three buckets.
#[test]
fn agrees_with_a_flat_store(rt: HostRuntime) -> Result<(), Fail> {
    for seed in 0..1_000 {
        let mut both = Both::new(&rt, rt.alloc(), seed)?;
        for _ in 0..60 {
            both.step(&rt)?;
        }
        both.assert_same(&rt, rt.alloc())?;
        let copy = Both {
            store: both.store.copy()?,
            flat: both.flat,
            state: 0,
        };
        copy.assert_same(&rt, rt.alloc())?;
    }
    Ok(())
}
