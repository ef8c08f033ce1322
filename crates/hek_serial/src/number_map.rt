//! Maps from numbers to numbers.
ghost use Rattle.std.specs.Prelude.{◌≡◌, ◌↔◌, [], ℕ, IsTrue, OnOk, OnErr, IfOk};
ghost use Rattle.hek_rules.specs.Listing.{put as put_in, take_out as taken_out, value_of as value_in};
ghost use Rattle.hek_rules.specs.Serial.{lay as laid};
ghost use Rattle.hek_laws.specs.Rows.{AreRising};

use hek_rules::{NoMemory, Write};
use std::alloc::Global;
use std::collections::BTreeMap;
use std::marker::Model;

/// Keys with their values, in rising order of keys.
#[derive(Drop)]
pub(crate) struct NumberMap {
    map: BTreeMap<u64, u64>,
}

impl Model for NumberMap {
    ghost use Rattle.std.specs.Prelude.{ℕ, List};
    ghost use Rattle.hek_laws.specs.Rows.{AreRising};

    ghost Value = { List (ℕ × ℕ) };

    ghost view = { λ t. t.map.entries };

    ghost invariant = { λ t. AreRising t.map.entries };
}

impl NumberMap {
    pub(crate) fn new(alloc: Global) -> NumberMap
        ensures { result ≡ [] }
    {
        NumberMap {
            map: BTreeMap::new(alloc),
        }
    }

    /// Gives the key this value. Answers the value that it had.
    pub(crate) fn put(&mut self, key: u64, value: u64) -> Result<Option<u64>, NoMemory>
        ensures value { IfOk result (λ before. before ≡ value_in self.old key) }
        ensures ok { OnOk result (self.new ≡ put_in key value self.old) }
        ensures err { OnErr result (self.new ≡ self.old) }
    {
        let before = self.map.insert(key, value)?;
        Ok(before)
    }

    /// Takes the value of the key away. Answers that value.
    pub(crate) fn take_out(&mut self, key: u64) -> Option<u64>
        ensures value { result ≡ value_in self.old key }
        ensures rest { self.new ≡ taken_out key self.old }
    {
        self.map.remove(&key)
    }

    /// Makes a change: gives a key a value, or takes its value away.
    pub(crate) fn lay(&mut self, write: Write) -> Result<(), NoMemory>
        ensures ok { OnOk result (self.new ≡ laid write self.old) }
        ensures err { OnErr result (self.new ≡ self.old) }
    {
        match write {
            Write::Put(key, value) => {
                let _before = self.put(key, value)?;
                Ok(())
            }
            Write::Remove(key) => {
                let _value = self.take_out(key);
                Ok(())
            }
        }
    }

    pub(crate) fn value_of(&self, key: u64) -> Option<u64>
        ensures { result ≡ value_in self.now key }
    {
        self.map.get(&key).copied()
    }

    /// Whether these are all keys with their values, in rising order of keys.
    pub(crate) fn is(&self, pairs: &[(u64, u64)]) -> bool
        ensures { IsTrue result ↔ (pairs.now ≡ self.now) }
    {
        let mut seen = 0;
        for (key, value) in &self.map {
            if seen == pairs.len() || pairs[seen] != (*key, *value) {
                return false;
            }
            seen += 1;
        }
        seen == pairs.len()
    }

    /// All keys with their values, in rising order of keys.
    pub(crate) fn pairs(&self, alloc: Global) -> Result<Vec<(u64, u64)>, NoMemory>
        ensures { IfOk result (λ pairs. pairs.items ≡ self.now) }
    {
        let mut pairs = Vec::new(alloc);
        for (key, value) in &self.map {
            pairs.push((*key, *value))?;
        }
        Ok(pairs)
    }
}
