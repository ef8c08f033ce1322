//! What the lines of a schedule text up to here have said.
use crate::words::Word;
use hek_rules::{NoMemory, Schedule, TxnId};
use std::alloc::Global;
use std::collections::HashMap;

/// A row: the line that loads it, and its key as that line writes it.
#[derive(Clone, Copy)]
pub(crate) struct Row<'t> {
    pub(crate) line: u64,
    pub(crate) key: &'t [u8],
}

/// What is known of a schedule after some lines of its text. The number of a line is 0 where there is no such line.
#[derive(Drop)]
pub(crate) struct Known<'t> {
    pub(crate) alloc: Global,
    /// The line with words that comes first.
    pub(crate) head: u64,
    /// How many buckets there are, or 0 where that isn't known.
    pub(crate) buckets: u64,
    pub(crate) first_txn: u64,
    pub(crate) first_step: u64,
    pub(crate) rows: u64,
    pub(crate) txns: u64,
    pub(crate) steps: u64,
    /// Whether later lines can't be judged.
    pub(crate) is_over: bool,
    /// A name that a line declares whose first word is mistyped, and that line.
    pub(crate) pending: Option<(&'t [u8], u64)>,
    names: HashMap<&'t [u8], u64>,
    pub(crate) list: Vec<&'t [u8]>,
    keys: HashMap<u64, Row<'t>>,
}

impl<'t> Known<'t> {
    /// What is known before the first line.
    pub(crate) fn new(alloc: Global) -> Known<'t> {
        Known {
            alloc,
            head: 0,
            buckets: 0,
            first_txn: 0,
            first_step: 0,
            rows: 0,
            txns: 0,
            steps: 0,
            is_over: false,
            pending: None,
            names: HashMap::new(alloc),
            list: Vec::new(alloc),
            keys: HashMap::new(alloc),
        }
    }

    /// What a schedule says, as if its first line had said it and its first step.
    pub(crate) fn of(alloc: Global, schedule: &'t Schedule) -> Result<Known<'t>, NoMemory> {
        let mut known = Known::new(alloc);
        known.head = 1;
        known.first_step = 1;
        known.buckets = schedule.buckets();
        for place in 0..schedule.txn_count() {
            let name = schedule.name_of(TxnId::new(place as u64 + 1));
            known.declare(name.as_bytes(), 1)?;
        }
        Ok(known)
    }

    /// The line that declares a name, if a line does.
    pub(crate) fn line_of_name(&self, name: &'t [u8]) -> Option<u64> {
        self.names.get(&name).copied()
    }

    /// Whether a transaction has this name.
    pub(crate) fn has_name(&self, name: &'t [u8]) -> bool {
        self.line_of_name(name).is_some()
    }

    /// Whether the word is a name but for its capitals.
    pub(crate) fn has_capitals_of_name(&self, word: Word<'t>) -> bool {
        if !word.text.iter().any(|byte| byte.is_ascii_uppercase()) {
            return false;
        }
        for name in &self.list {
            if word.text.eq_ignore_ascii_case(name) {
                return true;
            }
        }
        false
    }

    /// Notes that a line declares a name.
    pub(crate) fn declare(&mut self, name: &'t [u8], line: u64) -> Result<(), NoMemory> {
        if self.has_name(name) {
            return Ok(());
        }
        self.list.push(name)?;
        self.names.insert(name, line)?;
        Ok(())
    }

    /// The row with a key, if a line loads one.
    pub(crate) fn row_of_key(&self, key: u64) -> Option<Row<'t>> {
        self.keys.get(&key).copied()
    }

    /// Notes that a line loads a key.
    pub(crate) fn load(&mut self, key: u64, row: Row<'t>) -> Result<(), NoMemory> {
        self.keys.insert(key, row)?;
        Ok(())
    }
}
