//! Parts of an object: brackets, and members, which are a name and a value.
use crate::lines::Lines;
use crate::name::is_named;
use hek_rules::{Schedule, Time, TxnId, VersionId};
use std::fmt::{Display, Write};
use std::str;

/// Brackets and names, and values without names.
impl Lines {
    pub fn begin_object(&mut self) {
        let written = self.writer.begin_object();
        self.note(written);
    }

    pub fn end_object(&mut self) {
        let written = self.writer.end_object();
        self.note(written);
    }

    pub fn begin_array(&mut self) {
        let written = self.writer.begin_array();
        self.note(written);
    }

    pub fn end_array(&mut self) {
        let written = self.writer.end_array();
        self.note(written);
    }

    /// The name of a member. Its value comes next.
    pub fn put_key(&mut self, name: &str) {
        let written = self.writer.key(name);
        self.note(written);
    }

    pub fn write_number(&mut self, number: u64) {
        let written = self.writer.u64(number);
        self.note(written);
    }

    pub fn write_text(&mut self, text: &str) {
        let written = self.writer.string(text);
        self.note(written);
    }

    /// The name of a transaction, or its number if the schedule does not declare it.
    fn write_name(&mut self, schedule: &Schedule, txn: TxnId) {
        if !is_named(schedule, txn) {
            return self.write_number(txn.number());
        }
        self.write_text(schedule.name_of(txn));
    }

    /// A pair of a key and a value, as an array.
    fn write_pair(&mut self, pair: (u64, u64)) {
        self.begin_array();
        self.write_number(pair.0);
        self.write_number(pair.1);
        self.end_array();
    }
}

/// Members.
impl Lines {
    pub fn put_text(&mut self, name: &str, text: &str) {
        self.put_key(name);
        self.write_text(text);
    }

    /// A text in UTF-8, or null for bytes that aren't.
    pub fn put_bytes(&mut self, name: &str, bytes: &[u8]) {
        match str::from_utf8(bytes) {
            Ok(text) => self.put_text(name, text),
            Err(_) => self.put_null(name),
        }
    }

    pub fn put_number(&mut self, name: &str, number: u64) {
        self.put_key(name);
        self.write_number(number);
    }

    /// A number that may be below zero.
    pub fn put_negative(&mut self, name: &str, number: i64) {
        self.put_key(name);
        let written = self.writer.i64(number);
        self.note(written);
    }

    pub fn put_flag(&mut self, name: &str, flag: bool) {
        self.put_key(name);
        let written = self.writer.boolean(flag);
        self.note(written);
    }

    pub fn put_null(&mut self, name: &str) {
        self.put_key(name);
        let written = self.writer.null();
        self.note(written);
    }

    /// A number, or null.
    pub fn put_maybe(&mut self, name: &str, number: Option<u64>) {
        match number {
            Some(number) => self.put_number(name, number),
            None => self.put_null(name),
        }
    }

    /// A time, or null for 0: drawn times begin at 1.
    pub fn put_time(&mut self, name: &str, time: Time) {
        match time.number() {
            0 => self.put_null(name),
            ticks => self.put_number(name, ticks),
        }
    }

    /// A value as the text that `{}` prints.
    pub fn put_shown<T: Display>(&mut self, name: &str, value: &T) {
        let mut text = String::new(self.alloc);
        if write!(text, "{value}").is_err() {
            return self.lack_memory();
        }
        self.put_text(name, text.as_str());
    }

    /// The name of a transaction, or its number if the schedule does not declare it.
    pub fn put_name(&mut self, name: &str, schedule: &Schedule, txn: TxnId) {
        self.put_key(name);
        self.write_name(schedule, txn);
    }

    /// The name of a transaction as `put_name` has it, or null.
    pub fn put_maybe_name(&mut self, name: &str, schedule: &Schedule, txn: Option<TxnId>) {
        match txn {
            Some(txn) => self.put_name(name, schedule, txn),
            None => self.put_null(name),
        }
    }

    pub fn put_version(&mut self, version: VersionId) {
        self.put_number("version", version.index());
    }

    /// A number before and after a step.
    pub fn put_both_numbers(&mut self, before: u64, after: u64) {
        self.put_number("before", before);
        self.put_number("after", after);
    }

    /// The names of transactions before and after a step.
    pub fn put_both_names(&mut self, schedule: &Schedule, before: &[TxnId], after: &[TxnId]) {
        self.put_names("before", schedule, before);
        self.put_names("after", schedule, after);
    }

    /// The names of transactions.
    pub fn put_names(&mut self, name: &str, schedule: &Schedule, txns: &[TxnId]) {
        self.put_key(name);
        self.begin_array();
        for txn in txns {
            self.write_name(schedule, *txn);
        }
        self.end_array();
    }

    /// Numbers.
    pub fn put_numbers(&mut self, name: &str, numbers: &[u64]) {
        self.put_key(name);
        self.begin_array();
        for number in numbers {
            self.write_number(*number);
        }
        self.end_array();
    }

    /// Pairs of a key and a value, each an array.
    pub fn put_rows(&mut self, pairs: &[(u64, u64)]) {
        self.put_key("rows");
        self.begin_array();
        for pair in pairs {
            self.write_pair(*pair);
        }
        self.end_array();
    }
}
