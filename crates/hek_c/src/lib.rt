//! The two words of a version for engines in C: functions over numbers of 64 bits, each of which is one call of
//! hek_word or hek_changes. A caller may pass any number: a function reports a number that is no word, and a change that
//! its lock doesn't allow. The header is include/hek.h; include/hek.rs has the same functions for Rust.
#![tactic(auto)]

mod begin;
mod book;
mod changes;
mod end;
mod locks;
mod release;

/// The answer if a word has no time.
const NO_TIME: u64 = u64::MAX;
