//! The parts of serial order that programs use: writes, and verdicts.

/// A change of one key: it gets a value, or is removed.
#[derive(Clone, Copy, Debug, PartialEq, Eq)]
pub enum Write {
    Put(u64, u64),
    Remove(u64),
}

/// A verdict on a transcript: serial, or the least number, from 1, of an event at fault.
#[derive(Clone, Copy, Debug, PartialEq, Eq)]
pub enum Verdict {
    Serial,
    NotSerial(u64),
}
