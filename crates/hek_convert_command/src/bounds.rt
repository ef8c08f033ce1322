//! What the words of one machine can hold.
ghost use Rattle.std.specs.Prelude.{◌↔◌, Some, IsTrue};
ghost use Rattle.hek_convert_command.specs.Bounds.{IsPast, IsPastClock};

use hek_rules::{Time, TxnId};

/// The size of the machine that words are of; None where it isn't known.
#[derive(Clone, Copy, Debug)]
pub struct Bounds {
    /// The next time that is drawn: each time in a word is below it, or infinity.
    pub clock: Option<u64>,
    /// How many transactions there are: their IDs are 1 to this number.
    pub txns: Option<u64>,
    /// How many transactions read a version at most.
    pub readers: Option<u64>,
}

impl Bounds {
    /// Whether the machine can't have drawn the time.
    pub fn is_past_clock(self, time: Option<Time>) -> bool
        ensures { IsTrue result ↔ IsPastClock self.clock time }
    {
        match (self.clock, time) {
            (Some(clock), Some(time)) => {
                time.number() >= clock && time.number() != Time::INFINITY
            }
            _ => false,
        }
    }

    /// Whether the machine has no transaction with this ID.
    pub fn is_past_txns(self, txn: Option<TxnId>) -> bool
        ensures { IsTrue result ↔ IsPast self.txns txn }
    {
        match (self.txns, txn) {
            (Some(txns), Some(txn)) => txn.number() > txns,
            _ => false,
        }
    }

    /// Whether the machine has fewer readers.
    pub fn is_past_readers(self, readers: u8) -> bool
        ensures { IsTrue result ↔ IsPast self.readers (Some readers) }
    {
        match self.readers {
            Some(most) => u64::from(readers) > most,
            None => false,
        }
    }
}
