//! Begin words.
ghost use Rattle.std.specs.Prelude.{◌≡◌, ◌↔◌, Some};
ghost use Rattle.hek_rules.specs.Words.{IsBegin, IsTime, IsTxn, infinity, begin_number, begin_time, begin_txn};
ghost use Rattle.hek_rules.specs.declared.word.BeginRecord.{BeginRecord};
ghost use Rattle.hek_rules.specs.declared.word.BeginRecord.TheVariants.{At, By};

use crate::{NAMED, NO_WRITER, TIMES};
use hek_rules::{BeginRecord, Time, TxnId};
use std::marker::Model;

/// A Begin word, 8 bytes in memory: the time from which its version is valid, or the transaction that made it.
#[tactic(auto, using(crate::specs::WordLemmas::begin_number_record))]
#[derive(Clone, Copy, Debug, PartialEq, Eq)]
pub struct BeginWord {
    number: u64,
}

impl Model for BeginWord {
    ghost use Rattle.std.specs.Prelude.{◌≡◌};
    ghost use Rattle.std.proofs.Common.{ap};
    ghost use Rattle.hek_rules.specs.declared.word.BeginRecord.{BeginRecord};

    ghost Value = { BeginRecord };

    ghost use Rattle.hek_rules.specs.Words.{IsBegin, begin_number};
    ghost use Rattle.hek_word.specs.Decoded.{begin_record};
    ghost use Rattle.hek_word.specs.WordLemmas.{begin_number_record};

    ghost view = { λ a. begin_record a.number };

    ghost invariant = { λ a. IsBegin (begin_record a.number) };

    ghost inverse = { λ r. record { number = begin_number r } };

    ghost inverse_ok = { λ a h. ap (λ n. record { number = n }) (begin_number_record a.number) };
}

impl BeginWord {
    /// The word with this number, or None if the number is not canonical.
    #[tactic(auto, using(crate::specs::WordLemmas::begin_number_record, crate::specs::WordLemmas::begin_record_number), unfolding(crate::specs::Decoded::begin_record))]
    pub fn read(number: u64) -> Option<BeginWord>
        ensures { (w : BeginRecord) → (result ≡ Some w) ↔ (IsBegin w × (begin_number w ≡ number)) }
    {
        if number < TIMES || (number > NAMED && number - NAMED < NO_WRITER) {
            Some(BeginWord { number })
        } else {
            None
        }
    }

    /// The number of the word.
    #[tactic(auto, using(crate::specs::WordLemmas::begin_number_record))]
    pub fn bits(self) -> u64
        ensures { result ≡ begin_number self }
    {
        self.number
    }

    /// The word of a time, 0 to 2^63 - 1.
    #[tactic(auto, unfolding(crate::specs::Decoded::begin_record))]
    pub fn at(time: Time) -> BeginWord
        requires { IsTime time }
        ensures { result ≡ At time }
    {
        BeginWord {
            number: time.number(),
        }
    }

    /// The Begin word of a version that never begins, since its creator aborted.
    #[tactic(auto, unfolding(crate::specs::Decoded::begin_record))]
    pub fn infinity() -> BeginWord
        ensures { result ≡ At infinity }
    {
        BeginWord {
            number: Time::INFINITY,
        }
    }

    /// The Begin word of a version that this transaction, 1 to 2^54 - 2, has made and not stamped.
    #[tactic(auto, unfolding(crate::specs::Decoded::begin_record))]
    pub fn by(txn: TxnId) -> BeginWord
        requires { IsTxn txn }
        ensures { result ≡ By txn }
    {
        BeginWord {
            number: NAMED + txn.number(),
        }
    }

    /// The record of the word: a time or a transaction.
    #[tactic(auto, unfolding(crate::specs::Decoded::begin_record))]
    pub fn content(self) -> BeginRecord
        ensures value { result ≡ self }
        ensures canonical { IsBegin result }
    {
        let BeginWord { number } = self;
        if number < NAMED {
            BeginRecord::At(Time::new(number))
        } else {
            BeginRecord::By(TxnId::new(number - NAMED))
        }
    }

    /// The time that the word holds, if it holds one.
    pub fn time(self) -> Option<Time>
        ensures { result ≡ begin_time self }
    {
        match self.content() {
            BeginRecord::At(time) => Some(time),
            BeginRecord::By(_) => None,
        }
    }

    /// The transaction that the word names, if it names one.
    pub fn txn(self) -> Option<TxnId>
        ensures { result ≡ begin_txn self }
    {
        match self.content() {
            BeginRecord::At(_) => None,
            BeginRecord::By(txn) => Some(txn),
        }
    }
}
