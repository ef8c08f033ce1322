//! End words.
ghost use Rattle.std.specs.Prelude.{◌≡◌, ◌<◌, ◌↔◌, Some, IsTrue, IsSome};
ghost use Rattle.hek_rules.specs.Words.{IsEnd, IsTime, IsTxn, infinity, end_number, end_time, readers_of, writer_of, no_more_of, CanAdd, CanTakeWriter, with_reader, without_reader, dropped_of, with_writer, without_writer};
ghost use Rattle.hek_rules.specs.declared.word.EndRecord.{EndRecord};
ghost use Rattle.hek_rules.specs.declared.word.EndRecord.TheVariants.{Until};
ghost use Rattle.hek_word.specs.Decoded.{end_record};

use crate::{NAMED, NO_MORE, NO_WRITER, READER, TIMES};
use hek_rules::{Dropped, EndRecord, Time, TxnId};
use std::marker::Model;

/// An End word, 8 bytes in memory: the time until which its version is valid, or a record lock.
#[tactic(auto, using(crate::specs::WordLemmas::end_number_record))]
#[derive(Clone, Copy, Debug, PartialEq, Eq)]
pub struct EndWord {
    number: u64,
}

impl Model for EndWord {
    ghost use Rattle.std.specs.Prelude.{◌≡◌};
    ghost use Rattle.std.proofs.Common.{ap};
    ghost use Rattle.hek_rules.specs.declared.word.EndRecord.{EndRecord};

    ghost Value = { EndRecord };

    ghost use Rattle.hek_rules.specs.Words.{IsEnd, end_number};
    ghost use Rattle.hek_word.specs.Decoded.{end_record};
    ghost use Rattle.hek_word.specs.WordLemmas.{end_number_record};

    ghost view = { λ a. end_record a.number };

    ghost invariant = { λ a. IsEnd (end_record a.number) };

    ghost inverse = { λ r. record { number = end_number r } };

    ghost inverse_ok = { λ a h. ap (λ n. record { number = n }) (end_number_record a.number) };
}

/// The record that a number encodes as an End word, canonical or not.
#[tactic(auto, unfolding(crate::specs::Decoded::end_record))]
pub fn decode_end(number: u64) -> EndRecord
    ensures { result ≡ end_record number }
{
    if number < TIMES {
        return EndRecord::Until(Time::new(number));
    }
    let lock = number - NAMED;
    let no_more = lock >= NO_MORE;
    let held = if no_more { lock - NO_MORE } else { lock };
    let writer = held % READER;
    let writer = if writer == NO_WRITER {
        None
    } else {
        Some(TxnId::new(writer))
    };
    EndRecord::Lock {
        readers: (held / READER) as u8,
        writer,
        no_more,
    }
}

fn encode(content: EndRecord) -> u64
    requires { IsEnd content }
    ensures { result ≡ end_number content }
{
    match content {
        EndRecord::Until(time) => time.number(),
        EndRecord::Lock {
            readers,
            writer,
            no_more,
        } => {
            let flag = if no_more { NO_MORE } else { 0 };
            let writer = match writer {
                None => NO_WRITER,
                Some(txn) => txn.number(),
            };
            NAMED + flag + READER * u64::from(readers) + writer
        }
    }
}

fn is_canonical(content: EndRecord) -> bool
    ensures { IsTrue result ↔ IsEnd content }
{
    match content {
        EndRecord::Until(time) => time.number() < TIMES,
        EndRecord::Lock {
            readers,
            writer,
            no_more,
        } => match writer {
            None => readers > 0 && !no_more,
            Some(txn) => {
                txn.number() > 0 && txn.number() < NO_WRITER && (!no_more || readers == 0)
            }
        },
    }
}

impl EndWord {
    /// The word with this number, or None if the number is not canonical.
    #[tactic(auto, using(crate::specs::WordLemmas::end_number_record, crate::specs::WordLemmas::end_record_number))]
    pub fn read(number: u64) -> Option<EndWord>
        ensures { (w : EndRecord) → (result ≡ Some w) ↔ (IsEnd w × (end_number w ≡ number)) }
    {
        if is_canonical(decode_end(number)) {
            Some(EndWord { number })
        } else {
            None
        }
    }

    /// The word with this number, which must be canonical. This costs nothing, while [`EndWord::read`] checks each
    /// field.
    #[tactic(auto, using(crate::specs::WordLemmas::end_number_record, crate::specs::WordLemmas::end_record_number))]
    pub fn from_bits(number: u64) -> EndWord
        requires { (w : EndRecord) × IsEnd w × (end_number w ≡ number) }
        ensures { IsEnd result × (end_number result ≡ number) }
    {
        EndWord { number }
    }

    /// The number of the word.
    #[tactic(auto, using(crate::specs::WordLemmas::end_number_record))]
    pub fn bits(self) -> u64
        ensures { result ≡ end_number self }
    {
        self.number
    }

    /// The record of the word: a time or a lock.
    pub fn content(self) -> EndRecord
        ensures value { result ≡ self }
        ensures canonical { IsEnd result }
    {
        let EndWord { number } = self;
        decode_end(number)
    }

    /// The word with this record.
    #[tactic(auto, using(crate::specs::WordLemmas::end_record_number))]
    pub(crate) fn from_content(content: EndRecord) -> EndWord
        requires { IsEnd content }
        ensures { result ≡ content }
    {
        EndWord {
            number: encode(content),
        }
    }

    /// The End word of the latest version while nobody holds it.
    #[tactic(auto, unfolding(crate::specs::Decoded::end_record))]
    pub fn infinity() -> EndWord
        ensures { result ≡ Until infinity }
    {
        EndWord {
            number: Time::INFINITY,
        }
    }

    /// The End word of a version that is valid until this time, 0 to 2^63 - 1.
    pub fn stamped(time: Time) -> EndWord
        requires { IsTime time }
        ensures { result ≡ Until time }
    {
        EndWord::from_content(EndRecord::Until(time))
    }

    /// The time that the word holds, if it is not a lock.
    pub fn time(self) -> Option<Time>
        ensures { result ≡ end_time self }
    {
        match self.content() {
            EndRecord::Until(time) => Some(time),
            EndRecord::Lock { .. } => None,
        }
    }

    /// ReadLockCount, 0 to 255; 0 if the word is a time.
    pub fn readers(self) -> u8
        ensures { result ≡ readers_of self }
    {
        match self.content() {
            EndRecord::Until(_) => 0,
            EndRecord::Lock { readers, .. } => readers,
        }
    }

    /// WriteLock: the writer, if there is one.
    pub fn writer(self) -> Option<TxnId>
        ensures { result ≡ writer_of self }
    {
        match self.content() {
            EndRecord::Until(_) => None,
            EndRecord::Lock { writer, .. } => writer,
        }
    }

    /// NoMoreReadLocks; clear if the word is a time.
    pub fn no_more(self) -> bool
        ensures { result ≡ no_more_of self }
    {
        match self.content() {
            EndRecord::Until(_) => false,
            EndRecord::Lock { no_more, .. } => no_more,
        }
    }

    /// Whether a reader may be added: the word is infinity, or a lock with NoMoreReadLocks clear and fewer than 255
    /// readers.
    pub fn can_add(self) -> bool
        ensures { IsTrue result ↔ CanAdd self }
    {
        match self.content() {
            EndRecord::Until(time) => time.number() == Time::INFINITY,
            EndRecord::Lock {
                readers,
                no_more,
                ..
            } => readers < 255 && !no_more,
        }
    }

    /// The word with another reader.
    pub fn add_reader(self) -> EndWord
        requires { CanAdd self }
        ensures { result ≡ with_reader self }
    {
        EndWord::from_content(match self.content() {
            EndRecord::Until(_) => EndRecord::Lock {
                readers: 1,
                writer: None,
                no_more: false,
            },
            EndRecord::Lock {
                readers,
                writer,
                no_more,
            } => EndRecord::Lock {
                readers: readers + 1,
                writer,
                no_more,
            },
        })
    }

    /// The word with one reader less, and what that reader leaves.
    pub fn drop_reader(self) -> (EndWord, Dropped)
        requires { 0 < readers_of self }
        ensures word { result.0 ≡ without_reader self }
        ensures dropped { result.1 ≡ dropped_of self }
    {
        match self.content() {
            EndRecord::Until(_) => unreachable!(),
            EndRecord::Lock {
                readers: 1,
                writer: None,
                ..
            } => (EndWord::infinity(), Dropped::Free),
            EndRecord::Lock {
                readers: 1,
                writer: Some(txn),
                ..
            } => {
                let alone = EndRecord::Lock {
                    readers: 0,
                    writer: Some(txn),
                    no_more: true,
                };
                (EndWord::from_content(alone), Dropped::Last(txn))
            }
            EndRecord::Lock {
                readers,
                writer,
                no_more,
            } => {
                let fewer = EndRecord::Lock {
                    readers: readers - 1,
                    writer,
                    no_more,
                };
                (EndWord::from_content(fewer), Dropped::More)
            }
        }
    }

    /// Whether a writer may take the word: it is infinity, or a lock without writer.
    pub fn can_take_writer(self) -> bool
        ensures { IsTrue result ↔ CanTakeWriter self }
    {
        match self.content() {
            EndRecord::Until(time) => time.number() == Time::INFINITY,
            EndRecord::Lock { writer, .. } => writer.is_none(),
        }
    }

    /// The word with this transaction, 1 to 2^54 - 2, as its writer.
    pub fn take_writer(self, txn: TxnId) -> EndWord
        requires free { CanTakeWriter self }
        requires named { IsTxn txn }
        ensures { result ≡ with_writer self txn }
    {
        let (readers, no_more) = match self.content() {
            EndRecord::Until(_) => (0, false),
            EndRecord::Lock {
                readers,
                no_more,
                ..
            } => (readers, no_more),
        };
        EndWord::from_content(EndRecord::Lock {
            readers,
            writer: Some(txn),
            no_more,
        })
    }

    /// The word without its writer and NoMoreReadLocks; infinity if it has no reader.
    pub fn clear_writer(self) -> EndWord
        requires { IsSome (writer_of self) }
        ensures { result ≡ without_writer self }
    {
        match self.content() {
            EndRecord::Until(_) => unreachable!(),
            EndRecord::Lock { readers: 0, .. } => EndWord::infinity(),
            EndRecord::Lock {
                readers,
                no_more,
                ..
            } => {
                EndWord::from_content(EndRecord::Lock {
                    readers,
                    writer: None,
                    no_more,
                })
            }
        }
    }
}
