//! Visibility, by the words that a machine shows (section 2 of the paper: version visibility).
ghost use Rattle.std.specs.Prelude.{◌≡◌};
ghost use Rattle.hek_rules.specs.Shown.{ender_of};
ghost use Rattle.hek_rules.specs.Visibility.{sight, sight_by, end_sight, own_sight};
ghost use Rattle.hek_rules.specs.Walk.{read_time as read_time_in};
ghost use Rattle.hek_txn.specs.TxnTable.{Declared};
ghost use Rattle.hek_machine.specs.Judgements.{IsShown};

use crate::facts::{end_of, read_time, state_of};
use hek_machine::Machine;
use hek_rules::{BeginRecord, EndRecord, Sight, Time, TxnId, VersionId};
use hek_visible::{from_creator, under_writer};
use hek_word::{BeginWord, EndWord};

/// What a reader sees of a version by its End word alone.
fn by_end(machine: &Machine, reader: TxnId, read_time: Time, word: EndWord) -> Sight
    ensures { IsShown machine.now (λ w. end_sight w.txns reader read_time (ender_of word)) result }
{
    match word.content() {
        EndRecord::Until(time) => {
            if time.number() == Time::INFINITY || read_time.number() < time.number() {
                Sight::Seen
            } else {
                Sight::Hidden
            }
        }
        EndRecord::Lock { writer, .. } => match writer {
            None => Sight::Seen,
            Some(u) => {
                if u.number() == reader.number() {
                    Sight::Hidden
                } else {
                    under_writer(read_time, u, end_of(machine, u), state_of(machine, u))
                }
            }
        },
    }
}

/// What a reader sees of a version that it made, by the End word.
fn of_own(word: EndWord) -> Sight
    ensures { result ≡ own_sight (ender_of word) }
{
    if word == EndWord::infinity() || (word.time().is_none() && word.writer().is_none()) {
        Sight::Seen
    } else {
        Sight::Hidden
    }
}

/// What a reader sees of a version by its Begin word, and then by its End word.
fn by_words(
    machine: &Machine,
    reader: TxnId,
    read_time: Time,
    begin: BeginWord,
    end: EndWord,
) -> Sight
    ensures { IsShown machine.now (λ w. sight_by w.txns reader read_time begin (ender_of end)) result }
{
    match begin.content() {
        BeginRecord::At(time) => {
            if read_time.number() < time.number() {
                Sight::Hidden
            } else {
                by_end(machine, reader, read_time, end)
            }
        }
        BeginRecord::By(u) => {
            if u.number() == reader.number() {
                of_own(end)
            } else {
                let seen = by_end(machine, reader, read_time, end);
                from_creator(read_time, u, end_of(machine, u), state_of(machine, u), seen)
            }
        }
    }
}

/// What a transaction sees of a version at its read time; nothing past the last version.
pub(crate) fn see(machine: &Machine, t: TxnId, v: VersionId) -> Sight
    requires { Declared machine.now.txns t }
    ensures { IsShown machine.now (λ w. sight w t (read_time_in w t) v) result }
{
    match (machine.begin_word(v), machine.end_word(v)) {
        (Some(begin), Some(end)) => by_words(machine, t, read_time(machine, t), begin, end),
        _ => Sight::Hidden,
    }
}
