//! What refuses a lock, and which transaction or time is met where a walk is refused.
ghost use Rattle.std.specs.Prelude.{◌≡◌, IfOk};
ghost use Rattle.hek_rules.specs.World.{is_made_by, version_in};
ghost use Rattle.hek_rules.specs.Shown.{ender_of};
ghost use Rattle.hek_rules.specs.Locks.{reads_freely, no_read_lock, no_write_lock, write_refusal};
ghost use Rattle.hek_locks.specs.Locked.{is_stale, cleared_word, word_refusal};
ghost use Rattle.hek_txn.specs.TxnTable.{Declared};
ghost use Rattle.hek_machine.specs.Judgements.{IsShown};
ghost use Rattle.hek_why.specs.Stops.{met_at, met_by, met_begin};

use crate::facts::{has_finished, reads, state_of};
use crate::reason::Met;
use hek_machine::Machine;
use hek_rules::{BeginRecord, Cause, EndRecord, NoMemory, Sight, State, TxnId, VersionId};
use hek_word::{BeginWord, EndWord};

/// Whether the writer of a word has aborted.
fn is_stale(machine: &Machine, word: EndWord) -> bool
    ensures { IsShown machine.now (λ w. is_stale w.txns word) result }
{
    match word.writer() {
        None => false,
        Some(u) => matches!(state_of(machine, u), State::Aborted(_)),
    }
}

/// The word without a writer that has aborted.
fn cleared(machine: &Machine, word: EndWord) -> EndWord
    ensures { IsShown machine.now (λ w. cleared_word w.txns word) result }
{
    if word.writer().is_some() && is_stale(machine, word) {
        word.clear_writer()
    } else {
        word
    }
}

/// What keeps a reader out of a version with this End word.
fn read_refusal(machine: &Machine, word: EndWord) -> Option<Cause>
    ensures { IsShown machine.now (λ w. word_refusal w.txns word) result }
{
    match word.content() {
        EndRecord::Until(_) => None,
        EndRecord::Lock { no_more: true, .. } => Some(Cause::NoMoreReads),
        EndRecord::Lock {
            readers,
            writer,
            ..
        } => {
            if readers == 255 {
                return Some(Cause::ReadersFull);
            }
            match writer {
                Some(u) if readers == 0 && has_finished(machine, u) => Some(Cause::NoMoreWaits),
                _ => None,
            }
        }
    }
}

/// What keeps a writer out of a version with this End word.
fn write_refusal(word: EndWord) -> Option<Cause>
    ensures { result ≡ write_refusal (ender_of word) }
{
    if word.can_take_writer() {
        None
    } else {
        Some(Cause::Conflict)
    }
}

/// Whether a transaction made a version.
fn is_own(machine: &Machine, t: TxnId, v: VersionId) -> bool
    ensures { IsShown machine.now (λ w. is_made_by t (version_in w.versions v).creator) result }
{
    match machine.begin_word(v) {
        None => false,
        Some(word) => match word.content() {
            BeginRecord::At(_) => false,
            BeginRecord::By(u) => u.number() == t.number(),
        },
    }
}

/// Whether a transaction needs no read lock of a version: it made it, or read-locks it already.
fn reads_freely(machine: &Machine, t: TxnId, v: VersionId) -> Result<bool, NoMemory>
    requires { Declared machine.now.txns t }
    ensures { IfOk result (IsShown machine.now (λ w. reads_freely w t v)) }
{
    let own = is_own(machine, t, v);
    let locked = reads(machine, t, v)?;
    Ok(own || locked)
}

/// What refuses a transaction a read lock of a version, if something does.
pub(crate) fn no_read_lock(
    machine: &Machine,
    t: TxnId,
    v: VersionId,
) -> Result<Option<Cause>, NoMemory>
    requires { Declared machine.now.txns t }
    ensures { IfOk result (IsShown machine.now (λ w. no_read_lock w t v)) }
{
    if reads_freely(machine, t, v)? {
        return Ok(None);
    }
    match machine.end_word(v) {
        None => Ok(None),
        Some(word) => Ok(read_refusal(machine, cleared(machine, word))),
    }
}

/// What refuses a write lock of a version, if something does.
pub(crate) fn no_write_lock(machine: &Machine, v: VersionId) -> Option<Cause>
    ensures { IsShown machine.now (λ w. no_write_lock w v) result }
{
    match machine.end_word(v) {
        None => Some(Cause::Conflict),
        Some(word) => write_refusal(cleared(machine, word)),
    }
}

/// Which transaction, time or readers a lock is refused for, by the End word.
fn met_by(cause: Cause, word: EndWord) -> Met
    ensures { result ≡ met_by cause word }
{
    if cause == Cause::ReadersFull {
        return Met::Readers(word.readers());
    }
    if let Some(time) = word.time() {
        return Met::EndedAt(time);
    }
    match word.writer() {
        Some(u) => Met::Writer(u),
        None => Met::Readers(word.readers()),
    }
}

/// Which transaction, time or readers a walk meets at the version where it is refused, by what it sees of the version
/// and by the cause. None past the last version.
pub(crate) fn met_at(machine: &Machine, v: VersionId, sight: Sight, cause: Cause) -> Option<Met>
    ensures { IsShown machine.now (met_at v sight cause) result }
{
    let word = machine.end_word(v)?;
    if let Sight::HiddenActive(u) = sight {
        return Some(Met::Creator(u));
    }
    Some(met_by(cause, word))
}

/// The creator that a Begin word names: a transaction or a time.
pub(crate) fn made_by(word: BeginWord) -> Met
    ensures { result ≡ met_begin word }
{
    match word.content() {
        BeginRecord::At(time) => Met::MadeAt(time),
        BeginRecord::By(u) => Met::Creator(u),
    }
}
