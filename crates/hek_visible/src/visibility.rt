//! Visibility over the two words of a version (section 2 of the paper: version visibility).
ghost use Rattle.std.specs.Prelude.{◌≡◌, ◌<◌, length};
ghost use Rattle.hek_rules.specs.Words.{infinity};
ghost use Rattle.hek_rules.specs.World.{txn_in};
ghost use Rattle.hek_rules.specs.Shown.{ender_of};
ghost use Rattle.hek_rules.specs.Visibility.{under_writer, from_creator, end_sight, own_sight};
ghost use Rattle.hek_rules.specs.declared.event.State.TheVariants.{Active};
ghost use Rattle.hek_store.specs.Stored.{version_at};
ghost use Rattle.hek_txn.specs.TxnTable.{Declared};
ghost use Rattle.hek_visible.specs.Seen.{version_seen, NamesCreator, NamesWriter};

use hek_rules::{BeginRecord, EndRecord, Sight, State, Time, TxnId, VersionId};
use hek_store::Store;
use hek_txn::Txns;
use hek_word::EndWord;

/// What a reader sees at its read time of a version that another transaction writes over, by the writer's end time and
/// state (section 2 of the paper: version visibility). No word names a writer that has not begun or is Terminated.
pub fn under_writer(read_time: Time, writer: TxnId, end: Time, state: State) -> Sight
    ensures { result ≡ under_writer read_time writer end state }
{
    match state {
        State::Active | State::Aborted(_) => Sight::Seen,
        State::Preparing if read_time < end => Sight::Seen,
        State::Preparing => Sight::HiddenIf(writer),
        State::Committed if read_time < end => Sight::Seen,
        State::Committed | State::NotBegun | State::Terminated => Sight::Hidden,
    }
}

/// What a reader sees at its read time of a version that another transaction made, by the creator's end time and state,
/// and by the sight that the End word gives (section 2 of the paper: version visibility). No word names a creator that
/// has not begun or is Terminated.
pub fn from_creator(
    read_time: Time,
    creator: TxnId,
    end: Time,
    state: State,
    by_end: Sight,
) -> Sight
    ensures { result ≡ from_creator read_time creator end state by_end }
{
    match state {
        State::Active => Sight::HiddenActive(creator),
        State::Preparing if read_time < end => Sight::Hidden,
        State::Preparing if by_end == Sight::Seen => Sight::SeenIf(creator),
        State::Preparing => by_end,
        State::Committed if read_time < end => Sight::Hidden,
        State::Committed => by_end,
        State::Aborted(_) | State::NotBegun | State::Terminated => Sight::Hidden,
    }
}

fn by_end(txns: &Txns, reader: TxnId, read_time: Time, word: EndWord) -> Sight
    requires names { NamesWriter txns.now word }
    requires time { read_time < infinity }
    ensures { result ≡ end_sight txns.now.cores reader read_time (ender_of word) }
{
    match word.content() {
        EndRecord::Until(time) => {
            if read_time < time {
                Sight::Seen
            } else {
                Sight::Hidden
            }
        }
        EndRecord::Lock { writer, .. } => match writer {
            None => Sight::Seen,
            Some(u) => {
                if u == reader {
                    Sight::Hidden
                } else {
                    under_writer(read_time, u, txns.end_time(u), txns.state(u))
                }
            }
        },
    }
}

fn of_own(word: EndWord) -> Sight
    ensures { result ≡ own_sight (ender_of word) }
{
    if word == EndWord::infinity() || (word.time().is_none() && word.writer().is_none()) {
        Sight::Seen
    } else {
        Sight::Hidden
    }
}

/// What an Active reader sees of a version at a read time below infinity. The words of the version must not name a
/// transaction that has not begun or is Terminated.
pub fn see(store: &Store, txns: &Txns, reader: TxnId, read_time: Time, v: VersionId) -> Sight
    requires version { v < length store.now.versions }
    requires reader { Declared txns.now reader }
    requires active { (txn_in txns.now.cores reader).state ≡ Active }
    requires time { read_time < infinity }
    requires creator { NamesCreator txns.now (version_at store.now v).begin }
    requires writer { NamesWriter txns.now (version_at store.now v).end }
    ensures { result ≡ version_seen store.now txns.now reader read_time v }
{
    let word = store.end_of(v);
    match store.begin_of(v).content() {
        BeginRecord::At(time) => {
            if read_time.number() < time.number() {
                Sight::Hidden
            } else {
                by_end(txns, reader, read_time, word)
            }
        }
        BeginRecord::By(u) => {
            if u.number() == reader.number() {
                of_own(word)
            } else {
                let seen = by_end(txns, reader, read_time, word);
                from_creator(read_time, u, txns.end_time(u), txns.state(u), seen)
            }
        }
    }
}
