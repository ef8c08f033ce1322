//! The lock calls (section 4 of the paper: record locks). Each makes one load and at most one exchange. Only `new`
//! takes memory, and no call waits. A call need not succeed in the end: a caller tries again.
ghost use Rattle.std.specs.Prelude.{◌≡◌, ◌≢◌, ◌<◌, ◌≤◌, IfOk, IfErr, IsSome, true, false};
ghost use Rattle.hek_rules.specs.Words.{end_number, IsTxn, readers_of, writer_of, without_reader, dropped_of};
ghost use Rattle.hek_live.specs.Tokens.{newcomer, maker, split_from, HoldsNone, meets, changed, reads_at, writes_at, MayChange};
ghost use Rattle.hek_live.specs.Rule.{IsLive, Row};
ghost use Rattle.hek_live.specs.Told.{FoundWord, Read, Dropped, Wrote, Cleared};
ghost use Rattle.hek_live.specs.Ends.{word_count_of, table_id_of, seat_table, view_of};

use crate::ends::{LiveWords, Seat};
use crate::replies::{DropRead, DropWrite, TryRead, TryWrite};
use crate::rule::{Look, Newcomer, Swap};
use atomic_table::Table;
use hek_rules::{LockChange, NoMemory, TxnId};
use hek_word::EndWord;
use std::alloc::Global;

/// The most readers of a word: ReadLockCount has 8 bits.
const MOST_READERS: u8 = 255;

// `drop_reader`, but quicker if the reader is the only one, as on most words.
fn one_reader_less(x: EndWord) -> (EndWord, hek_rules::Dropped)
    requires { 0 < readers_of x }
    ensures word { result.0 ≡ without_reader x }
    ensures dropped { result.1 ≡ dropped_of x }
{
    if x == EndWord::infinity().add_reader() {
        (EndWord::infinity(), hek_rules::Dropped::Free)
    } else {
        x.drop_reader()
    }
}

impl LiveWords {
    /// Makes `n` words of infinity, 1 to 1,024, and the seat that makes the others. NoMemory if there is no room for
    /// the words.
    pub fn new(alloc: Global, n: usize) -> Result<(LiveWords, Seat), NoMemory>
        requires { (1 ≤ n) × (n ≤ 1024) }
        ensures { IfOk result (λ r. (word_count_of r.0 ≡ n) × (table_id_of r.0 ≡ seat_table r.1) × (view_of r.1 ≡ maker)) }
    {
        let words = Vec::from_elem(alloc, EndWord::infinity().bits(), n)?;
        let (table, seat) = Table::of_words(alloc, words.as_slice(), &n)?;
        Ok((LiveWords { table }, Seat { seat }))
    }

    /// Makes a new seat, which holds nothing. Only the seat that `new` gave makes others.
    pub fn split(&self, seat: &mut Seat) -> Seat
        requires own { seat_table seat.old ≡ table_id_of self.now }
        requires makes { (view_of seat.old).makes ≡ true }
        ensures kept { (seat_table seat.new ≡ seat_table seat.old) × (view_of seat.new ≡ split_from (view_of seat.old)) }
        ensures new { (seat_table result ≡ seat_table seat.old) × (view_of result ≡ newcomer) }
    {
        let other = self.table.shared.split_seat::<Newcomer>(&mut seat.seat);
        Seat { seat: other }
    }

    /// Ends the seat `other`, which holds nothing and isn't the one that `new` gave. `seat` stays as it is.
    pub fn join(&self, seat: &mut Seat, other: Seat)
        requires own { (seat_table seat.old ≡ table_id_of self.now) × (seat_table other ≡ table_id_of self.now) }
        requires none_held { HoldsNone (view_of other) }
        ensures { (seat_table seat.new ≡ seat_table seat.old) × (view_of seat.new ≡ view_of seat.old) }
    {
        let Seat { seat: other } = other;
        self.table
            .shared
            .join_seat::<Newcomer>(&mut seat.seat, other);
    }

    /// The word as one load finds it. A seat with the word's read token finds a reader there, one with its write token
    /// a writer.
    pub fn look(&self, seat: &mut Seat, word: usize) -> EndWord
        requires own { seat_table seat.old ≡ table_id_of self.now }
        requires word { word < word_count_of self.now }
        ensures own { seat_table seat.new ≡ seat_table seat.old }
        ensures found { FoundWord word (view_of seat.old) result }
        ensures met { view_of seat.new ≡ meets word (end_number result) (end_number result) (view_of seat.old) }
        ensures reader { reads_at word (view_of seat.old) ≡ true → 0 < readers_of result }
        ensures writer { writes_at word (view_of seat.old) ≡ true → IsSome (writer_of result) }
    {
        let number = self.table.shared.load::<Look>(&mut seat.seat, word);
        EndWord::from_bits(number)
    }

    // Makes one exchange. `Err` is the word that it found in place of `old`.
    fn exchange(
        &self,
        seat: &mut Seat,
        word: usize,
        old: EndWord,
        new: EndWord,
        change: LockChange,
    ) -> Result<(), EndWord>
        requires own { seat_table seat.old ≡ table_id_of self.now }
        requires word { word < word_count_of self.now }
        requires row { IsLive old × Row change old new }
        requires token { MayChange change word (view_of seat.old) }
        ensures own { seat_table seat.new ≡ seat_table seat.old }
        ensures ok { IfOk result (λ _. Row change old new × FoundWord word (view_of seat.old) old × (view_of seat.new ≡ changed change word (meets word (end_number old) (end_number new) (view_of seat.old)))) }
        ensures err { IfErr result (λ y. (y ≢ old) × FoundWord word (view_of seat.old) y × (view_of seat.new ≡ meets word (end_number y) (end_number y) (view_of seat.old))) }
    {
        let expected = old.bits();
        let found = self
            .table
            .shared
            .compare_exchange_with::<Swap>(&mut seat.seat, word, expected, new.bits(), &change);
        if found == expected {
            return Ok(());
        }
        Err(EndWord::from_bits(found))
    }

    /// Tries once to take the read token of the word: to add a reader. NoMore if NoMoreReadLocks is set; Full if there
    /// are 255 readers; Changed if the exchange found another word than the load.
    pub fn try_read(&self, seat: &mut Seat, word: usize) -> TryRead
        requires own { seat_table seat.old ≡ table_id_of self.now }
        requires word { word < word_count_of self.now }
        requires free { reads_at word (view_of seat.old) ≡ false }
        ensures own { seat_table seat.new ≡ seat_table seat.old }
        ensures told { (x : _) × FoundWord word (view_of seat.old) x × Read word (view_of seat.old) (view_of seat.new) x result }
    {
        let x = self.look(seat, word);
        if x.no_more() {
            return TryRead::NoMore;
        }
        if x.readers() == MOST_READERS {
            return TryRead::Full;
        }
        let z = x.add_reader();
        match self.exchange(seat, word, x, z, LockChange::AddReader) {
            Ok(()) => TryRead::Taken(z.readers()),
            Err(y) => TryRead::Changed(y),
        }
    }

    /// Tries once to give up the read token of the word: to drop a reader. Last if it was the last one under a writer:
    /// the word then has the writer alone, with NoMoreReadLocks. Changed if the exchange found another word than the
    /// load.
    pub fn drop_read(&self, seat: &mut Seat, word: usize) -> DropRead
        requires own { seat_table seat.old ≡ table_id_of self.now }
        requires word { word < word_count_of self.now }
        requires held { reads_at word (view_of seat.old) ≡ true }
        ensures own { seat_table seat.new ≡ seat_table seat.old }
        ensures told { (x : _) × FoundWord word (view_of seat.old) x × Dropped word (view_of seat.old) (view_of seat.new) x result }
    {
        let x = self.look(seat, word);
        let (z, kind) = one_reader_less(x);
        match self.exchange(seat, word, x, z, LockChange::DropReader) {
            Ok(()) => {
                match kind {
                    hek_rules::Dropped::More | hek_rules::Dropped::Free => DropRead::Dropped,
                    hek_rules::Dropped::Last(u) => DropRead::Last(u),
                }
            }
            Err(y) => DropRead::Changed(y),
        }
    }

    /// Tries once to take the write token of the word under `u`, 1 to 2^54 - 2. Writer if the word has a writer;
    /// Changed if the exchange found another word than the load.
    pub fn try_write(&self, seat: &mut Seat, word: usize, u: TxnId) -> TryWrite
        requires own { seat_table seat.old ≡ table_id_of self.now }
        requires word { word < word_count_of self.now }
        requires id { IsTxn u }
        requires free { writes_at word (view_of seat.old) ≡ false }
        ensures own { seat_table seat.new ≡ seat_table seat.old }
        ensures told { (x : _) × FoundWord word (view_of seat.old) x × Wrote u word (view_of seat.old) (view_of seat.new) x result }
    {
        let x = self.look(seat, word);
        if let Some(t) = x.writer() {
            return TryWrite::Writer(t);
        }
        let z = x.take_writer(u);
        match self.exchange(seat, word, x, z, LockChange::TakeWriter(u)) {
            Ok(()) => TryWrite::Written(z.readers()),
            Err(y) => TryWrite::Changed(y),
        }
    }

    /// Tries once to give up the write token of the word, and NoMoreReadLocks with it. Changed if the exchange found
    /// another word than the load.
    pub fn drop_write(&self, seat: &mut Seat, word: usize) -> DropWrite
        requires own { seat_table seat.old ≡ table_id_of self.now }
        requires word { word < word_count_of self.now }
        requires held { writes_at word (view_of seat.old) ≡ true }
        ensures own { seat_table seat.new ≡ seat_table seat.old }
        ensures told { (x : _) × FoundWord word (view_of seat.old) x × Cleared word (view_of seat.old) (view_of seat.new) x result }
    {
        let x = self.look(seat, word);
        let z = x.clear_writer();
        match self.exchange(seat, word, x, z, LockChange::ClearWriter) {
            Ok(()) => DropWrite::Dropped,
            Err(y) => DropWrite::Changed(y),
        }
    }
}
