//! A thread's seat, and the tokens that it holds by its replies.
ghost use Rattle.std.specs.Prelude.{◌≡◌, ◌<◌, ℕ, Some, slice_get};
ghost use Rattle.hek_rules.specs.Words.{IsTxn};
ghost use Rattle.hek_live.specs.Tokens.{newcomer, reads_at, writes_at};
ghost use Rattle.hek_live.specs.Ends.{word_count_of, table_id_of, seat_table, view_of};

use hek_live::{DropRead, DropWrite, LiveWords, Seat, TryRead, TryWrite, tokens_follow_replies};
use hek_rules::TxnId;

/// How many words the workers share.
pub const WORDS: usize = 16;

/// A seat, and which tokens it holds of each word.
#[derive(Drop)]
pub struct Worker<'a> {
    words: &'a LiveWords,
    seat: Seat,
    id: TxnId,
    reads: [bool; WORDS],
    writes: [bool; WORDS],
    ghost own: { seat_table seat ≡ table_id_of words.now },
    ghost enough: { word_count_of words.now ≡ 16 },
    ghost named: { IsTxn id },
    ghost reads_told: { (i : ℕ) → i < 16 → slice_get reads i ≡ Some (reads_at i (view_of seat)) },
    ghost writes_told: { (i : ℕ) → i < 16 → slice_get writes i ≡ Some (writes_at i (view_of seat)) },
}

/// A worker that holds nothing yet.
pub fn start<'a>(words: &'a LiveWords, seat: Seat, id: TxnId) -> Worker<'a>
    requires own { seat_table seat ≡ table_id_of words.now }
    requires words { word_count_of words.now ≡ 16 }
    requires new { view_of seat ≡ newcomer }
    requires id { IsTxn id }
{
    Worker {
        words,
        seat,
        id,
        reads: [false; WORDS],
        writes: [false; WORDS],
    }
}

impl<'a> Worker<'a> {
    pub fn id(&self) -> TxnId {
        self.id
    }

    pub fn reads(&self, word: usize) -> bool
        requires { word < 16 }
    {
        self.reads[word]
    }

    pub fn writes(&self, word: usize) -> bool
        requires { word < 16 }
    {
        self.writes[word]
    }

    /// Tries once to take the read token.
    pub fn read(&mut self, word: usize)
        requires { word < 16 }
    {
        if self.reads[word] {
            return;
        }
        tokens_follow_replies();
        if let TryRead::Taken(_) = self.words.try_read(&mut self.seat, word) {
            self.reads[word] = true;
        }
    }

    /// Tries once to take the write token.
    pub fn write(&mut self, word: usize)
        requires { word < 16 }
    {
        if self.writes[word] {
            return;
        }
        tokens_follow_replies();
        if let TryWrite::Written(_) = self.words.try_write(&mut self.seat, word, self.id) {
            self.writes[word] = true;
        }
    }

    /// Tries once to give the read token up, where it is held.
    pub fn drop_read(&mut self, word: usize)
        requires { word < 16 }
    {
        if !self.reads[word] {
            return;
        }
        tokens_follow_replies();
        match self.words.drop_read(&mut self.seat, word) {
            DropRead::Dropped => self.reads[word] = false,
            DropRead::Last(_) => self.reads[word] = false,
            DropRead::Changed(_) => {}
        }
    }

    /// Tries once to give the write token up, where it is held.
    pub fn drop_write(&mut self, word: usize)
        requires { word < 16 }
    {
        if !self.writes[word] {
            return;
        }
        tokens_follow_replies();
        if let DropWrite::Dropped = self.words.drop_write(&mut self.seat, word) {
            self.writes[word] = false;
        }
    }

    /// Tries to give both tokens up so many times, and answers whether none is held any more.
    pub fn free(&mut self, word: usize, tries: u32) -> bool
        requires { word < 16 }
    {
        for _ in 0..tries {
            self.drop_read(word);
            self.drop_write(word);
            if !self.reads[word] && !self.writes[word] {
                return true;
            }
        }
        false
    }
}
