//! A sentence that grows word by word.
use hek_report::{Hole, Text, is_named};
use hek_rules::{Schedule, TxnId};

/// Words of a run: its transactions are named as its schedule names them, in braces, which no name has.
#[derive(Drop)]
pub(crate) struct Sentence<'a> {
    schedule: &'a Schedule,
    /// The words so far; its `done` says whether memory sufficed for them.
    pub(crate) text: Text<'a>,
}

impl<'a> Sentence<'a> {
    pub(crate) fn new(schedule: &'a Schedule, words: &'a mut Vec<u8>) -> Sentence<'a> {
        Sentence {
            schedule,
            text: Text::after(words),
        }
    }

    /// A transaction's name in braces; its number if the schedule doesn't declare it.
    pub(crate) fn txn(&self, txn: TxnId) -> Hole<'a> {
        if is_named(self.schedule, txn) {
            Hole::Braced(self.schedule.name_of(txn))
        } else {
            Hole::Number(txn.number())
        }
    }

    pub(crate) fn put(&mut self, words: &str) {
        self.text.put(words);
    }

    /// A pattern with a value in place of each `@`, in their order.
    pub(crate) fn form(&mut self, pattern: &str, holes: &[Hole<'_>]) {
        self.text.form(pattern, holes);
    }

    /// Names in a row, separated by commas, with `and` before the last.
    pub(crate) fn put_txns(&mut self, txns: &[TxnId]) {
        for (place, txn) in txns.iter().enumerate() {
            let joint = Hole::Word(joint(place, txns.len()));
            self.form("@@", &[joint, self.txn(*txn)]);
        }
    }
}

/// What stands before the item at a place of some in a row.
pub(crate) fn joint(place: usize, count: usize) -> &'static str {
    if place == 0 {
        ""
    } else if count.saturating_sub(place) == 1 {
        " and "
    } else {
        ", "
    }
}
