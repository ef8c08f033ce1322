//! What a transaction has seen in a history.
ghost use Rattle.std.specs.Prelude.{◌≡◌, ◌<◌, ◌++◌, [], ◌∷◌, filter, map};
ghost use Rattle.hek_rules.specs.Serial.{is_of};
ghost use Rattle.hek_program.specs.Told.{known_after, known_on, seen_by};
ghost use Rattle.hek_permute.specs.Plays.{own_of};

use hek_program::{Factor, Lookup, known_after};
use hek_rules::{Event, TxnId};
use hek_worker::Entry;

/// What a transaction has seen in a history: at a key the value that it found there last, or wrote.
#[derive(Drop)]
pub(crate) struct Seen<'a> {
    pub(crate) buckets: u64,
    pub(crate) txn: TxnId,
    pub(crate) history: &'a [Entry],
    pub(crate) ghost some: { 0 < buckets },
}

/// Whether an event is of a transaction.
fn is_of(txn: TxnId, event: Event) -> bool
    ensures { result ≡ is_of txn event }
{
    match event.txn() {
        Some(other) => other == txn,
        None => false,
    }
}

/// What a transaction knows to be at a key after a history.
fn known_in(buckets: u64, key: u64, txn: TxnId, history: &[Entry]) -> Option<u64>
    requires { 0 < buckets }
    ensures { result ≡ known_on buckets key None (own_of txn history.now) }
{
    let mut known = None;
    let mut rest = history;
    while let Some((entry, later)) = rest.split_first() {
        if is_of(txn, entry.event) {
            known = known_after(buckets, key, known, entry.event, &entry.reply);
        }
        rest = later;
    }
    known
}

impl Lookup for Seen<'_> {
    ghost value_of = { λ s. seen_by s.buckets (own_of s.txn s.history.now) };

    fn value(&self, factor: Factor) -> Option<u64> {
        match factor {
            Factor::Number(number) => Some(number),
            Factor::Key(key) => known_in(self.buckets, key, self.txn, self.history),
            Factor::Name(_) => None,
        }
    }
}
