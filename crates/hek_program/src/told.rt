//! What a transaction's own replies tell it of keys.
ghost use Rattle.std.specs.Prelude.{◌≡◌, ◌<◌};
ghost use Rattle.hek_program.specs.Told.{known_after, known_on, seen_by, told, value_at};

use crate::lookup::Lookup;
use crate::term::Factor;
use hek_rules::{Event, Reply};

/// The value that a list of rows has at a key.
pub fn value_at(key: u64, rows: &[(u64, u64)]) -> Option<u64>
    ensures { result ≡ value_at key rows.now }
{
    let mut rest = rows;
    while let Some((row, later)) = rest.split_first() {
        if row.0 == key {
            return Some(row.1);
        }
        rest = later;
    }
    None
}

/// What there is at a key after a reply, if the event was of that key.
fn told(key: u64, other: u64, new: Option<u64>, old: Option<u64>) -> Option<u64>
    ensures { result ≡ told key other new old }
{
    if other == key { new } else { old }
}

/// What a transaction knows to be at a key after its own event with this reply, by what it knew before.
pub fn known_after(
    buckets: u64,
    key: u64,
    old: Option<u64>,
    event: Event,
    reply: &Reply,
) -> Option<u64>
    requires { 0 < buckets }
    ensures { result ≡ known_after buckets key old event reply.now }
{
    match event {
        Event::Read(_, other) => match reply {
            Reply::Found(value) => told(key, other, Some(*value), old),
            Reply::Absent => told(key, other, None, old),
            _ => old,
        },
        Event::Scan(_, bucket) => match reply {
            Reply::Rows(pairs) => {
                if key % buckets == bucket {
                    value_at(key, pairs.items())
                } else {
                    old
                }
            }
            _ => old,
        },
        Event::Insert(_, other, value) => match reply {
            Reply::Done => told(key, other, Some(value), old),
            _ => old,
        },
        Event::Update(_, other, value) => match reply {
            Reply::Done => told(key, other, Some(value), old),
            Reply::Absent => told(key, other, None, old),
            _ => old,
        },
        Event::Delete(_, other) => match reply {
            Reply::Done | Reply::Absent => told(key, other, None, old),
            _ => old,
        },
        _ => old,
    }
}

/// What a transaction knows to be at a key after these events of its own.
fn known_in(buckets: u64, key: u64, steps: &[(Event, Reply)]) -> Option<u64>
    requires { 0 < buckets }
    ensures { result ≡ known_on buckets key None steps.now }
{
    let mut known = None;
    let mut rest = steps;
    while let Some((step, later)) = rest.split_first() {
        known = known_after(buckets, key, known, step.0, &step.1);
        rest = later;
    }
    known
}

/// What a transaction sees after its own events, each with its reply: the value that it found last at a key, or wrote
/// there.
#[derive(Drop)]
pub struct Own<'a> {
    pub buckets: u64,
    pub steps: &'a [(Event, Reply)],
    pub ghost some: { 0 < buckets },
}

impl Lookup for Own<'_> {
    ghost value_of = { λ o. seen_by o.buckets o.steps.now };

    fn value(&self, factor: Factor) -> Option<u64> {
        match factor {
            Factor::Number(number) => Some(number),
            Factor::Key(key) => known_in(self.buckets, key, self.steps),
            Factor::Name(_) => None,
        }
    }
}
