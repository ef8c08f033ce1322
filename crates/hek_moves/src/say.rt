//! What is said of a move.
use crate::moves::{Hold, Holder, Kind, Move, Moves};
use crate::sentence::{Sentence, joint};
use hek_report::Hole;
use hek_rules::{Event, TxnId};

/// Says a move, of these moves. `line` is that of the text which a program left out.
pub(crate) fn say(made: &Move, moves: &Moves, line: Option<u64>, out: &mut Sentence<'_>) {
    let me = out.txn(made.txn);
    match &made.kind {
        Kind::Begins => out.form("@ begins", &[me]),
        Kind::Reads(value, _) => say_read(made, *value, out),
        Kind::Scans(rows) => say_scan(made, rows.items(), out),
        Kind::Writes(_) => say_write(made, out),
        Kind::Misses => say_miss(made, out),
        Kind::Skips => say_skip(made.txn, line, out),
        Kind::Waits(holders) => say_wait(made.txn, holders.as_slice(), out),
        Kind::Precommits(_) => out.form("@ draws its end time", &[me]),
        Kind::Commits => say_commit(made.txn, moves, out),
        Kind::Aborts(_) => say_abort(made, out),
        Kind::Refused(_) => out.form(
            "@ may not @ now",
            &[me, Hole::Word(made.event.kind().word())],
        ),
        Kind::Idles => {}
    }
}

/// The key or the bucket of an event, or 0.
pub(crate) fn key_of(event: Event) -> u64 {
    match event {
        Event::Read(_, key)
        | Event::Delete(_, key)
        | Event::Insert(_, key, _)
        | Event::Update(_, key, _) => key,
        Event::Scan(_, bucket) => bucket,
        _ => 0,
    }
}

/// The value that an event writes.
pub(crate) fn value_of(event: Event) -> Option<u64> {
    match event {
        Event::Insert(_, _, value) | Event::Update(_, _, value) => Some(value),
        _ => None,
    }
}

fn say_read(made: &Move, value: Option<u64>, out: &mut Sentence<'_>) {
    let (me, key) = (out.txn(made.txn), Hole::Number(key_of(made.event)));
    match value {
        Some(value) => out.form("@ reads @: @", &[me, key, Hole::Number(value)]),
        None => out.form("@ reads @: no such row", &[me, key]),
    }
}

fn say_scan(made: &Move, rows: &[(u64, u64)], out: &mut Sentence<'_>) {
    out.form(
        "@ scans bucket @: ",
        &[out.txn(made.txn), Hole::Number(key_of(made.event))],
    );
    if rows.is_empty() {
        out.put("nothing");
    }
    for (place, (key, value)) in rows.iter().enumerate() {
        let comma = if place == 0 { "" } else { ", " };
        out.form(
            "@@ = @",
            &[Hole::Word(comma), Hole::Number(*key), Hole::Number(*value)],
        );
    }
}

fn say_write(made: &Move, out: &mut Sentence<'_>) {
    let (me, key) = (out.txn(made.txn), Hole::Number(key_of(made.event)));
    let verb = match made.event {
        Event::Insert(_, _, _) => "inserts",
        Event::Delete(_, _) => "deletes",
        _ => "writes",
    };
    match value_of(made.event) {
        Some(value) => out.form(
            "@ @ @: @",
            &[me, Hole::Word(verb), key, Hole::Number(value)],
        ),
        None => out.form("@ @ @", &[me, Hole::Word(verb), key]),
    }
}

fn say_miss(made: &Move, out: &mut Sentence<'_>) {
    let how = match made.event {
        Event::Insert(_, _, _) => "is there already",
        _ => "isn't there",
    };
    let key = Hole::Number(key_of(made.event));
    out.form(
        "@ writes nothing: @ @",
        &[out.txn(made.txn), key, Hole::Word(how)],
    );
}

fn say_skip(txn: TxnId, line: Option<u64>, out: &mut Sentence<'_>) {
    match line {
        Some(line) => out.form("@ leaves out line @", &[out.txn(txn), Hole::Number(line)]),
        None => out.form("@ leaves out a step", &[out.txn(txn)]),
    }
}

/// Says of some in a row who have the same hold what it is once, after the last of them.
fn say_wait(txn: TxnId, holders: &[Holder], out: &mut Sentence<'_>) {
    out.form("@ wants to commit, and waits for ", &[out.txn(txn)]);
    let mut before = None;
    for (place, holder) in holders.iter().enumerate() {
        let hold = holder.hold;
        let is_last = !has_hold(holders.get(place.saturating_add(1)), hold);
        out.put(joint_of_holds(before, hold, is_last));
        out.form("@", &[out.txn(holder.txn)]);
        if is_last {
            say_hold(hold, out);
        }
        before = Some(hold);
    }
}

fn has_hold(holder: Option<&Holder>, hold: Hold) -> bool {
    match holder {
        Some(holder) => holder.hold == hold,
        None => false,
    }
}

/// What stands before one who has a hold, by the hold of the one before; `is_last` of those in a row who have it.
fn joint_of_holds(before: Option<Hold>, hold: Hold, is_last: bool) -> &'static str {
    match before {
        None => "",
        Some(other) if other != hold => ", and for ",
        Some(_) if is_last => " and ",
        Some(_) => ", ",
    }
}

fn say_hold(hold: Hold, out: &mut Sentence<'_>) {
    match hold {
        Hold::Read(key) => out.form(", which read @", &[Hole::Number(key)]),
        Hold::Looked => out.put(", which looked where it writes"),
        Hold::Uncommitted => out.put(", which hasn't committed what it read"),
    }
}

fn say_commit(txn: TxnId, moves: &Moves, out: &mut Sentence<'_>) {
    out.form("@ commits", &[out.txn(txn)]);
    let count = moves.count_last(txn);
    let mut place = 0usize;
    for (at, it) in moves.items().iter().enumerate() {
        if moves.is_last_write(at, txn) {
            out.put(if place == 0 {
                ": "
            } else {
                joint(place, count)
            });
            say_committed(it, out);
            place = place.saturating_add(1);
        }
    }
}

fn say_committed(made: &Move, out: &mut Sentence<'_>) {
    let key = Hole::Number(key_of(made.event));
    match value_of(made.event) {
        Some(value) => out.form("@ is @", &[key, Hole::Number(value)]),
        None => out.form("@ is gone", &[key]),
    }
}

impl Moves {
    /// How many keys a transaction writes.
    fn count_last(&self, txn: TxnId) -> usize {
        let mut count = 0usize;
        for at in 0..self.items.len() {
            if self.is_last_write(at, txn) {
                count = count.saturating_add(1);
            }
        }
        count
    }

    /// Whether the move at a place is the last write of its key by this transaction.
    fn is_last_write(&self, place: usize, txn: TxnId) -> bool {
        let mut is_last = false;
        let mut key = 0;
        for (at, it) in self.items.iter().enumerate() {
            let is_write = it.txn == txn && matches!(it.kind, Kind::Writes(_));
            if at == place {
                is_last = is_write;
                key = key_of(it.event);
            } else if at > place && is_write && key_of(it.event) == key {
                is_last = false;
            }
        }
        is_last
    }
}

fn say_abort(made: &Move, out: &mut Sentence<'_>) {
    let (me, key) = (out.txn(made.txn), Hole::Number(key_of(made.event)));
    match made.event {
        Event::Read(_, _) => out.form("@ wants to read @, and aborts", &[me, key]),
        Event::Scan(_, _) => out.form("@ wants to scan bucket @, and aborts", &[me, key]),
        Event::Insert(_, _, _) | Event::Update(_, _, _) | Event::Delete(_, _) => {
            out.form("@ wants to write @, and aborts", &[me, key]);
        }
        _ => out.form("@ aborts", &[me]),
    }
}
