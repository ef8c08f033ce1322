//! The kinds of events: the words, opcodes and operands that texts, images and traces share.
ghost use Rattle.std.specs.Prelude.{◌≡◌};
ghost use Rattle.hek_rules.specs.Events.{word_of, kind_named, opcode_of, kind_coded, operand_count, event_of, kind_of, txn_of, first_of, second_of, IsItsParts, is_detect, is_scan};

use crate::event::Event;
use crate::id::TxnId;
use crate::text::same_bytes;

/// The kind of an event.
#[derive(Clone, Copy, Debug, PartialEq, Eq)]
pub enum EventKind {
    Begin,
    Read,
    Scan,
    Insert,
    Update,
    Delete,
    Finish,
    Precommit,
    Release,
    Commit,
    Fail,
    Stamp,
    End,
    Detect,
}

impl EventKind {
    /// All kinds, in the order of their opcodes.
    pub const ALL: [EventKind; 14] = [
        EventKind::Begin,
        EventKind::Read,
        EventKind::Scan,
        EventKind::Insert,
        EventKind::Update,
        EventKind::Delete,
        EventKind::Finish,
        EventKind::Precommit,
        EventKind::Release,
        EventKind::Commit,
        EventKind::Fail,
        EventKind::Stamp,
        EventKind::End,
        EventKind::Detect,
    ];

    /// The word of the kind in texts.
    pub fn word(self) -> &'static str
        ensures { result.now ≡ word_of self }
    {
        match self {
            EventKind::Begin => "begin",
            EventKind::Read => "read",
            EventKind::Scan => "scan",
            EventKind::Insert => "insert",
            EventKind::Update => "update",
            EventKind::Delete => "delete",
            EventKind::Finish => "finish",
            EventKind::Precommit => "precommit",
            EventKind::Release => "release",
            EventKind::Commit => "commit",
            EventKind::Fail => "fail",
            EventKind::Stamp => "stamp",
            EventKind::End => "end",
            EventKind::Detect => "detect",
        }
    }

    /// Whether this is the kind `Detect`, whose events have no transaction.
    pub fn is_detect(self) -> bool
        ensures { result ≡ is_detect self }
    {
        matches!(self, EventKind::Detect)
    }

    /// Whether this is the kind `Scan`, whose operand is a bucket.
    pub fn is_scan(self) -> bool
        ensures { result ≡ is_scan self }
    {
        matches!(self, EventKind::Scan)
    }

    /// The kind that a word names, if it names one.
    pub fn named(word: &[u8]) -> Option<EventKind>
        ensures { result ≡ kind_named word.now }
    {
        if same_bytes(word, b"begin") {
            return Some(EventKind::Begin);
        }
        if same_bytes(word, b"read") {
            return Some(EventKind::Read);
        }
        if same_bytes(word, b"scan") {
            return Some(EventKind::Scan);
        }
        if same_bytes(word, b"insert") {
            return Some(EventKind::Insert);
        }
        if same_bytes(word, b"update") {
            return Some(EventKind::Update);
        }
        if same_bytes(word, b"delete") {
            return Some(EventKind::Delete);
        }
        if same_bytes(word, b"finish") {
            return Some(EventKind::Finish);
        }
        if same_bytes(word, b"precommit") {
            return Some(EventKind::Precommit);
        }
        if same_bytes(word, b"release") {
            return Some(EventKind::Release);
        }
        if same_bytes(word, b"commit") {
            return Some(EventKind::Commit);
        }
        if same_bytes(word, b"fail") {
            return Some(EventKind::Fail);
        }
        if same_bytes(word, b"stamp") {
            return Some(EventKind::Stamp);
        }
        if same_bytes(word, b"end") {
            return Some(EventKind::End);
        }
        if same_bytes(word, b"detect") {
            return Some(EventKind::Detect);
        }
        None
    }

    /// The opcode of the kind in images, 1 to 14.
    pub fn opcode(self) -> u8
        ensures { result ≡ opcode_of self }
    {
        match self {
            EventKind::Begin => 1,
            EventKind::Read => 2,
            EventKind::Scan => 3,
            EventKind::Insert => 4,
            EventKind::Update => 5,
            EventKind::Delete => 6,
            EventKind::Finish => 7,
            EventKind::Precommit => 8,
            EventKind::Release => 9,
            EventKind::Commit => 10,
            EventKind::Fail => 11,
            EventKind::Stamp => 12,
            EventKind::End => 13,
            EventKind::Detect => 14,
        }
    }

    /// The kind of an opcode, if it has one.
    pub fn coded(opcode: u8) -> Option<EventKind>
        ensures { result ≡ kind_coded opcode }
    {
        match opcode {
            1 => Some(EventKind::Begin),
            2 => Some(EventKind::Read),
            3 => Some(EventKind::Scan),
            4 => Some(EventKind::Insert),
            5 => Some(EventKind::Update),
            6 => Some(EventKind::Delete),
            7 => Some(EventKind::Finish),
            8 => Some(EventKind::Precommit),
            9 => Some(EventKind::Release),
            10 => Some(EventKind::Commit),
            11 => Some(EventKind::Fail),
            12 => Some(EventKind::Stamp),
            13 => Some(EventKind::End),
            14 => Some(EventKind::Detect),
            _ => None,
        }
    }

    /// How many operands an event of the kind has, 0 to 2.
    pub fn operand_count(self) -> usize
        ensures { result ≡ operand_count self }
    {
        match self {
            EventKind::Read | EventKind::Scan | EventKind::Delete => 1,
            EventKind::Insert | EventKind::Update => 2,
            EventKind::Begin
            | EventKind::Finish
            | EventKind::Precommit
            | EventKind::Release
            | EventKind::Commit
            | EventKind::Fail
            | EventKind::Stamp
            | EventKind::End
            | EventKind::Detect => 0,
        }
    }

    /// The event of this kind. It takes the parts that the kind has, and drops the others.
    pub fn event(self, txn: TxnId, first: u64, second: u64) -> Event
        ensures { result ≡ event_of self txn first second }
    {
        match self {
            EventKind::Begin => Event::Begin(txn),
            EventKind::Read => Event::Read(txn, first),
            EventKind::Scan => Event::Scan(txn, first),
            EventKind::Insert => Event::Insert(txn, first, second),
            EventKind::Update => Event::Update(txn, first, second),
            EventKind::Delete => Event::Delete(txn, first),
            EventKind::Finish => Event::Finish(txn),
            EventKind::Precommit => Event::Precommit(txn),
            EventKind::Release => Event::Release(txn),
            EventKind::Commit => Event::Commit(txn),
            EventKind::Fail => Event::Fail(txn),
            EventKind::Stamp => Event::Stamp(txn),
            EventKind::End => Event::End(txn),
            EventKind::Detect => Event::Detect,
        }
    }
}

impl Event {
    /// The kind of the event.
    pub fn kind(self) -> EventKind
        ensures { result ≡ kind_of self }
    {
        match self {
            Event::Begin(_) => EventKind::Begin,
            Event::Read(_, _) => EventKind::Read,
            Event::Scan(_, _) => EventKind::Scan,
            Event::Insert(_, _, _) => EventKind::Insert,
            Event::Update(_, _, _) => EventKind::Update,
            Event::Delete(_, _) => EventKind::Delete,
            Event::Finish(_) => EventKind::Finish,
            Event::Precommit(_) => EventKind::Precommit,
            Event::Release(_) => EventKind::Release,
            Event::Commit(_) => EventKind::Commit,
            Event::Fail(_) => EventKind::Fail,
            Event::Stamp(_) => EventKind::Stamp,
            Event::End(_) => EventKind::End,
            Event::Detect => EventKind::Detect,
        }
    }

    /// The transaction of the event. `Detect` has none.
    pub fn txn(self) -> Option<TxnId>
        ensures { result ≡ txn_of self }
    {
        match self {
            Event::Begin(txn)
            | Event::Read(txn, _)
            | Event::Scan(txn, _)
            | Event::Insert(txn, _, _)
            | Event::Update(txn, _, _)
            | Event::Delete(txn, _)
            | Event::Finish(txn)
            | Event::Precommit(txn)
            | Event::Release(txn)
            | Event::Commit(txn)
            | Event::Fail(txn)
            | Event::Stamp(txn)
            | Event::End(txn) => Some(txn),
            Event::Detect => None,
        }
    }

    /// The first operand, a key or a bucket; 0 if there is none.
    pub fn first(self) -> u64
        ensures { result ≡ first_of self }
    {
        match self {
            Event::Read(_, first)
            | Event::Scan(_, first)
            | Event::Insert(_, first, _)
            | Event::Update(_, first, _)
            | Event::Delete(_, first) => first,
            _ => 0,
        }
    }

    /// The second operand, a value; 0 if there is none.
    pub fn second(self) -> u64
        ensures { result ≡ second_of self }
    {
        match self {
            Event::Insert(_, _, second) | Event::Update(_, _, second) => second,
            _ => 0,
        }
    }
}

/// Each event is made of its kind, transaction and operands; each word and each opcode names one kind.
pub fn events_are_their_parts()
    ensures { IsItsParts }
{}
