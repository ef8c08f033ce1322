//! Replies to events.
ghost use Rattle.std.specs.Prelude.{◌≡◌, ◌↔◌, IfOk, OnErr, IsTrue};
ghost use Rattle.hek_rules.specs.Names.{refusal_number, refusal_name, refusal_named};
ghost use Rattle.hek_rules.specs.Replies.{HasList, whole, form_of};

use crate::event::Cause;
use crate::form::ReplyForm;
use crate::id::{Time, TxnId, VersionId};
use crate::lists::{Members, Pairs};
use crate::memory::NoMemory;
use crate::text::same_bytes;

/// Why an event was refused. A refused event changes nothing.
#[derive(Clone, Copy, Debug, PartialEq, Eq)]
pub enum Refusal {
    UnknownTxn,
    NotBegun,
    BegunTwice,
    Ended,
    WrongPhase,
    ClockFull,
}

impl Refusal {
    /// All refusals, in the order of their numbers.
    pub const ALL: [Refusal; 6] = [
        Refusal::UnknownTxn,
        Refusal::NotBegun,
        Refusal::BegunTwice,
        Refusal::Ended,
        Refusal::WrongPhase,
        Refusal::ClockFull,
    ];

    /// The number of the refusal in texts, 1 to 6.
    pub fn number(self) -> u64
        ensures { result ≡ refusal_number self }
    {
        match self {
            Refusal::UnknownTxn => 1,
            Refusal::NotBegun => 2,
            Refusal::BegunTwice => 3,
            Refusal::Ended => 4,
            Refusal::WrongPhase => 5,
            Refusal::ClockFull => 6,
        }
    }

    /// The name of the refusal in texts.
    pub fn name(self) -> &'static str
        ensures { result.now ≡ refusal_name self }
    {
        match self {
            Refusal::UnknownTxn => "UnknownTxn",
            Refusal::NotBegun => "NotBegun",
            Refusal::BegunTwice => "BegunTwice",
            Refusal::Ended => "Ended",
            Refusal::WrongPhase => "WrongPhase",
            Refusal::ClockFull => "ClockFull",
        }
    }

    /// The refusal with a name.
    pub fn named(name: &[u8]) -> Option<Refusal>
        ensures { result ≡ refusal_named name.now }
    {
        for refusal in Refusal::ALL {
            if same_bytes(name, refusal.name().as_bytes()) {
                return Some(refusal);
            }
        }
        None
    }
}

/// The reply to an event.
#[derive(Debug, Drop)]
pub enum Reply {
    /// The begin time that the transaction drew.
    Began(Time),
    /// The value of the key.
    Found(u64),
    Absent,
    /// The pairs of the bucket, sorted by key.
    Rows(Pairs),
    Done,
    Exists,
    Ready,
    /// How many things the transaction still waits for: its WaitForCounter.
    Waiting(u64),
    /// The end time that the transaction drew.
    Precommitted(Time),
    /// The version whose read lock was given up, and its writer if this was the last read lock under one.
    ReleasedRead(VersionId, Option<TxnId>),
    ReleasedBucket(u64),
    ReleasedWaiter(TxnId),
    Nothing,
    Committed,
    /// On how many transactions the commit still depends: its CommitDepCounter.
    WaitingCommits(u64),
    Failed,
    StampedBegin(VersionId),
    StampedEnd(VersionId),
    /// The End word no longer names the transaction, and is unchanged.
    Left(VersionId),
    Over,
    NoCycle,
    /// The victim of a deadlock, with its cycle.
    Victim(TxnId, Members),
    Aborted(Cause),
    Refused(Refusal),
}

/// A reply taken apart: an equal reply if it has no list, otherwise its list and its other part.
#[derive(Drop)]
pub enum ReplyParts<'a> {
    Plain(Reply),
    Rows(&'a Pairs),
    Victim(TxnId, &'a Members),
}

impl Reply {
    /// The form of the reply.
    pub fn form(&self) -> ReplyForm
        ensures { result ≡ form_of self.now }
    {
        match self {
            Reply::Began(_) => ReplyForm::Began,
            Reply::Found(_) => ReplyForm::Found,
            Reply::Absent => ReplyForm::Absent,
            Reply::Rows(_) => ReplyForm::Rows,
            Reply::Done => ReplyForm::Done,
            Reply::Exists => ReplyForm::Exists,
            Reply::Ready => ReplyForm::Ready,
            Reply::Waiting(_) => ReplyForm::Waiting,
            Reply::Precommitted(_) => ReplyForm::Precommitted,
            Reply::ReleasedRead(_, _) => ReplyForm::ReleasedRead,
            Reply::ReleasedBucket(_) => ReplyForm::ReleasedBucket,
            Reply::ReleasedWaiter(_) => ReplyForm::ReleasedWaiter,
            Reply::Nothing => ReplyForm::Nothing,
            Reply::Committed => ReplyForm::Committed,
            Reply::WaitingCommits(_) => ReplyForm::WaitingCommits,
            Reply::Failed => ReplyForm::Failed,
            Reply::StampedBegin(_) => ReplyForm::StampedBegin,
            Reply::StampedEnd(_) => ReplyForm::StampedEnd,
            Reply::Left(_) => ReplyForm::Left,
            Reply::Over => ReplyForm::Over,
            Reply::NoCycle => ReplyForm::NoCycle,
            Reply::Victim(_, _) => ReplyForm::Victim,
            Reply::Aborted(_) => ReplyForm::Aborted,
            Reply::Refused(_) => ReplyForm::Refused,
        }
    }

    /// The reply taken apart. This needs no memory.
    pub fn parts(&self) -> ReplyParts<'_>
        ensures { whole result ≡ self.now }
    {
        ReplyParts::Plain(match self {
            Reply::Rows(pairs) => return ReplyParts::Rows(pairs),
            Reply::Victim(txn, members) => return ReplyParts::Victim(*txn, members),
            Reply::Began(time) => Reply::Began(*time),
            Reply::Found(value) => Reply::Found(*value),
            Reply::Absent => Reply::Absent,
            Reply::Done => Reply::Done,
            Reply::Exists => Reply::Exists,
            Reply::Ready => Reply::Ready,
            Reply::Waiting(count) => Reply::Waiting(*count),
            Reply::Precommitted(time) => Reply::Precommitted(*time),
            Reply::ReleasedRead(version, writer) => Reply::ReleasedRead(*version, *writer),
            Reply::ReleasedBucket(bucket) => Reply::ReleasedBucket(*bucket),
            Reply::ReleasedWaiter(txn) => Reply::ReleasedWaiter(*txn),
            Reply::Nothing => Reply::Nothing,
            Reply::Committed => Reply::Committed,
            Reply::WaitingCommits(count) => Reply::WaitingCommits(*count),
            Reply::Failed => Reply::Failed,
            Reply::StampedBegin(version) => Reply::StampedBegin(*version),
            Reply::StampedEnd(version) => Reply::StampedEnd(*version),
            Reply::Left(version) => Reply::Left(*version),
            Reply::Over => Reply::Over,
            Reply::NoCycle => Reply::NoCycle,
            Reply::Aborted(cause) => Reply::Aborted(*cause),
            Reply::Refused(refusal) => Reply::Refused(*refusal),
        })
    }

    /// An equal reply, or NoMemory.
    pub fn copy(&self) -> Result<Reply, NoMemory>
        ensures equal { IfOk result (λ reply. reply ≡ self.now) }
        ensures lists { OnErr result (HasList self.now) }
    {
        match self.parts() {
            ReplyParts::Plain(reply) => Ok(reply),
            ReplyParts::Rows(pairs) => Ok(Reply::Rows(pairs.copy()?)),
            ReplyParts::Victim(txn, members) => Ok(Reply::Victim(txn, members.copy()?)),
        }
    }

    /// Whether the replies are equal.
    pub fn same(&self, other: &Reply) -> bool
        ensures { IsTrue result ↔ (self.now ≡ other.now) }
    {
        match (self, other) {
            (Reply::Began(a), Reply::Began(b)) => a == b,
            (Reply::Found(a), Reply::Found(b)) => a == b,
            (Reply::Absent, Reply::Absent) => true,
            (Reply::Rows(a), Reply::Rows(b)) => a.same(b),
            (Reply::Done, Reply::Done) => true,
            (Reply::Exists, Reply::Exists) => true,
            (Reply::Ready, Reply::Ready) => true,
            (Reply::Waiting(a), Reply::Waiting(b)) => a == b,
            (Reply::Precommitted(a), Reply::Precommitted(b)) => a == b,
            (Reply::ReleasedRead(a, u), Reply::ReleasedRead(b, w)) => a == b && u == w,
            (Reply::ReleasedBucket(a), Reply::ReleasedBucket(b)) => a == b,
            (Reply::ReleasedWaiter(a), Reply::ReleasedWaiter(b)) => a == b,
            (Reply::Nothing, Reply::Nothing) => true,
            (Reply::Committed, Reply::Committed) => true,
            (Reply::WaitingCommits(a), Reply::WaitingCommits(b)) => a == b,
            (Reply::Failed, Reply::Failed) => true,
            (Reply::StampedBegin(a), Reply::StampedBegin(b)) => a == b,
            (Reply::StampedEnd(a), Reply::StampedEnd(b)) => a == b,
            (Reply::Left(a), Reply::Left(b)) => a == b,
            (Reply::Over, Reply::Over) => true,
            (Reply::NoCycle, Reply::NoCycle) => true,
            (Reply::Victim(a, c), Reply::Victim(b, d)) => a == b && c.same(d),
            (Reply::Aborted(a), Reply::Aborted(b)) => a == b,
            (Reply::Refused(a), Reply::Refused(b)) => a == b,
            _ => false,
        }
    }
}
