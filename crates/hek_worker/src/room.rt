//! Room for the copy of a reply, made before the event whose reply it is.
ghost use Rattle.std.specs.Prelude.{◌≡◌, ◌≤◌, length, IfOk};
ghost use Rattle.hek_worker.specs.Room.{Fits};

use hek_rules::{Members, NoMemory, Pairs, Reply, TxnId};
use std::alloc::Global;
use std::marker::Model;

/// Room for a copy of one reply: for how many pairs and how many members of a cycle.
#[derive(Drop)]
pub(crate) struct ReplyRoom {
    pairs: Vec<(u64, u64)>,
    members: Box<Vec<TxnId>>,
    most_pairs: usize,
    most_members: usize,
}

impl Model for ReplyRoom {
    ghost use Rattle.std.specs.Prelude.{◌≤◌, ◌≡◌, vec_len, vec_capacity};
    ghost use Rattle.hek_worker.specs.Room.{Spare};

    ghost Value = { Spare };

    ghost view = { λ r. record { pairs = r.most_pairs; members = r.most_members } };

    ghost invariant = { λ r. (vec_len r.pairs ≡ 0) × (r.most_pairs ≤ vec_capacity r.pairs) × (vec_len r.members.value ≡ 0) × (r.most_members ≤ vec_capacity r.members.value) };
}

impl ReplyRoom {
    pub(crate) fn new(
        alloc: Global,
        most_pairs: usize,
        most_members: usize,
    ) -> Result<ReplyRoom, NoMemory>
        ensures { IfOk result (λ room. room ≡ record { pairs = most_pairs; members = most_members }) }
    {
        Ok(ReplyRoom {
            pairs: Vec::with_capacity(alloc, most_pairs)?,
            members: Box::new(alloc, Vec::with_capacity(alloc, most_members)?)?,
            most_pairs,
            most_members,
        })
    }

    // A copy of the pairs, in this room.
    fn fill_pairs(self, from: &Pairs) -> Pairs
        requires { length from.now ≤ self.pairs }
        ensures { result ≡ from.now }
    {
        let ReplyRoom {
            mut pairs,
            members: _,
            most_pairs: _,
            most_members: _,
        } = self;
        for pair in from.items() {
            pairs.push_reserved(*pair);
        }
        Pairs::new(pairs)
    }

    // A copy of the members, in this room.
    fn fill_members(self, from: &Members) -> Members
        requires { length from.now ≤ self.members }
        ensures { result ≡ from.now }
    {
        let ReplyRoom {
            pairs: _,
            mut members,
            most_pairs: _,
            most_members: _,
        } = self;
        for member in from.items() {
            members.push_reserved(*member);
        }
        Members::new(members)
    }
}

/// A copy of a reply, in room that was made before.
pub(crate) fn copy_into(reply: &Reply, room: ReplyRoom) -> Reply
    requires { Fits room reply.now }
    ensures { result ≡ reply.now }
{
    match reply {
        Reply::Began(time) => Reply::Began(*time),
        Reply::Found(value) => Reply::Found(*value),
        Reply::Absent => Reply::Absent,
        Reply::Rows(pairs) => Reply::Rows(room.fill_pairs(pairs)),
        Reply::Done => Reply::Done,
        Reply::Exists => Reply::Exists,
        Reply::Ready => Reply::Ready,
        Reply::Waiting(count) => Reply::Waiting(*count),
        Reply::Precommitted(time) => Reply::Precommitted(*time),
        Reply::ReleasedRead(version, writer) => Reply::ReleasedRead(*version, *writer),
        Reply::ReleasedBucket(bucket) => Reply::ReleasedBucket(*bucket),
        Reply::ReleasedWaiter(txn) => Reply::ReleasedWaiter(*txn),
        Reply::Nothing => Reply::Nothing,
        Reply::Committed => Reply::Committed,
        Reply::WaitingCommits(count) => Reply::WaitingCommits(*count),
        Reply::Failed => Reply::Failed,
        Reply::StampedBegin(version) => Reply::StampedBegin(*version),
        Reply::StampedEnd(version) => Reply::StampedEnd(*version),
        Reply::Left(version) => Reply::Left(*version),
        Reply::Over => Reply::Over,
        Reply::NoCycle => Reply::NoCycle,
        Reply::Victim(txn, members) => Reply::Victim(*txn, room.fill_members(members)),
        Reply::Aborted(cause) => Reply::Aborted(*cause),
        Reply::Refused(refusal) => Reply::Refused(*refusal),
    }
}
