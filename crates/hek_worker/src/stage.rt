//! What a worker does next, and the stage to which each reply leads.
ghost use Rattle.std.specs.Prelude.{◌≡◌, ◌↔◌, IsTrue, length};
ghost use Rattle.hek_worker.specs.Grammar.{position_after, answers, begin_at, event_at, is_work};

use hek_rules::{Event, Reply, TxnId};

/// What a worker does next. A `true` means that its transaction has aborted.
#[derive(Clone, Copy, PartialEq, Eq, Debug)]
pub enum Stage {
    /// `begin`.
    Start,
    /// The read or write at this place of the transaction's work, from 0; past the last one, `finish`.
    Working(usize),
    /// `precommit`.
    Preparing,
    /// `detect`.
    Looking,
    /// `fail`.
    GivingUp,
    /// `release`.
    Releasing(bool),
    /// `commit`.
    Committing,
    /// `stamp`.
    Stamping(bool),
    /// `end`.
    Ending,
    /// Nothing: the transcript is complete.
    Ended,
}

/// A stage, and the number of turns left.
#[derive(Clone, Copy, PartialEq, Eq, Debug)]
pub struct Position {
    pub stage: Stage,
    pub turns: u64,
}

impl Position {
    /// The position before the first event.
    pub fn begin(turns: u64) -> Position
        ensures { result ≡ begin_at turns }
    {
        Position {
            stage: Stage::Start,
            turns,
        }
    }

    /// The worker's next event.
    pub fn event(self, worker: TxnId, work: &[Event]) -> Event
        ensures { result ≡ event_at worker work.now self.stage }
    {
        match self.stage {
            Stage::Start => Event::Begin(worker),
            Stage::Working(i) => match work.get(i) {
                Some(event) => *event,
                None => Event::Finish(worker),
            },
            Stage::Preparing => Event::Precommit(worker),
            Stage::Looking => Event::Detect,
            Stage::GivingUp => Event::Fail(worker),
            Stage::Releasing(_) => Event::Release(worker),
            Stage::Committing => Event::Commit(worker),
            Stage::Stamping(_) => Event::Stamp(worker),
            Stage::Ending | Stage::Ended => Event::End(worker),
        }
    }

    /// The position after a reply, or None if the next event cannot have this reply.
    pub fn after(self, worker: TxnId, work: &[Event], reply: &Reply) -> Option<Position>
        ensures { result ≡ position_after worker work.now self.stage self.turns reply.now }
    {
        let turns = self.turns;
        match self.stage {
            Stage::Start => match reply {
                Reply::Began(_) => to(Stage::Working(0), turns),
                Reply::Aborted(_) => to(Stage::Releasing(true), turns),
                _ => None,
            },
            Stage::Working(i) => match reply {
                Reply::Aborted(_) => to(Stage::Releasing(true), turns),
                _ => {
                    if !answers(self.event(worker, work), reply) {
                        None
                    } else if i < work.len() {
                        to(Stage::Working(i + 1), turns)
                    } else {
                        to(Stage::Preparing, turns)
                    }
                }
            },
            Stage::Preparing => match reply {
                Reply::Waiting(_) => {
                    if turns == 0 {
                        to(Stage::GivingUp, 0)
                    } else {
                        to(Stage::Looking, turns - 1)
                    }
                }
                Reply::Precommitted(_) => to(Stage::Releasing(false), turns),
                Reply::Aborted(_) => to(Stage::Releasing(true), turns),
                _ => None,
            },
            Stage::Looking => match reply {
                Reply::NoCycle | Reply::Victim(_, _) => to(Stage::Preparing, turns),
                _ => None,
            },
            Stage::GivingUp => match reply {
                Reply::Failed | Reply::Aborted(_) => to(Stage::Releasing(true), turns),
                _ => None,
            },
            Stage::Releasing(cut) => match reply {
                Reply::ReleasedRead(_, _) | Reply::ReleasedBucket(_) | Reply::ReleasedWaiter(_) =>
                    to(Stage::Releasing(cut), turns),
                Reply::Nothing => {
                    if cut {
                        to(Stage::Stamping(true), turns)
                    } else {
                        to(Stage::Committing, turns)
                    }
                }
                Reply::Aborted(_) => {
                    if cut {
                        None
                    } else {
                        to(Stage::Releasing(true), turns)
                    }
                }
                _ => None,
            },
            Stage::Committing => match reply {
                Reply::WaitingCommits(_) => {
                    if turns == 0 {
                        to(Stage::GivingUp, 0)
                    } else {
                        to(Stage::Committing, turns - 1)
                    }
                }
                Reply::Committed => to(Stage::Stamping(false), turns),
                Reply::Aborted(_) => to(Stage::Releasing(true), turns),
                _ => None,
            },
            Stage::Stamping(cut) => match reply {
                Reply::StampedBegin(_) | Reply::StampedEnd(_) | Reply::Left(_) => to(
                    Stage::Stamping(cut),
                    turns,
                ),
                Reply::Nothing => to(Stage::Ending, turns),
                _ => None,
            },
            Stage::Ending => match reply {
                Reply::Over => to(Stage::Ended, turns),
                _ => None,
            },
            Stage::Ended => None,
        }
    }
}

ghost use Rattle.hek_worker.specs.Grammar.{at};

fn to(stage: Stage, turns: u64) -> Option<Position>
    ensures { result ≡ at stage turns }
{
    Some(Position { stage, turns })
}

// Whether an event of this kind can have the reply.
fn answers(event: Event, reply: &Reply) -> bool
    ensures { result ≡ answers event reply.now }
{
    match event {
        Event::Read(_, _) => matches!(reply, Reply::Found(_) | Reply::Absent),
        Event::Scan(_, _) => matches!(reply, Reply::Rows(_)),
        Event::Insert(_, _, _) => matches!(reply, Reply::Done | Reply::Exists),
        Event::Update(_, _, _) | Event::Delete(_, _) => matches!(
            reply,
            Reply::Done | Reply::Absent
        ),
        Event::Finish(_) => matches!(reply, Reply::Ready),
        _ => false,
    }
}

/// Whether the event is a read or a write of this transaction.
pub fn is_work(worker: TxnId, event: Event) -> bool
    ensures { result ≡ is_work worker event }
{
    match event {
        Event::Read(t, _)
        | Event::Scan(t, _)
        | Event::Insert(t, _, _)
        | Event::Update(t, _, _)
        | Event::Delete(t, _) => t == worker,
        _ => false,
    }
}
