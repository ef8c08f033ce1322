//! The forms of replies in texts: the words that each begins with, and what follows these.
ghost use Rattle.std.specs.Prelude.{◌≡◌, option_copied};
ghost use Rattle.hek_rules.specs.Forms.{first_word, second_word, form_text, form_operands};

/// The form of a reply: its kind, without its operands.
#[derive(Clone, Copy, Debug, PartialEq, Eq)]
pub enum ReplyForm {
    Began,
    Found,
    Absent,
    Rows,
    Done,
    Exists,
    Ready,
    Waiting,
    WaitingCommits,
    Precommitted,
    ReleasedRead,
    ReleasedBucket,
    ReleasedWaiter,
    Nothing,
    Committed,
    Failed,
    StampedBegin,
    StampedEnd,
    Left,
    Over,
    NoCycle,
    Victim,
    Aborted,
    Refused,
}

/// What follows the words of a form.
#[derive(Clone, Copy, Debug, PartialEq, Eq)]
pub enum ReplyOperands {
    Nothing,
    Time,
    Value,
    Count,
    Version,
    Bucket,
    Txn,
    Cause,
    /// The number of a refusal, and its name.
    Refusal,
    /// A version, and after `writer` a transaction, if there is one.
    VersionAndWriter,
    /// A transaction, and after `cycle` the members of its cycle.
    TxnAndCycle,
    /// Any number of pairs `KEY=VALUE`.
    Pairs,
}

impl ReplyForm {
    /// All forms. Of two that begin with one word the longer one is first.
    pub const ALL: [ReplyForm; 24] = [
        ReplyForm::Began,
        ReplyForm::Found,
        ReplyForm::Absent,
        ReplyForm::Rows,
        ReplyForm::Done,
        ReplyForm::Exists,
        ReplyForm::Ready,
        ReplyForm::WaitingCommits,
        ReplyForm::Waiting,
        ReplyForm::Precommitted,
        ReplyForm::ReleasedRead,
        ReplyForm::ReleasedBucket,
        ReplyForm::ReleasedWaiter,
        ReplyForm::Nothing,
        ReplyForm::Committed,
        ReplyForm::Failed,
        ReplyForm::StampedBegin,
        ReplyForm::StampedEnd,
        ReplyForm::Left,
        ReplyForm::Over,
        ReplyForm::NoCycle,
        ReplyForm::Victim,
        ReplyForm::Aborted,
        ReplyForm::Refused,
    ];

    /// The words of the form, with one space between them.
    pub fn text(self) -> &'static str
        ensures { result.now ≡ form_text self }
    {
        match self {
            ReplyForm::Began => "began",
            ReplyForm::Found => "found",
            ReplyForm::Absent => "absent",
            ReplyForm::Rows => "rows",
            ReplyForm::Done => "done",
            ReplyForm::Exists => "exists",
            ReplyForm::Ready => "ready",
            ReplyForm::Waiting => "waiting",
            ReplyForm::WaitingCommits => "waiting commits",
            ReplyForm::Precommitted => "precommitted",
            ReplyForm::ReleasedRead => "released read",
            ReplyForm::ReleasedBucket => "released bucket",
            ReplyForm::ReleasedWaiter => "released waiter",
            ReplyForm::Nothing => "nothing",
            ReplyForm::Committed => "committed",
            ReplyForm::Failed => "failed",
            ReplyForm::StampedBegin => "stamped begin",
            ReplyForm::StampedEnd => "stamped end",
            ReplyForm::Left => "left",
            ReplyForm::Over => "over",
            ReplyForm::NoCycle => "no cycle",
            ReplyForm::Victim => "victim",
            ReplyForm::Aborted => "aborted",
            ReplyForm::Refused => "refused",
        }
    }

    /// The first word of the form.
    pub fn first_word(self) -> &'static str
        ensures { result.now ≡ first_word self }
    {
        match self {
            ReplyForm::Began => "began",
            ReplyForm::Found => "found",
            ReplyForm::Absent => "absent",
            ReplyForm::Rows => "rows",
            ReplyForm::Done => "done",
            ReplyForm::Exists => "exists",
            ReplyForm::Ready => "ready",
            ReplyForm::Waiting | ReplyForm::WaitingCommits => "waiting",
            ReplyForm::Precommitted => "precommitted",
            ReplyForm::ReleasedRead | ReplyForm::ReleasedBucket | ReplyForm::ReleasedWaiter =>
                "released",
            ReplyForm::Nothing => "nothing",
            ReplyForm::Committed => "committed",
            ReplyForm::Failed => "failed",
            ReplyForm::StampedBegin | ReplyForm::StampedEnd => "stamped",
            ReplyForm::Left => "left",
            ReplyForm::Over => "over",
            ReplyForm::NoCycle => "no",
            ReplyForm::Victim => "victim",
            ReplyForm::Aborted => "aborted",
            ReplyForm::Refused => "refused",
        }
    }

    /// The word after the first, if the form has one.
    pub fn second_word(self) -> Option<&'static str>
        ensures { option_copied result ≡ second_word self }
    {
        match self {
            ReplyForm::WaitingCommits => Some("commits"),
            ReplyForm::ReleasedRead => Some("read"),
            ReplyForm::ReleasedBucket => Some("bucket"),
            ReplyForm::ReleasedWaiter => Some("waiter"),
            ReplyForm::StampedBegin => Some("begin"),
            ReplyForm::StampedEnd => Some("end"),
            ReplyForm::NoCycle => Some("cycle"),
            _ => None,
        }
    }

    /// What follows the words.
    pub fn operands(self) -> ReplyOperands
        ensures { result ≡ form_operands self }
    {
        match self {
            ReplyForm::Began | ReplyForm::Precommitted => ReplyOperands::Time,
            ReplyForm::Found => ReplyOperands::Value,
            ReplyForm::Absent
            | ReplyForm::Done
            | ReplyForm::Exists
            | ReplyForm::Ready
            | ReplyForm::Nothing
            | ReplyForm::Committed
            | ReplyForm::Failed
            | ReplyForm::Over
            | ReplyForm::NoCycle => ReplyOperands::Nothing,
            ReplyForm::Rows => ReplyOperands::Pairs,
            ReplyForm::Waiting | ReplyForm::WaitingCommits => ReplyOperands::Count,
            ReplyForm::ReleasedRead => ReplyOperands::VersionAndWriter,
            ReplyForm::ReleasedBucket => ReplyOperands::Bucket,
            ReplyForm::ReleasedWaiter => ReplyOperands::Txn,
            ReplyForm::StampedBegin | ReplyForm::StampedEnd | ReplyForm::Left =>
                ReplyOperands::Version,
            ReplyForm::Victim => ReplyOperands::TxnAndCycle,
            ReplyForm::Aborted => ReplyOperands::Cause,
            ReplyForm::Refused => ReplyOperands::Refusal,
        }
    }
}
