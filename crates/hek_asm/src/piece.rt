//! Lines as lists of their parts.
ghost use Rattle.std.specs.Prelude.{◌≡◌, length, if◌then◌else◌, ◌∷◌, [], IfSome};
ghost use Rattle.std.specs.Fmt.{decimal};
ghost use Rattle.hek_rules.specs.Plan.{IsDeclared};
ghost use Rattle.hek_rules.specs.Lines.{spaced, joined_words};
ghost use Rattle.hek_asm.specs.Canonical.{name_front, step_words};
ghost use Rattle.hek_asm.specs.Pieces.{piece_bytes, pieces_bytes, first_operands, later_operands};
ghost use Rattle.hek_asm.specs.Trace.{NamesDeclared, line_front, line_rest, reply_words, writer_words};

use hek_rules::{Event, Reply, Schedule, TxnId};

/// A part of a line.
#[derive(Clone, Copy)]
pub(crate) enum Piece<'a> {
    Nothing,
    Text(&'a str),
    /// A space and a word.
    Word(&'a str),
    /// A name and a space.
    Name(&'a str),
    Number(u64),
    /// A space and a number.
    Item(u64),
    /// A space and `KEY=VALUE` for each pair.
    Pairs(&'a [(u64, u64)]),
    /// The word `writer` and the transaction, each with a space before it.
    Writer(u64),
    /// The word `cycle` and the transactions, each with a space before it.
    Cycle(&'a [TxnId]),
}

// The name at the front of a step, if its event has a transaction.
fn name_piece(schedule: &Schedule, txn: Option<TxnId>) -> Piece<'_>
    requires { IfSome txn (λ t. IsDeclared (length schedule.now.txns) t) }
    ensures { piece_bytes result ≡ name_front schedule.now txn }
{
    match txn {
        None => Piece::Nothing,
        Some(txn) => Piece::Name(schedule.name_of(txn)),
    }
}

// An operand, if a step has it.
fn operand_piece<'a>(is_there: bool, operand: u64) -> Piece<'a>
    ensures { piece_bytes result ≡ (if is_there then spaced (decimal operand ∷ []) else []) }
{
    if is_there {
        Piece::Item(operand)
    } else {
        Piece::Nothing
    }
}

/// A step as a line has it.
#[tactic(auto, using(crate::proofs::LineLemmas::step_parts))]
pub(crate) fn step_pieces<'a>(schedule: &'a Schedule, event: &Event) -> [Piece<'a>; 4]
    requires { NamesDeclared (length schedule.now.txns) event.now }
    ensures { pieces_bytes result ≡ joined_words (step_words schedule.now event.now) }
{
    let kind = event.kind();
    let count = kind.operand_count();
    [
        name_piece(schedule, event.txn()),
        Piece::Text(kind.word()),
        operand_piece(count > 0, event.first()),
        operand_piece(count > 1, event.second()),
    ]
}

/// A line up to the reply: the number, the step and the arrow.
#[tactic(auto, using(crate::proofs::LineLemmas::spaced_step))]
pub(crate) fn front_pieces<'a>(schedule: &'a Schedule, number: u64, event: &Event) -> [Piece<'a>; 7]
    requires { NamesDeclared (length schedule.now.txns) event.now }
    ensures { pieces_bytes result ≡ line_front schedule.now number event.now }
{
    let [name, kind, first, second] = step_pieces(schedule, event);
    [
        Piece::Number(number),
        Piece::Text(" "),
        name,
        kind,
        first,
        second,
        Piece::Text(" -> "),
    ]
}

// The number that stands first after the words of a reply's form, or the pairs.
fn first_operand(reply: &Reply) -> Piece<'_>
    ensures { piece_bytes result ≡ spaced (first_operands reply.now) }
{
    match reply {
        Reply::Began(time) | Reply::Precommitted(time) => Piece::Item(time.number()),
        Reply::Found(number)
        | Reply::Waiting(number)
        | Reply::WaitingCommits(number)
        | Reply::ReleasedBucket(number) => Piece::Item(*number),
        Reply::StampedBegin(version)
        | Reply::StampedEnd(version)
        | Reply::Left(version)
        | Reply::ReleasedRead(version, _) => Piece::Item(version.index()),
        Reply::ReleasedWaiter(txn) | Reply::Victim(txn, _) => Piece::Item(txn.number()),
        Reply::Refused(refusal) => Piece::Item(refusal.number()),
        Reply::Rows(pairs) => Piece::Pairs(pairs.items()),
        Reply::Absent
        | Reply::Done
        | Reply::Exists
        | Reply::Ready
        | Reply::Nothing
        | Reply::Committed
        | Reply::Failed
        | Reply::Over
        | Reply::NoCycle
        | Reply::Aborted(_) => Piece::Nothing,
    }
}

// What stands behind that.
fn later_operand(reply: &Reply) -> Piece<'_>
    ensures { piece_bytes result ≡ spaced (later_operands reply.now) }
{
    match reply {
        Reply::ReleasedRead(_, writer) => writer_piece(*writer),
        Reply::Victim(_, members) => Piece::Cycle(members.items()),
        Reply::Aborted(cause) => Piece::Word(cause.word()),
        Reply::Refused(refusal) => Piece::Word(refusal.name()),
        _ => Piece::Nothing,
    }
}

// The writer that a `released read` lets go, if there is one.
fn writer_piece<'a>(writer: Option<TxnId>) -> Piece<'a>
    ensures { piece_bytes result ≡ spaced (writer_words writer) }
{
    match writer {
        None => Piece::Nothing,
        Some(txn) => Piece::Writer(txn.number()),
    }
}

/// A reply as a trace has it.
#[tactic(auto, using(crate::proofs::LineLemmas::reply_parts, crate::proofs::LineLemmas::operand_parts))]
pub(crate) fn reply_pieces(reply: &Reply) -> [Piece<'_>; 3]
    ensures { pieces_bytes result ≡ joined_words (reply_words reply.now) }
{
    [
        Piece::Text(reply.form().text()),
        first_operand(reply),
        later_operand(reply),
    ]
}

/// The rest of a line: the reply and the line's end.
pub(crate) fn rest_pieces(reply: &Reply) -> [Piece<'_>; 4]
    ensures { pieces_bytes result ≡ line_rest reply.now }
{
    let [form, first, later] = reply_pieces(reply);
    [form, first, later, Piece::Text("\n")]
}
