//! The rules of a certificate by which a source is found among all writers.
ghost use Rattle.std.specs.Prelude.{◌≡◌, ◌<◌, ◌≤◌, ℕ, true, false, Option, Some, IsTrue, IfSome};
ghost use Rattle.hek_levels.specs.declared.certificate.Writer.{Writer as TheWriter};
ghost use Rattle.hek_levels.specs.declared.certificate.Writer.TheVariants.{Transaction as TransactionOf};
ghost use Rattle.hek_levels.specs.Logs.{is_possible as possible_there, offers as offers_it};
ghost use Rattle.hek_levels.specs.Seen.{Explanation, TakesPlace};
ghost use Rattle.hek_levels_refutation.specs.Claims.{number_of as number_in, AllHold, FollowsFrom};
ghost use Rattle.hek_levels_refutation.specs.Candidates.{IsCandidate, IsNoneBetween};

use crate::claim::{Claim, Context};
use crate::premises::{Left, is_same, is_same_place, left_at, not_at, takes_place};
use hek_levels::{Log, Place, Read, Writer, is_possible, offers, read_at};

/// The writer of a number.
fn writer_of(number: usize) -> Writer
    ensures { number_in result ≡ number }
{
    if number == 0 {
        Writer::Opening
    } else {
        Writer::Transaction(number - 1)
    }
}

/// Whether a writer may be the source of a read of t.
fn is_candidate(log: &Log, t: usize, read: Read, writer: Writer) -> bool
    ensures { IsCandidate log.now t read writer → IsTrue result }
{
    match writer {
        Writer::Opening => offers(log, writer, read),
        Writer::Transaction(x) => x != t && is_possible(log, x) && offers(log, writer, read),
    }
}

/// Whether no writer of these numbers, from the first on and below the second, may be the source of a read.
fn is_none_between(log: &Log, t: usize, read: Read, from: usize, to: usize) -> bool
    ensures { IsTrue result → IsNoneBetween log.now t read from to }
{
    for n in from..to {
        if is_candidate(log, t, read, writer_of(n)) {
            return false;
        }
    }
    true
}

/// The source of a read is among all writers.
pub(crate) fn start(
    context: &Context<'_>,
    t: usize,
    r: Place,
    taken: Option<usize>,
) -> Option<Claim>
    ensures { IfSome result (λ claim. FollowsFrom context.now claim) }
{
    if !takes_place(context.log, context.shown, t, taken) {
        return None;
    }
    Some(Claim::From {
        reader: t,
        place: r,
        number: 0,
        end: context.log.transactions.as_slice().len() + 1,
    })
}

/// No writer below the number is a candidate.
pub(crate) fn skip(context: &Context<'_>, from: usize, number: usize) -> Option<Claim>
    ensures { IfSome result (λ claim. FollowsFrom context.now claim) }
{
    let Some(left) = left_at(context.shown, from) else {
        return None;
    };
    let Some(read) = read_at(context.log, left.reader, left.place) else {
        return None;
    };
    if !is_none_between(context.log, left.reader, read, left.number, number) {
        return None;
    }
    Some(Claim::From {
        reader: left.reader,
        place: left.place,
        number,
        end: left.end,
    })
}

/// No writer from the number on is a candidate.
pub(crate) fn skip_back(context: &Context<'_>, from: usize, number: usize) -> Option<Claim>
    ensures { IfSome result (λ claim. FollowsFrom context.now claim) }
{
    let Some(left) = left_at(context.shown, from) else {
        return None;
    };
    let Some(read) = read_at(context.log, left.reader, left.place) else {
        return None;
    };
    if !is_none_between(context.log, left.reader, read, number, left.end) {
        return None;
    }
    Some(Claim::From {
        reader: left.reader,
        place: left.place,
        number: left.number,
        end: number,
    })
}

/// Whether the claim at a place is that the writer of a number is not the source of a read.
fn is_not(context: &Context<'_>, left: Left, number: usize, not: usize) -> bool
    ensures { IsTrue result → (e : Explanation) → AllHold context.now.asked.now context.now.log.now e context.now.shown.now → TakesPlace e left.reader → number_in (e.source left.reader left.place) ≡ number → ⊥ }
{
    let Some(found) = not_at(context.shown, not) else {
        return false;
    };
    if found.reader != left.reader {
        return false;
    }
    if !is_same_place(found.place, left.place) {
        return false;
    }
    is_same(found.writer, writer_of(number))
}

/// The first that is left is not the source.
pub(crate) fn drop_first(context: &Context<'_>, from: usize, not: usize) -> Option<Claim>
    ensures { IfSome result (λ claim. FollowsFrom context.now claim) }
{
    let Some(left) = left_at(context.shown, from) else {
        return None;
    };
    if left.number == usize::MAX {
        return None;
    }
    if !is_not(context, left, left.number, not) {
        return None;
    }
    Some(Claim::From {
        reader: left.reader,
        place: left.place,
        number: left.number + 1,
        end: left.end,
    })
}

/// The last that is left is not the source.
pub(crate) fn drop_last(context: &Context<'_>, from: usize, not: usize) -> Option<Claim>
    ensures { IfSome result (λ claim. FollowsFrom context.now claim) }
{
    let Some(left) = left_at(context.shown, from) else {
        return None;
    };
    if left.end == 0 {
        return None;
    }
    if !is_not(context, left, left.end - 1, not) {
        return None;
    }
    Some(Claim::From {
        reader: left.reader,
        place: left.place,
        number: left.number,
        end: left.end - 1,
    })
}

/// The first that is left is the only candidate.
pub(crate) fn only(context: &Context<'_>, from: usize) -> Option<Claim>
    ensures { IfSome result (λ claim. FollowsFrom context.now claim) }
{
    let Some(left) = left_at(context.shown, from) else {
        return None;
    };
    let Some(read) = read_at(context.log, left.reader, left.place) else {
        return None;
    };
    if left.number == usize::MAX {
        return None;
    }
    if !is_none_between(context.log, left.reader, read, left.number + 1, left.end) {
        return None;
    }
    Some(Claim::Source {
        reader: left.reader,
        place: left.place,
        writer: writer_of(left.number),
    })
}

/// No candidate is left.
pub(crate) fn exhausted(context: &Context<'_>, from: usize) -> Option<Claim>
    ensures { IfSome result (λ claim. FollowsFrom context.now claim) }
{
    let Some(left) = left_at(context.shown, from) else {
        return None;
    };
    let Some(read) = read_at(context.log, left.reader, left.place) else {
        return None;
    };
    if !is_none_between(context.log, left.reader, read, left.number, left.end) {
        return None;
    }
    Some(Claim::Contradiction)
}
