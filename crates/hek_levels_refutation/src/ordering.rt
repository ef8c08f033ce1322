//! The rules of a certificate that order writers.
ghost use Rattle.std.specs.Prelude.{◌≡◌, ◌<◌, Option, Some, IsTrue, IfSome};
ghost use Rattle.hek_levels_refutation.specs.declared.claim.Context.{Context as TheContext};
ghost use Rattle.hek_levels_refutation.specs.Claims.{FollowsFrom};

use crate::claim::{Claim, Context};
use crate::premises::{
    is_same, is_same_place, pair_at, source_at, takes_place, turn_at, visible_at,
};
use hek_levels::{Place, Writer, does_write, is_committed, is_kept, is_possible, read_at};

/// The opening is before each transaction.
pub(crate) fn first(second: usize) -> Claim
    ensures { (context : TheContext) → FollowsFrom context result }
{
    Claim::Before {
        first: Writer::Opening,
        second: Writer::Transaction(second),
    }
}

/// A transaction that is known to have committed takes place.
pub(crate) fn committed(context: &Context<'_>, t: usize) -> Option<Claim>
    ensures { IfSome result (λ claim. FollowsFrom context.now claim) }
{
    if !is_committed(context.log, t) {
        return None;
    }
    Some(Claim::Occurs(t))
}

/// Who is before one that takes place does so too.
pub(crate) fn inside(context: &Context<'_>, premise: usize, taken: Option<usize>) -> Option<Claim>
    ensures { IfSome result (λ claim. FollowsFrom context.now claim) }
{
    let Some(pair) = pair_at(context.shown, premise) else {
        return None;
    };
    if !takes_place(context.log, context.shown, pair.second, taken) {
        return None;
    }
    Some(Claim::Occurs(pair.first))
}

/// The source is before its reader.
pub(crate) fn read(context: &Context<'_>, source: usize) -> Option<Claim>
    ensures { IfSome result (λ claim. FollowsFrom context.now claim) }
{
    let Some(found) = source_at(context.shown, source) else {
        return None;
    };
    let Some(_read) = read_at(context.log, found.reader, found.place) else {
        return None;
    };
    Some(Claim::Before {
        first: found.writer,
        second: Writer::Transaction(found.reader),
    })
}

/// Turns are kept.
pub(crate) fn turn(
    context: &Context<'_>,
    x: usize,
    t: usize,
    first_taken: Option<usize>,
    second_taken: Option<usize>,
) -> Option<Claim>
    ensures { IfSome result (λ claim. FollowsFrom context.now claim) }
{
    if !is_kept(context.log, x, t) {
        return None;
    }
    if !takes_place(context.log, context.shown, x, first_taken) {
        return None;
    }
    if !takes_place(context.log, context.shown, t, second_taken) {
        return None;
    }
    Some(Claim::Before {
        first: Writer::Transaction(x),
        second: Writer::Transaction(t),
    })
}

/// One before a second, and this one before a third.
pub(crate) fn chain(context: &Context<'_>, first: usize, second: usize) -> Option<Claim>
    ensures { IfSome result (λ claim. FollowsFrom context.now claim) }
{
    let Some(one) = turn_at(context.shown, first) else {
        return None;
    };
    let Some(next) = turn_at(context.shown, second) else {
        return None;
    };
    if !is_same(one.second, next.first) {
        return None;
    }
    Some(Claim::Before {
        first: one.first,
        second: next.second,
    })
}

/// A writer of the key that is seen and is not the source is before the source.
pub(crate) fn newest(context: &Context<'_>, visible: usize, source: usize) -> Option<Claim>
    ensures { IfSome result (λ claim. FollowsFrom context.now claim) }
{
    let Some(met) = visible_at(context.shown, visible) else {
        return None;
    };
    let Some(found) = source_at(context.shown, source) else {
        return None;
    };
    if met.reader != found.reader {
        return None;
    }
    if !is_same_place(met.place, found.place) {
        return None;
    }
    let Some(read) = read_at(context.log, met.reader, met.place) else {
        return None;
    };
    if !does_write(context.log, met.transaction, read.key) {
        return None;
    }
    if is_same(found.writer, Writer::Transaction(met.transaction)) {
        return None;
    }
    Some(Claim::Before {
        first: Writer::Transaction(met.transaction),
        second: found.writer,
    })
}

/// Who is after the reader is not the source.
pub(crate) fn not_later(context: &Context<'_>, place: Place, before: usize) -> Option<Claim>
    ensures { IfSome result (λ claim. FollowsFrom context.now claim) }
{
    let Some(turn) = turn_at(context.shown, before) else {
        return None;
    };
    let Writer::Transaction(t) = turn.first else {
        return None;
    };
    let Some(_read) = read_at(context.log, t, place) else {
        return None;
    };
    Some(Claim::Not {
        reader: t,
        place,
        writer: turn.second,
    })
}

/// Who is before a writer of the key that is seen is not the source.
pub(crate) fn not_older(context: &Context<'_>, visible: usize, before: usize) -> Option<Claim>
    ensures { IfSome result (λ claim. FollowsFrom context.now claim) }
{
    let Some(met) = visible_at(context.shown, visible) else {
        return None;
    };
    let Some(turn) = turn_at(context.shown, before) else {
        return None;
    };
    if !is_same(turn.second, Writer::Transaction(met.transaction)) {
        return None;
    }
    let Some(read) = read_at(context.log, met.reader, met.place) else {
        return None;
    };
    if !does_write(context.log, met.transaction, read.key) {
        return None;
    }
    Some(Claim::Not {
        reader: met.reader,
        place: met.place,
        writer: turn.first,
    })
}

/// A writer before itself, or before the opening.
pub(crate) fn contra(context: &Context<'_>, premise: usize) -> Option<Claim>
    ensures { IfSome result (λ claim. FollowsFrom context.now claim) }
{
    let Some(turn) = turn_at(context.shown, premise) else {
        return None;
    };
    if is_same(turn.second, Writer::Opening) {
        return Some(Claim::Contradiction);
    }
    if !is_same(turn.first, turn.second) {
        return None;
    }
    Some(Claim::Contradiction)
}

/// One that takes place, and cannot.
pub(crate) fn impossible(context: &Context<'_>, t: usize, taken: Option<usize>) -> Option<Claim>
    ensures { IfSome result (λ claim. FollowsFrom context.now claim) }
{
    if is_possible(context.log, t) {
        return None;
    }
    if !takes_place(context.log, context.shown, t, taken) {
        return None;
    }
    Some(Claim::Contradiction)
}
