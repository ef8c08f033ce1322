//! Claims that are premises.
ghost use Rattle.std.specs.Prelude.{◌≡◌, ◌↔◌, ◌<◌, Option, Some, List, IsTrue, IfSome};
ghost use Rattle.hek_levels.specs.declared.log.Log.{Log as TheLog};
ghost use Rattle.hek_levels.specs.declared.rules.Asked.{Asked as TheAsked};
ghost use Rattle.hek_levels_refutation.specs.declared.claim.Claim.TheVariants.{Before, From, Source, Not, Visible};
ghost use Rattle.hek_levels.specs.Seen.{Explanation, TakesPlace, IsBefore, ReadsFrom, rank};
ghost use Rattle.hek_levels.specs.declared.certificate.Writer.TheVariants.{Transaction as TransactionOf};
ghost use Rattle.hek_levels.specs.Explanations.{Explains};
ghost use Rattle.hek_levels_refutation.specs.Claims.{AllHold, Holds};

use crate::claim::{Claim, Shown};
use hek_levels::{Log, Place, Writer, is_committed, read_at};

/// The claim at a place.
pub(crate) fn claim_at(shown: &[Shown], place: usize) -> Option<Claim>
    ensures { IfSome result (λ claim. (asked : TheAsked) (log : TheLog) (e : Explanation) → AllHold asked log e shown.now → Holds asked log e claim) }
{
    match shown.get(place) {
        Some(one) => Some(one.claim),
        None => None,
    }
}

/// Two writers, one before the other.
#[derive(Clone, Copy)]
pub(crate) struct InTurn {
    pub first: Writer,
    pub second: Writer,
}

/// The two writers, if the claim at a place is that one is before the other.
pub(crate) fn turn_at(shown: &[Shown], place: usize) -> Option<InTurn>
    ensures { IfSome result (λ turn. (asked : TheAsked) (log : TheLog) (e : Explanation) → AllHold asked log e shown.now → Holds asked log e (Before turn.first turn.second)) }
{
    match claim_at(shown, place) {
        Some(Claim::Before { first, second }) => Some(InTurn { first, second }),
        _ => None,
    }
}

/// Whether two writers are one.
pub(crate) fn is_same(first: Writer, second: Writer) -> bool
    ensures { IsTrue result ↔ first ≡ second }
{
    first == second
}

/// Whether two reads of a transaction are one.
pub(crate) fn is_same_place(first: Place, second: Place) -> bool
    ensures { IsTrue result ↔ first ≡ second }
{
    first == second
}

/// Two transactions, one before the other.
#[derive(Clone, Copy)]
pub(crate) struct Pair {
    pub first: usize,
    pub second: usize,
}

/// Two writers as transactions, if they are.
fn pair_of(first: Writer, second: Writer) -> Option<Pair>
    ensures { IfSome result (λ pair. (first ≡ TransactionOf pair.first) × (second ≡ TransactionOf pair.second)) }
{
    match (first, second) {
        (Writer::Transaction(x), Writer::Transaction(t)) => Some(Pair {
            first: x,
            second: t,
        }),
        _ => None,
    }
}

/// The two transactions, if the claim at a place is that one is before the other.
pub(crate) fn pair_at(shown: &[Shown], place: usize) -> Option<Pair>
    ensures { IfSome result (λ pair. (asked : TheAsked) (log : TheLog) (e : Explanation) → AllHold asked log e shown.now → IsBefore e pair.first pair.second) }
{
    let Some(turn) = turn_at(shown, place) else {
        return None;
    };
    pair_of(turn.first, turn.second)
}

/// Whether the claim at a place is that one writer is before another.
pub(crate) fn is_before(shown: &[Shown], place: usize, first: Writer, second: Writer) -> bool
    ensures { IsTrue result → (asked : TheAsked) (log : TheLog) (e : Explanation) → AllHold asked log e shown.now → rank e.order first < rank e.order second }
{
    let Some(turn) = turn_at(shown, place) else {
        return false;
    };
    if !is_same(turn.first, first) {
        return false;
    }
    is_same(turn.second, second)
}

/// Whether a transaction takes place: it is known to have committed, or the claim at the place says so.
pub(crate) fn takes_place(log: &Log, shown: &[Shown], t: usize, taken: Option<usize>) -> bool
    ensures { IsTrue result → (asked : TheAsked) (e : Explanation) → Explains asked log.now e → AllHold asked log.now e shown.now → TakesPlace e t }
{
    if is_committed(log, t) {
        return true;
    }
    let Some(place) = taken else {
        return false;
    };
    match claim_at(shown, place) {
        Some(Claim::Occurs(x)) => x == t,
        _ => false,
    }
}

/// A read of a reader with a writer.
#[derive(Clone, Copy)]
pub(crate) struct Found {
    pub reader: usize,
    pub place: Place,
    pub writer: Writer,
}

/// The source of a read, if the claim at a place names it.
pub(crate) fn source_at(shown: &[Shown], place: usize) -> Option<Found>
    ensures { IfSome result (λ found. (asked : TheAsked) (log : TheLog) (e : Explanation) → AllHold asked log e shown.now → Holds asked log e (Source found.reader found.place found.writer)) }
{
    match claim_at(shown, place) {
        Some(
            Claim::Source {
                reader,
                place: r,
                writer,
            },
        ) => Some(Found {
            reader,
            place: r,
            writer,
        }),
        _ => None,
    }
}

/// Who is not the source of a read, if the claim at a place says so.
pub(crate) fn not_at(shown: &[Shown], place: usize) -> Option<Found>
    ensures { IfSome result (λ found. (asked : TheAsked) (log : TheLog) (e : Explanation) → AllHold asked log e shown.now → Holds asked log e (Not found.reader found.place found.writer)) }
{
    match claim_at(shown, place) {
        Some(
            Claim::Not {
                reader,
                place: r,
                writer,
            },
        ) => Some(Found {
            reader,
            place: r,
            writer,
        }),
        _ => None,
    }
}

/// What is left of the candidates of a read.
#[derive(Clone, Copy)]
pub(crate) struct Left {
    pub reader: usize,
    pub place: Place,
    pub number: usize,
    pub end: usize,
}

/// The candidates that the claim at a place leaves.
pub(crate) fn left_at(shown: &[Shown], place: usize) -> Option<Left>
    ensures { IfSome result (λ left. (asked : TheAsked) (log : TheLog) (e : Explanation) → AllHold asked log e shown.now → Holds asked log e (From left.reader left.place left.number left.end)) }
{
    match claim_at(shown, place) {
        Some(
            Claim::From {
                reader,
                place: r,
                number,
                end,
            },
        ) => Some(Left {
            reader,
            place: r,
            number,
            end,
        }),
        _ => None,
    }
}

/// A read of a reader with a transaction.
#[derive(Clone, Copy)]
pub(crate) struct Met {
    pub reader: usize,
    pub place: Place,
    pub transaction: usize,
}

/// The transaction that a read sees, if the claim at a place says so.
pub(crate) fn visible_at(shown: &[Shown], place: usize) -> Option<Met>
    ensures { IfSome result (λ met. (asked : TheAsked) (log : TheLog) (e : Explanation) → AllHold asked log e shown.now → Holds asked log e (Visible met.reader met.place met.transaction)) }
{
    match claim_at(shown, place) {
        Some(
            Claim::Visible {
                reader,
                place: r,
                transaction,
            },
        ) => Some(Met {
            reader,
            place: r,
            transaction,
        }),
        _ => None,
    }
}

/// The reader, its read and the transaction that is its source, if the claim at a place names one.
pub(crate) fn edge_at(log: &Log, shown: &[Shown], place: usize) -> Option<Met>
    ensures { IfSome result (λ met. (asked : TheAsked) (e : Explanation) → AllHold asked log.now e shown.now → TakesPlace e met.reader × ReadsFrom log.now e met.reader met.transaction) }
{
    let Some(found) = source_at(shown, place) else {
        return None;
    };
    let Some(_read) = read_at(log, found.reader, found.place) else {
        return None;
    };
    match found.writer {
        Writer::Opening => None,
        Writer::Transaction(x) => Some(Met {
            reader: found.reader,
            place: found.place,
            transaction: x,
        }),
    }
}
