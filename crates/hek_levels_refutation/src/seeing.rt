//! The rules of a certificate by which a read sees a transaction.
ghost use Rattle.std.specs.Prelude.{◌≡◌, ℕ, Option, Some, IsTrue, IfSome};
ghost use Rattle.hek_levels.specs.declared.log.Read.{Read as TheRead};
ghost use Rattle.hek_levels.specs.declared.certificate.Writer.TheVariants.{Transaction as TransactionOf};
ghost use Rattle.hek_levels.specs.Logs.{read_at as read_there};
ghost use Rattle.hek_levels.specs.Seen.{Explanation, IsLinked, Precedes, SeesByOwn};
ghost use Rattle.hek_levels.specs.Levels.{asked_of};
ghost use Rattle.hek_levels.specs.Explanations.{Explains};
ghost use Rattle.hek_levels_refutation.specs.Claims.{AllHold, FollowsFrom};

use crate::claim::{Claim, Context, Link};
use crate::premises::{edge_at, is_before, pair_at, source_at, takes_place, visible_at};
use hek_levels::{Links, Own, Place, Writer, does_write, is_earlier, read_at};

/// Both write the key, the other before y.
fn by_writers(
    context: &Context<'_>,
    links: Links,
    y: usize,
    other: usize,
    key: u64,
    before: usize,
) -> Option<usize>
    ensures { IfSome result (λ x. (e : Explanation) → Explains context.now.asked.now context.now.log.now e → AllHold context.now.asked.now context.now.log.now e context.now.shown.now → IsLinked links context.now.log.now e y x) }
{
    if !links.writers {
        return None;
    }
    if !does_write(context.log, other, key) {
        return None;
    }
    if !does_write(context.log, y, key) {
        return None;
    }
    if !is_before(
        context.shown,
        before,
        Writer::Transaction(other),
        Writer::Transaction(y),
    ) {
        return None;
    }
    Some(other)
}

/// The other is before y, by turns too.
fn precedes(context: &Context<'_>, y: usize, other: usize, before: usize) -> bool
    ensures { IsTrue result → (e : Explanation) → AllHold context.now.asked.now context.now.log.now e context.now.shown.now → Precedes context.now.log.now e other y }
{
    if !is_earlier(context.log, other, y) {
        return false;
    }
    is_before(
        context.shown,
        before,
        Writer::Transaction(other),
        Writer::Transaction(y),
    )
}

/// A turn of the other is before one of y.
fn by_turn(
    context: &Context<'_>,
    links: Links,
    y: usize,
    other: usize,
    before: usize,
) -> Option<usize>
    ensures { IfSome result (λ x. (e : Explanation) → Explains context.now.asked.now context.now.log.now e → AllHold context.now.asked.now context.now.log.now e context.now.shown.now → IsLinked links context.now.log.now e y x) }
{
    if !links.turns {
        return None;
    }
    if !precedes(context, y, other, before) {
        return None;
    }
    Some(other)
}

/// One whose turn is before one of y reads from the other.
fn by_reads(
    context: &Context<'_>,
    links: Links,
    y: usize,
    through: usize,
    before: usize,
    source: usize,
) -> Option<usize>
    ensures { IfSome result (λ x. (e : Explanation) → Explains context.now.asked.now context.now.log.now e → AllHold context.now.asked.now context.now.log.now e context.now.shown.now → IsLinked links context.now.log.now e y x) }
{
    if !links.turn_reads {
        return None;
    }
    if !precedes(context, y, through, before) {
        return None;
    }
    let Some(met) = edge_at(context.log, context.shown, source) else {
        return None;
    };
    if met.reader != through {
        return None;
    }
    Some(met.transaction)
}

/// Whom y sees by a link.
fn linked(context: &Context<'_>, links: Links, y: usize, link: Link) -> Option<usize>
    ensures { IfSome result (λ x. (e : Explanation) → Explains context.now.asked.now context.now.log.now e → AllHold context.now.asked.now context.now.log.now e context.now.shown.now → IsLinked links context.now.log.now e y x) }
{
    match link {
        Link::Writers { other, key, before } => by_writers(context, links, y, other, key, before),
        Link::Turn { other, before } => by_turn(context, links, y, other, before),
        Link::Reads {
            through,
            before,
            source,
        } => by_reads(context, links, y, through, before, source),
    }
}

/// Whether the q-th read of t shows the r-th its source.
fn shows_own(context: &Context<'_>, t: usize, q: Place, r: Place) -> bool
    ensures { IsTrue result → (e : Explanation) (x : ℕ) → e.source t q ≡ TransactionOf x → (read : TheRead) → read_there context.now.log.now t r ≡ Some read → SeesByOwn (asked_of context.now.asked.now t).own context.now.log.now e t read.operation x }
{
    let Some(shown) = read_at(context.log, t, q) else {
        return false;
    };
    let Some(reading) = read_at(context.log, t, r) else {
        return false;
    };
    let rules = context.asked.of(t);
    match rules.own {
        Own::Nothing => false,
        Own::Earlier => shown.operation <= reading.operation,
        Own::All => true,
    }
}

/// A read sees the source of a read of its transaction.
pub(crate) fn own(context: &Context<'_>, source: usize, r: Place) -> Option<Claim>
    ensures { IfSome result (λ claim. FollowsFrom context.now claim) }
{
    let Some(found) = source_at(context.shown, source) else {
        return None;
    };
    let Writer::Transaction(x) = found.writer else {
        return None;
    };
    if !shows_own(context, found.reader, found.place, r) {
        return None;
    }
    Some(Claim::Visible {
        reader: found.reader,
        place: r,
        transaction: x,
    })
}

/// A read sees who is before its transaction.
pub(crate) fn whole(
    context: &Context<'_>,
    before: usize,
    r: Place,
    taken: Option<usize>,
) -> Option<Claim>
    ensures { IfSome result (λ claim. FollowsFrom context.now claim) }
{
    let Some(pair) = pair_at(context.shown, before) else {
        return None;
    };
    let rules = context.asked.of(pair.second);
    if !rules.whole {
        return None;
    }
    if !takes_place(context.log, context.shown, pair.second, taken) {
        return None;
    }
    Some(Claim::Visible {
        reader: pair.second,
        place: r,
        transaction: pair.first,
    })
}

/// A read sees what its transaction does by writes or by its session.
pub(crate) fn by_link(
    context: &Context<'_>,
    t: usize,
    r: Place,
    taken: Option<usize>,
    link: Link,
) -> Option<Claim>
    ensures { IfSome result (λ claim. FollowsFrom context.now claim) }
{
    if !takes_place(context.log, context.shown, t, taken) {
        return None;
    }
    let rules = context.asked.of(t);
    let Some(x) = linked(context, rules.first, t, link) else {
        return None;
    };
    Some(Claim::Visible {
        reader: t,
        place: r,
        transaction: x,
    })
}

/// What is seen shows who is before it.
pub(crate) fn shows_before(context: &Context<'_>, visible: usize, before: usize) -> Option<Claim>
    ensures { IfSome result (λ claim. FollowsFrom context.now claim) }
{
    let Some(met) = visible_at(context.shown, visible) else {
        return None;
    };
    let rules = context.asked.of(met.reader);
    if !rules.prefix {
        return None;
    }
    let Some(pair) = pair_at(context.shown, before) else {
        return None;
    };
    if pair.second != met.transaction {
        return None;
    }
    Some(Claim::Visible {
        reader: met.reader,
        place: met.place,
        transaction: pair.first,
    })
}

/// What is seen shows its source.
pub(crate) fn shows(context: &Context<'_>, visible: usize, source: usize) -> Option<Claim>
    ensures { IfSome result (λ claim. FollowsFrom context.now claim) }
{
    let Some(met) = visible_at(context.shown, visible) else {
        return None;
    };
    let rules = context.asked.of(met.reader);
    if !rules.causes {
        return None;
    }
    let Some(edge) = edge_at(context.log, context.shown, source) else {
        return None;
    };
    if edge.reader != met.transaction {
        return None;
    }
    Some(Claim::Visible {
        reader: met.reader,
        place: met.place,
        transaction: edge.transaction,
    })
}

/// What is seen shows what it sees by writes or by its session.
pub(crate) fn shows_linked(context: &Context<'_>, visible: usize, link: Link) -> Option<Claim>
    ensures { IfSome result (λ claim. FollowsFrom context.now claim) }
{
    let Some(met) = visible_at(context.shown, visible) else {
        return None;
    };
    let rules = context.asked.of(met.reader);
    let Some(x) = linked(context, rules.next, met.transaction, link) else {
        return None;
    };
    Some(Claim::Visible {
        reader: met.reader,
        place: met.place,
        transaction: x,
    })
}
