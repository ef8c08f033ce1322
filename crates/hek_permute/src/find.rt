//! The shortest beginning of an order in which a reply comes.
ghost use Rattle.std.specs.Prelude.{◌≡◌, ◌↔◌, ◌<◌, IfOk, IfSome, IsTrue, MatchBool, Option, Some, length, take};
ghost use Rattle.std.specs.Option.{option_map};
ghost use Rattle.hek_permute.specs.Searches.{HasHit, IsAnswer, IsFoundAt, IsHit, Meets, Misses, IsFound};
ghost use Rattle.hek_permute.specs.Wholes.{first_in};

use crate::fault::OrderFault;
use crate::moves::{Form, Moves, first_order, moves_of};
use crate::order::advance;
use crate::play::play_order;
use hek_program::Rule;
use hek_rules::{Reply, Schedule, TxnId};
use hek_worker::Entry;
use std::alloc::Global;

/// A reply that is looked for, of one transaction or of any.
#[derive(Drop, Debug)]
pub struct Sought {
    pub who: Option<TxnId>,
    pub reply: Reply,
}

impl Sought {
    /// Whether an entry of a history has the reply.
    pub fn is_of(&self, entry: &Entry) -> bool
        ensures { IsTrue result ↔ IsHit self.now entry.now }
    {
        let own = match self.who {
            Some(txn) => entry.worker == txn,
            None => true,
        };
        own && entry.reply.same(&self.reply)
    }
}

/// Counts the plays of a search. No contract says what it sees.
pub trait Pace {
    /// `find_order` calls this before each play.
    fn count_play(&mut self);
}

/// The moves of a schedule's transactions after which the reply has come, if it comes in the play of an order: the
/// shortest beginning of an order, and of equally long ones the first. Without an answer no order has the reply.
pub fn find_order<P: Pace>(
    alloc: Global,
    schedule: &Schedule,
    rules: &[Rule],
    form: Form,
    sought: &Sought,
    pace: &mut P,
) -> Result<Option<Vec<TxnId>>, OrderFault>
    ensures { IfOk result (λ found. IsAnswer schedule.now rules.now form sought.now (option_map (λ v. v.items) found)) }
{
    let moves = moves_of(alloc, schedule, rules)?;
    let first = first_order(alloc, moves.as_slice(), form)?;
    find_shortest(
        alloc,
        schedule,
        moves.as_slice(),
        form,
        sought,
        first.len(),
        pace,
    )
}

/// The same, by the number of moves.
fn find_shortest<P: Pace>(
    alloc: Global,
    schedule: &Schedule,
    moves: &[Moves],
    form: Form,
    sought: &Sought,
    most: usize,
    pace: &mut P,
) -> Result<Option<Vec<TxnId>>, OrderFault>
    requires { most ≡ length (first_in form moves.now) }
    ensures { IfOk result (λ found. IsFound schedule.now form moves.now sought.now (option_map (λ v. v.items) found)) }
{
    for less in 0..most {
        let found = find_at(alloc, schedule, moves, form, sought, less + 1, pace)?;
        if found.is_some() {
            return Ok(found);
        }
    }
    Ok(None)
}

/// The first order that has the reply in its first `count` moves: these moves.
fn find_at<P: Pace>(
    alloc: Global,
    schedule: &Schedule,
    moves: &[Moves],
    form: Form,
    sought: &Sought,
    count: usize,
    pace: &mut P,
) -> Result<Option<Vec<TxnId>>, OrderFault>
    ensures { IfOk result (λ found. IsFoundAt schedule.now form moves.now sought.now count (option_map (λ v. v.items) found)) }
{
    let mut order = first_order(alloc, moves, form)?;
    let mut tried = None;
    for _ in 0..u64::MAX {
        let front = front_of(order.as_slice(), count);
        if meets_anew(
            alloc, schedule, moves, form, sought, front, &mut tried, pace,
        )? {
            return Ok(tried);
        }
        if !advance(&mut order) {
            return Ok(None);
        }
    }
    Err(OrderFault::TooMany)
}

/// The first moves of an order.
fn front_of(order: &[TxnId], count: usize) -> &[TxnId]
    ensures { result.now ≡ take count order.now }
{
    match order.get(..count) {
        Some(front) => front,
        None => order,
    }
}

/// Whether a play of these moves has the reply; they become the ones that were tried last. Moves that were tried last
/// do not have it, and are not played again.
fn meets_anew<P: Pace>(
    alloc: Global,
    schedule: &Schedule,
    moves: &[Moves],
    form: Form,
    sought: &Sought,
    front: &[TxnId],
    tried: &mut Option<Vec<TxnId>>,
    pace: &mut P,
) -> Result<bool, OrderFault>
    requires { IfSome tried.old (λ v. Misses schedule.now form moves.now sought.now v.items) }
    ensures right { IfOk result (λ yes. MatchBool yes (Meets schedule.now form moves.now sought.now front.now) (Misses schedule.now form moves.now sought.now front.now)) }
    ensures tried { IfOk result (λ yes. option_map (λ v. v.items) tried.new ≡ Some front.now) }
{
    if is_that(tried, front) {
        return Ok(false);
    }
    let found = meets(alloc, schedule, moves, form, sought, front, pace)?;
    *tried = Some(Vec::from_slice(alloc, front)?);
    Ok(found)
}

/// Whether these are the moves that were tried last.
fn is_that(tried: &Option<Vec<TxnId>>, front: &[TxnId]) -> bool
    ensures { IsTrue result → option_map (λ v. v.items) tried.now ≡ Some front.now }
{
    match tried {
        Some(tried) => tried.as_slice() == front,
        None => false,
    }
}

/// Whether a play of these moves has the reply.
fn meets<P: Pace>(
    alloc: Global,
    schedule: &Schedule,
    moves: &[Moves],
    form: Form,
    sought: &Sought,
    front: &[TxnId],
    pace: &mut P,
) -> Result<bool, OrderFault>
    ensures { IfOk result (λ yes. MatchBool yes (Meets schedule.now form moves.now sought.now front.now) (Misses schedule.now form moves.now sought.now front.now)) }
{
    pace.count_play();
    let play = play_order(alloc, schedule, moves, form, front)?;
    Ok(has_hit(play.history.as_slice(), sought))
}

/// Whether an entry of a history has the reply.
fn has_hit(history: &[Entry], sought: &Sought) -> bool
    ensures { IsTrue result ↔ HasHit sought.now history.now }
{
    let mut rest = history;
    while let Some((entry, later)) = rest.split_first() {
        if sought.is_of(entry) {
            return true;
        }
        rest = later;
    }
    false
}
