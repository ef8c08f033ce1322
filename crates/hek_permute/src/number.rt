//! The orders of moves by their numbers. The first order in a dictionary has the number 0.
ghost use Rattle.std.specs.Prelude.{◌≡◌, ◌+◌, ◌*◌, ◌/◌, ◌<◌, ◌≤◌, ◌∷◌, [], ◌++◌, List, ℕ, IfOk, MatchOption, Some, slice_get};
ghost use Rattle.hek_permute.specs.Moves.{counts_of};
ghost use Rattle.hek_permute.specs.Numbers.{AllOrdersAreNumbered, AreTooMany, IsCount, IsFirstMove, all_orders, order_total};

use crate::fault::OrderFault;
use crate::moves::{Form, Moves, move_count};
use hek_rules::{NoMemory, TxnId};
use std::alloc::Global;

/// How many moves some transactions have in all, and how many orders there are of these.
#[derive(Clone, Copy)]
struct Count {
    moves: u64,
    orders: u64,
}

impl Count {
    /// The count with one more move of the last transaction, which has `many` without it.
    fn with_move(self, many: u64) -> Option<Count>
        ensures { (before : List ℕ) → IsCount (before ++ many ∷ []) self.moves self.orders → MatchOption result (AreTooMany (before ++ (many + 1) ∷ [])) (λ count. IsCount (before ++ (many + 1) ∷ []) count.moves count.orders) }
    {
        let moves = self.moves.checked_add(1)?;
        let orders = self.orders as u128 * moves as u128 / (many as u128 + 1);
        if orders > u64::MAX as u128 {
            return None;
        }
        Some(Count {
            moves,
            orders: orders as u64,
        })
    }

    /// The count with one more transaction, which has `many` moves.
    fn with(self, many: u64) -> Option<Count>
        ensures { (before : List ℕ) → IsCount before self.moves self.orders → MatchOption result (AreTooMany (before ++ many ∷ [])) (λ count. IsCount (before ++ many ∷ []) count.moves count.orders) }
    {
        let mut count = self;
        for done in 0..many {
            count = count.with_move(done)?;
        }
        Some(count)
    }
}

/// The orders that have numbers are all orders of the moves, each once.
pub fn all_orders_are_numbered()
    ensures { AllOrdersAreNumbered }
{}

/// How many orders of moves there are; None if these, or the moves, are 2^64 or more.
pub fn order_count(moves: &[Moves], form: Form) -> Option<u64>
    ensures { MatchOption result (AreTooMany (counts_of form moves.now)) (λ count. count ≡ order_total (counts_of form moves.now)) }
{
    let count = count_of(moves, form)?;
    Some(count.orders)
}

/// How many moves there are, and orders of them.
fn count_of(moves: &[Moves], form: Form) -> Option<Count>
    ensures { MatchOption result (AreTooMany (counts_of form moves.now)) (λ count. IsCount (counts_of form moves.now) count.moves count.orders) }
{
    let mut count = Count {
        moves: 0,
        orders: 1,
    };
    for of_one in moves {
        count = count.with(move_count(of_one, form) as u64)?;
    }
    Some(count)
}

/// An order's number, from 0, and how many orders there are of the same moves.
#[derive(Clone, Copy)]
struct Rank {
    number: u64,
    orders: u64,
}

/// The order with a number, from 0; None if there are no more orders than that. If there are too many orders to count,
/// none is found.
pub fn order_at(
    alloc: Global,
    moves: &[Moves],
    form: Form,
    number: u64,
) -> Result<Option<Vec<TxnId>>, OrderFault>
    ensures { IfOk result (λ at. MatchOption at (order_total (counts_of form moves.now) ≤ number) (λ order. slice_get (all_orders (counts_of form moves.now)) number ≡ Some order.items)) }
{
    let Some(count) = count_of(moves, form) else {
        return Err(OrderFault::TooMany);
    };
    if number >= count.orders {
        return Ok(None);
    }
    let counts = counts_of(alloc, moves, form)?;
    let rank = Rank {
        number,
        orders: count.orders,
    };
    Ok(Some(order_of(alloc, counts, count.moves, rank)?))
}

/// How many moves each transaction has.
fn counts_of(alloc: Global, moves: &[Moves], form: Form) -> Result<Vec<u64>, NoMemory>
    ensures { IfOk result (λ counts. counts.items ≡ counts_of form moves.now) }
{
    let mut counts = Vec::with_capacity(alloc, moves.len())?;
    for of_one in moves {
        counts.push(move_count(of_one, form) as u64)?;
    }
    Ok(counts)
}

/// The order of a rank; `counts` are the moves of each transaction, `moves` in all.
fn order_of(
    alloc: Global,
    mut counts: Vec<u64>,
    moves: u64,
    mut rank: Rank,
) -> Result<Vec<TxnId>, NoMemory>
    requires is_count { IsCount counts.items moves rank.orders }
    requires below { rank.number < rank.orders }
    ensures { IfOk result (λ order. slice_get (all_orders counts.items) rank.number ≡ Some order.items) }
{
    let mut order = Vec::new(alloc);
    for done in 0..moves {
        let (place, later) = first_move(counts.as_slice(), moves - done, rank);
        order.push(TxnId::new(place as u64 + 1))?;
        counts[place] -= 1;
        rank = later;
    }
    Ok(order)
}

/// The place of the transaction that has the first move in the order of a rank, and the rank of the rest of this order.
fn first_move(counts: &[u64], moves: u64, rank: Rank) -> (usize, Rank)
    requires some { 0 < moves }
    requires is_count { IsCount counts.now moves rank.orders }
    requires below { rank.number < rank.orders }
    ensures { IsFirstMove counts.now rank.number result.0 result.1.number result.1.orders }
{
    let mut number = rank.number;
    for (place, many) in counts.iter().enumerate() {
        let orders = share(rank.orders, *many, moves);
        if number < orders {
            return (place, Rank { number, orders });
        }
        number -= orders;
    }
    unreachable!()
}

/// How many of some orders begin with one of the `many` moves of a transaction; they have `moves` moves.
fn share(orders: u64, many: u64, moves: u64) -> u64
    requires some { 0 < moves }
    requires part { many ≤ moves }
    ensures { result ≡ orders * many / moves }
{
    (orders as u128 * many as u128 / moves as u128) as u64
}
