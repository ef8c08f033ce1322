//! Orders of moves, one after another, as words in a dictionary.
ghost use Rattle.std.specs.Prelude.{◌≡◌, ◌+◌, ◌<◌, MatchBool, MatchOption, length, slice_index, reverse};
ghost use Rattle.hek_permute.specs.Orders.{IsLast, IsNext};
ghost use Rattle.hek_permute.specs.Falls.{IsFalling, IsLastAbove, IsTurn};

use hek_rules::TxnId;

/// Replaces an order by the next one of the same moves. Answers false for the last order, which stays.
pub fn next_order(order: &mut [TxnId]) -> bool
    ensures { MatchBool result (IsNext order.old order.new) (IsLast order.old × (order.new ≡ order.old)) }
{
    match turn_of(order) {
        Some(place) => {
            turn(order, place);
            true
        }
        None => false,
    }
}

/// The next order, if there is one.
pub(crate) fn advance(order: &mut Vec<TxnId>) -> bool
    ensures { MatchBool result (IsNext order.old.items order.new.items) (IsLast order.old.items) }
{
    next_order(order.as_mut_slice())
}

/// The last place whose transaction is below the next one; the transactions after the place fall or stay equal.
fn turn_of(order: &[TxnId]) -> Option<usize>
    ensures { MatchOption result (IsFalling order.now) (IsTurn order.now) }
{
    let mut place = order.len();
    while place > 1 {
        place -= 1;
        if order[place - 1] < order[place] {
            return Some(place - 1);
        }
    }
    None
}

/// Makes the turn at a place: the least transaction after the place that is greater moves to it, and those after it
/// then rise.
fn turn(order: &mut [TxnId], place: usize)
    requires { IsTurn order.old place }
    ensures { IsNext order.old order.new }
{
    let (front, tail) = order.split_at_mut(place + 1);
    let less = front[place];
    let other = last_above(tail, less);
    front[place] = tail[other];
    tail[other] = less;
    tail.reverse();
}

/// The last place of a transaction above `less`, in a list that falls and whose first transaction is above `less`.
fn last_above(tail: &[TxnId], less: TxnId) -> usize
    requires some { 0 < length tail.now }
    requires above { less < slice_index tail.now 0 }
    ensures { IsLastAbove tail.now less result }
{
    let mut place = 0;
    while place + 1 < tail.len() && less < tail[place + 1] {
        place += 1;
    }
    place
}
