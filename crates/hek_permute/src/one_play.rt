//! Laws of plays: who moves when is settled by the order alone, and without rules so is what a move is.
ghost use Rattle.hek_permute.specs.OnePlay.{EachOrderHasOneOutcome, EachOrderHasOnePlay, PlainMovesAreConstant};

/// Each order of moves has one play: the schedule, the order and the rule table settle who makes which event when, which
/// transactions are asked again, and when there is a `detect`.
pub fn each_order_has_one_play()
    ensures { EachOrderHasOnePlay }
{}

/// Each order of moves has one outcome.
pub fn each_order_has_one_outcome()
    ensures { EachOrderHasOneOutcome }
{}

/// Where no step has a rule, a transaction's moves are its reads and writes, whatever it has seen.
pub fn plain_moves_are_constant()
    ensures { PlainMovesAreConstant }
{}
