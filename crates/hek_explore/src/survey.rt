//! What is told of an exploration while it goes on.

/// Is told how far an exploration has come.
pub trait Survey {
    /// Each order has this many moves.
    fn begin(&mut self, moves: u64);

    /// The play of the beginning of an order is made.
    fn count_play(&mut self);

    /// One more move is played in every order, and the beginnings lead to this many states.
    fn end_layer(&mut self, states: usize);
}
