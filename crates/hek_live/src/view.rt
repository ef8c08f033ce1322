//! What a seat knows.
use hek_rules::TxnId;
use std::collections::LinkedList;

/// What a seat knows: the words whose read token it holds; those whose write token it holds, each with the ID; what it
/// met: the word, what was found and what was left; whether it makes the other seats, and how many it made. No value of
/// this type is made.
pub struct View {
    pub reads: LinkedList<u64>,
    pub writes: LinkedList<(u64, TxnId)>,
    pub met: LinkedList<(u64, u64, u64)>,
    pub makes: bool,
    pub made: u64,
}
