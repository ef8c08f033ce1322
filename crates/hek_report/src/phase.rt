//! The state of a transaction in words.
use hek_rules::State;
use std::fmt;

/// The state of a transaction, as texts have it; of an aborted one with the cause.
#[derive(Clone, Copy, Debug, PartialEq, Eq)]
pub struct StateText(pub State);

impl fmt::Display for StateText {
    fn fmt<W: fmt::Write>(&self, f: &mut fmt::Formatter<W>) -> fmt::Result {
        let word = match self.0 {
            State::NotBegun => "not begun",
            State::Active => "active",
            State::Preparing => "preparing",
            State::Committed => "committed",
            State::Terminated => "terminated",
            State::Aborted(cause) => {
                f.write_str("aborted ")?;
                cause.word()
            }
        };
        f.write_str(word)
    }
}
