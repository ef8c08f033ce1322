//! Record locks (section 4 of the paper) on live words, without a lock around them: threads share the words, and each
//! change of a word is one exchange.
#![tactic(auto)]

mod calls;
mod ends;
mod laws;
mod replies;
mod rule;
mod view;

pub use ends::{LiveWords, Seat};
pub use hek_rules::LockChange;
pub use laws::tokens_follow_replies;
pub use replies::{DropRead, DropWrite, TryRead, TryWrite};
pub use rule::Counted;
pub use view::View;
