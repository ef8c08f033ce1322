//! What a step and a state say, as text and as objects of JSON; the table of replies.
#![tactic(auto)]

pub mod json;
mod looks;
mod phase;
mod released;
mod reply_rules;
mod rule_choice;
pub mod text;
mod told;

pub use reply_rules::{REPLY_RULES, ReplyRule};
pub use rule_choice::reply_rule;
pub use told::{Extras, Told, Why};
