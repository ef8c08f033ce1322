//! A step as it is told: its number, its event and reply, and what is asked for beside these.
use hek_why::{Change, Reason, Step};

/// What is asked for with each step.
#[derive(Clone, Copy, Debug, PartialEq, Eq)]
pub struct Extras {
    /// The reasons of the reply, if they are asked for.
    pub why: Option<Why>,
    /// What the step changed.
    pub changes: bool,
}

impl Extras {
    /// Nothing beside event and reply.
    pub const NONE: Extras = Extras {
        why: None,
        changes: false,
    };

    /// The reasons of the reply.
    pub const REASONS: Extras = Extras {
        why: Some(Why::Reasons),
        changes: false,
    };

    /// Whether nothing is asked for.
    pub fn is_none(self) -> bool {
        self.why.is_none() && !self.changes
    }
}

/// How reasons are told.
#[derive(Clone, Copy, Debug, PartialEq, Eq)]
pub enum Why {
    Reasons,
    /// Each reason, and the reply, with the name of the definition that decided it.
    Rules,
}

/// A step with its reasons and its changes, as far as these are asked for.
#[derive(Clone, Copy)]
pub struct Told<'a> {
    pub number: u64,
    pub step: &'a Step<'a>,
    pub why: Option<Why>,
    pub reasons: &'a [Reason],
    pub changes: Option<&'a [Change]>,
}
