//! What the command line asks the command to do.
use crate::find::is_verdict;
use hek_permute::Form;
use hek_report::Printing;
use hek_rules::{Level, number};

/// What the words of the command line ask for.
#[derive(Clone, Copy)]
pub struct Choice<'a> {
    /// The level of all transactions, if not each one's own.
    pub level: Option<Level>,
    pub form: Form,
    /// The most orders that are played, or the most states that they lead to, if not 100,000 and 1,000,000.
    pub limit: Option<u64>,
    /// The number of a part, from 1, and how many parts there are.
    pub part: (u64, u64),
    /// Whether to write a line for each order.
    pub each: bool,
    /// The names of one order, to write the events of that order alone.
    pub order: Option<&'a str>,
    /// Whether to write the outcomes at each level.
    pub levels: bool,
    /// What to look for, to write the shortest beginning of an order in which it comes.
    pub find: Option<&'a str>,
    /// Whether standard error is a terminal, on which the number of orders that have been played is shown.
    pub progress: bool,
    /// Whether to say how many states the orders lead to.
    pub stats: bool,
    pub printing: Printing,
}

/// The most orders that are played, if a choice has no limit.
const MOST_ORDERS: u64 = 100_000;

/// The most states that orders lead to, if a choice has no limit.
const MOST_STATES: u64 = 1_000_000;

impl Choice<'_> {
    /// Whether each order is played by itself: to be written, to look for a reply, or since a part is asked for.
    pub(crate) fn plays_each(&self) -> bool {
        let (_, many) = self.part;
        self.each || self.find.is_some_and(|text| !is_verdict(text)) || many != 1
    }

    /// The exit status where there are too many orders: what is looked for may come in one or in none.
    pub(crate) fn status_unplayed(&self) -> u8 {
        if self.find.is_some() { 3 } else { 1 }
    }

    pub(crate) fn most_orders(&self) -> u64 {
        self.limit.unwrap_or(MOST_ORDERS)
    }

    pub(crate) fn most_states(&self) -> u64 {
        self.limit.unwrap_or(MOST_STATES)
    }
}

/// How outcomes are counted.
#[derive(Clone, Copy)]
pub(crate) enum Extent {
    /// Each order is played: those from a number on, and below another.
    Orders(u64, u64),
    /// Orders that lead to the same state are counted together; there are at most so many states.
    States(u64),
}

/// The part that a text such as `2/8` names: its number, from 1, and the number of parts.
pub fn part_of(text: &str) -> Option<(u64, u64)> {
    let (which, many) = text.split_once('/')?;
    let which = number(which.as_bytes())?;
    let many = number(many.as_bytes())?;
    if which == 0 || which > many {
        return None;
    }
    Some((which, many))
}

/// The orders of a part: the number of the first, from 0, and the number after the last. Parts differ by one at most.
pub(crate) fn range_of(count: u64, part: (u64, u64)) -> (u64, u64) {
    let (which, many) = part;
    let before = which.saturating_sub(1);
    (start_of(count, before, many), start_of(count, which, many))
}

/// How many of `count` orders the first `parts` of `many` parts have.
fn start_of(count: u64, parts: u64, many: u64) -> u64 {
    let each = count.checked_div(many).unwrap_or(0);
    let rest = count.checked_rem(many).unwrap_or(0);
    each.saturating_mul(parts).saturating_add(parts.min(rest))
}
