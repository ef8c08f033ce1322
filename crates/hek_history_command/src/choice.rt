//! What the command line asks the command to do.
use hek_history::History;
use hek_ladder::{Levels, Promise, Wish};
use hek_report::Printing;

/// Which anomalies are told.
#[derive(Clone, Copy, PartialEq, Eq)]
pub enum Extent {
    /// The first one.
    First,
    /// All, and how many there are of each name.
    All,
    /// How many there are of each name.
    Counts,
}

impl Extent {
    /// What the words of `--all` ask for.
    pub const WORDS: &'static [&'static str] = &["each", "counts"];

    /// What a word of `--all` asks for.
    pub fn named(word: Option<&str>) -> Extent {
        match word {
            None => Extent::First,
            Some("counts") => Extent::Counts,
            Some(_) => Extent::All,
        }
    }
}

/// Which questions are asked of a log.
#[derive(Clone, Copy, PartialEq, Eq)]
pub enum Asked {
    /// Whether it is serializable, and otherwise at which levels it holds.
    Verdict,
    /// Whether it holds at one level, or has one guarantee.
    One(Promise),
    /// At which levels it holds.
    Levels,
    /// Which guarantees of sessions it has.
    Guarantees,
    /// Both.
    Both,
}

impl Asked {
    /// Which levels the transactions of the log are taken to have.
    pub(crate) fn levels(self) -> Levels {
        match self {
            Asked::One(Promise::Own) => Levels::Own,
            Asked::One(Promise::Repeatable) => Levels::Lenient,
            _ => Levels::All,
        }
    }
}

/// How many repairs of an order a search tries where the words don't say: so many, and so many more for each transaction. A log of 3,000
/// transactions is then given up at each level within seconds, and one of 4,500 scans that miss what others insert is judged.
const EFFORT: usize = 20_000;

const EFFORT_OF_EACH: usize = 12;

/// How many repairs of an order a search of a history tries: where the words don't say, the more the larger it is.
pub(crate) fn effort_for(chosen: Option<usize>, history: &History) -> usize {
    match chosen {
        Some(effort) => effort,
        None => {
            let count = history.transactions.len();
            EFFORT.saturating_add(count.saturating_mul(EFFORT_OF_EACH))
        }
    }
}

/// What the words of the command line ask for.
#[derive(Clone, Copy)]
pub struct Choice {
    pub asked: Asked,
    /// Which known facts bind.
    pub wish: Wish,
    /// Which anomalies are told.
    pub extent: Extent,
    /// How many repairs of an order a search tries before it gives up, if the words say.
    pub effort: Option<usize>,
    /// Whether faults of the log are explained.
    pub explains: bool,
    pub printing: Printing,
}
