//! Which known facts bind each explanation.
use hek_history::{Status, Transaction};
use hek_history_log::Log;

/// Which facts bind.
#[derive(Clone, Copy, PartialEq, Eq)]
pub struct Binding {
    /// The order of the versions of each key.
    pub versions: bool,
    /// A transaction that was answered before another was invoked is before it.
    pub real: bool,
    /// A transaction is after those before it in its session.
    pub sessions: bool,
}

/// Which facts the words ask to bind: none said, those that the log has.
#[derive(Clone, Copy)]
pub struct Wish {
    /// Versions and real time.
    pub order: Option<(bool, bool)>,
    pub sessions: Option<bool>,
}

impl Wish {
    /// What the words `any`, `versions`, `real`, or some of them with commas between ask for.
    pub fn order_named(text: &str) -> Option<(bool, bool)> {
        let mut order = (false, false);
        if text == "any" {
            return Some(order);
        }
        for word in text.split(',') {
            match word {
                "versions" => order.0 = true,
                "real" => order.1 = true,
                _ => return None,
            }
        }
        Some(order)
    }
}

impl Binding {
    /// What binds in a log: what is wished, or else what it has.
    pub fn of(log: &Log, wish: Wish) -> Binding {
        let (versions, real) = match wish.order {
            Some(order) => order,
            None => (knows_versions(log), false),
        };
        Binding {
            versions,
            real,
            sessions: log.has_sessions() && wish.sessions != Some(false),
        }
    }

    /// The word of the order.
    pub fn word(self) -> &'static str {
        match (self.versions, self.real) {
            (false, false) => "any",
            (true, false) => "versions",
            (false, true) => "real",
            (true, true) => "versions,real",
        }
    }
}

/// Whether a log says in which order the versions of keys came to be: writes have version numbers, or all who committed have an end.
fn knows_versions(log: &Log) -> bool {
    log.has_versions() || !log.history.transactions.iter().any(lacks_end)
}

/// Whether a transaction has committed, and has no end.
fn lacks_end(transaction: &Transaction) -> bool {
    transaction.status == Status::Committed && transaction.end.is_none()
}

/// Whether a log has a time of some transaction.
pub fn has_times(log: &Log) -> bool {
    log.history
        .transactions
        .iter()
        .any(|one| one.invoked.is_some() || one.answered.is_some())
}
