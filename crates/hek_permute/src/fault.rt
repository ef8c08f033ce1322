//! Why an order cannot be played.
use hek_rules::NoMemory;
use hek_worker::ThreadFault;
use std::alloc::{AllocError, AllocFailed};
use thiserror::Error;

/// Why there is no play of an order, or no tally of the orders.
#[derive(Clone, Copy, Debug, PartialEq, Eq, Error)]
pub enum OrderFault {
    #[error("no memory")]
    NoMemory,
    /// A reply that the grammar of transactions does not allow at its place, or an event of an undeclared transaction.
    /// No play has shown this fault.
    #[error("mismatch")]
    Mismatch,
    /// There are more orders than the limit, or too many to be counted.
    #[error("too many orders")]
    TooMany,
    /// The steps are more than a schedule has, or one is no step of it.
    #[error("too many steps")]
    TooLong,
    /// The watcher asks for no more orders.
    #[error("stopped")]
    Stopped,
}

impl From<NoMemory> for OrderFault {
    fn from(_fault: NoMemory) -> OrderFault {
        OrderFault::NoMemory
    }
}

impl From<AllocError> for OrderFault {
    fn from(_fault: AllocError) -> OrderFault {
        OrderFault::NoMemory
    }
}

impl<T: Drop> From<AllocFailed<T>> for OrderFault {
    fn from(_fault: AllocFailed<T>) -> OrderFault {
        OrderFault::NoMemory
    }
}

impl From<ThreadFault> for OrderFault {
    fn from(fault: ThreadFault) -> OrderFault {
        match fault {
            ThreadFault::NoMemory => OrderFault::NoMemory,
            ThreadFault::NoWorker | ThreadFault::Mismatch(_) => OrderFault::Mismatch,
        }
    }
}
