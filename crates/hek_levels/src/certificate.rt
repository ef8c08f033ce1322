//! An explanation as a list.
/// Where what was found at a key comes from: the opening rows, or a transaction.
#[derive(Clone, Copy, PartialEq, Eq)]
pub enum Writer {
    Opening,
    Transaction(usize),
}

/// The source of a key that is missing in a scan of a transaction.
#[derive(Clone, Copy)]
pub struct Missing {
    pub scan: usize,
    pub key: u64,
    pub writer: Writer,
}

/// The source of each read in the list of a transaction, in their order; and of keys that are missing in its scans. One that is not
/// there is the opening.
#[derive(Drop)]
pub struct Sources {
    pub writers: Vec<Writer>,
    pub missing: Vec<Missing>,
}

/// The transactions that take place, in the order of their commits; and of each transaction of the log the sources.
#[derive(Drop)]
pub struct Certificate {
    pub order: Vec<usize>,
    pub sources: Vec<Sources>,
}
