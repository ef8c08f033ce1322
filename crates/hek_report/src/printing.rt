//! How a command prints what it has found.

/// The two ways to print.
#[derive(Clone, Copy, Debug, PartialEq, Eq)]
pub enum Printing {
    Text,
    /// Objects of JSON, one on each line.
    Json,
}
