//! Lines of text: those of a trace with what is under them, and those of a state.
mod changes;
mod field;
mod looked;
mod met;
mod putting;
mod reason;
mod refused;
mod released;
mod state;
mod step;
mod word;

pub use reason::put_reasons;
pub use released::put_release;
pub use state::{clock_line, put_bucket, put_state, put_txn, put_version, state_lines};
pub use step::put_told;
