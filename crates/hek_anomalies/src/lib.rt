//! What keeps a log from a level: anomalies by their names, each with the cycle of answers, times, versions and sessions that shows it.
#![tactic(auto)]

mod alone;
mod anomaly;
mod cause;
mod cycles;
mod edges;
mod evident;
mod lanes;
mod links;
mod naming;
mod own;
mod steps;
mod telling;

pub use anomaly::Anomaly;
pub use cause::{Answer, Cause, CycleEdge, EdgeKind, Evidence, Sighting, Told};
pub use lanes::{Lane, Lanes};
pub use own::OwnFault;
pub use telling::{Telling, causes_at};
