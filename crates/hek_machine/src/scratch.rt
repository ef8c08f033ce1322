//! Lists that an event uses while it runs.
use hek_rules::{Effect, VersionId};
use std::alloc::Global;

/// The result of a walk along the versions of a key: how many it met, and the last one seen.
#[derive(Clone, Copy, Debug)]
pub(crate) struct Met {
    pub(crate) count: usize,
    pub(crate) seen: Option<VersionId>,
}

/// The lists of a walk: the versions that it goes over, those of them that it sees, and its effects. They are kept from
/// event to event, so that few events take memory for them; between two events their content has no meaning.
#[derive(Drop)]
pub(crate) struct Scratch {
    pub(crate) versions: Vec<VersionId>,
    pub(crate) seen: Vec<VersionId>,
    pub(crate) effects: Vec<Effect>,
    pub(crate) met: Met,
}

impl Scratch {
    /// Empty lists, which have no memory yet.
    pub(crate) fn new(alloc: Global) -> Scratch {
        Scratch {
            versions: Vec::new(alloc),
            seen: Vec::new(alloc),
            effects: Vec::new(alloc),
            met: Met {
                count: 0,
                seen: None,
            },
        }
    }
}
