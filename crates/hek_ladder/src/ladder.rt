//! The levels of a log, one after another, the strongest first: what fails at one fails at each stronger one, and what holds at one holds
//! at each that it implies.
use crate::asking::{Finding, ask, fails_too};
use crate::promise::Promise;
use crate::scene::Scene;
use hek_levels_search::Shown;
use hek_rules::NoMemory;
use std::alloc::Global;

/// How a level stands.
#[derive(Clone, Copy, PartialEq, Eq)]
pub enum Standing {
    Holds,
    Fails,
    Unknown,
}

/// A level, and how it stands.
#[derive(Clone, Copy)]
pub struct Rung {
    pub promise: Promise,
    pub standing: Standing,
}

/// Where the questions stand.
#[derive(Drop)]
pub struct Ladder {
    next: usize,
    /// The weakest level that is known to fail, with what shows that.
    failed: Option<(Promise, Finding)>,
    /// The strongest levels that hold.
    held: Vec<Promise>,
    /// What shows that the first of them holds.
    shown: Option<Shown>,
}

impl Ladder {
    /// Nothing was asked.
    pub fn new(alloc: Global) -> Ladder {
        Ladder {
            next: 0,
            failed: None,
            held: Vec::new(alloc),
            shown: None,
        }
    }

    /// A level is known to fail, and those that it implies are asked next.
    pub fn below(alloc: Global, promise: Promise, found: Finding) -> Ladder {
        let mut ladder = Ladder::new(alloc);
        let place = Promise::LEVELS.iter().position(|one| *one == promise);
        ladder.next = place.map_or(Promise::LEVELS.len(), |place| place.saturating_add(1));
        ladder.failed = Some((promise, found));
        ladder
    }

    /// The weakest level that is known to fail, with what shows that.
    pub fn failed(&self) -> Option<(Promise, &Finding)> {
        match &self.failed {
            Some((promise, finding)) => Some((*promise, finding)),
            None => None,
        }
    }

    /// The levels that hold, of those that none implies that was found to hold before.
    pub fn held(&self) -> &[Promise] {
        self.held.as_slice()
    }

    /// What shows that the strongest level holds that does.
    pub fn shown(&self) -> Option<&Shown> {
        self.shown.as_ref()
    }

    /// How the next level stands; None, if all were asked.
    pub fn next(&mut self, scene: &Scene) -> Result<Option<Rung>, NoMemory> {
        let Some(promise) = Promise::LEVELS.get(self.next).copied() else {
            return Ok(None);
        };
        self.next = self.next.saturating_add(1);
        let standing = if self.is_implied(promise) {
            Standing::Holds
        } else {
            self.find(scene, promise)?
        };
        Ok(Some(Rung { promise, standing }))
    }

    /// Whether a level that holds implies another.
    fn is_implied(&self, promise: Promise) -> bool {
        self.held.iter().any(|one| one.implies(promise))
    }

    /// Whether the steps of a stronger level show that another fails too.
    fn has_failed(&mut self, scene: &Scene, promise: Promise) -> Result<bool, NoMemory> {
        let Some((_, Finding::Fails(steps))) = &self.failed else {
            return Ok(false);
        };
        let fails = fails_too(scene, promise, steps.as_slice())?;
        if fails {
            if let Some(failed) = &mut self.failed {
                failed.0 = promise;
            }
        }
        Ok(fails)
    }

    /// Finds how a level stands.
    fn find(&mut self, scene: &Scene, promise: Promise) -> Result<Standing, NoMemory> {
        if self.has_failed(scene, promise)? {
            return Ok(Standing::Fails);
        }
        match ask(scene, promise)? {
            Finding::Holds(shown) => {
                self.held.push(promise)?;
                if self.shown.is_none() {
                    self.shown = Some(shown);
                }
                Ok(Standing::Holds)
            }
            Finding::Unknown(_) => Ok(Standing::Unknown),
            found => {
                self.failed = Some((promise, found));
                Ok(Standing::Fails)
            }
        }
    }
}
