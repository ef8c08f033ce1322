//! What the lanes of turns are.
use hek_levels::Turn;
use hek_rules::NoMemory;
use std::alloc::Global;
use std::collections::HashMap;

/// What has an order that is known.
#[derive(Clone, Copy, PartialEq, Eq, Hash)]
pub enum Lane {
    /// A session, by its number.
    Session(u64),
    RealTime,
    /// The versions of a key, by their numbers.
    Versions(u64),
    /// The versions of a key, by the ends of their writers.
    Ends(u64),
}

/// The lanes of a log, each named by its place.
#[derive(Drop)]
pub struct Lanes {
    all: Vec<Lane>,
    places: HashMap<Lane, usize>,
}

impl Lanes {
    /// No lane.
    pub fn new(alloc: Global) -> Lanes {
        Lanes {
            all: Vec::new(alloc),
            places: HashMap::new(alloc),
        }
    }

    /// The place of a lane, which is new if need be.
    fn place_of(&mut self, lane: Lane) -> Result<usize, NoMemory> {
        if let Some(place) = self.places.get(&lane).copied() {
            return Ok(place);
        }
        let place = self.all.len();
        let _before = self.places.insert(lane, place)?;
        self.all.push(lane)?;
        Ok(place)
    }

    /// A turn in a lane, from a number to another.
    pub fn turn(&mut self, lane: Lane, first: u64, last: u64) -> Result<Turn, NoMemory> {
        let seen = matches!(lane, Lane::Session(_) | Lane::RealTime);
        Ok(Turn {
            lane: self.place_of(lane)?,
            first,
            last,
            seen,
        })
    }

    /// The lane at a place.
    pub fn get(&self, place: usize) -> Option<Lane> {
        self.all.get(place).copied()
    }
}
