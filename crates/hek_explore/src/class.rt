//! Classes of beginnings of orders after which the same can happen.
ghost use Rattle.std.specs.Prelude.{◌≡◌, [], IfOk, IfSome, IsTrue, OnOk, Some};
ghost use Rattle.hek_explore.specs.Counts.{AreLike, IsAhead, IsBefore, IsJoined, IsPut};

use crate::key::Key;
use crate::spot::spot_of;
use hek_permute::OrderFault;
use hek_rules::TxnId;
use std::alloc::Global;
use std::collections::HashMap;
use std::marker::Model;

/// For how many classes a layer has room at first.
const ROOM: usize = 64;

/// Beginnings of orders whose plays go on alike: the first of them in a dictionary, how many there are, how many moves
/// each transaction has left, the key of a play, and a bound on the number of events.
#[derive(Drop, Debug)]
pub(crate) struct Class {
    pub(crate) first: Vec<TxnId>,
    pub(crate) orders: u64,
    pub(crate) left: Vec<u64>,
    pub(crate) key: Key,
    pub(crate) longest: u64,
}

impl Model for Class {
    ghost use Rattle.hek_explore.specs.Counts.{Group};

    ghost Value = { Group };

    ghost view = { λ c. record { first = c.first.items; orders = c.orders; left = c.left.items; key = c.key; longest = c.longest } };
}

impl Class {
    /// How many moves each transaction has left.
    pub(crate) fn left(&self) -> &[u64]
        ensures { result.now ≡ self.now.left }
    {
        self.left.as_slice()
    }

    /// The first of the beginnings.
    pub(crate) fn first(&self) -> &[TxnId]
        ensures { result.now ≡ self.now.first }
    {
        self.first.as_slice()
    }

    /// The key of the beginnings' plays.
    pub(crate) fn key(&self) -> &Key
        ensures { result.now ≡ self.now.key }
    {
        &self.key
    }

    /// How many beginnings there are.
    pub(crate) fn orders(&self) -> u64
        ensures { result ≡ self.now.orders }
    {
        self.orders
    }

    /// A bound on the events of a beginning's play.
    pub(crate) fn longest(&self) -> u64
        ensures { result ≡ self.now.longest }
    {
        self.longest
    }

    /// Counts the beginnings of another class as this one's. The other's first beginning has to come after this one's, as
    /// it does where classes are added in the order of their first beginnings.
    fn join(&mut self, other: &Class) -> Result<(), OrderFault>
        ensures { OnOk result (IsJoined self.old other.now self.new) }
    {
        if !is_before(self.first.as_slice(), other.first.as_slice()) {
            return Err(OrderFault::Mismatch);
        }
        let Some(orders) = self.orders.checked_add(other.orders) else {
            return Err(OrderFault::TooMany);
        };
        self.orders = orders;
        if self.longest < other.longest {
            self.longest = other.longest;
        }
        Ok(())
    }

    /// Faults if the first of these classes, which come next, has a first beginning that doesn't come after this one's.
    pub(crate) fn precede(&self, later: &[Class]) -> Result<(), OrderFault>
        ensures { OnOk result (IsAhead self.now later.now) }
    {
        let Some((next, _)) = later.split_first() else {
            return Ok(());
        };
        if !is_before(self.first.as_slice(), next.first.as_slice()) {
            return Err(OrderFault::Mismatch);
        }
        Ok(())
    }

    /// The number by which the class is looked up.
    fn spot(&self) -> u64 {
        spot_of(self.left.as_slice(), &self.key)
    }

    /// Whether the classes have the same moves left and equal keys.
    fn is_like(&self, other: &Class) -> bool
        ensures { IsTrue result → AreLike self.now other.now }
    {
        let left = self.left.as_slice() == other.left.as_slice();
        left && self.key.same(&other.key)
    }
}

/// Whether the first beginning has the lower transaction where the two first differ.
fn is_before(beginning: &[TxnId], other: &[TxnId]) -> bool
    ensures { IsTrue result → IsBefore beginning.now other.now }
{
    let mut rest = beginning;
    let mut others_rest = other;
    while let Some((mover, later)) = rest.split_first() {
        let Some((others_mover, others_later)) = others_rest.split_first() else {
            return false;
        };
        if *mover != *others_mover {
            return mover.number() < others_mover.number();
        }
        rest = later;
        others_rest = others_later;
    }
    false
}

/// The classes of beginnings with the same number of moves, and the place of the last class with each spot.
#[derive(Drop)]
pub(crate) struct Layer {
    classes: Vec<Class>,
    places: HashMap<u64, usize>,
}

impl Model for Layer {
    ghost use Rattle.std.specs.Prelude.{List};
    ghost use Rattle.hek_explore.specs.Counts.{Group};

    ghost Value = { List Group };

    ghost view = { λ l. l.classes.items };
}

impl Layer {
    /// A layer without classes.
    pub(crate) fn new(alloc: Global) -> Result<Layer, OrderFault>
        ensures { IfOk result (λ layer. layer ≡ []) }
    {
        Ok(Layer {
            classes: Vec::new(alloc),
            places: HashMap::with_capacity(alloc, ROOM)?,
        })
    }

    /// The classes, in the order in which they came.
    pub(crate) fn classes(&self) -> &[Class]
        ensures { result.now ≡ self.now }
    {
        self.classes.as_slice()
    }

    /// Adds a class; if there is one that goes on like it, that one counts the new class's beginnings. A class goes
    /// unfound only where another with its spot came after it.
    pub(crate) fn add(&mut self, class: Class) -> Result<(), OrderFault>
        ensures { OnOk result (IsPut self.old self.new class) }
    {
        let spot = class.spot();
        match self.place_of(spot, &class) {
            Some(place) => self.classes[place].join(&class),
            None => self.push_at(spot, class),
        }
    }

    /// The place of a class that goes on like this one, which has this spot.
    fn place_of(&self, spot: u64, class: &Class) -> Option<usize>
        ensures { IfSome result (HasLike self.now class.now) }
    {
        let place = *self.places.get(&spot)?;
        let other = self.classes.get(place)?;
        if other.is_like(class) {
            Some(place)
        } else {
            None
        }
    }

    /// Adds a class that is like no other.
    pub(crate) fn push(&mut self, class: Class) -> Result<(), OrderFault>
        ensures { OnOk result (self.new ≡ self.old ++ class ∷ []) }
    {
        let spot = class.spot();
        self.push_at(spot, class)
    }

    /// Adds a class with this spot that is like no other.
    fn push_at(&mut self, spot: u64, class: Class) -> Result<(), OrderFault>
        ensures { OnOk result (self.new ≡ self.old ++ class ∷ []) }
    {
        let place = self.classes.len();
        self.classes.push(class)?;
        let _before = self.places.insert(spot, place)?;
        Ok(())
    }
}

ghost use Rattle.std.specs.Prelude.{◌++◌, ◌∷◌};
ghost use Rattle.hek_explore.specs.Counts.{HasLike};
