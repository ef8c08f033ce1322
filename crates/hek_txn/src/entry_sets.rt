//! Sets in order of entry, whose first member is taken out in constant time on average.
ghost use Rattle.std.specs.Prelude.{◌≡◌, ◌+◌, ◌-◌, ◌<◌, ◌≤◌, [], drop, length, not, slice_get, IfOk, OnOk, vec_len, vec_capacity};
ghost use Rattle.std.specs.HashSet.{IsFromIterResult};
ghost use Rattle.std.specs.List.{list_any, IsDistinct};
ghost use Rattle.std.specs.Set.{remove_key};
ghost use Rattle.hek_txn.specs.Entries.{joined};

use hek_rules::NoMemory;
use std::alloc::Global;
use std::collections::HashSet;
use std::hash::Hash;
use std::marker::Model;

/// Members in order of entry, each once. Looking a member up takes constant time, and taking the first one out takes
/// constant time on average. Taking another one out takes time linear in the members after it.
///
/// Members that are taken out at the front stay in the list until it is empty, or has no room for others.
#[derive(Drop)]
pub(crate) struct EntrySet<T: Copy + Eq + Hash> {
    items: Vec<T>,
    gone: usize,
    members: HashSet<T>,
}

impl<T: Copy + Eq + Hash> Model for EntrySet<T> {
    ghost use Rattle.std.specs.Prelude.{◌-◌, ◌≤◌, drop, length, min, vec_len, vec_capacity};
    ghost use Rattle.std.specs.HashSet.{spare};
    ghost use Rattle.hek_txn.specs.Entries.{Entries, IsHeld};

    ghost Value = { Entries T };

    ghost view = { λ l. record { items = drop l.gone l.items.items; room = min (vec_capacity l.items - vec_len l.items) (spare l.members) } };

    ghost invariant = { λ l. (l.gone ≤ length l.items.items) × IsHeld T.eq (drop l.gone l.items.items) l.members.keys };
}

/// For how many more members room is made in a set of `len` that has too little for `count`: it grows to about four times
/// its size.
fn growth(len: usize, count: usize) -> usize
    ensures { count ≤ result }
{
    count.max(len.saturating_mul(3))
}

/// Takes an item out that is not among the first `gone`, if it is in the list.
pub(crate) fn take_behind<T: Copy + Eq>(items: &mut Vec<T>, gone: usize, item: T)
    requires within { gone ≤ length items.old.items }
    requires once { IsDistinct T.eq (drop gone items.old.items) }
    ensures items { drop gone items.new.items ≡ remove_key (T.eq item) (drop gone items.old.items) }
    ensures within { gone ≤ length items.new.items }
    ensures room { vec_capacity items.old - vec_len items.old ≤ vec_capacity items.new - vec_len items.new }
{
    for place in (gone..items.len()).rev() {
        if items[place] == item {
            items.remove(place);
            return;
        }
    }
}

/// The items as a set, which finds each of them in constant time.
fn set_of<T: Copy + Eq + Hash>(alloc: Global, items: &[T]) -> Result<HashSet<T>, NoMemory>
    ensures { IfOk result (IsFromIterResult T.eq items.now) }
{
    Ok(items.iter().copied().collect(alloc)?)
}

impl<T: Copy + Eq + Hash> EntrySet<T> {
    /// A set of these members, each of which comes once.
    pub(crate) fn of(alloc: Global, items: &[T]) -> Result<EntrySet<T>, NoMemory>
        requires { IsDistinct T.eq items.now }
        ensures { IfOk result (λ set. set.items ≡ items.now) }
    {
        Ok(EntrySet {
            items: Vec::from_slice(alloc, items)?,
            gone: 0,
            members: set_of(alloc, items)?,
        })
    }

    /// For how many more members there is room.
    fn room(&self) -> usize
        ensures { result ≡ self.now.room }
    {
        let listed = self.items.capacity() - self.items.len();
        listed.min(self.members.capacity() - self.members.len())
    }

    /// Removes the gone members from the list if they are more than half of it, so that each of them pays for at most
    /// one other that moves.
    fn forget_gone(&mut self)
        ensures items { self.new.items ≡ self.old.items }
        ensures room { self.old.room ≤ self.new.room }
    {
        if self.gone > self.items.len() / 2 {
            self.items.drain(..self.gone);
            self.gone = 0;
        }
    }

    /// Makes room for `count` more members. If there is too little, the set drops its gone members or grows to about
    /// four times its size; each growth indexes all members again.
    fn reserve(&mut self, count: usize) -> Result<(), NoMemory>
        ensures items { self.new.items ≡ self.old.items }
        ensures room { OnOk result (count ≤ self.new.room) }
        ensures kept { self.old.room ≤ self.new.room }
    {
        if self.items.capacity() - self.items.len() < count {
            self.forget_gone();
        }
        let listed = self.items.len();
        if self.items.capacity() - listed < count {
            self.items.reserve(growth(listed, count))?;
        }
        let len = self.members.len();
        if self.members.capacity() - len < count {
            self.members.reserve(growth(len, count))?;
        }
        Ok(())
    }

    /// Makes room for `count` more members, and returns for how many there is room.
    pub(crate) fn make_room(&mut self, count: usize) -> Result<usize, NoMemory>
        ensures items { self.new.items ≡ self.old.items }
        ensures room { IfOk result (λ room. room ≡ self.new.room) }
        ensures enough { IfOk result (λ room. count ≤ room) }
        ensures kept { self.old.room ≤ self.new.room }
    {
        self.reserve(count)?;
        Ok(self.room())
    }

    /// Appends a member, unless it is in the set, and returns whether it was new.
    pub(crate) fn enter(&mut self, item: T) -> bool
        requires { 0 < self.old.room }
        ensures answer { result ≡ not (list_any (T.eq item) self.old.items) }
        ensures items { self.new.items ≡ joined T.eq self.old.items item }
        ensures room { self.old.room ≤ self.new.room + 1 }
    {
        let is_new = matches!(self.members.insert(item), Ok(true));
        if is_new {
            self.items.push_reserved(item);
        }
        is_new
    }

    /// Whether the item is a member.
    pub(crate) fn contains(&self, item: T) -> bool
        ensures { result ≡ list_any (T.eq item) self.now.items }
    {
        self.members.contains(&item)
    }

    /// The member that entered first.
    pub(crate) fn first(&self) -> Option<T>
        ensures { result ≡ slice_get self.now.items 0 }
    {
        self.items.get(self.gone).copied()
    }

    /// Takes the first member out.
    fn remove_first(&mut self)
        requires { 0 < length self.old.items }
        ensures items { self.new.items ≡ drop 1 self.old.items }
        ensures room { self.old.room ≤ self.new.room }
    {
        self.members.remove(&self.items[self.gone]);
        let gone = self.gone + 1;
        if gone == self.items.len() {
            self.items.clear();
            self.gone = 0;
        } else {
            self.gone = gone;
        }
    }

    /// Takes a member out that is not the first one, if it is in the set, and returns whether it was.
    fn take_later(&mut self, item: T) -> bool
        ensures answer { result ≡ list_any (T.eq item) self.old.items }
        ensures items { self.new.items ≡ remove_key (T.eq item) self.old.items }
        ensures room { self.old.room ≤ self.new.room }
    {
        let is_member = self.members.remove(&item);
        if is_member {
            take_behind(&mut self.items, self.gone, item);
        }
        is_member
    }

    /// Takes a member out, if it is in the set, and returns whether it was.
    pub(crate) fn take(&mut self, item: T) -> bool
        ensures answer { result ≡ list_any (T.eq item) self.old.items }
        ensures items { self.new.items ≡ remove_key (T.eq item) self.old.items }
        ensures room { self.old.room ≤ self.new.room }
    {
        match self.first() {
            None => false,
            Some(first) => {
                if first == item {
                    self.remove_first();
                    true
                } else {
                    self.take_later(item)
                }
            }
        }
    }

    /// Takes out all members, and keeps the room.
    pub(crate) fn clear(&mut self)
        ensures items { self.new.items ≡ [] }
        ensures room { self.old.room ≤ self.new.room }
    {
        self.items.clear();
        self.gone = 0;
        self.members.clear();
    }

    /// The members, in order of entry.
    pub(crate) fn as_slice(&self) -> &[T]
        ensures { result.now ≡ self.now.items }
    {
        let (_, left) = self.items.as_slice().split_at(self.gone);
        left
    }

    /// An equal set, with separate room.
    pub(crate) fn copy(&self) -> Result<EntrySet<T>, NoMemory>
        ensures { IfOk result (λ list. list.items ≡ self.now.items) }
    {
        let alloc = *self.items.allocator();
        let (_, left) = self.items.as_slice().split_at(self.gone);
        EntrySet::of(alloc, left)
    }
}
