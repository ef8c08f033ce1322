//! Few members in order of entry, which are looked through one by one.
ghost use Rattle.std.specs.Prelude.{◌≡◌, ◌+◌, ◌<◌, ◌≤◌, [], length, not, slice_get, IfOk};
ghost use Rattle.std.specs.List.{list_any, IsDistinct};
ghost use Rattle.std.specs.Set.{remove_key};
ghost use Rattle.hek_txn.specs.Entries.{joined};

use crate::entry_sets::take_behind;
use hek_rules::NoMemory;
use std::alloc::Global;
use std::marker::Model;

/// Members in order of entry, each once. Looking a member up and taking one out takes time linear in the members.
#[derive(Drop)]
pub(crate) struct FewSet<T: Copy + Eq> {
    items: Vec<T>,
}

impl<T: Copy + Eq> Model for FewSet<T> {
    ghost use Rattle.std.specs.Prelude.{◌-◌, vec_len, vec_capacity};
    ghost use Rattle.std.specs.List.{IsDistinct};
    ghost use Rattle.hek_txn.specs.Entries.{Entries};

    ghost Value = { Entries T };

    ghost view = { λ l. record { items = l.items.items; room = vec_capacity l.items - vec_len l.items } };

    ghost invariant = { λ l. IsDistinct T.eq l.items.items };
}

impl<T: Copy + Eq> FewSet<T> {
    /// A set without members. It takes no memory.
    pub(crate) fn new(alloc: Global) -> FewSet<T>
        ensures { result.items ≡ [] }
    {
        FewSet {
            items: Vec::new(alloc),
        }
    }

    /// Makes room for `count` more members, and returns for how many there is room.
    pub(crate) fn make_room(&mut self, count: usize) -> Result<usize, NoMemory>
        ensures items { self.new.items ≡ self.old.items }
        ensures room { IfOk result (λ room. room ≡ self.new.room) }
        ensures enough { IfOk result (λ room. count ≤ room) }
        ensures kept { self.old.room ≤ self.new.room }
    {
        if self.items.capacity() - self.items.len() < count {
            self.items.reserve(count)?;
        }
        Ok(self.items.capacity() - self.items.len())
    }

    /// Appends a member, unless it is in the set, and returns whether it was new.
    pub(crate) fn enter(&mut self, item: T) -> bool
        requires { 0 < self.old.room }
        ensures answer { result ≡ not (list_any (T.eq item) self.old.items) }
        ensures items { self.new.items ≡ joined T.eq self.old.items item }
        ensures room { self.old.room ≤ self.new.room + 1 }
    {
        let is_new = !self.contains(item);
        if is_new {
            self.items.push_reserved(item);
        }
        is_new
    }

    /// Whether the item is a member.
    pub(crate) fn contains(&self, item: T) -> bool
        ensures { result ≡ list_any (T.eq item) self.now.items }
    {
        self.items.as_slice().contains(&item)
    }

    /// The member that entered first.
    pub(crate) fn first(&self) -> Option<T>
        ensures { result ≡ slice_get self.now.items 0 }
    {
        self.items.get(0).copied()
    }

    /// Takes a member out, if it is in the set, and returns whether it was.
    pub(crate) fn take(&mut self, item: T) -> bool
        ensures answer { result ≡ list_any (T.eq item) self.old.items }
        ensures items { self.new.items ≡ remove_key (T.eq item) self.old.items }
        ensures room { self.old.room ≤ self.new.room }
    {
        let is_member = self.contains(item);
        take_behind(&mut self.items, 0, item);
        is_member
    }

    /// Takes out all members, and keeps the room.
    pub(crate) fn clear(&mut self)
        ensures items { self.new.items ≡ [] }
        ensures room { self.old.room ≤ self.new.room }
    {
        self.items.clear();
    }

    /// The members, in order of entry.
    pub(crate) fn as_slice(&self) -> &[T]
        ensures items { result.now ≡ self.now.items }
        ensures once { IsDistinct T.eq result.now }
    {
        self.items.as_slice()
    }

    /// An equal set, with separate room.
    pub(crate) fn copy(&self) -> Result<FewSet<T>, NoMemory>
        ensures { IfOk result (λ set. set.items ≡ self.now.items) }
    {
        Ok(FewSet {
            items: Vec::from_slice(*self.items.allocator(), self.items.as_slice())?,
        })
    }
}
