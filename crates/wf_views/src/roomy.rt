//! Lists that have room for more.
ghost use Rattle.std.specs.Prelude.{◌≡◌, ◌+◌, ◌-◌, ◌<◌, ◌≤◌, [], OnOk, OnErr, IsOk, length, slice_index_or, slice_set};
ghost use Rattle.std.specs.List.{insert, remove};
ghost use Rattle.wf_views.specs.Lists as lists;

use std::alloc::Global;
use std::marker::Model;
use wf_outside::Memory;

/// A list with room that was made for it before: so many elements come to it without memory.
#[derive(Drop)]
pub struct Roomy<T> {
    items: Vec<T>,
    room: u64,
}

impl<T> Model for Roomy<T> {
    ghost use Rattle.std.specs.Prelude.{◌+◌, ◌≤◌, vec_len, vec_capacity};
    ghost use Rattle.wf_views.specs.Lists.{RoomyValue, roomy_code};

    ghost Value = { RoomyValue T };

    ghost coded = { roomy_code T.code };

    ghost view = { λ l. record { items = l.items.items; room = l.room } };

    ghost invariant = { λ l. vec_len l.items + l.room ≤ vec_capacity l.items };
}

impl<T> Roomy<T> {
    /// An empty list without room.
    pub fn new(alloc: Global) -> Roomy<T>
        ensures items { result.items ≡ [] }
        ensures room { result.room ≡ 0 }
    {
        Roomy {
            items: Vec::new(alloc),
            room: 0,
        }
    }

    /// A list that is there already, without room. It takes no memory.
    pub fn from_vec(items: Vec<T>) -> Roomy<T>
        ensures items { result.items ≡ items.items }
        ensures room { result.room ≡ 0 }
    {
        Roomy { items, room: 0 }
    }

    /// The elements, in a list of their own. It takes no memory.
    pub fn into_vec(self) -> Vec<T>
        ensures { result.items ≡ self.items }
    {
        let Roomy { items, room: _ } = self;
        items
    }

    /// The elements.
    pub fn as_slice(&self) -> &[T]
        ensures { result.now ≡ self.now.items }
    {
        self.items.as_slice()
    }

    /// How many elements come without memory.
    pub fn room(&self) -> u64
        ensures { result ≡ self.now.room }
    {
        self.room
    }

    /// Makes room for so many elements, unless there is more already. Where it fails nothing
    /// changes.
    pub fn reserve(&mut self, room: u64) -> Result<(), Memory>
        ensures ok { OnOk result (self.new ≡ lists.roomier room self.old) }
        ensures err { OnErr result (self.new ≡ self.old) }
        ensures succeeds { room ≤ self.old.room → IsOk result }
    {
        if room <= self.room {
            return Ok(());
        }
        self.items.reserve(room as usize)?;
        self.room = room;
        Ok(())
    }

    /// One more element at the end, for which there is room.
    pub fn push(&mut self, item: T)
        requires { 0 < self.old.room }
        ensures { self.new ≡ lists.pushed item self.old }
    {
        self.items.push_reserved(item);
        self.room -= 1;
    }

    /// One more element at a place, for which there is room.
    pub(crate) fn insert(&mut self, at: usize, item: T)
        requires within { at ≤ length self.old.items }
        requires room { 0 < self.old.room }
        ensures items { self.new.items ≡ insert self.old.items at item }
        ensures room { self.new.room ≡ self.old.room - 1 }
    {
        self.items.insert(at, item).unwrap();
        self.room -= 1;
    }

    /// The element at a place is taken out.
    pub(crate) fn remove(&mut self, at: usize) -> T
        requires { at < length self.old.items }
        ensures value { result ≡ slice_index_or self.old.items at result }
        ensures rest { self.new ≡ record self.old { items = remove self.old.items at } }
    {
        self.items.remove(at)
    }

    /// Another element is at a place.
    pub(crate) fn set(&mut self, at: usize, item: T)
    where
        T: Drop,
        requires { at < length self.old.items }
        ensures { self.new ≡ record self.old { items = slice_set self.old.items at item } }
    {
        self.items[at] = item;
    }
}
