//! A list that knows how much more it can take without memory.
ghost use Rattle.std.specs.Prelude.{◌≡◌, ◌<◌, ◌≤◌, ◌+◌, ◌++◌, ◌∷◌, []};
ghost use Rattle.std.specs.Prelude.{IsOk, OnOk, OnErr, IfOk, Some};
ghost use Rattle.std.specs.Prelude.{length, slice_get, slice_set, remove, insert};
ghost use Rattle.keyed_table.specs.Rooms.{Roomy};

use crate::rewrite::Rewrite;
use heat_plan::TryCopy;
use std::alloc::{AllocError, Global};
use std::marker::Model;

/// A list with room for more items.
#[derive(Debug, Drop)]
pub struct Roomed<T> {
    items: Vec<T>,
}

impl<T> Model for Roomed<T> {
    ghost use Rattle.std.specs.Prelude.{◌-◌};
    ghost use Rattle.std.specs.Vec.{vec_len, vec_capacity};
    ghost use Rattle.keyed_table.specs.Rooms.{Roomy};

    ghost Value = { Roomy T };

    ghost view = { λ r. record { items = r.items.items; spare = vec_capacity r.items - vec_len r.items } };
}

impl<T: Drop> Roomed<T> {
    /// No item, and no room.
    pub fn new(alloc: Global) -> Self
        ensures { result.items ≡ [] }
    {
        Roomed {
            items: Vec::new(alloc),
        }
    }

    /// The items.
    pub fn as_slice(&self) -> &[T]
        ensures { result.now ≡ self.now.items }
    {
        self.items.as_slice()
    }

    /// Makes room for so many more.
    pub fn reserve(&mut self, more: usize) -> Result<(), AllocError>
        ensures same { self.new.items ≡ self.old.items }
        ensures room { OnOk result (more ≤ self.new.spare) }
        ensures keeps { self.old.spare ≤ self.new.spare }
        ensures enough { more ≤ self.old.spare → IsOk result }
    {
        self.items.reserve(more)
    }

    /// Puts an item behind the last, within the room.
    pub fn push(&mut self, item: T)
        requires { 0 < self.old.spare }
        ensures items { self.new.items ≡ self.old.items ++ item ∷ [] }
        ensures room { self.old.spare ≤ self.new.spare + 1 }
    {
        match self.items.push(item) {
            Ok(()) => {}
            Err(_) => unreachable!(),
        }
    }

    /// Puts another item at this place.
    pub fn set(&mut self, at: usize, item: T)
        requires { at < length self.old.items }
        ensures items { self.new.items ≡ slice_set self.old.items at item }
        ensures room { self.new.spare ≡ self.old.spare }
    {
        self.items[at] = item;
    }

    /// Writes into the item at this place.
    pub fn rewrite<W: Rewrite<T>>(&mut self, at: usize, words: W)
        requires { at < length self.old.items }
        ensures items { (x : T) → slice_get self.old.items at ≡ Some x
            → self.new.items ≡ slice_set self.old.items at (W.after words x) }
        ensures room { self.new.spare ≡ self.old.spare }
    {
        words.write(&mut self.items[at]);
    }

    /// Takes the item at this place out; there is then room for it.
    pub fn remove(&mut self, at: usize) -> T
        requires { at < length self.old.items }
        ensures item { slice_get self.old.items at ≡ Some result }
        ensures rest { self.new.items ≡ remove self.old.items at }
        ensures room { self.old.spare + 1 ≤ self.new.spare }
    {
        self.items.remove(at)
    }

    /// Puts an item before the one at this place, within the room.
    pub fn insert(&mut self, at: usize, item: T)
        requires within { at ≤ length self.old.items }
        requires room { 0 < self.old.spare }
        ensures items { self.new.items ≡ insert self.old.items at item }
        ensures room { self.old.spare ≤ self.new.spare + 1 }
    {
        match self.items.insert(at, item) {
            Ok(()) => {}
            Err(_) => unreachable!(),
        }
    }
}

impl<T: TryCopy + Drop> Roomed<T> {
    /// The same items, with room of its own.
    pub fn copy(&self) -> Result<Self, AllocError>
        ensures { IfOk result (λ copy. copy.items ≡ self.now.items) }
    {
        let mut items = Vec::with_capacity(*self.items.allocator(), self.items.len())?;
        for item in &self.items {
            items.push(item.copy()?)?;
        }
        Ok(Roomed { items })
    }
}

impl<T: Copy + Drop> Roomed<T> {
    /// The same items, with room of its own.
    pub fn copied(&self) -> Result<Self, AllocError>
        ensures { IfOk result (λ copy. copy.items ≡ self.now.items) }
    {
        Ok(Roomed {
            items: Vec::from_slice(*self.items.allocator(), self.items.as_slice())?,
        })
    }
}
