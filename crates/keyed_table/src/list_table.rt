//! The plain form of a table: a list that is read from the first record to the last.
ghost use Rattle.std.specs.Prelude.{◌≡◌, ◌<◌, ◌≤◌, ◌+◌, ◌++◌, ◌∷◌, []};
ghost use Rattle.std.specs.Prelude.{OnOk, IsOk, IfOk, IfSome, Some, option_map, length, slice_get, remove};
ghost use Rattle.std.specs.List.{position_from};
ghost use Rattle.heat_plan.specs.Tables.{at, put, cut};

use crate::keyed::Keyed;
use crate::roomed::Roomed;
use std::alloc::{AllocError, Global};
use std::marker::Model;

/// Records in the order in which their keys came.
#[derive(Debug, Drop)]
pub struct ListTable<T> {
    all: Roomed<T>,
}

impl<T> Model for ListTable<T> {
    ghost use Rattle.keyed_table.specs.Rooms.{Roomy};

    ghost Value = { Roomy T };

    ghost view = { λ t. t.all };
}

impl<T: Keyed> ListTable<T> {
    /// No record.
    pub fn new(alloc: Global) -> Self
        ensures { result.items ≡ [] }
    {
        ListTable {
            all: Roomed::new(alloc),
        }
    }

    /// All records.
    pub fn as_slice(&self) -> &[T]
        ensures { result.now ≡ self.now.items }
    {
        self.all.as_slice()
    }

    /// Makes room for so many more.
    pub fn reserve(&mut self, more: usize) -> Result<(), AllocError>
        ensures same { self.new.items ≡ self.old.items }
        ensures room { OnOk result (more ≤ self.new.spare) }
        ensures keeps { self.old.spare ≤ self.new.spare }
        ensures enough { more ≤ self.old.spare → IsOk result }
    {
        self.all.reserve(more)
    }

    /// The record of a key; none where there is none.
    #[tactic(auto, unfolding(heat_plan::specs::Tables::at))]
    pub fn get(&self, key: &T::Key) -> Option<&T>
        ensures { option_map (λ r. r.now) result ≡ at T.same T.key_of self.now.items key.now }
    {
        for item in self.all.as_slice() {
            if item.has_key(key) {
                return Some(item);
            }
        }
        None
    }

    /// The place of the record of a key; none where there is none.
    pub fn find(&self, key: &T::Key) -> Option<usize>
        ensures place { result ≡ position_from (λ x. T.same (T.key_of x) key.now) 0 self.now.items }
        ensures within { IfSome result (λ p. p < length self.now.items) }
    {
        for (i, item) in self.all.as_slice().iter().enumerate() {
            if item.has_key(key) {
                return Some(i);
            }
        }
        None
    }

    /// Takes the record at this place out; there is then room for it.
    pub fn remove(&mut self, at: usize) -> T
        requires { at < length self.old.items }
        ensures item { slice_get self.old.items at ≡ Some result }
        ensures rest { self.new.items ≡ remove self.old.items at }
        ensures room { self.old.spare + 1 ≤ self.new.spare }
    {
        self.all.remove(at)
    }

    /// Puts a record behind all others, be its key there or not, within the room.
    pub fn push(&mut self, item: T)
        requires { 0 < self.old.spare }
        ensures items { self.new.items ≡ self.old.items ++ item ∷ [] }
        ensures room { self.old.spare ≤ self.new.spare + 1 }
    {
        self.all.push(item);
    }

    /// Writes a record over the one of its key, or behind all others.
    #[tactic(auto, using(crate::proofs::Puts::puts))]
    pub fn put(&mut self, item: T)
        requires { 0 < self.old.spare }
        ensures items { self.new.items ≡ put T.same T.key_of item self.old.items }
        ensures room { self.old.spare ≤ self.new.spare + 1 }
    {
        match self.find(item.key()) {
            Some(place) => self.all.set(place, item),
            None => self.all.push(item),
        }
    }

    /// Takes the first record of a key out, and drops the others; none where there is none.
    pub fn take(&mut self, key: &T::Key) -> Option<T>
        ensures item { result ≡ at T.same T.key_of self.old.items key.now }
        ensures items { self.new.items ≡ cut T.same T.key_of key.now self.old.items }
        ensures room { self.old.spare ≤ self.new.spare }
    {
        match self.find(key) {
            Some(place) => {
                let item = self.remove(place);
                self.cut(key);
                Some(item)
            }
            None => None,
        }
    }

    /// Drops the records of a key.
    pub fn cut(&mut self, key: &T::Key)
        ensures items { self.new.items ≡ cut T.same T.key_of key.now self.old.items }
        ensures room { self.old.spare ≤ self.new.spare }
    {
        for at in (0..self.all.as_slice().len()).rev() {
            if self.all.as_slice()[at].has_key(key) {
                let _ = self.all.remove(at);
            }
        }
    }
}

impl<T: Keyed + Copy> ListTable<T> {
    /// The same records, with room of its own.
    pub fn copied(&self) -> Result<Self, AllocError>
        ensures { IfOk result (λ copy. copy.items ≡ self.now.items) }
    {
        Ok(ListTable {
            all: self.all.copied()?,
        })
    }
}
