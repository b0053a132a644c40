//! A list of any type, which contracts see as the list of its items: a `Vec` that clauses can compare.
ghost use Rattle.std.specs.Prelude.{◌≡◌, ◌==◌, ◌<◌, ◌≤◌, [], ◌∷◌, ◌++◌, length, OnOk, OnErr};
ghost use Rattle.std.specs.Prelude.{IfOk, Some, slice_get, slice_set, remove, insert, take};

use crate::{Equals, TryCopy};
use std::alloc::{AllocError, Global};
use std::marker::Model;

/// A growing list; an empty one takes no memory.
#[derive(Debug, Drop)]
pub struct Seq<T> {
    items: Vec<T>,
}

impl<T> Model for Seq<T> {
    ghost use Rattle.std.specs.Prelude.{List};

    ghost Value = { List T };

    ghost view = { λ s. s.items.items };
}

impl<T> Seq<T> {
    /// No item.
    pub fn new(alloc: Global) -> Self
        ensures { result ≡ [] }
    {
        Seq {
            items: Vec::new(alloc),
        }
    }

    /// No item, with room for so many.
    pub fn with_capacity(alloc: Global, capacity: usize) -> Result<Self, AllocError>
        ensures { IfOk result (λ s. s ≡ []) }
    {
        Ok(Seq {
            items: Vec::with_capacity(alloc, capacity)?,
        })
    }

    /// The items of a `Vec`.
    pub fn from_vec(items: Vec<T>) -> Self
        ensures { result ≡ items.items }
    {
        Seq { items }
    }

    /// The allocator that the list grows by.
    pub fn allocator(&self) -> Global {
        *self.items.allocator()
    }

    /// The items.
    pub fn as_slice(&self) -> &[T]
        ensures { result.now ≡ self.now }
    {
        self.items.as_slice()
    }

    /// How many items there are.
    pub fn len(&self) -> usize
        ensures { result ≡ length self.now }
    {
        self.items.len()
    }

    /// Whether there is no item.
    pub fn is_empty(&self) -> bool
        ensures { result ≡ (length self.now == 0) }
    {
        self.items.is_empty()
    }
}

impl<T: Drop> Seq<T> {
    /// Puts an item behind the last.
    pub fn push(&mut self, item: T) -> Result<(), AllocError>
        ensures ok { OnOk result (self.new ≡ self.old ++ item ∷ []) }
        ensures err { OnErr result (self.new ≡ self.old) }
    {
        self.items.push(item)?;
        Ok(())
    }

    /// Puts an item before the one at this place.
    pub fn insert(&mut self, at: usize, item: T) -> Result<(), AllocError>
        requires { at ≤ length self.old }
        ensures ok { OnOk result (self.new ≡ insert self.old at item) }
        ensures err { OnErr result (self.new ≡ self.old) }
    {
        self.items.insert(at, item)?;
        Ok(())
    }

    /// Puts another item at this place.
    pub fn set(&mut self, at: usize, item: T)
        requires { at < length self.old }
        ensures { self.new ≡ slice_set self.old at item }
    {
        self.items[at] = item;
    }

    /// Takes the item at this place out.
    pub fn remove(&mut self, at: usize) -> T
        requires { at < length self.old }
        ensures item { slice_get self.old at ≡ Some result }
        ensures rest { self.new ≡ remove self.old at }
    {
        self.items.remove(at)
    }

    /// Drops what stands behind the first `count` items.
    pub fn truncate(&mut self, count: usize)
        ensures { self.new ≡ take count self.old }
    {
        self.items.truncate(count);
    }
}

impl<T: TryCopy + Drop> TryCopy for Seq<T> {
    fn copy(&self) -> Result<Seq<T>, AllocError> {
        let mut items = Vec::with_capacity(self.allocator(), self.len())?;
        for item in &self.items {
            items.push(item.copy()?)?;
        }
        Ok(Seq { items })
    }
}

impl<T: Equals> Equals for Seq<T> {
    fn equals(&self, other: &Seq<T>) -> bool {
        if self.len() != other.len() {
            return false;
        }
        for i in 0..self.len() {
            if !self.items[i].equals(&other.items[i]) {
                return false;
            }
        }
        true
    }
}

impl<T> Seq<T> {
    ghost use Rattle.std.specs.Borrow.{sem};
    ghost use Rattle.heat_value.specs.Lending.{lends_item};

    /// The item at this place, for writing.
    pub fn item_mut(&mut self, at: usize) -> &mut T
        requires { at < length self.old }
        ensures* writes_back { sem 𝓛 (lends_item T.row self.entry at result) }
        ensures value { slice_get self.old at ≡ Some result.now }
    {
        &mut self.items[at]
    }
}
