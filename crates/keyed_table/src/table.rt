//! Tables of records, each found by its key through an index.
ghost use Rattle.std.specs.Prelude.{ℕ, ◌≡◌, ◌≢◌, ◌<◌, ◌≤◌, ◌+◌, ◌++◌, ◌∷◌, []};
ghost use Rattle.std.specs.Prelude.{false, Some, IsNone, IsOk, OnOk, IfOk, IfSome, All, option_map, length};
ghost use Rattle.std.specs.Prelude.{map, remove, slice_get, slice_set, slice_index_or};
ghost use Rattle.std.specs.List.{position_from};
ghost use Rattle.heat_plan.specs.Tables.{at, put, cut};
ghost use Rattle.keyed_table.specs.Orders.{AreApart, IsOrder, IsStart, passes_at};

use crate::keyed::Keyed;
use crate::places::close_up;
use crate::rewrite::Rewrite;
use crate::roomed::Roomed;
use heat_plan::TryCopy;
use std::alloc::{AllocError, Global};
use std::marker::Model;

/// Records in the order in which their keys came, and their places, sorted by their keys. No two
/// records have one key.
#[derive(Debug, Drop)]
pub struct Table<T: Keyed> {
    all: Roomed<T>,
    places: Roomed<usize>,
}

impl<T: Keyed> Model for Table<T> {
    ghost use Rattle.std.specs.Prelude.{min, map};
    ghost use Rattle.keyed_table.specs.Rooms.{Roomy};
    ghost use Rattle.keyed_table.specs.Orders.{IsOrder};

    ghost Value = { Roomy T };

    ghost view = { λ t. record { items = t.all.items; spare = min t.all.spare t.places.spare } };

    ghost invariant = { λ t. IsOrder T.below (map T.key_of t.all.items) t.places.items };
}

impl<T: Keyed> Table<T> {
    /// No record.
    pub fn new(alloc: Global) -> Self
        ensures { result.items ≡ [] }
    {
        Table {
            all: Roomed::new(alloc),
            places: Roomed::new(alloc),
        }
    }

    /// All records.
    pub fn as_slice(&self) -> &[T]
        ensures items { result.now ≡ self.now.items }
        ensures apart { AreApart (map T.key_of self.now.items) }
    {
        self.all.as_slice()
    }

    /// Makes room for so many more.
    pub fn reserve(&mut self, more: usize) -> Result<(), AllocError>
        ensures same { self.new.items ≡ self.old.items }
        ensures room { OnOk result (more ≤ self.new.spare) }
        ensures keeps { self.old.spare ≤ self.new.spare }
        ensures enough { more ≤ self.old.spare → IsOk result }
    {
        self.all.reserve(more)?;
        self.places.reserve(more)
    }

    /// The place of the record of a key; none where there is none.
    pub fn find(&self, key: &T::Key) -> Option<usize>
        ensures place { result ≡ position_from (λ x. T.same (T.key_of x) key.now) 0 self.now.items }
        ensures within { IfSome result (λ p. p < length self.now.items) }
        ensures alone { IfSome result (λ p. (q : ℕ) (d : T) → q < length self.now.items → q ≢ p
            → T.same (T.key_of (slice_index_or self.now.items q d)) key.now ≡ false) }
    {
        place_of(&self.places, self.all.as_slice(), key)
    }
}

// The place of the record of a key, by the entry at which a search for the key ends.
fn place_of<T: Keyed>(places: &Roomed<usize>, items: &[T], key: &T::Key) -> Option<usize>
    requires { IsOrder T.below (map T.key_of items.now) places.now.items }
    ensures place { result ≡ position_from (λ x. T.same (T.key_of x) key.now) 0 items.now }
    ensures within { IfSome result (λ p. p < length items.now) }
    ensures alone { IfSome result (λ p. (q : ℕ) (d : T) → q < length items.now → q ≢ p
        → T.same (T.key_of (slice_index_or items.now q d)) key.now ≡ false) }
{
    let at = start_of(places, items, key);
    let entries = places.as_slice();
    if entries.len() <= at {
        return None;
    }
    let place = entries[at];
    if items[place].has_key(key) {
        return Some(place);
    }
    None
}

// How many of the places lead to records below a key.
fn start_of<T: Keyed>(places: &Roomed<usize>, items: &[T], key: &T::Key) -> usize
    requires { IsOrder T.below (map T.key_of items.now) places.now.items }
    ensures { IsStart (λ k. T.below k key.now) (map T.key_of items.now) places.now.items result }
{
    places.as_slice().partition_point(
        |place: &usize| -> bool
            ensures { result ≡ passes_at (λ x. T.below (T.key_of x) key.entry.now) items.entry.now place.now }
        {
            match items.get(*place) {
                Some(item) => item.is_below(key),
                None => false,
            }
        },
    )
}

impl<T: Keyed> Table<T> {
    /// The record of a key; none where there is none.
    pub fn get(&self, key: &T::Key) -> Option<&T>
        ensures { option_map (λ r. r.now) result ≡ at T.same T.key_of self.now.items key.now }
    {
        match self.find(key) {
            Some(place) => Some(&self.all.as_slice()[place]),
            None => None,
        }
    }

    /// The record of the lowest key; none where there is no record.
    pub fn first(&self) -> Option<&T>
        ensures none { IsNone result → self.now.items ≡ [] }
        ensures there { IfSome result (λ r. at T.same T.key_of self.now.items (T.key_of r.now) ≡ Some r.now) }
        ensures lowest { IfSome result (λ r. (k : T.Key) (x : T) → at T.same T.key_of self.now.items k ≡ Some x
            → T.below (T.key_of x) (T.key_of r.now) ≡ false) }
    {
        let places = self.places.as_slice();
        if places.is_empty() {
            return None;
        }
        Some(&self.all.as_slice()[places[0]])
    }

    /// Writes a record over the one of its key at this place.
    pub fn set(&mut self, place: usize, item: T)
        requires within { place < length self.old.items }
        requires same_key { option_map T.key_of (slice_get self.old.items place) ≡ Some (T.key_of item) }
        ensures items { self.new.items ≡ slice_set self.old.items place item }
        ensures room { self.new.spare ≡ self.old.spare }
    {
        self.all.set(place, item);
    }

    /// Writes into the record at this place, which keeps its key.
    pub fn rewrite<W: Rewrite<T>>(&mut self, place: usize, words: W)
        requires within { place < length self.old.items }
        requires same_key { (x : T) → T.key_of (W.after words x) ≡ T.key_of x }
        ensures items { (x : T) → slice_get self.old.items place ≡ Some x
            → self.new.items ≡ slice_set self.old.items place (W.after words x) }
        ensures room { self.new.spare ≡ self.old.spare }
    {
        self.all.rewrite(place, words);
    }

    /// Puts a record of a new key behind all others, within the room.
    pub fn push(&mut self, item: T)
        requires room { 0 < self.old.spare }
        requires new_key { All (λ x. T.same (T.key_of x) (T.key_of item) ≡ false) self.old.items }
        ensures items { self.new.items ≡ self.old.items ++ item ∷ [] }
        ensures room { self.old.spare ≤ self.new.spare + 1 }
    {
        let at = start_of(&self.places, self.all.as_slice(), item.key());
        self.places.insert(at, self.all.as_slice().len());
        self.all.push(item);
    }

    /// Writes a record over the one of its key, or behind all others, within the room.
    #[tactic(auto, using(crate::proofs::Puts::puts))]
    pub fn put(&mut self, item: T)
        requires { 0 < self.old.spare }
        ensures items { self.new.items ≡ put T.same T.key_of item self.old.items }
        ensures room { self.old.spare ≤ self.new.spare + 1 }
    {
        match self.find(item.key()) {
            Some(place) => self.set(place, item),
            None => self.push(item),
        }
    }

    /// Takes the record at this place out; there is then room for it.
    pub fn remove(&mut self, place: usize) -> T
        requires { place < length self.old.items }
        ensures item { slice_get self.old.items place ≡ Some result }
        ensures rest { self.new.items ≡ remove self.old.items place }
        ensures room { self.old.spare + 1 ≤ self.new.spare }
    {
        let items = self.all.as_slice();
        let at = start_of(&self.places, items, items[place].key());
        let _ = self.places.remove(at);
        let item = self.all.remove(place);
        close_up(&mut self.places, place, self.all.as_slice().len());
        item
    }

    /// Takes the record of a key out; none where there is none.
    pub fn take(&mut self, key: &T::Key) -> Option<T>
        ensures item { result ≡ at T.same T.key_of self.old.items key.now }
        ensures items { self.new.items ≡ cut T.same T.key_of key.now self.old.items }
        ensures room { self.old.spare ≤ self.new.spare }
    {
        match self.find(key) {
            Some(place) => Some(self.remove(place)),
            None => None,
        }
    }

    /// Drops the record of a key.
    pub fn cut(&mut self, key: &T::Key)
        ensures items { self.new.items ≡ cut T.same T.key_of key.now self.old.items }
        ensures room { self.old.spare ≤ self.new.spare }
    {
        let _ = self.take(key);
    }
}

impl<T: Keyed + TryCopy> Table<T> {
    /// The same records, with room of its own.
    pub fn copy(&self) -> Result<Self, AllocError>
        ensures { IfOk result (λ copy. copy.items ≡ self.now.items) }
    {
        Ok(Table {
            all: self.all.copy()?,
            places: self.places.copied()?,
        })
    }
}

impl<T: Keyed + Copy> Table<T> {
    /// The same records, with room of its own.
    pub fn copied(&self) -> Result<Self, AllocError>
        ensures { IfOk result (λ copy. copy.items ≡ self.now.items) }
    {
        Ok(Table {
            all: self.all.copied()?,
            places: self.places.copied()?,
        })
    }
}
