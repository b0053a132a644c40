//! A list of records in the order of their keys.
ghost use Rattle.std.specs.Prelude.{◌≡◌, ◌<◌, ◌≤◌, ◌+◌, [], OnOk, IfOk, IfErr, option_map, length};
ghost use Rattle.keyed_table.specs.Lists.{IsSorted, at, put, cut, place, restored};

use crate::Ordered;
use std::alloc::{AllocError, Global};
use std::marker::Model;
use std::mem;

/// Records in the order of their keys, each key once, with room for more.
#[derive(Debug, Drop)]
pub struct SortedList<T: Ordered> {
    all: Vec<T>,
}

impl<T: Ordered> Model for SortedList<T> {
    ghost use Rattle.std.specs.Prelude.{◌-◌};
    ghost use Rattle.std.specs.Vec.{vec_len, vec_capacity};
    ghost use Rattle.keyed_table.specs.SortedRooms.{Roomy};
    ghost use Rattle.keyed_table.specs.Lists.{IsSorted};

    ghost Value = { Roomy T };

    ghost view = { λ l. record { items = l.all.items; spare = vec_capacity l.all - vec_len l.all } };

    ghost invariant = { λ l. IsSorted T.order T.key_of l.all.items };
}

impl<T: Ordered> SortedList<T> {
    /// No record, and no room.
    pub fn new(alloc: Global) -> Self
        ensures { result.items ≡ [] }
    {
        SortedList {
            all: Vec::new(alloc),
        }
    }

    /// All records, by their keys.
    pub fn as_slice(&self) -> &[T]
        ensures items { result.now ≡ self.now.items }
        ensures sorted { IsSorted T.order T.key_of self.now.items }
    {
        self.all.as_slice()
    }

    /// Makes room for so many more.
    pub fn reserve(&mut self, more: usize) -> Result<(), AllocError>
        ensures same { self.new.items ≡ self.old.items }
        ensures room { OnOk result (more ≤ self.new.spare) }
        ensures keeps { self.old.spare ≤ self.new.spare }
    {
        self.all.reserve(more)
    }

    /// The record of a key; none where there is none.
    pub fn get(&self, key: &T::Key) -> Option<&T>
        ensures { option_map (λ r. r.now) result ≡ at T.order T.key_of self.now.items key.now }
    {
        match place_of(&self.all, key) {
            Ok(place) => Some(&self.all[place]),
            Err(_) => None,
        }
    }

    /// Writes a record over the one of its key, which it returns, or where its key belongs.
    pub fn put(&mut self, item: T) -> Option<T>
        requires { 0 < self.old.spare }
        ensures items { self.new.items ≡ put T.order T.key_of item self.old.items }
        ensures before { result ≡ at T.order T.key_of self.old.items (T.key_of item) }
        ensures back { restored T.order T.key_of (T.key_of item) result self.new.items ≡ self.old.items }
        ensures room { self.old.spare ≤ self.new.spare + 1 }
    {
        match place_of(&self.all, item.key()) {
            Ok(place) => Some(mem::replace(&mut self.all[place], item)),
            Err(place) => match self.all.insert(place, item) {
                Ok(()) => None,
                Err(_) => unreachable!(),
            },
        }
    }

    /// Takes the record of a key out, if there is one.
    pub fn cut(&mut self, key: &T::Key) -> Option<T>
        ensures items { self.new.items ≡ cut T.order T.key_of key.now self.old.items }
        ensures before { result ≡ at T.order T.key_of self.old.items key.now }
        ensures back { restored T.order T.key_of key.now result self.new.items ≡ self.old.items }
        ensures room { self.old.spare ≤ self.new.spare }
    {
        match place_of(&self.all, key) {
            Ok(place) => Some(self.all.remove(place)),
            Err(_) => None,
        }
    }
}

// Where the record of a key is, or else where the key belongs.
fn place_of<T: Ordered>(all: &Vec<T>, key: &T::Key) -> Result<usize, usize>
    requires { IsSorted T.order T.key_of all.now.items }
    ensures place { result ≡ place T.order T.key_of all.now.items key.now }
    ensures found { IfOk result (λ i. i < length all.now.items) }
    ensures room { IfErr result (λ i. i ≤ length all.now.items) }
{
    all.binary_search_by(|item| item.compare(key))
}
