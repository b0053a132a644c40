//! Things with names, and how one of them is found by its name.
ghost use Rattle.std.specs.Prelude.{◌≡◌, ◌↔◌, [], IsTrue, List, ℕ, map, option_map};
ghost use Rattle.heat_plan.specs.Named.{first_named as the_first_named};
ghost use Rattle.heat_plan.specs.Order.{Rising};

use heat_value::{Equals, Seq, Text, TryCopy};
use std::alloc::{AllocError, Global};
use std::cmp::Ordering;
use std::marker::Model;

/// A thing with a name.
pub trait HasName: Drop {
    ghost name_of: { Self → List ℕ };

    /// The name.
    fn name(&self) -> &Text
        ensures { result.now ≡ name_of self.now };
}

/// Things in the order in which they came, with whether their names rise.
#[derive(Debug, Drop)]
pub struct ByName<T: HasName> {
    list: Seq<T>,
    rise: bool,
}

impl<T: HasName> Model for ByName<T> {
    ghost use Rattle.std.specs.Prelude.{IsTrue, List, map};
    ghost use Rattle.heat_plan.specs.Order.{Rising};

    ghost Value = { List T };

    ghost view = { λ b. b.list };

    ghost invariant = { λ b. IsTrue b.rise → Rising (map T.name_of b.list) };
}

impl<T: HasName> ByName<T> {
    /// Nothing.
    pub fn new(alloc: Global) -> ByName<T>
        ensures { result ≡ [] }
    {
        ByName::from_list(Seq::new(alloc))
    }

    /// These things, in their order.
    pub fn from_list(list: Seq<T>) -> ByName<T>
        ensures { result ≡ list }
    {
        let rise = names_rise(list.as_slice());
        ByName { list, rise }
    }

    /// All of them, in their order.
    pub fn as_slice(&self) -> &[T]
        ensures { result.now ≡ self.now }
    {
        self.list.as_slice()
    }

    /// The first of this name: by binary search where all names rise, else front to back.
    pub fn first_named(&self, name: &Text) -> Option<&T>
        ensures { option_map (λ x. x.now) result ≡ the_first_named T.name_of name.now self.now }
    {
        if self.rise {
            searched(self.list.as_slice(), name)
        } else {
            met_first(self.list.as_slice(), name)
        }
    }
}

// Whether each name is below the one behind it, in byte order.
fn names_rise<T: HasName>(list: &[T]) -> bool
    ensures { IsTrue result ↔ Rising (map T.name_of list.now) }
{
    for i in 1..list.len() {
        if list[i - 1].name().cmp(list[i].name()) != Ordering::Less {
            return false;
        }
    }
    true
}

// The one of this name, where names rise.
fn searched<'a, T: HasName>(list: &'a [T], name: &Text) -> Option<&'a T>
    requires { Rising (map T.name_of list.now) }
    ensures { option_map (λ x. x.now) result ≡ the_first_named T.name_of name.now list.now }
{
    match list.binary_search_by(|thing| thing.name().cmp(name)) {
        Ok(place) => Some(&list[place]),
        Err(_) => None,
    }
}

// The first one of this name.
fn met_first<'a, T: HasName>(list: &'a [T], name: &Text) -> Option<&'a T>
    ensures { option_map (λ x. x.now) result ≡ the_first_named T.name_of name.now list.now }
{
    for thing in list {
        if thing.name().as_str() == name.as_str() {
            return Some(thing);
        }
    }
    None
}

impl<T: HasName + TryCopy> TryCopy for ByName<T> {
    fn copy(&self) -> Result<ByName<T>, AllocError> {
        Ok(ByName {
            list: self.list.copy()?,
            rise: self.rise,
        })
    }
}

impl<T: HasName + Equals> Equals for ByName<T> {
    fn equals(&self, other: &ByName<T>) -> bool {
        self.list.equals(&other.list)
    }
}
