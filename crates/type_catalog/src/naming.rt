//! Things with names.
ghost use Rattle.std.specs.Prelude.{◌≡◌, ℕ, List, map, option_map};
ghost use Rattle.type_catalog.specs.Names.{is_listed, are_distinct as the_are_distinct};
ghost use Rattle.type_catalog.specs.Names.{are_few as the_are_few, named as the_named};

use heat_plan::HasName;
use heat_value::Text;

/// How many of a sort a registry holds at most.
pub const MOST: usize = 16;

/// The first of this name.
pub fn named<'a, T: HasName>(all: &'a [T], name: &Text) -> Option<&'a T>
    ensures { option_map (λ x. x.now) result ≡ the_named T.name_of name.now all.now }
{
    for one in all {
        if one.name().as_str() == name.as_str() {
            return Some(one);
        }
    }
    None
}

/// Whether there are at most 16, no two of one name.
pub fn are_few<T: HasName>(all: &[T]) -> bool
    ensures { result ≡ the_are_few (map T.name_of all.now) }
{
    all.len() <= MOST && are_distinct(all)
}

// Whether no two have one name.
fn are_distinct<T: HasName>(all: &[T]) -> bool
    ensures { result ≡ the_are_distinct (map T.name_of all.now) }
{
    for i in 0..all.len() {
        if has_name(&all[i + 1..], all[i].name().as_str()) {
            return false;
        }
    }
    true
}

// Whether one of them has this name.
fn has_name<T: HasName>(all: &[T], name: &str) -> bool
    ensures { result ≡ is_listed (map T.name_of all.now) name.now }
{
    for one in all {
        if name == one.name().as_str() {
            return true;
        }
    }
    false
}
