//! The values of a template's conditions by their places, as far as they have any.
ghost use Rattle.std.specs.Prelude.{◌≡◌};
ghost use Rattle.std.proofs.Props.{props};
ghost use Rattle.heat_plan.specs.Named.{condition_value};
ghost use Rattle.heat_value.specs.Data.{Rises};
ghost use Rattle.heat_value.specs.Meaning.{members_of};
ghost use Rattle.eval_words.specs.SoFar.{named_values, value_at as the_value_at};

use heat_value::{Member, Text};

/// Conditions in byte order of their names, and by their places the value of each that has one.
#[derive(Clone, Copy)]
pub struct SoFar<'a> {
    pub(crate) conds: &'a [Member],
    pub(crate) values: &'a [Option<bool>],
    ghost rising: { Rises (members_of conds.now) } by { Prim.hlevel props },
}

impl<'a> SoFar<'a> {
    /// The value of the condition of this name, by binary search.
    pub fn value_of(&self, name: &Text) -> Option<bool>
        ensures { result ≡ condition_value
            (named_values (members_of self.now.conds.now) self.now.values.now) name.now }
    {
        match self.conds.binary_search_by(|cond| cond.key.cmp(name)) {
            Ok(place) => value_at(self.values, place),
            Err(_) => None,
        }
    }

    /// The place of the condition of this name, by binary search.
    pub(crate) fn place_of(&self, name: &Text) -> Option<usize> {
        self.conds.binary_search_by(|cond| cond.key.cmp(name)).ok()
    }
}

// The value at a place, if there is one.
fn value_at(values: &[Option<bool>], place: usize) -> Option<bool>
    ensures { result ≡ the_value_at values.now place }
{
    match values.get(place) {
        Some(value) => *value,
        None => None,
    }
}
