//! The conditions that have a value, and how one is found by its name.
ghost use Rattle.std.specs.Prelude.{◌≡◌};
ghost use Rattle.heat_plan.specs.Named.{condition_value};
ghost use Rattle.heat_value.specs.Data.{Rises};
ghost use Rattle.heat_value.specs.Meaning.{members_of};
ghost use Rattle.eval_words.specs.ValuedConds.{valued_data};
ghost use Rattle.eval_words.specs.SoFar.{named_values};

use crate::so_far::SoFar;
use heat_plan::{ByName, Condition};
use heat_value::{Member, Text};

/// The conditions that have a value: all of a plan's, or those of a template's that have one so far.
#[derive(Clone, Copy)]
pub enum ValuedConds<'a> {
    All(&'a ByName<Condition>),
    SoFar(SoFar<'a>),
}

impl<'a> ValuedConds<'a> {
    /// Those of these conditions that have a value, where these are the values by their places.
    pub fn so_far(conds: &'a [Member], values: &'a [Option<bool>]) -> ValuedConds<'a>
        requires { Rises (members_of conds.now) }
        ensures { valued_data result ≡ named_values (members_of conds.now) values.now }
    {
        ValuedConds::SoFar(SoFar { conds, values })
    }

    /// The value of the condition of this name.
    pub fn value_of(&self, name: &Text) -> Option<bool>
        ensures { result ≡ condition_value (valued_data self.now) name.now }
    {
        match self {
            ValuedConds::All(conds) => conds.value_of(name),
            ValuedConds::SoFar(found) => found.value_of(name),
        }
    }

    /// The place of the condition of this name, where places are known.
    pub fn place_of(&self, name: &Text) -> Option<usize> {
        match self {
            ValuedConds::All(_) => None,
            ValuedConds::SoFar(found) => found.place_of(name),
        }
    }
}
