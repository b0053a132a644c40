//! The conditions of a plan with their values.
ghost use Rattle.std.specs.Prelude.{◌≡◌};
ghost use Rattle.heat_plan.specs.Named.{condition_value};

use crate::{ByName, HasName};
use heat_value::{Equals, Text, TryCopy};
use std::alloc::AllocError;

/// A named condition and its value.
#[derive(Debug, Drop)]
pub struct Condition {
    pub name: Text,
    pub value: bool,
}

impl HasName for Condition {
    ghost name_of = { λ c. c.name };

    fn name(&self) -> &Text {
        &self.name
    }
}

impl ByName<Condition> {
    /// The value of the condition of this name.
    pub fn value_of(&self, name: &Text) -> Option<bool>
        ensures { result ≡ condition_value self.now name.now }
    {
        match self.first_named(name) {
            Some(condition) => Some(condition.value),
            None => None,
        }
    }
}

impl TryCopy for Condition {
    fn copy(&self) -> Result<Condition, AllocError> {
        Ok(Condition {
            name: self.name.copy()?,
            value: self.value,
        })
    }
}

impl Equals for Condition {
    fn equals(&self, other: &Condition) -> bool {
        self.name.equals(&other.name) && self.value == other.value
    }
}
