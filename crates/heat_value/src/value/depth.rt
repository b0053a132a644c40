//! How deep lists and maps nest.
ghost use Rattle.std.specs.Prelude.{◌≡◌, ◌↔◌, ◌≤◌, IsTrue};
ghost use Rattle.heat_value.specs.Data.{depth, nodes_depth, members_depth};

use crate::{Items, Props, Value};

impl Value {
    ghost use Rattle.heat_value.specs.Meaning.{data_of};

    /// Whether lists and maps nest no deeper than the limit; a scalar has depth 0.
    #[cycle(within)]
    pub fn is_within(&self, limit: u32) -> bool
        ensures { IsTrue result ↔ (depth (data_of self.now) ≤ limit) }
    {
        match self {
            Value::Items(items) => limit > 0 && items.are_within(limit - 1),
            Value::Fields(fields) => limit > 0 && fields.are_within(limit - 1),
            Value::Null | Value::Flag(_) | Value::Whole(_) | Value::Words(_) => true,
        }
    }
}

impl Items {
    /// Whether each value nests no deeper than the limit.
    #[cycle(within)]
    pub fn are_within(&self, limit: u32) -> bool
        ensures { IsTrue result ↔ (nodes_depth self.now ≤ limit) }
    {
        for value in &self.all {
            if !value.is_within(limit) {
                return false;
            }
        }
        true
    }
}

impl Props {
    /// Whether each value nests no deeper than the limit.
    #[cycle(within)]
    pub fn are_within(&self, limit: u32) -> bool
        ensures { IsTrue result ↔ (members_depth self.now ≤ limit) }
    {
        for member in &self.members {
            if !member.value.is_within(limit) {
                return false;
            }
        }
        true
    }
}
