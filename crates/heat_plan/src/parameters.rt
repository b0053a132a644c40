//! The bound parameters of a plan. Each value nests at most 64 deep; the map itself isn't counted.
ghost use Rattle.std.specs.Prelude.{◌≡◌, ◌≤◌, SomeIff};
ghost use Rattle.heat_value.specs.Data.{members_depth, no_members};

use heat_value::{Equals, MAX_DEPTH, Props, TryCopy};
use std::alloc::{AllocError, Global};
use std::marker::Model;

/// Parameters by name, each with a value whose depth is at most 64.
#[derive(Debug, Drop)]
pub struct Parameters {
    props: Props,
}

impl Model for Parameters {
    ghost use Rattle.std.specs.Prelude.{◌≤◌};
    ghost use Rattle.heat_value.specs.Data.{Members, members_depth};
    ghost use Rattle.heat_value.specs.Code.{members_code};

    ghost Value = { Members };

    ghost coded = { members_code };

    ghost view = { λ p. p.props };

    ghost invariant = { λ p. members_depth p.props ≤ 64 };
}

impl Parameters {
    /// No parameter.
    pub fn new(alloc: Global) -> Parameters
        ensures { result ≡ no_members }
    {
        Parameters {
            props: Props::new(alloc),
        }
    }

    /// The map, where each value nests at most 64 deep.
    pub fn from_props(props: Props) -> Option<Parameters>
        ensures { SomeIff result (members_depth props ≤ 64) props }
    {
        if props.are_within(MAX_DEPTH) {
            Some(Parameters { props })
        } else {
            None
        }
    }

    /// The map itself.
    pub fn as_props(&self) -> &Props
        ensures value { result.now ≡ self.now }
        ensures shallow { members_depth self.now ≤ 64 }
    {
        &self.props
    }
}

impl TryCopy for Parameters {
    fn copy(&self) -> Result<Parameters, AllocError> {
        Ok(Parameters {
            props: self.props.copy()?,
        })
    }
}

impl Equals for Parameters {
    fn equals(&self, other: &Parameters) -> bool {
        self.props.equals(&other.props)
    }
}
