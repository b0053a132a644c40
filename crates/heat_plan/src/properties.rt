//! Property maps and expressions that nest at most 64 deep. The types keep the depth, so that whatever
//! holds one can be written, read again and sent to a provider.
ghost use Rattle.std.specs.Prelude.{◌≡◌, ◌≤◌, SomeIff};
ghost use Rattle.heat_value.specs.Data.{Data, depth, fields, no_members};
ghost use Rattle.heat_value.specs.Meaning.{data_of};

use heat_value::{Equals, MAX_DEPTH, Props, TryCopy, Value};
use std::alloc::{AllocError, Global};
use std::marker::Model;

/// A property map whose depth as a value is at most 64.
#[derive(Debug, Drop)]
pub struct Properties {
    props: Props,
}

impl Model for Properties {
    ghost use Rattle.std.specs.Prelude.{◌≤◌};
    ghost use Rattle.heat_value.specs.Data.{Members, depth, fields};
    ghost use Rattle.heat_value.specs.Code.{members_code};

    ghost Value = { Members };

    ghost coded = { members_code };

    ghost view = { λ p. p.props };

    ghost invariant = { λ p. depth (fields p.props) ≤ 64 };
}

impl Properties {
    /// No property.
    pub fn new(alloc: Global) -> Properties
        ensures { result ≡ no_members }
    {
        Properties {
            props: Props::new(alloc),
        }
    }

    /// The map, where it nests at most 64 deep.
    pub fn from_props(props: Props) -> Option<Properties>
        ensures { SomeIff result (depth (fields props) ≤ 64) props }
    {
        if props.are_within(MAX_DEPTH - 1) {
            Some(Properties { props })
        } else {
            None
        }
    }

    /// The map itself.
    pub fn as_props(&self) -> &Props
        ensures value { result.now ≡ self.now }
        ensures shallow { depth (fields self.now) ≤ 64 }
    {
        &self.props
    }
}

impl TryCopy for Properties {
    fn copy(&self) -> Result<Properties, AllocError> {
        Ok(Properties {
            props: self.props.copy()?,
        })
    }
}

impl Equals for Properties {
    fn equals(&self, other: &Properties) -> bool {
        self.props.equals(&other.props)
    }
}

/// A value that nests at most 64 deep and may hold functions that are yet to be evaluated.
#[derive(Debug)]
pub struct Expression {
    value: Value,
}

impl Drop for Expression {
    fn drop(self) {
        let Expression { value: _ } = self;
    }
}

impl Model for Expression {
    ghost use Rattle.std.specs.Prelude.{◌≤◌};
    ghost use Rattle.heat_value.specs.Data.{Data, depth};
    ghost use Rattle.heat_value.specs.Code.{data_code};
    ghost use Rattle.heat_value.specs.Meaning.{data_of};

    ghost Value = { Data };

    ghost coded = { data_code };

    ghost view = { λ e. data_of e.value };

    ghost invariant = { λ e. depth (data_of e.value) ≤ 64 };
}

impl Expression {
    /// The value, where it nests at most 64 deep.
    pub fn from_value(value: Value) -> Option<Expression>
        ensures { SomeIff result (depth (data_of value) ≤ 64) (data_of value) }
    {
        if value.is_within(MAX_DEPTH) {
            Some(Expression { value })
        } else {
            None
        }
    }

    /// The value itself.
    pub fn as_value(&self) -> &Value
        ensures value { data_of result.now ≡ self.now }
        ensures shallow { depth self.now ≤ 64 }
    {
        &self.value
    }
}

impl TryCopy for Expression {
    fn copy(&self) -> Result<Expression, AllocError> {
        Ok(Expression {
            value: self.value.copy()?,
        })
    }
}

impl Equals for Expression {
    fn equals(&self, other: &Expression) -> bool {
        self.value.equals(&other.value)
    }
}
