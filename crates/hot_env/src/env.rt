//! An environment, and what it makes of what is given and of a template.
ghost use Rattle.std.specs.Prelude.{◌≡◌, IfOk, IfErr, None, option_map};
ghost use Rattle.heat_value.specs.Data.{no_members, fields as fields_data};
ghost use Rattle.heat_value.specs.Meaning.{data_of};
ghost use Rattle.hot_forms.specs.Shapes.{members_in as the_members_in};
ghost use Rattle.hot_tree.specs.Readings.{object_in as the_object_in};
ghost use Rattle.hot_env.specs.Checks.{environment_flaw as the_environment_flaw, IsFaultOf};
ghost use Rattle.hot_env.specs.Environments.{IsEnvOf, over};

use crate::EnvFault;
use crate::checking::environment_flaw;
use heat_value::{Props, TryCopy, Value};
use hot_forms::found;
use std::alloc::{AllocError, Global};

/// A right environment: parameters, defaults of parameters, and for types the names that stand for them.
#[derive(Debug, Drop)]
pub struct Env {
    pub(crate) params: Props,
    pub(crate) defaults: Props,
    pub(crate) types: Props,
}

impl Env {
    /// The environment that a value is, or the first of its flaws: V01 of all keys in byte order, then V02.
    pub fn read(alloc: Global, value: &Value) -> Result<Env, EnvFault>
        ensures ok { IfOk result (λ e. IsEnvOf (data_of value.now) e) }
        ensures fault { IfErr result (λ e. IsFaultOf (data_of value.now) e) }
    {
        match environment_flaw(alloc, value)? {
            Some(flaw) => Err(EnvFault::Wrong(flaw)),
            None => Ok(env_of(alloc, value)?),
        }
    }

    /// The environment's parameters, with a body's own in their place where both have a name.
    pub fn given(&self, own: &Props) -> Result<Props, AllocError>
        ensures { IfOk result (λ p. p ≡ over self.now.params own.now) }
    {
        let mut given = self.params.copy()?;
        for member in own.as_slice() {
            given.put(member.key.copy()?, member.value.copy()?)?;
        }
        Ok(given)
    }
}

// What a right environment says.
fn env_of(alloc: Global, value: &Value) -> Result<Env, AllocError>
    requires { the_environment_flaw (data_of value.now) ≡ None }
    ensures { IfOk result (λ e. IsEnvOf (data_of value.now) e) }
{
    let none = Props::new(alloc);
    let fields = members_in(value, &none);
    Ok(Env {
        params: object_in(found(alloc, fields, "parameters")?, &none).copy()?,
        defaults: object_in(found(alloc, fields, "parameter_defaults")?, &none).copy()?,
        types: object_in(found(alloc, fields, "resource_registry")?, &none).copy()?,
    })
}

// The members of the object that stands there; anything else has none, as `none` has.
fn object_in<'a>(value: Option<&'a Value>, none: &'a Props) -> &'a Props
    requires { none.now ≡ no_members }
    ensures { result.now ≡ the_object_in (option_map (λ v. data_of v.now) value.entry) }
{
    match value {
        Some(value) => members_in(value, none),
        None => none,
    }
}

// The members of an object; any other value has none, as `none` has.
fn members_in<'a>(value: &'a Value, none: &'a Props) -> &'a Props
    requires { none.now ≡ no_members }
    ensures { result.now ≡ the_members_in (data_of value.now) }
{
    match value {
        Value::Fields(fields) => fields,
        Value::Null | Value::Flag(_) | Value::Whole(_) | Value::Words(_) | Value::Items(_) => none,
    }
}
