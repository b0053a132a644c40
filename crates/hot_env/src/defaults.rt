//! Parameters with the defaults that an environment gives them.
ghost use Rattle.std.specs.Prelude.{◌≡◌, IfOk, Some};
ghost use Rattle.heat_value.specs.Meaning.{data_of};
ghost use Rattle.hot_env.specs.Applied.{each_value, within, defaulted as the_defaulted};
ghost use Rattle.hot_env.specs.Applied.{with_default as the_with_default};

use heat_value::{Member, Props, Text, TryCopy, Value};
use std::alloc::{AllocError, Global};

/// The section `parameters` with these defaults.
pub(crate) fn params_defaulted(
    alloc: Global,
    defaults: &Props,
    value: &Value,
) -> Result<Value, AllocError>
    ensures { IfOk result (λ v. data_of v
        ≡ within (each_value (the_defaulted defaults.now)) (data_of value.now)) }
{
    match value {
        Value::Fields(params) => Ok(Value::Fields(each_defaulted(alloc, defaults, params)?)),
        Value::Null | Value::Flag(_) | Value::Whole(_) | Value::Words(_) | Value::Items(_) => {
            value.copy()
        }
    }
}

// Each parameter with its default.
fn each_defaulted(alloc: Global, defaults: &Props, params: &Props) -> Result<Props, AllocError>
    ensures { IfOk result (λ p. p ≡ each_value (the_defaulted defaults.now) params.now) }
{
    let mut all = Props::new(alloc);
    for member in params.as_slice() {
        all.put(member.key.copy()?, defaulted(alloc, defaults, member)?)?;
    }
    Ok(all)
}

// A parameter with the default that it is given, if it is given one.
fn defaulted(alloc: Global, defaults: &Props, param: &Member) -> Result<Value, AllocError>
    ensures { IfOk result (λ v. data_of v
        ≡ the_defaulted defaults.now param.now.key (data_of param.now.value)) }
{
    match defaults.get(&param.key) {
        Some(default) => with_default(alloc, default, &param.value),
        None => param.value.copy(),
    }
}

// The parameter with this default.
fn with_default(alloc: Global, default: &Value, param: &Value) -> Result<Value, AllocError>
    ensures { IfOk result (λ v. data_of v
        ≡ the_with_default (Some (data_of default.now)) (data_of param.now)) }
{
    match param {
        Value::Fields(fields) => {
            let mut fields = fields.copy()?;
            fields.put(Text::from_str(alloc, "default")?, default.copy()?)?;
            Ok(Value::Fields(fields))
        }
        Value::Null | Value::Flag(_) | Value::Whole(_) | Value::Words(_) | Value::Items(_) => {
            param.copy()
        }
    }
}
