//! The text that a value stands for where a text is wanted.
ghost use Rattle.std.specs.Prelude.{◌≡◌, IfOk};
ghost use Rattle.heat_value.specs.Coercion.{coerced};
ghost use Rattle.heat_value.specs.Meaning.{data_of};

use crate::{Text, TryCopy, Value};
use std::alloc::{AllocError, Global};

/// Null as the empty text, a text as itself, a whole number in decimal, a flag as `true` or `false`,
/// a list or a map as its compact JSON.
pub fn text_of(alloc: Global, value: &Value) -> Result<Text, AllocError>
    ensures { IfOk result (λ t. t ≡ coerced (data_of value.now)) }
{
    match value {
        Value::Null => Ok(Text::from_string(String::new(alloc))),
        Value::Words(words) => words.copy(),
        Value::Flag(_) | Value::Whole(_) | Value::Items(_) | Value::Fields(_) => value.text(alloc),
    }
}
