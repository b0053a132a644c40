//! Why bytes are read as no value.
ghost use Rattle.std.specs.Prelude.{◌≡◌};

use crate::Path;
use std::alloc::AllocError;

/// Why `Value::read` gives no value.
#[derive(Debug, Drop)]
pub enum ValueFault {
    /// The bytes are no JSON text, as `serde_json` reads it.
    NotJson,
    /// Lists and maps nest deeper than 64.
    TooDeep,
    /// The first number that isn't a whole number of 64 bits with sign stands here.
    BadNumber(Path),
    /// There was no memory.
    Memory,
}

impl From<AllocError> for ValueFault {
    ghost use Rattle.std.specs.Prelude.{◌≡◌};
    ghost use Rattle.heat_value.specs.declared.fault.ValueFault.TheVariants.{Memory};

    ghost from_gives = { λ _ e. e ≡ Memory };

    fn from(_error: AllocError) -> ValueFault {
        ValueFault::Memory
    }
}
