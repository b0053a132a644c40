//! Names of resources.
ghost use Rattle.std.specs.Prelude.{◌≡◌, IfOk, string_bytes};
ghost use Rattle.json.specs.Print.{quoted};
ghost use Rattle.script_generator.specs.Resources.{name_of};

use std::alloc::{AllocError, Global};

/// The name of the resource i, in quotes.
pub(crate) fn quoted_name(alloc: Global, i: u32) -> Result<String, AllocError>
    ensures { IfOk result (λ s. string_bytes s ≡ quoted (name_of i)) }
{
    format!(in alloc; "\"r{:04}\"", i)
}
