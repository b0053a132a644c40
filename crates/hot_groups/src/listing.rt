//! Lists of values put together.
ghost use Rattle.std.specs.Prelude.{◌≡◌, IfOk, OnOk};
ghost use Rattle.heat_value.specs.Meaning.{nodes_of};
ghost use Rattle.hot_groups.specs.References.{nodes_before};

use heat_value::{Items, TryCopy, Value};
use std::alloc::{AllocError, Global};

/// Puts a copy of each of these values behind the last.
pub(crate) fn push_all(all: &mut Items, values: &[Value]) -> Result<(), AllocError>
    ensures { OnOk result (all.new ≡ nodes_before all.old (nodes_of values.now)) }
{
    for value in values {
        all.push(value.copy()?)?;
    }
    Ok(())
}

/// A copy of each value.
pub(crate) fn copied(alloc: Global, values: &[Value]) -> Result<Items, AllocError>
    ensures { IfOk result (λ a. a ≡ nodes_of values.now) }
{
    let mut all = Items::new(alloc);
    push_all(&mut all, values)?;
    Ok(all)
}
