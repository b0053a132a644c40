//! Two steps as one.
ghost use Rattle.std.specs.Prelude.{◌≡◌, ◌++◌, IfOk};

use crate::lists::with_last;
use core_state::Made;
use std::alloc::AllocError;

/// The one step, and then the other.
pub fn joined(first: Made, last: Made) -> Result<Made, AllocError>
    ensures changes { IfOk result (λ m. m.changes ≡ first.changes ++ last.changes) }
    ensures entries { IfOk result (λ m. m.entries ≡ first.entries ++ last.entries) }
{
    Ok(Made {
        changes: with_last(first.changes, last.changes)?,
        entries: with_last(first.entries, last.entries)?,
    })
}
