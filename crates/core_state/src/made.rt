//! What a step gives: nothing is changed until its changes are applied.
ghost use Rattle.std.specs.Prelude.{◌≡◌, IfOk};

use crate::batch::Batch;
use crate::change::Change;
use crate::entry::Entry;
use crate::ready::{Ready, ready_all};
use std::alloc::{AllocError, Global};

/// A step's changes, each with its memory, and the entries that tell of it, both in order.
#[derive(Debug, Drop)]
pub struct Made {
    pub changes: Batch<Ready>,
    pub entries: Batch<Entry>,
}

impl Made {
    /// These changes and entries.
    pub fn new(
        alloc: Global,
        changes: Batch<Change>,
        entries: Batch<Entry>,
    ) -> Result<Made, AllocError>
        ensures changes { IfOk result (λ m. m.changes ≡ changes) }
        ensures entries { IfOk result (λ m. m.entries ≡ entries) }
    {
        let changes = ready_all(alloc, changes)?;
        Ok(Made { changes, entries })
    }
}
