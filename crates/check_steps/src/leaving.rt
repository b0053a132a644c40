//! A job that ends at once: its row is unlocked as it is.
ghost use Rattle.std.specs.Prelude.{IfOk, IfErr};
ghost use Rattle.step_relation.specs.Begins.{left_changes, left_entries};
ghost use Rattle.check_steps.specs.Makes.{Makes, MakesNone};

use crate::making::make;
use core_state::{Made, Row};
use heat_plan::{EngineNo, Refusal};
use std::alloc::Global;
use step_parts::{left_changes, left_entries, may_rise};

/// The engine's job ends, and its row is unlocked.
pub(crate) fn leave(alloc: Global, e: EngineNo, row: &Row) -> Result<Made, Refusal>
    ensures made { IfOk result (Makes (left_changes e row.now) (left_entries e row.now)) }
    ensures cause { IfErr result (MakesNone (left_changes e row.now)) }
{
    if !may_rise(row) {
        return Err(Refusal::Worn);
    }
    let changes = left_changes(alloc, e, row)?;
    let entries = left_entries(alloc, e, row)?;
    make(alloc, changes, entries)
}
