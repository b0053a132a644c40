//! What a step gives, once its changes and entries are known.
ghost use Rattle.std.specs.Prelude.{IfOk, IfErr};
ghost use Rattle.check_steps.specs.Makes.{Makes, MakesNone};

use core_state::{Batch, Change, Entry, Made};
use heat_plan::Refusal;
use std::alloc::Global;
use step_parts::made_within;

/// These changes and entries; refuses `Worn` where the changes wear something out.
pub(crate) fn make(
    alloc: Global,
    changes: Batch<Change>,
    entries: Batch<Entry>,
) -> Result<Made, Refusal>
    ensures made { IfOk result (Makes changes entries) }
    ensures cause { IfErr result (MakesNone changes) }
{
    made_within(alloc, changes, entries)
}
