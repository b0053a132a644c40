//! Whether no answer of a call can wear anything out, told without a layout of the rollback that a failure
//! would bring.
ghost use Rattle.std.specs.Bool.{OnTrue};
ghost use Rattle.step_ends.specs.Spares.{HasSpare};

use command_steps::{can_roll_back, may_rise};
use core_state::{Row, State};

/// Whether enough numbers are left for whatever an answer brings at this row.
pub(crate) fn has_spare(s: &State, row: &Row) -> bool
    ensures { OnTrue result (HasSpare s.now.state row.now) }
{
    may_rise(row) && can_roll_back(s)
}
