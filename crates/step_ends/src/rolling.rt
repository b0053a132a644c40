//! The rollback behind the mark of a failure. It is laid on the state before the mark: the mark
//! changes nothing that a rollback reads.
ghost use Rattle.std.specs.Prelude.{◌≡◌, IfErr, IfOk, Some};
ghost use Rattle.heat_plan.specs.declared.phase.Status.TheVariants.{InProgress};
ghost use Rattle.core_state.specs.State.{stack_at};
ghost use Rattle.step_ends.specs.Marks.{AreBehind, IsBehind, IsBehindRefusal};

use command_steps::{is_due, roll_back, roll_back_twice};
use core_state::{Made, Stack, State};
use heat_plan::{EngineNo, Refusal};
use std::alloc::Global;

/// What follows once the engine has rewritten a row, ended its job and marked the stack as failed: the
/// rollback, where it is due.
pub fn rolled_behind(
    alloc: Global,
    s: &State,
    e: EngineNo,
    stack: &Stack,
) -> Result<Option<Made>, Refusal>
    requires found { stack_at s.now.state.stacks stack.now.name ≡ Some stack.now }
    requires running { stack.now.status ≡ InProgress }
    ensures made { IfOk result (IsBehind s.now.state e stack.now) }
    ensures cause { IfErr result (IsBehindRefusal s.now.state e stack.now) }
{
    if !is_due(s, stack) {
        return Ok(None);
    }
    let made = roll_back(alloc, s, e, stack)?;
    Ok(Some(made))
}

/// The same twice, of one layout.
pub(crate) fn rolled_behind_twice(
    alloc: Global,
    s: &State,
    e: EngineNo,
    stack: &Stack,
) -> Result<Option<(Made, Made)>, Refusal>
    requires found { stack_at s.now.state.stacks stack.now.name ≡ Some stack.now }
    requires running { stack.now.status ≡ InProgress }
    ensures made { IfOk result (AreBehind s.now.state e stack.now) }
    ensures cause { IfErr result (IsBehindRefusal s.now.state e stack.now) }
{
    if !is_due(s, stack) {
        return Ok(None);
    }
    let both = roll_back_twice(alloc, s, e, stack)?;
    Ok(Some(both))
}
