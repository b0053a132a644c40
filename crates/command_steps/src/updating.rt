//! The step of an update command.
ghost use Rattle.std.specs.Prelude.{◌≡◌, Some, IfOk, IfErr};
ghost use Rattle.core_state.specs.State.{stack_at};
ghost use Rattle.step_relation.specs.Orders.{Command, update_sets};
ghost use Rattle.step_relation.specs.Refusals.{RefusesUpdate};
ghost use Rattle.command_steps.specs.Answers.{IsLaying, IsWornLaying, OrMemory, Updates};

use crate::due::{has_room_for, is_delete};
use crate::laying::ordered;
use crate::order::update_order;
use core_state::{Made, Stack, State};
use heat_plan::{Plan, Refusal, StackName};
use std::alloc::Global;

/// The changes and entries of a stack's update to a plan; the state stays as it is.
pub fn update(
    alloc: Global,
    s: &State,
    name: &StackName,
    plan: Plan,
    rollback: bool,
) -> Result<Made, Refusal>
    ensures made { IfOk result (λ m.
        Updates s.now.state name.now plan rollback m.changes m.entries) }
    ensures step { IfOk result (λ m. Command s.now.state m.changes m.entries) }
    ensures cause { IfErr result (OrMemory (RefusesUpdate s.now.state name.now plan rollback)) }
{
    match s.stack(name) {
        None => Err(Refusal::NoStack),
        Some(stack) => update_stack(alloc, s, name, stack, plan, rollback),
    }
}

// The same for this stack.
fn update_stack(
    alloc: Global,
    s: &State,
    name: &StackName,
    stack: &Stack,
    plan: Plan,
    rollback: bool,
) -> Result<Made, Refusal>
    requires { stack_at s.now.state.stacks name.now ≡ Some stack.now }
    ensures made { IfOk result (λ m.
        Updates s.now.state name.now plan rollback m.changes m.entries) }
    ensures cause { IfErr result (OrMemory (RefusesUpdate s.now.state name.now plan rollback)) }
{
    if is_delete(stack.act) {
        return Err(Refusal::Deleting);
    }
    if !has_room_for(s, plan.items().len()) {
        return Err(Refusal::TooManyRows);
    }
    update_within(alloc, s, stack, plan, rollback)
}

// The same within the limit.
fn update_within(
    alloc: Global,
    s: &State,
    stack: &Stack,
    plan: Plan,
    rollback: bool,
) -> Result<Made, Refusal>
    ensures made { IfOk result (λ m. IsLaying s.now.state stack.now.name
        (update_sets s.now.state stack.now plan rollback) m.changes m.entries) }
    ensures cause { IfErr result (OrMemory (IsWornLaying s.now.state stack.now.name
        (update_sets s.now.state stack.now plan rollback))) }
{
    let order = update_order(alloc, s, stack, plan, rollback)?;
    ordered(alloc, s, &stack.name, order)
}
