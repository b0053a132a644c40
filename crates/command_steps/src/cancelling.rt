//! The step of a cancel command.
ghost use Rattle.std.specs.Prelude.{◌≡◌, ◌≢◌, Some, IfOk, IfErr};
ghost use Rattle.heat_plan.specs.declared.phase.Act.TheVariants.{Delete};
ghost use Rattle.heat_plan.specs.declared.phase.Status.TheVariants.{InProgress};
ghost use Rattle.core_state.specs.State.{stack_at};
ghost use Rattle.step_relation.specs.Orders.{Command, IsForward};
ghost use Rattle.step_relation.specs.Refusals.{RefusesCancel};
ghost use Rattle.command_steps.specs.Answers.{Cancels, OrMemory};

use crate::due::{has_room_for, is_delete, is_forward, is_running};
use crate::laying::ordered;
use crate::order::rollback_order;
use core_state::{Actor, Made, Stack, State};
use heat_plan::{Refusal, StackName};
use std::alloc::Global;

/// The changes and entries of the rollback of a stack whose create or update is running; the state
/// stays as it is.
pub fn cancel(alloc: Global, s: &State, name: &StackName) -> Result<Made, Refusal>
    ensures made { IfOk result (λ m. Cancels s.now.state name.now m.changes m.entries) }
    ensures step { IfOk result (λ m. Command s.now.state m.changes m.entries) }
    ensures cause { IfErr result (OrMemory (RefusesCancel s.now.state name.now)) }
{
    match s.stack(name) {
        None => Err(Refusal::NoStack),
        Some(stack) => cancel_stack(alloc, s, name, stack),
    }
}

// The same for this stack.
fn cancel_stack(alloc: Global, s: &State, name: &StackName, stack: &Stack) -> Result<Made, Refusal>
    requires { stack_at s.now.state.stacks name.now ≡ Some stack.now }
    ensures made { IfOk result (λ m. Cancels s.now.state name.now m.changes m.entries) }
    ensures cause { IfErr result (OrMemory (RefusesCancel s.now.state name.now)) }
{
    if is_delete(stack.act) {
        return Err(Refusal::Deleting);
    }
    if !is_forward(stack.act) {
        return Err(Refusal::NotRunning);
    }
    if !is_running(stack.status) {
        return Err(Refusal::NotRunning);
    }
    cancel_running(alloc, s, name, stack)
}

// The same for one that can be cancelled.
fn cancel_running(
    alloc: Global,
    s: &State,
    name: &StackName,
    stack: &Stack,
) -> Result<Made, Refusal>
    requires found { stack_at s.now.state.stacks name.now ≡ Some stack.now }
    requires kept { stack.now.act ≢ Delete }
    requires forward { IsForward stack.now.act }
    requires running { stack.now.status ≡ InProgress }
    ensures made { IfOk result (λ m. Cancels s.now.state name.now m.changes m.entries) }
    ensures cause { IfErr result (OrMemory (RefusesCancel s.now.state name.now)) }
{
    let order = rollback_order(alloc, s, stack, Actor::Main)?;
    if !has_room_for(s, order.items().len()) {
        return Err(Refusal::TooManyRows);
    }
    ordered(alloc, s, &stack.name, order)
}
