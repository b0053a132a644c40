//! The step of a create command.
ghost use Rattle.std.specs.Prelude.{◌≡◌, ◌<◌, None, IfOk, IfErr, length};
ghost use Rattle.core_state.specs.State.{stack_at};
ghost use Rattle.step_relation.specs.Orders.{Command, HasRoomFor, create_sets, stack_limit};
ghost use Rattle.step_relation.specs.Refusals.{RefusesCreate};
ghost use Rattle.command_steps.specs.Answers.{Creates, IsLaying, IsWornLaying, OrMemory};

use crate::due::has_room_for;
use crate::laying::laid;
use crate::layout::numbered_layout;
use crate::order::create_order;
use core_state::{Made, State};
use heat_plan::{Plan, Refusal, StackName};
use std::alloc::Global;

// How many stacks there may be.
const STACK_LIMIT: usize = 256;

/// The changes and entries of a stack's creation from a plan; the state stays as it is.
pub fn create(
    alloc: Global,
    s: &State,
    name: &StackName,
    plan: Plan,
    rollback: bool,
) -> Result<Made, Refusal>
    ensures made { IfOk result (λ m.
        Creates s.now.state name.now plan rollback m.changes m.entries) }
    ensures step { IfOk result (λ m. Command s.now.state m.changes m.entries) }
    ensures cause { IfErr result (OrMemory (RefusesCreate s.now.state name.now plan rollback)) }
{
    match s.stack(name) {
        Some(_) => Err(Refusal::StackExists),
        None => create_absent(alloc, s, name, plan, rollback),
    }
}

// The same for a name that no stack has.
fn create_absent(
    alloc: Global,
    s: &State,
    name: &StackName,
    plan: Plan,
    rollback: bool,
) -> Result<Made, Refusal>
    requires { stack_at s.now.state.stacks name.now ≡ None }
    ensures made { IfOk result (λ m.
        Creates s.now.state name.now plan rollback m.changes m.entries) }
    ensures cause { IfErr result (OrMemory (RefusesCreate s.now.state name.now plan rollback)) }
{
    if s.stacks().len() >= STACK_LIMIT {
        return Err(Refusal::TooManyStacks);
    }
    if !has_room_for(s, plan.items().len()) {
        return Err(Refusal::TooManyRows);
    }
    create_within(alloc, s, name, plan, rollback)
}

// The same within the limits.
fn create_within(
    alloc: Global,
    s: &State,
    name: &StackName,
    plan: Plan,
    rollback: bool,
) -> Result<Made, Refusal>
    ensures made { IfOk result (λ m. IsLaying s.now.state name.now
        (create_sets s.now.state name.now plan rollback) m.changes m.entries) }
    ensures cause { IfErr result (OrMemory (IsWornLaying s.now.state name.now
        (create_sets s.now.state name.now plan rollback))) }
{
    let layout = numbered_layout(alloc, s, name, plan.items(), 1)?;
    let order = create_order(alloc, s, name, plan, rollback)?;
    let made = laid(alloc, s, name, order, layout)?;
    Ok(made)
}
