//! The rollback of a stack whose traversal has just failed.
ghost use Rattle.std.specs.Prelude.{IfOk, IfErr, IsSome};
ghost use Rattle.core_state.specs.State.{stack_at};
ghost use Rattle.core_state.specs.declared.entry.Actor.TheVariants.{Engine};
ghost use Rattle.step_relation.specs.Orders.{rollback_sets};
ghost use Rattle.step_relation.specs.Turns.{FollowsFailure, IsWorn};
ghost use Rattle.command_steps.specs.Answers.{IsLaying, IsWornLaying, OrMemory, WearsOutBehind};

use crate::laying::{ordered, ordered_twice};
use crate::order::rollback_order;
use core_state::{Actor, Made, Stack, State};
use heat_plan::{EngineNo, Refusal};
use std::alloc::Global;

/// The changes and entries of the rollback that an engine begins behind its mark of a failure,
/// where it is due, from the state that the mark left.
pub fn roll_back(alloc: Global, s: &State, e: EngineNo, stack: &Stack) -> Result<Made, Refusal>
    requires { IsSome (stack_at s.now.state.stacks stack.now.name) }
    ensures made { IfOk result (λ m. FollowsFailure s.now.state e stack.now m.changes m.entries) }
    ensures unworn { IfOk result (λ m. ¬ IsWorn m.changes) }
    ensures cause { IfErr result (OrMemory (WearsOutBehind s.now.state e stack.now)) }
{
    match s.stack(&stack.name) {
        Some(failed) => roll_back_failed(alloc, s, e, failed),
        None => unreachable!(),
    }
}

// The same for this stack, as the mark left it.
fn roll_back_failed(alloc: Global, s: &State, e: EngineNo, failed: &Stack) -> Result<Made, Refusal>
    ensures made { IfOk result (λ m. IsLaying s.now.state failed.now.name
        (rollback_sets s.now.state failed.now (Engine e)) m.changes m.entries) }
    ensures cause { IfErr result (OrMemory (IsWornLaying s.now.state failed.now.name
        (rollback_sets s.now.state failed.now (Engine e)))) }
{
    let order = rollback_order(alloc, s, failed, Actor::Engine(e))?;
    ordered(alloc, s, &failed.name, order)
}

/// The same twice, of one layout.
pub fn roll_back_twice(
    alloc: Global,
    s: &State,
    e: EngineNo,
    stack: &Stack,
) -> Result<(Made, Made), Refusal>
    requires { IsSome (stack_at s.now.state.stacks stack.now.name) }
    ensures first { IfOk result (λ both.
        FollowsFailure s.now.state e stack.now both.0.changes both.0.entries) }
    ensures second { IfOk result (λ both.
        FollowsFailure s.now.state e stack.now both.1.changes both.1.entries) }
    ensures unworn { IfOk result (λ both. (¬ IsWorn both.0.changes) × (¬ IsWorn both.1.changes)) }
    ensures cause { IfErr result (OrMemory (WearsOutBehind s.now.state e stack.now)) }
{
    match s.stack(&stack.name) {
        Some(failed) => roll_back_failed_twice(alloc, s, e, failed),
        None => unreachable!(),
    }
}

// The same for this stack, as the mark left it.
fn roll_back_failed_twice(
    alloc: Global,
    s: &State,
    e: EngineNo,
    failed: &Stack,
) -> Result<(Made, Made), Refusal>
    ensures first { IfOk result (λ both. IsLaying s.now.state failed.now.name
        (rollback_sets s.now.state failed.now (Engine e)) both.0.changes both.0.entries) }
    ensures second { IfOk result (λ both. IsLaying s.now.state failed.now.name
        (rollback_sets s.now.state failed.now (Engine e)) both.1.changes both.1.entries) }
    ensures cause { IfErr result (OrMemory (IsWornLaying s.now.state failed.now.name
        (rollback_sets s.now.state failed.now (Engine e)))) }
{
    let order = rollback_order(alloc, s, failed, Actor::Engine(e))?;
    let again = rollback_order(alloc, s, failed, Actor::Engine(e))?;
    ordered_twice(alloc, s, &failed.name, order, again)
}
