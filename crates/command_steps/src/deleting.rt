//! The step of a delete command.
ghost use Rattle.std.specs.Prelude.{IfOk, IfErr};
ghost use Rattle.step_relation.specs.Orders.{Command, delete_sets};
ghost use Rattle.step_relation.specs.Refusals.{RefusesDelete};
ghost use Rattle.command_steps.specs.Answers.{Deletes, IsLaying, IsWornLaying, OrMemory};

use crate::laying::ordered;
use crate::order::delete_order;
use core_state::{Made, Stack, State};
use heat_plan::{Refusal, StackName};
use std::alloc::Global;

/// The changes and entries of a stack's deletion; the state stays as it is.
pub fn delete(alloc: Global, s: &State, name: &StackName) -> Result<Made, Refusal>
    ensures made { IfOk result (λ m. Deletes s.now.state name.now m.changes m.entries) }
    ensures step { IfOk result (λ m. Command s.now.state m.changes m.entries) }
    ensures cause { IfErr result (OrMemory (RefusesDelete s.now.state name.now)) }
{
    match s.stack(name) {
        None => Err(Refusal::NoStack),
        Some(stack) => delete_stack(alloc, s, stack),
    }
}

// The same for this stack.
fn delete_stack(alloc: Global, s: &State, stack: &Stack) -> Result<Made, Refusal>
    ensures made { IfOk result (λ m. IsLaying s.now.state stack.now.name
        (delete_sets s.now.state stack.now) m.changes m.entries) }
    ensures cause { IfErr result (OrMemory (IsWornLaying s.now.state stack.now.name
        (delete_sets s.now.state stack.now))) }
{
    let order = delete_order(s, stack)?;
    ordered(alloc, s, &stack.name, order)
}
