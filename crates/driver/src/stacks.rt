//! What the stacks' graphs stand for, and the plans that they could go back to.
ghost use Rattle.std.specs.Prelude.{◌≡◌, ◌≤◌, ◌<◌, ◌^◌, Some, length};
ghost use Rattle.core_state.specs.State.{stack_at};
ghost use Rattle.step_relation.specs.Orders.{plan_back};
ghost use Rattle.bound_laws.specs.Counts.{Counts};
ghost use Rattle.bound_laws.specs.Rolls.{MayRoll, RollFar};
ghost use Rattle.bound_laws.specs.Work.{IsUnready};
ghost use Rattle.driver.specs.Keyed.{AreKeyed};
ghost use Rattle.driver.specs.Parts.{StackWork, StacksWork};

use crate::nodes::{far_in, unready_in};
use crate::rolls::may_roll;
use core_state::{Stack, State};

/// 69 for each node of a graph that is neither ready nor done; and of a stack that may be rolled back 69 for
/// each such node once more, for each item that it would go back to, and for each update node whose target is
/// yet to be begun.
pub(crate) fn stacks_work(s: &State) -> u128
    requires { AreKeyed s.now.state }
    ensures exact { StacksWork s.now.state result }
    ensures bound { result < 2 ^ 127 }
{
    let mut sum = 0;
    for stack in s.stacks() {
        sum += stack_work(s, stack);
    }
    sum
}

// The part of one stack.
fn stack_work(s: &State, stack: &Stack) -> u128
    requires { stack_at s.now.state.stacks stack.now.name ≡ Some stack.now }
    ensures exact { StackWork s.now.state stack.now.name result }
    ensures bound { result < 2 ^ 70 }
{
    let unready = unready_nodes(s, stack);
    match may_roll(s, &stack.name) {
        Some(_) => 69 * unready + 69 * (unready + items_back(s, stack) + far_nodes(s, stack)),
        None => 69 * unready,
    }
}

// How many nodes of its graph are neither ready nor done.
fn unready_nodes(s: &State, stack: &Stack) -> u128
    requires { stack_at s.now.state.stacks stack.now.name ≡ Some stack.now }
    ensures exact { Counts (λ i. IsUnready s.now.state (stack.now.name, i)) result }
    ensures bound { result < 2 ^ 60 }
{
    match s.graph(&stack.name) {
        Some(graph) => unready_in(graph),
        None => 0,
    }
}

// How many items the plan has that it would go back to.
fn items_back(s: &State, stack: &Stack) -> u128
    requires { MayRoll s.now.state stack.now.name stack.now }
    ensures exact { result ≡ length (plan_back s.now.state stack.now).items }
    ensures bound { result < 2 ^ 60 }
{
    match s.past(&stack.name) {
        Some(past) => match &past.back {
            Some(back) => back.plan().items().len() as u128,
            None => 0,
        },
        None => 0,
    }
}

// How many update nodes of its graph have a target that is at INIT, or of another traversal.
fn far_nodes(s: &State, stack: &Stack) -> u128
    requires { MayRoll s.now.state stack.now.name stack.now }
    ensures exact { Counts (λ i. RollFar s.now.state (stack.now.name, i)) result }
    ensures bound { result < 2 ^ 60 }
{
    match s.graph(&stack.name) {
        Some(graph) => far_in(s, stack, graph),
        None => 0,
    }
}
