//! What a command lays, as changes and entries.
ghost use Rattle.std.specs.Prelude.{◌≡◌, IfErr, IfOk, length};
ghost use Rattle.step_relation.specs.Freshness.{plan_of};
ghost use Rattle.command_steps.specs.Answers.{IsLaying, IsWornLaying, OrMemory};
ghost use Rattle.command_steps.specs.Choices.{lacking};
ghost use Rattle.command_steps.specs.Layouts.{HasNumbers, IsLaidOut};
ghost use Rattle.command_steps.specs.Orders.{sets_of};

use crate::changes::changes_of;
use crate::draft::drafted;
use crate::entries::entries_of;
use crate::layout::{Layout, numbered_layout};
use crate::order::Order;
use core_state::{Made, State};
use heat_plan::{Refusal, StackName};
use heat_value::TryCopy;
use std::alloc::{AllocError, Global};

/// The changes and entries of an order of a stack; refuses `Worn` where the numbers don't suffice.
pub(crate) fn ordered(
    alloc: Global,
    s: &State,
    name: &StackName,
    order: Order,
) -> Result<Made, Refusal>
    ensures made { IfOk result (λ m.
        IsLaying s.now.state name.now (sets_of order) m.changes m.entries) }
    ensures cause { IfErr result (OrMemory (IsWornLaying s.now.state name.now (sets_of order))) }
{
    let layout = numbered_layout(alloc, s, name, order.items(), order.stacks)?;
    let made = laid(alloc, s, name, order, layout)?;
    Ok(made)
}

/// The same twice, of one layout: for an order and for another that sets the same.
pub(crate) fn ordered_twice(
    alloc: Global,
    s: &State,
    name: &StackName,
    order: Order,
    again: Order,
) -> Result<(Made, Made), Refusal>
    requires { sets_of again ≡ sets_of order }
    ensures first { IfOk result (λ both.
        IsLaying s.now.state name.now (sets_of order) both.0.changes both.0.entries) }
    ensures second { IfOk result (λ both.
        IsLaying s.now.state name.now (sets_of order) both.1.changes both.1.entries) }
    ensures cause { IfErr result (OrMemory (IsWornLaying s.now.state name.now (sets_of order))) }
{
    let layout = numbered_layout(alloc, s, name, order.items(), order.stacks)?;
    let copy = layout.copy()?;
    let first = laid(alloc, s, name, order, layout)?;
    let second = laid(alloc, s, name, again, copy)?;
    Ok((first, second))
}

/// The changes and entries of an order with this layout, whose numbers suffice.
pub(crate) fn laid(
    alloc: Global,
    s: &State,
    name: &StackName,
    order: Order,
    layout: Layout,
) -> Result<Made, AllocError>
    requires laid_out { IsLaidOut s.now.state name.now (plan_of order.plan).items layout }
    requires numbers { HasNumbers s.now.state.next order.stacks (lacking layout.found)
        (length layout.leaves) }
    ensures { IfOk result (λ m.
        IsLaying s.now.state name.now (sets_of order) m.changes m.entries) }
{
    let draft = drafted(alloc, s, name, order, layout)?;
    let entries = entries_of(alloc, &draft)?;
    let changes = changes_of(alloc, draft)?;
    let made = Made::new(alloc, changes, entries)?;
    Ok(made)
}
