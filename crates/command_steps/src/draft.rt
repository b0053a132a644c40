//! All that a command writes, before it is put into changes and told.
ghost use Rattle.std.specs.Prelude.{◌≡◌, ◌≤◌, ◌<◌, ◌+◌, ◌^◌, IfOk, length};
ghost use Rattle.heat_plan.specs.declared.phase.Status.TheVariants.{InProgress};
ghost use Rattle.step_relation.specs.Commands.{stack_set};
ghost use Rattle.step_relation.specs.Freshness.{plan_of};
ghost use Rattle.command_steps.specs.Choices.{lacking};
ghost use Rattle.command_steps.specs.Layouts.{HasNumbers, IsDraft, IsLaidOut};
ghost use Rattle.command_steps.specs.Orders.{sets_of};

use crate::choice::{lacking, rows_made};
use crate::layout::Layout;
use crate::numbers::past_command;
use crate::order::Order;
use core_state::{Actor, Batch, Letter, Numbers, Past, Row, Stack, State};
use heat_plan::{StackName, Status, TravNo};
use heat_value::{TryCopy, copy_option};
use std::alloc::{AllocError, Global};
use step_parts::letters_to;
use traversal_graph::TravGraph;

/// Who commands, the next numbers behind it, the stack and its past, the rows that are made, the
/// graph, and the letters that begin it.
#[derive(Debug, Drop)]
pub struct Draft {
    pub actor: Actor,
    pub next: Numbers,
    pub stack: Stack,
    pub past: Past,
    pub rows: Batch<Row>,
    pub graph: TravGraph,
    pub letters: Batch<Letter>,
}

/// The draft of a command, whose numbers suffice.
pub(crate) fn drafted(
    alloc: Global,
    s: &State,
    name: &StackName,
    order: Order,
    layout: Layout,
) -> Result<Draft, AllocError>
    requires laid_out { IsLaidOut s.now.state name.now (plan_of order.plan).items layout }
    requires numbers { HasNumbers s.now.state.next order.stacks (lacking layout.found)
        (length layout.leaves) }
    ensures { IfOk result (IsDraft s.now.state name.now (plan_of order.plan).items
        (sets_of order)) }
{
    let next = s.next();
    let trav = trav_of(next);
    let found = layout.found.as_slice();
    let leaves = layout.leaves.as_slice();
    let rows = rows_made(alloc, name, trav, next.row, order.items(), found)?;
    let stack = stack_set(name, trav, &order)?;
    let letters = letters_to(alloc, &stack, next.letter, leaves)?;
    let next = past_command(next, order.stacks, lacking(found), leaves.len());
    let Order { actor, past, .. } = order;
    Ok(Draft {
        actor,
        next,
        stack,
        past,
        rows,
        graph: layout.graph,
        letters,
    })
}

// The number of the next traversal.
fn trav_of(next: &Numbers) -> TravNo
    requires { next.now.trav + 1 ≤ 2 ^ 62 }
    ensures { result ≡ next.now.trav }
{
    TravNo::new(next.trav.get()).unwrap()
}

// The stack that a command leaves.
fn stack_set(name: &StackName, trav: TravNo, order: &Order) -> Result<Stack, AllocError>
    ensures { IfOk result (λ stack. stack ≡ record {
      name = name.now;
      no = order.now.no;
      trav = trav;
      act = order.now.act;
      status = InProgress;
      plan = order.now.plan;
    }) }
{
    Ok(Stack {
        name: name.copy()?,
        no: order.no,
        trav,
        act: order.act,
        status: Status::InProgress,
        plan: copy_option(&order.plan)?,
    })
}
