//! Whether a failed traversal is to be rolled back.
ghost use Rattle.std.specs.Prelude.{◌≡◌, ◌↔◌, ◌≤◌, ◌+◌, IsTrue, length};
ghost use Rattle.heat_plan.specs.declared.phase.Act.TheVariants.{Delete};
ghost use Rattle.heat_plan.specs.declared.phase.Status.TheVariants.{InProgress};
ghost use Rattle.core_state.specs.State.{past_at};
ghost use Rattle.step_relation.specs.Freshness.{plan_of};
ghost use Rattle.step_relation.specs.Orders.{IsForward, past_of, row_limit};
ghost use Rattle.step_relation.specs.Turns.{IsDue};
ghost use Rattle.command_steps.specs.Layouts.{HasNumbers};

use crate::numbers::has_numbers;
use core_state::{Stack, State};
use heat_plan::{Act, StackName, Status};

/// How many rows there may be when a command has laid its own.
pub(crate) const ROW_LIMIT: usize = 4000;

/// Whether the stack, which a step has just marked as failed, is to be rolled back: its traversal
/// was a create or an update whose command asked for it, and the plan that it would go back to has
/// room.
pub fn is_due(s: &State, stack: &Stack) -> bool
    ensures { IsTrue result ↔ IsDue s.now.state stack.now }
{
    is_forward(stack.act)
        && rolls_back(s, &stack.name)
        && has_room_for(s, items_back(s, &stack.name))
}

/// Whether the numbers suffice for whatever rollback is due: it makes no more rows than it has items, and
/// sends no more letters than its graph has nodes, which are items and rows.
pub fn can_roll_back(s: &State) -> bool
    ensures { IsTrue result ↔ HasNumbers s.now.state.next 0 row_limit row_limit }
{
    has_numbers(s.next(), 0, ROW_LIMIT, ROW_LIMIT)
}

/// Whether a traversal is one that a rollback may follow.
pub(crate) fn is_forward(act: Act) -> bool
    ensures { IsTrue result ↔ IsForward act }
{
    match act {
        Act::Create => true,
        Act::Update => true,
        Act::Init | Act::Delete | Act::Rollback => false,
    }
}

/// Whether it is a delete.
pub(crate) fn is_delete(act: Act) -> bool
    ensures { IsTrue result ↔ (act ≡ Delete) }
{
    act == Act::Delete
}

/// Whether a traversal has no mark.
pub(crate) fn is_running(status: Status) -> bool
    ensures { IsTrue result ↔ (status ≡ InProgress) }
{
    status == Status::InProgress
}

// Whether a failure of the stack is to be rolled back.
fn rolls_back(s: &State, stack: &StackName) -> bool
    ensures { result ≡ (past_of s.now.state stack.now).rollback }
{
    match s.past(stack) {
        Some(past) => past.rollback,
        None => false,
    }
}

// How many items there are in the plan that a failed stack goes back to.
fn items_back(s: &State, stack: &StackName) -> usize
    ensures { result ≡ length (plan_of (past_of s.now.state stack.now).back).items }
{
    match s.past(stack) {
        Some(past) => match &past.back {
            Some(plan) => plan.plan().items().len(),
            None => 0,
        },
        None => 0,
    }
}

/// Whether the rows in the table and so many more are within their limit.
pub(crate) fn has_room_for(s: &State, more: usize) -> bool
    ensures { IsTrue result ↔ (length s.now.state.rows + more ≤ row_limit) }
{
    let rows = s.rows().len();
    rows <= ROW_LIMIT && more <= ROW_LIMIT - rows
}
