//! Which stacks may be rolled back.
ghost use Rattle.std.specs.Prelude.{◌≡◌, ◌≤◌, IfSome, IsNone};
ghost use Rattle.core_state.specs.declared.stack.Stack.{Stack as stack_type};
ghost use Rattle.step_relation.specs.Orders.{past_of};
ghost use Rattle.bound_laws.specs.Rolls.{MayRoll};
ghost use Rattle.driver.specs.Parts.{IsOne};

use core_state::{Stack, State};
use heat_plan::{StackName, Status};

/// The stack of this name, where it has no mark and its failures are rolled back.
pub(crate) fn may_roll<'a>(s: &'a State, name: &StackName) -> Option<&'a Stack>
    ensures some { IfSome result (λ st. MayRoll s.now.state name.now st.now) }
    ensures none { IsNone result → (st : stack_type) → ¬ MayRoll s.now.state name.now st }
{
    match s.stack(name) {
        Some(stack) if stack.status == Status::InProgress && rolls_back(s, name) => Some(stack),
        _ => None,
    }
}

/// One where it may be rolled back; else none.
pub(crate) fn roll_one(s: &State, name: &StackName) -> u128
    ensures exact { IsOne ((st : stack_type) × MayRoll s.now.state name.now st) result }
    ensures bound { result ≤ 1 }
{
    match may_roll(s, name) {
        Some(_) => 1,
        None => 0,
    }
}

// Whether the stack's failures are rolled back.
fn rolls_back(s: &State, name: &StackName) -> bool
    ensures { result ≡ (past_of s.now.state name.now).rollback }
{
    match s.past(name) {
        Some(past) => past.rollback,
        None => false,
    }
}
