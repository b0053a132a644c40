//! What a command sets of its stack.
ghost use Rattle.std.specs.Prelude.{◌≡◌, ◌<◌, ◌^◌, [], false, IfOk, None};
ghost use Rattle.heat_plan.specs.Order.{Rising};
ghost use Rattle.heat_plan.specs.Plans.{names_of};
ghost use Rattle.step_relation.specs.Freshness.{plan_of};
ghost use Rattle.step_relation.specs.Orders.{back_after, past_of, plan_back};
ghost use Rattle.step_relation.specs.Orders.{create_sets, delete_sets, rollback_sets, update_sets};
ghost use Rattle.command_steps.specs.Orders.{sets_of};

use core_state::{Actor, Past, SharedPlan, Stack, State};
use heat_plan::{Act, ByName, Item, Parameters, Plan, StackName, StackNo, Status};
use heat_value::{Seq, TryCopy, copy_option};
use std::alloc::{AllocError, Global};

/// Who commands, the stack's number, what is done, to which plan, what the stack could go back to,
/// and how many stack numbers it draws.
#[derive(Debug, Drop)]
pub struct Order {
    pub actor: Actor,
    pub no: StackNo,
    pub act: Act,
    pub plan: Option<SharedPlan>,
    pub past: Past,
    pub stacks: u64,
}

impl Order {
    /// The items that are asked for.
    pub fn items(&self) -> &[Item]
        ensures value { result.now ≡ (plan_of self.now.plan).items }
        ensures rising { Rising (names_of result.now) }
    {
        match &self.plan {
            Some(plan) => plan.plan().items(),
            None => &[],
        }
    }
}

/// Of a create.
pub(crate) fn create_order(
    alloc: Global,
    s: &State,
    name: &StackName,
    plan: Plan,
    rollback: bool,
) -> Result<Order, AllocError>
    requires { s.now.state.next.stack < 2 ^ 62 }
    ensures { IfOk result (λ o. sets_of o ≡ create_sets s.now.state name.now plan rollback) }
{
    let past = Past {
        stack: name.copy()?,
        rollback,
        back: None,
    };
    Ok(Order {
        actor: Actor::Main,
        no: StackNo::new(s.next().stack.get()).unwrap(),
        act: Act::Create,
        plan: Some(SharedPlan::new(alloc, plan)?),
        past,
        stacks: 1,
    })
}

/// Of an update of this stack.
pub(crate) fn update_order(
    alloc: Global,
    s: &State,
    stack: &Stack,
    plan: Plan,
    rollback: bool,
) -> Result<Order, AllocError>
    ensures { IfOk result (λ o. sets_of o ≡ update_sets s.now.state stack.now plan rollback) }
{
    let past = Past {
        stack: stack.name.copy()?,
        rollback,
        back: back_after(s, stack)?,
    };
    Ok(Order {
        actor: Actor::Main,
        no: stack.no,
        act: Act::Update,
        plan: Some(SharedPlan::new(alloc, plan)?),
        past,
        stacks: 0,
    })
}

/// Of a delete of this stack.
pub(crate) fn delete_order(s: &State, stack: &Stack) -> Result<Order, AllocError>
    ensures { IfOk result (λ o. sets_of o ≡ delete_sets s.now.state stack.now) }
{
    Ok(Order {
        actor: Actor::Main,
        no: stack.no,
        act: Act::Delete,
        plan: None,
        past: kept_past(s, &stack.name)?,
        stacks: 0,
    })
}

/// Of a rollback of this stack.
pub(crate) fn rollback_order(
    alloc: Global,
    s: &State,
    stack: &Stack,
    actor: Actor,
) -> Result<Order, AllocError>
    ensures { IfOk result (λ o. sets_of o ≡ rollback_sets s.now.state stack.now actor) }
{
    let plan = plan_back(alloc, s, stack)?;
    Ok(Order {
        actor,
        no: stack.no,
        act: Act::Rollback,
        plan: Some(plan),
        past: kept_past(s, &stack.name)?,
        stacks: 0,
    })
}

// The past that a stack keeps where no failure is to be rolled back any more.
fn kept_past(s: &State, stack: &StackName) -> Result<Past, AllocError>
    ensures { IfOk result (λ past. past ≡ record {
      stack = stack.now;
      rollback = false;
      back = (past_of s.now.state stack.now).back;
    }) }
{
    Ok(Past {
        stack: stack.copy()?,
        rollback: false,
        back: back_before(s, stack)?,
    })
}

/// The plan that a rollback of the stack has.
pub(crate) fn plan_back(alloc: Global, s: &State, stack: &Stack) -> Result<SharedPlan, AllocError>
    ensures { IfOk result (λ plan. plan ≡ plan_back s.now.state stack.now) }
{
    match back_after(s, stack)? {
        Some(plan) => Ok(plan),
        None => SharedPlan::new(alloc, no_plan(alloc)),
    }
}

// The plan that a rollback would go back to, once a command comes.
fn back_after(s: &State, stack: &Stack) -> Result<Option<SharedPlan>, AllocError>
    ensures { IfOk result (λ plan.
        plan ≡ back_after stack.now (past_of s.now.state stack.now.name)) }
{
    match stack.status {
        Status::Complete => match stack.act {
            Act::Init | Act::Create | Act::Update | Act::Rollback => copy_option(&stack.plan),
            Act::Delete => back_before(s, &stack.name),
        },
        Status::InProgress | Status::Failed => back_before(s, &stack.name),
    }
}

// The plan that the stack could go back to until now.
fn back_before(s: &State, stack: &StackName) -> Result<Option<SharedPlan>, AllocError>
    ensures { IfOk result (λ plan. plan ≡ (past_of s.now.state stack.now).back) }
{
    match s.past(stack) {
        Some(past) => copy_option(&past.back),
        None => Ok(None),
    }
}

// A plan that asks for nothing.
fn no_plan(alloc: Global) -> Plan
    ensures { result ≡ plan_of None }
{
    Plan::new(
        Seq::new(alloc),
        Seq::new(alloc),
        Parameters::new(alloc),
        ByName::new(alloc),
        ByName::new(alloc),
        Seq::new(alloc),
    )
}
