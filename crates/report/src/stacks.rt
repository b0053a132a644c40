//! What is seen of a stack after its commands and marks.
ghost use Rattle.std.specs.Prelude.{◌≡◌, IfOk, option_map};
ghost use Rattle.report.specs.Stacks.{begun, marked, marked_status as the_marked_status, plan_seen, is_gone as gone};

use crate::brief::SeenStack;
use core_state::{Cause, SharedPlan};
use heat_plan::{Act, Plan, StackName, Status, TravNo};
use heat_value::{TryCopy, copy_option};
use std::alloc::{AllocError, Global};

impl SeenStack {
    /// A stack of which a traversal has begun, towards this plan.
    pub(crate) fn begun(
        alloc: Global,
        name: &StackName,
        trav: TravNo,
        act: Act,
        plan: &Option<Plan>,
    ) -> Result<SeenStack, AllocError>
        ensures { IfOk result (λ s. s ≡ begun name.now trav act plan.now) }
    {
        Ok(SeenStack {
            name: name.copy()?,
            trav,
            act,
            status: Status::InProgress,
            plan: shared(alloc, plan)?,
        })
    }

    /// A stack whose traversal is marked, given what was seen of it before.
    pub(crate) fn marked(
        name: &StackName,
        trav: TravNo,
        act: Act,
        cause: &Option<Cause>,
        before: Option<&SeenStack>,
    ) -> Result<SeenStack, AllocError>
        ensures { IfOk result (λ s. s
            ≡ marked name.now trav act cause.now (option_map (λ k. k.now) before.entry)) }
    {
        Ok(SeenStack {
            name: name.copy()?,
            trav,
            act,
            status: marked_status(cause),
            plan: plan_of(before)?,
        })
    }
}

// A copy of a plan, for several holders.
fn shared(alloc: Global, plan: &Option<Plan>) -> Result<Option<SharedPlan>, AllocError>
    ensures { IfOk result (λ p. p ≡ plan.now) }
{
    match plan {
        Some(plan) => Ok(Some(SharedPlan::new(alloc, plan.copy()?)?)),
        None => Ok(None),
    }
}

// How a marked traversal stands.
fn marked_status(cause: &Option<Cause>) -> Status
    ensures { result ≡ the_marked_status cause.now }
{
    match cause {
        Some(_) => Status::Failed,
        None => Status::Complete,
    }
}

// The plan of a stack, if it is seen and has one.
fn plan_of(stack: Option<&SeenStack>) -> Result<Option<SharedPlan>, AllocError>
    ensures { IfOk result (λ p. p ≡ plan_seen (option_map (λ k. k.now) stack.entry)) }
{
    match stack {
        Some(stack) => copy_option(&stack.plan),
        None => Ok(None),
    }
}

/// Whether a stack is gone with this mark.
pub(crate) fn is_gone(act: Act, cause: &Option<Cause>) -> bool
    ensures { result ≡ gone act cause.now }
{
    match cause {
        Some(_) => false,
        None => matches!(act, Act::Delete),
    }
}
