//! The marks of a stack's newest traversal.
ghost use Rattle.std.specs.Prelude.{◌≡◌, IfOk, option_map};
ghost use Rattle.step_relation.specs.Asks.{cause_at};
ghost use Rattle.step_relation.specs.Writes.{complete_mark, failed_mark, mark_complete, mark_failed};

use crate::lists::one;
use core_state::{Actor, Batch, Cause, Change, Entry, Row, Stack, What, Why};
use heat_plan::{Act, Status};
use heat_value::TryCopy;
use std::alloc::{AllocError, Global};

/// The stack is marked as failed, if one is to be.
pub fn mark_failed(alloc: Global, failed: Option<&Stack>) -> Result<Batch<Change>, AllocError>
    ensures { IfOk result (λ changes. changes ≡ mark_failed (option_map (λ st. st.now) failed.entry)) }
{
    match failed {
        None => Ok(Batch::new(alloc)),
        Some(stack) => {
            let mut stack = stack.copy()?;
            stack.status = Status::Failed;
            one(alloc, Change::PutStack(stack))
        }
    }
}

/// What is told of that mark.
pub fn failed_mark(
    alloc: Global,
    by: Actor,
    failed: Option<&Stack>,
    cause: Cause,
) -> Result<Batch<Entry>, AllocError>
    ensures { IfOk result (λ entries. entries ≡ failed_mark by (option_map (λ st. st.now) failed.entry) cause) }
{
    match failed {
        None => Ok(Batch::new(alloc)),
        Some(stack) => one(
            alloc,
            Entry {
                by,
                what: What::Mark {
                    stack: stack.name.copy()?,
                    trav: stack.trav,
                    act: stack.act,
                    cause: Some(cause),
                },
            },
        ),
    }
}

/// The resource at which a traversal failed, its row, and why.
pub fn cause_at(row: &Row, why: Why) -> Result<Cause, AllocError>
    ensures { IfOk result (λ cause. cause ≡ cause_at row.now why) }
{
    Ok(Cause {
        name: row.name.copy()?,
        row: row.no,
        why,
    })
}

/// The stack is marked as complete; one that is deleted goes.
pub fn mark_complete(alloc: Global, stack: &Stack) -> Result<Batch<Change>, AllocError>
    ensures { IfOk result (λ changes. changes ≡ mark_complete stack.now) }
{
    match stack.act {
        Act::Delete => one(alloc, Change::DropStack(stack.name.copy()?)),
        Act::Init | Act::Create | Act::Update | Act::Rollback => {
            let mut stack = stack.copy()?;
            stack.status = Status::Complete;
            one(alloc, Change::PutStack(stack))
        }
    }
}

/// What is told of that mark.
pub fn complete_mark(by: Actor, stack: &Stack) -> Result<Entry, AllocError>
    ensures { IfOk result (λ x. x ≡ complete_mark by stack.now) }
{
    Ok(Entry {
        by,
        what: What::Mark {
            stack: stack.name.copy()?,
            trav: stack.trav,
            act: stack.act,
            cause: None,
        },
    })
}
