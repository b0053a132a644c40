//! The mark of a stack's newest traversal: what its last command or mark says.
ghost use Rattle.std.specs.Prelude.{◌≡◌, ℕ, Bool, IfOk, option_map};
ghost use Rattle.heat_plan.specs.declared.token.Token.{Token as token_type};
ghost use Rattle.step_relation.specs.Opening.{empty_opening};
ghost use Rattle.step_relation.specs.Marked.{mark_of, mark_by_cause, marked_again, marked_by};
ghost use Rattle.headline_reader.specs.Marks.{mark_said, marked_after, marked_said, status_said};

use crate::causes::copy_cause;
use core_state::{Cause, Entry, What};
use heat_plan::{StackName, Status, TravNo};
use std::alloc::AllocError;

/// A traversal isn't marked, is complete, or has failed for its cause.
#[derive(Debug, Drop)]
pub enum Mark {
    Unmarked,
    Completed,
    FailedFor(Cause),
}

impl Mark {
    /// The status that it gives the stack.
    pub fn status(&self) -> Status
        ensures { result ≡ status_said self.now }
    {
        match self {
            Mark::Unmarked => Status::InProgress,
            Mark::Completed => Status::Complete,
            Mark::FailedFor(_) => Status::Failed,
        }
    }
}

// A traversal and its mark.
#[derive(Debug, Drop)]
struct Marked {
    trav: TravNo,
    mark: Mark,
}

/// The mark of the newest traversal; none where the stack had no command.
pub fn mark_of(entries: &[Entry], stack: &StackName) -> Result<Option<Mark>, AllocError>
    ensures { (engines : ℕ) (leaving : token_type → Bool) → IfOk result (λ mark.
        option_map mark_said mark ≡ mark_of (empty_opening engines leaving) entries.now stack.now) }
{
    match marked_of(entries, stack)? {
        Some(newest) => Ok(Some(newest.mark)),
        None => Ok(None),
    }
}

// The newest traversal and its mark.
fn marked_of(entries: &[Entry], stack: &StackName) -> Result<Option<Marked>, AllocError>
    ensures { IfOk result (λ it. option_map marked_said it ≡ marked_after stack.now entries.now) }
{
    let mut newest = None;
    for entry in entries {
        newest = marked_by(stack, newest, &entry.what)?;
    }
    Ok(newest)
}

// A command takes the stack's mark away, and a mark of the newest traversal sets it.
fn marked_by(
    stack: &StackName,
    before: Option<Marked>,
    what: &What,
) -> Result<Option<Marked>, AllocError>
    ensures { IfOk result (λ it.
        option_map marked_said it ≡ marked_by stack.now (option_map marked_said before) what.now) }
{
    match what {
        What::Command {
            stack: commanded,
            trav,
            ..
        } if commanded == stack => Ok(Some(Marked {
            trav: *trav,
            mark: Mark::Unmarked,
        })),
        What::Mark {
            stack: marked,
            trav,
            cause,
            ..
        } if marked == stack => marked_again(*trav, cause, before),
        _ => Ok(before),
    }
}

// A mark counts where it is of the newest traversal.
fn marked_again(
    trav: TravNo,
    cause: &Option<Cause>,
    before: Option<Marked>,
) -> Result<Option<Marked>, AllocError>
    ensures { IfOk result (λ it. option_map marked_said it
        ≡ option_map (marked_again trav cause.now) (option_map marked_said before)) }
{
    match before {
        Some(it) if it.trav == trav => Ok(Some(Marked {
            trav,
            mark: mark_by_cause(cause)?,
        })),
        other => Ok(other),
    }
}

// A mark without a cause is Complete.
fn mark_by_cause(cause: &Option<Cause>) -> Result<Mark, AllocError>
    ensures { IfOk result (λ mark. mark_said mark ≡ mark_by_cause cause.now) }
{
    match cause {
        None => Ok(Mark::Completed),
        Some(cause) => Ok(Mark::FailedFor(copy_cause(cause)?)),
    }
}
