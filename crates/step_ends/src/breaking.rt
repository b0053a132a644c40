//! A resource that is broken, told by the turn of a poll that failed: what was laid out for it serves.
ghost use Rattle.std.specs.Prelude.{◌≡◌, IfOk, option_map, unwrap_or};
ghost use Rattle.step_ends.specs.Broken.{IsBrokenOf, entries_broken, entry_broken, what_broken};
ghost use Rattle.step_ends.specs.Broken.{cause_broken, why_broken};

use core_state::{Batch, Cause, Entry, Made, What, Why};
use heat_plan::Answered;
use heat_value::{Text, TryCopy};
use std::alloc::{AllocError, Global};

/// The turn that a resource's code brings, made of the turn of a failure; a rollback in it isn't laid out
/// again.
pub fn broken(alloc: Global, failed: Made, code: &Text) -> Result<Made, AllocError>
    ensures { IfOk result (IsBrokenOf code.now failed) }
{
    let Made { changes, entries } = failed;
    let entries = broken_entries(alloc, entries, code)?;
    Ok(Made { changes, entries })
}

// The entries, with the code in the call's answer and in the mark's cause.
fn broken_entries(
    alloc: Global,
    entries: Batch<Entry>,
    code: &Text,
) -> Result<Batch<Entry>, AllocError>
    ensures { IfOk result (λ told. told ≡ entries_broken code.now entries) }
{
    let mut told = Batch::new(alloc);
    for entry in entries.into_vec() {
        told.push(broken_entry(entry, code)?)?;
    }
    Ok(told)
}

// One of them.
fn broken_entry(entry: Entry, code: &Text) -> Result<Entry, AllocError>
    ensures { IfOk result (λ told. told ≡ entry_broken code.now entry) }
{
    match broken_what(&entry.what, code)? {
        Some(what) => Ok(Entry { by: entry.by, what }),
        None => Ok(entry),
    }
}

// What it tells, where that is another.
fn broken_what(what: &What, code: &Text) -> Result<Option<What>, AllocError>
    ensures { IfOk result (λ told. unwrap_or told what.now ≡ what_broken code.now what.now) }
{
    match what {
        What::Call { token, request, .. } => Ok(Some(What::Call {
            token: token.copy()?,
            request: request.copy()?,
            answer: Answered::Broken(code.copy()?),
        })),
        What::Mark {
            stack,
            trav,
            act,
            cause,
        } => Ok(Some(What::Mark {
            stack: stack.copy()?,
            trav: *trav,
            act: *act,
            cause: broken_cause(cause.as_ref(), code)?,
        })),
        What::Command { .. } | What::Release { .. } | What::Rows { .. } | What::Mail { .. } => {
            Ok(None)
        }
        What::Engine { .. } | What::Show { .. } | What::Note { .. } | What::Ran { .. } => Ok(None),
        What::Turned { .. } | What::Preview { .. } | What::Closed => Ok(None),
    }
}

// A mark's cause, if it has one.
fn broken_cause(cause: Option<&Cause>, code: &Text) -> Result<Option<Cause>, AllocError>
    ensures { IfOk result (λ told. told
        ≡ cause_broken code.now (option_map (λ c. c.now) cause.entry)) }
{
    match cause {
        Some(cause) => Ok(Some(Cause {
            name: cause.name.copy()?,
            row: cause.row,
            why: broken_why(&cause.why, code)?,
        })),
        None => Ok(None),
    }
}

// Why the traversal failed.
fn broken_why(why: &Why, code: &Text) -> Result<Why, AllocError>
    ensures { IfOk result (λ told. told ≡ why_broken code.now why.now) }
{
    match why {
        Why::Quota => Ok(Why::Quota),
        Why::Failed(act) => Ok(Why::Broken(*act, code.copy()?)),
        Why::Broken(act, other) => Ok(Why::Broken(*act, other.copy()?)),
        Why::Resolve(other, path) => Ok(Why::Resolve(other.copy()?, path.copy()?)),
    }
}
