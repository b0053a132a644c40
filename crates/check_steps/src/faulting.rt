//! The begin of an update node whose item has no properties: the job ends, and the stack is marked
//! as failed, with the rollback that may follow.
ghost use Rattle.std.specs.Prelude.{◌≡◌, ◌++◌, IfOk, IfErr};
ghost use Rattle.heat_plan.specs.declared.phase.Status.TheVariants.{InProgress};
ghost use Rattle.step_relation.specs.Given.{Faulted};
ghost use Rattle.step_relation.specs.Turns.{IsWorn};
ghost use Rattle.step_parts.specs.Rooms.{MayRise};
ghost use Rattle.step_parts.specs.Turns.{IsTurn, IsTurnRefusal};
ghost use Rattle.check_steps.specs.Founds.{IsFound};
ghost use Rattle.check_steps.specs.Makes.{Makes, MakesNone};
ghost use Rattle.check_steps.specs.Marks.{marked_changes, marked_entries};

use crate::begin_found::Found;
use crate::leaving::leave;
use crate::making::make;
use core_state::{Actor, Batch, Cause, Entry, Made, State, Why};
use heat_plan::{EngineNo, Refusal, Status};
use heat_value::{Path, Text, TryCopy};
use std::alloc::{AllocError, Global};
use step_ends::rolled_behind;
use step_parts::{
    failed_mark, joined, left_changes, left_entries, mark_failed, may_rise, with_last,
};

/// The begin of a job whose item has this fault.
pub(crate) fn fault(
    alloc: Global,
    s: &State,
    e: EngineNo,
    found: &Found<'_>,
    code: &Text,
    path: &Path,
) -> Result<Made, Refusal>
    requires { IsFound s.now.state e found.now }
    ensures made { IfOk result (IsTurn s.now.state e (Faulted code.now path.now)) }
    ensures cause { IfErr result (IsTurnRefusal s.now.state e (Faulted code.now path.now)) }
{
    match found.stack.status {
        Status::InProgress => fail(alloc, s, e, found, code, path),
        Status::Complete => leave(alloc, e, found.row),
        Status::Failed => leave(alloc, e, found.row),
    }
}

// The stack, which has no mark, is marked; a rollback follows where it is due.
fn fail(
    alloc: Global,
    s: &State,
    e: EngineNo,
    found: &Found<'_>,
    code: &Text,
    path: &Path,
) -> Result<Made, Refusal>
    requires found { IsFound s.now.state e found.now }
    requires running { found.now.stack.now.status ≡ InProgress }
    ensures made { IfOk result (IsTurn s.now.state e (Faulted code.now path.now)) }
    ensures cause { IfErr result (IsTurnRefusal s.now.state e (Faulted code.now path.now)) }
{
    match rolled_behind(alloc, s, e, found.stack) {
        Ok(None) => mark(alloc, e, found, code, path),
        Ok(Some(last)) => mark_first(alloc, e, found, code, path, last),
        Err(refusal) => Err(refusal),
    }
}

/// The row is unlocked, the job ends, and the stack is marked.
pub(crate) fn mark(
    alloc: Global,
    e: EngineNo,
    found: &Found<'_>,
    code: &Text,
    path: &Path,
) -> Result<Made, Refusal>
    ensures made { IfOk result (Makes (marked_changes e found.now)
        (marked_entries e found.now code.now path.now)) }
    ensures cause { IfErr result (MakesNone (marked_changes e found.now)) }
{
    if !may_rise(found.row) {
        return Err(Refusal::Worn);
    }
    let changes = left_changes(alloc, e, found.row)?;
    let changes = with_last(changes, mark_failed(alloc, Some(found.stack))?)?;
    make(alloc, changes, told(alloc, e, found, code, path)?)
}

// What is told of the row, the job and the mark.
fn told(
    alloc: Global,
    e: EngineNo,
    found: &Found<'_>,
    code: &Text,
    path: &Path,
) -> Result<Batch<Entry>, AllocError>
    requires { MayRise found.now.row.now }
    ensures { IfOk result (λ entries. entries ≡ marked_entries e found.now code.now path.now) }
{
    let cause = Cause {
        name: found.item.name.copy()?,
        row: found.row.no,
        why: Why::Resolve(code.copy()?, path.copy()?),
    };
    let mark = failed_mark(alloc, Actor::Engine(e), Some(found.stack), cause)?;
    with_last(left_entries(alloc, e, found.row)?, mark)
}

// The mark, and then the rollback.
fn mark_first(
    alloc: Global,
    e: EngineNo,
    found: &Found<'_>,
    code: &Text,
    path: &Path,
    last: Made,
) -> Result<Made, Refusal>
    requires { ¬ IsWorn last.changes }
    ensures made { IfOk result (Makes (marked_changes e found.now ++ last.changes)
        (marked_entries e found.now code.now path.now ++ last.entries)) }
    ensures cause { IfErr result (MakesNone (marked_changes e found.now ++ last.changes)) }
{
    match mark(alloc, e, found, code, path) {
        Ok(first) => Ok(joined(first, last)?),
        Err(refusal) => Err(refusal),
    }
}
