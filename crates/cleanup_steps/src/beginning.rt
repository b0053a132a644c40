//! Begin at a clean-up node.
ghost use Rattle.std.specs.Prelude.{IfOk, IfErr};
ghost use Rattle.step_relation.specs.Given.{Nothing};
ghost use Rattle.step_parts.specs.Turns.{IsTurn, IsTurnRefusal};
ghost use Rattle.cleanup_steps.specs.AtCleanup.{AtCleanup, AtRow};

use crate::cases::{delete, give_up, leave, pass, purge};
use crate::keeping::{is_init, is_kept, is_stuck};
use core_state::{Job, Made, Row, Stack, State};
use heat_plan::{EngineNo, Policy, Refusal};
use std::alloc::Global;

/// The begin of an engine's job at a clean-up node: there is nothing to do where the row is gone or
/// kept; a row at INIT is purged; one that failed to be deleted in this traversal is left; one that
/// is retained is given up; any other is to be deleted.
pub fn begin(alloc: Global, s: &State, e: EngineNo, job: &Job) -> Result<Made, Refusal>
    requires { AtCleanup s.now.state e job.now }
    ensures made { IfOk result (IsTurn s.now.state e Nothing) }
    ensures cause { IfErr result (IsTurnRefusal s.now.state e Nothing) }
{
    let stack = s.stack(&job.letter.stack).unwrap();
    match s.row(&job.row) {
        Some(row) => clean(alloc, s, e, job, stack, row),
        None => pass(alloc, e, job),
    }
}

// The same where the row stands.
fn clean(
    alloc: Global,
    s: &State,
    e: EngineNo,
    job: &Job,
    stack: &Stack,
    row: &Row,
) -> Result<Made, Refusal>
    requires { AtRow s.now.state e job.now stack.now row.now }
    ensures made { IfOk result (IsTurn s.now.state e Nothing) }
    ensures cause { IfErr result (IsTurnRefusal s.now.state e Nothing) }
{
    if is_kept(s, stack, row) {
        return pass(alloc, e, job);
    }
    if is_init(row) {
        return purge(alloc, e, job, row);
    }
    if is_stuck(row, stack.trav) {
        return leave(alloc, e, row);
    }
    match row.policy {
        Policy::Retain => give_up(alloc, e, job, row),
        Policy::Delete => delete(alloc, e, job, row, stack.trav),
    }
}
