//! What an engine looks at before its step, so that what a begin needs can be prepared while others
//! make steps.
ghost use Rattle.std.specs.Prelude.{◌≡◌, ◌<◌, IfOk};
ghost use Rattle.check_steps.specs.AtUpdate.{HasPoint};
ghost use Rattle.step_relation.specs.Nexts.{Works};
ghost use Rattle.check_steps.specs.Looks.{IsLook, IsWork};
ghost use Rattle.check_steps.specs.Parts.{parts_read};

use crate::begin_parts::{Parts, begun_parts};
use crate::looks::{BeginWork, Look, Work};
use core_state::{Job, State};
use heat_plan::EngineNo;
use heat_value::TryCopy;
use std::alloc::AllocError;
use step_reads::{Task, next_of};

/// The next step of an engine whose number was drawn.
pub fn look(s: &State, e: EngineNo) -> Result<Look, AllocError>
    requires drawn { e < s.now.state.next.engine }
    requires points { HasPoint s.now.state e }
    ensures { IfOk result (IsLook s.now.state e) }
{
    match next_of(s, e) {
        Task::Lost => Ok(Look::Lost),
        Task::Idle => Ok(Look::Idle),
        Task::Take(_) => Ok(Look::Work(Work::Plain)),
        Task::TakeOver(_) => Ok(Look::Work(Work::Plain)),
        Task::Work(job) => Ok(Look::Work(work_of(s, e, job)?)),
    }
}

// The next step of an engine's job.
fn work_of(s: &State, e: EngineNo, job: &Job) -> Result<Work, AllocError>
    requires works { Works s.now.state e job.now job.now.stage }
    requires points { HasPoint s.now.state e }
    ensures { IfOk result (IsWork s.now.state e) }
{
    match begun_parts(s, e, job) {
        Some(parts) => Ok(Work::Begin(begin_work(&parts)?)),
        None => Ok(Work::Plain),
    }
}

// A copy of what a begin reads.
fn begin_work(parts: &Parts<'_>) -> Result<BeginWork, AllocError>
    ensures { IfOk result (λ w. w ≡ parts_read parts.now) }
{
    Ok(BeginWork {
        plan: parts.plan.copy()?,
        item: parts.item.copy()?,
        inputs: parts.point.inputs.copy()?,
        row: parts.row.no,
        props: parts.row.props.copy()?,
        key: parts.row.key,
    })
}
