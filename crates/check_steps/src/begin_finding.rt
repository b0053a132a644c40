//! What a begin at an update node finds in the state.
ghost use Rattle.std.specs.Prelude.{ℕ, IfOk};
ghost use Rattle.check_steps.specs.AtUpdate.{AtUpdate};
ghost use Rattle.check_steps.specs.Founds.{IsFound};

use crate::begin_found::Found;
use crate::begin_parts::parts_of;
use core_state::{Job, State};
use std::alloc::{AllocError, Global};
use step_reads::required;

/// What the begin of a job finds.
pub(crate) fn find<'a>(alloc: Global, s: &'a State, job: &'a Job) -> Result<Found<'a>, AllocError>
    requires { (e : ℕ) × AtUpdate s.now.state e job.now }
    ensures { (e : ℕ) → AtUpdate s.now.state e job.now → IfOk result (IsFound s.now.state e) }
{
    let parts = parts_of(s, job);
    let required = required(alloc, parts.point.inputs.as_slice())?;
    Ok(Found {
        job,
        stack: parts.stack,
        plan: parts.plan.plan(),
        item: parts.item,
        row: parts.row,
        point: parts.point,
        required,
    })
}
