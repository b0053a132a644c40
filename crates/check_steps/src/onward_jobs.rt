//! A job that goes on: with a row that is begun, or with one that was begun before.
ghost use Rattle.std.specs.Prelude.{IfOk, IfErr};
ghost use Rattle.mail_table.specs.declared.mail.Stage.TheVariants.{Asking, Ending};
ghost use Rattle.step_relation.specs.Begins.{begun_changes, begun_entries};
ghost use Rattle.step_relation.specs.Begins.{onward_changes, onward_entries};
ghost use Rattle.check_steps.specs.Makes.{Makes, MakesNone};
ghost use Rattle.check_steps.specs.Writes.{kept, started, updated};

use crate::begin_found::Found;
use crate::making::make;
use core_state::{Job, Made, Row, Stage};
use heat_plan::{EngineNo, Properties, Refusal};
use heat_value::TryCopy;
use std::alloc::Global;
use step_parts::{
    begun_changes, begun_entries, created_row, onward_changes, onward_entries, same_row,
    updated_row,
};

/// The row is to be created as its item asks, and the job asks next.
pub(crate) fn start(
    alloc: Global,
    e: EngineNo,
    found: &Found<'_>,
    props: &Properties,
) -> Result<Made, Refusal>
    ensures made { IfOk result (Makes
        (begun_changes found.now.job.now Asking (started found.now props.now))
        (begun_entries e found.now.job.now Asking (started found.now props.now))) }
    ensures cause { IfErr result (MakesNone
        (begun_changes found.now.job.now Asking (started found.now props.now))) }
{
    let row = created_row(
        found.row,
        found.item,
        found.stack.trav,
        props,
        &found.required,
    )?;
    go_with(alloc, e, found.job, Stage::Asking, row)
}

/// The row is kept as it is, and the job ends next.
pub(crate) fn keep(alloc: Global, e: EngineNo, found: &Found<'_>) -> Result<Made, Refusal>
    ensures made { IfOk result (Makes
        (begun_changes found.now.job.now Ending (kept found.now))
        (begun_entries e found.now.job.now Ending (kept found.now))) }
    ensures cause { IfErr result (MakesNone
        (begun_changes found.now.job.now Ending (kept found.now))) }
{
    let row = same_row(found.row, found.item, found.stack.trav, &found.required)?;
    go_with(alloc, e, found.job, Stage::Ending, row)
}

/// The row is to be updated in place, and the job asks next.
pub(crate) fn update(
    alloc: Global,
    e: EngineNo,
    found: &Found<'_>,
    props: &Properties,
) -> Result<Made, Refusal>
    ensures made { IfOk result (Makes
        (begun_changes found.now.job.now Asking (updated found.now props.now))
        (begun_entries e found.now.job.now Asking (updated found.now props.now))) }
    ensures cause { IfErr result (MakesNone
        (begun_changes found.now.job.now Asking (updated found.now props.now))) }
{
    let changed = updated_row(
        found.row,
        found.item,
        found.stack.trav,
        props,
        &found.required,
    )?;
    go_with(alloc, e, found.job, Stage::Asking, changed)
}

// The row is written, and the job is at this stage.
fn go_with(alloc: Global, e: EngineNo, job: &Job, stage: Stage, row: Row) -> Result<Made, Refusal>
    ensures made { IfOk result (Makes
        (begun_changes job.now stage row) (begun_entries e job.now stage row)) }
    ensures cause { IfErr result (MakesNone (begun_changes job.now stage row)) }
{
    let entries = begun_entries(alloc, e, job, stage, row.copy()?)?;
    let changes = begun_changes(alloc, job, stage, row)?;
    make(alloc, changes, entries)
}

/// The job asks next, with its row as it is.
pub(crate) fn go_on(alloc: Global, e: EngineNo, job: &Job) -> Result<Made, Refusal>
    ensures made { IfOk result (Makes
        (onward_changes job.now Asking) (onward_entries e job.now Asking)) }
    ensures cause { IfErr result (MakesNone (onward_changes job.now Asking)) }
{
    let entries = onward_entries(alloc, e, job, Stage::Asking)?;
    let changes = onward_changes(alloc, job, Stage::Asking)?;
    make(alloc, changes, entries)
}
