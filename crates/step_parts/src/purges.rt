//! A row that goes from the table, while its job goes on to its end.
ghost use Rattle.std.specs.Prelude.{◌≡◌, IfOk};
ghost use Rattle.step_relation.specs.Cleanups.{purged_changes, purged_entries};

use crate::entries::rows_entry;
use crate::jobs::with_stage;
use crate::lists::{seq_of_one, two, with_last};
use crate::moves::onward_entries;
use core_state::{Actor, Batch, Change, Entry, Job, Row, RowWrite, Stage};
use heat_plan::EngineNo;
use std::alloc::{AllocError, Global};

/// The row goes, and the job is at its end.
pub fn purged_changes(alloc: Global, job: &Job, row: &Row) -> Result<Batch<Change>, AllocError>
    ensures { IfOk result (λ changes. changes ≡ purged_changes job.now row.now) }
{
    let job = with_stage(Stage::Ending, job)?;
    two(alloc, Change::DropRow(row.no), Change::PutJob(job))
}

/// What is told of both.
pub fn purged_entries(
    alloc: Global,
    e: EngineNo,
    job: &Job,
    row: &Row,
) -> Result<Batch<Entry>, AllocError>
    ensures { IfOk result (λ entries. entries ≡ purged_entries e job.now row.now) }
{
    let writes = seq_of_one(alloc, RowWrite::Purge(row.no))?;
    let rows = rows_entry(alloc, Actor::Engine(e), writes)?;
    with_last(rows, onward_entries(alloc, e, job, Stage::Ending)?)
}
