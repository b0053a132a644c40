//! How a job goes on: with its row written, with its row as it is, or not at all.
ghost use Rattle.std.specs.Prelude.{◌≡◌, IfOk};
ghost use Rattle.step_relation.specs.Begins.{begun_changes, begun_entries, left_changes, left_entries};
ghost use Rattle.step_relation.specs.Begins.{onward_changes, onward_entries};
ghost use Rattle.step_parts.specs.Rooms.{MayRise};

use crate::entries::{mail_entry, rows_entry};
use crate::jobs::with_stage;
use crate::lists::{one, seq_of_one, two, with_last};
use crate::rows::unlocked;
use core_state::{Actor, Batch, Change, Entry, Job, MailWrite, Row, RowWrite, Stage};
use heat_plan::EngineNo;
use std::alloc::{AllocError, Global};

/// The row is written, and the job goes on.
pub fn begun_changes(
    alloc: Global,
    job: &Job,
    stage: Stage,
    row: Row,
) -> Result<Batch<Change>, AllocError>
    ensures { IfOk result (λ changes. changes ≡ begun_changes job.now stage row) }
{
    let job = with_stage(stage, job)?;
    two(alloc, Change::PutRow(row), Change::PutJob(job))
}

/// What is told of both.
pub fn begun_entries(
    alloc: Global,
    e: EngineNo,
    job: &Job,
    stage: Stage,
    row: Row,
) -> Result<Batch<Entry>, AllocError>
    ensures { IfOk result (λ entries. entries ≡ begun_entries e job.now stage row) }
{
    let writes = seq_of_one(alloc, RowWrite::Set(row))?;
    let rows = rows_entry(alloc, Actor::Engine(e), writes)?;
    with_last(rows, onward_entries(alloc, e, job, stage)?)
}

/// The job goes on with its row as it is.
pub fn onward_changes(alloc: Global, job: &Job, stage: Stage) -> Result<Batch<Change>, AllocError>
    ensures { IfOk result (λ changes. changes ≡ onward_changes job.now stage) }
{
    one(alloc, Change::PutJob(with_stage(stage, job)?))
}

/// What is told of it.
pub fn onward_entries(
    alloc: Global,
    e: EngineNo,
    job: &Job,
    stage: Stage,
) -> Result<Batch<Entry>, AllocError>
    ensures { IfOk result (λ entries. entries ≡ onward_entries e job.now stage) }
{
    let writes = seq_of_one(alloc, MailWrite::Held(with_stage(stage, job)?))?;
    mail_entry(alloc, Actor::Engine(e), writes)
}

/// The row is unlocked, and the engine's job ends.
pub fn left_changes(alloc: Global, e: EngineNo, row: &Row) -> Result<Batch<Change>, AllocError>
    requires { MayRise row.now }
    ensures { IfOk result (λ changes. changes ≡ left_changes e row.now) }
{
    two(alloc, Change::PutRow(unlocked(row)?), Change::EndJob(e))
}

/// What is told of both.
pub fn left_entries(alloc: Global, e: EngineNo, row: &Row) -> Result<Batch<Entry>, AllocError>
    requires { MayRise row.now }
    ensures { IfOk result (λ entries. entries ≡ left_entries e row.now) }
{
    let by = Actor::Engine(e);
    let writes = seq_of_one(alloc, RowWrite::Set(unlocked(row)?))?;
    let rows = rows_entry(alloc, by, writes)?;
    let ended = seq_of_one(alloc, MailWrite::Ended(e))?;
    with_last(rows, mail_entry(alloc, by, ended)?)
}
