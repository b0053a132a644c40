//! The forms that a step gives to a job.
ghost use Rattle.std.specs.Prelude.{◌≡◌, IfOk};
ghost use Rattle.mail_table.specs.declared.mail.Stage.TheVariants.{Asking};
ghost use Rattle.step_relation.specs.Writes.{job_of, with_stage};

use core_state::{Job, Letter, Stage};
use heat_plan::{EngineNo, RowNo};
use heat_value::TryCopy;
use std::alloc::AllocError;

/// The engine's job for a letter and the row of this number.
pub fn job_of(e: EngineNo, letter: &Letter, number: RowNo, stage: Stage) -> Result<Job, AllocError>
    ensures { IfOk result (λ j. j ≡ job_of e letter.now number stage) }
{
    Ok(Job {
        engine: e,
        letter: letter.copy()?,
        row: number,
        stage,
    })
}

/// The job at another stage.
pub fn with_stage(stage: Stage, job: &Job) -> Result<Job, AllocError>
    ensures { IfOk result (λ j. j ≡ with_stage stage job.now) }
{
    let mut job = job.copy()?;
    job.stage = stage;
    Ok(job)
}

/// The job, moved to the row that takes the place of its own.
pub fn moved_job(number: RowNo, job: &Job) -> Result<Job, AllocError>
    ensures { IfOk result (λ j. j ≡ record job.now { row = number; stage = Asking }) }
{
    let mut job = job.copy()?;
    job.row = number;
    job.stage = Stage::Asking;
    Ok(job)
}
