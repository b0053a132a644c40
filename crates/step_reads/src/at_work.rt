//! What an engine works at: its job, and the row of a job.
ghost use Rattle.std.specs.Prelude.{◌≡◌, IsSome, Some};
ghost use Rattle.row_table.specs.Rows.{row_at};
ghost use Rattle.mail_table.specs.Mails.{job_at};

use core_state::{Job, Row, State};
use heat_plan::EngineNo;

/// An engine's job.
pub fn job_at<'a>(s: &'a State, e: EngineNo) -> &'a Job
    requires { IsSome (job_at s.now.state.jobs e) }
    ensures { job_at s.now.state.jobs e ≡ Some result.now }
{
    s.job(&e).unwrap()
}

/// A job's row.
pub fn row_at<'a>(s: &'a State, job: &Job) -> &'a Row
    requires { IsSome (row_at s.now.state.rows job.now.row) }
    ensures { row_at s.now.state.rows job.now.row ≡ Some result.now }
{
    s.row(&job.row).unwrap()
}
