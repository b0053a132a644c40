//! Which engine has a row.
ghost use Rattle.std.specs.Prelude.{◌≡◌, IsNone, IfSome, option_map, nat_le};
ghost use Rattle.step_relation.specs.Takes.{IsHolder, HasNoHolder};
ghost use Rattle.mail_table.specs.Mails.{job_key};
ghost use Rattle.step_reads.specs.Best.{Improves};

use crate::next::lower_job;
use core_state::{Job, State};
use heat_plan::RowNo;

/// The job that has a row, of several that of the lowest engine.
pub fn holder(s: &State, row: RowNo) -> Option<&Job>
    ensures some { IfSome result (λ j. IsHolder s.now.state.jobs row j.now.engine j.now) }
    ensures none { IsNone result → HasNoHolder s.now.state.jobs row }
{
    let mut best: Option<&Job> = None;
    for job in s.jobs() {
        if job.row == row {
            best = lower(best, s.job(&job.engine), row);
        }
    }
    best
}

// The one with the lower engine, of those that have the row.
fn lower<'a>(best: Option<&'a Job>, job: Option<&'a Job>, row: RowNo) -> Option<&'a Job>
    ensures { Improves nat_le job_key (λ j. j.row ≡ row) (option_map (λ j. j.now) best.entry)
        (option_map (λ j. j.now) job.entry) (option_map (λ j. j.now) result) }
{
    match job {
        Some(job) if job.row == row => Some(lower_job(best, job)),
        _ => best,
    }
}
