//! What the jobs stand for.
ghost use Rattle.std.specs.Prelude.{◌≡◌, ◌≤◌, ◌<◌, ◌^◌, Some};
ghost use Rattle.mail_table.specs.Mails.{job_at};
ghost use Rattle.step_relation.specs.MailFits.{IsStale};
ghost use Rattle.driver.specs.Keyed.{AreKeyed};
ghost use Rattle.driver.specs.Parts.{IsOne, JobWork, JobsWork, stage_work};

use crate::rolls::roll_one;
use core_state::{Job, Letter, Stage, State};
use step_reads::is_live;

/// 70 for each job of a stopped engine; for each of a live one as its stage says, and 69 more where it is
/// stale; and 69 for each on a stack that may be rolled back.
pub(crate) fn jobs_work(s: &State) -> u128
    requires { AreKeyed s.now.state }
    ensures exact { JobsWork s.now.state result }
    ensures bound { result < 2 ^ 80 }
{
    let mut sum = 0;
    for job in s.jobs() {
        sum += job_work(s, job);
    }
    sum
}

// The part of one job.
fn job_work(s: &State, job: &Job) -> u128
    requires { job_at s.now.state.jobs job.now.engine ≡ Some job.now }
    ensures exact { JobWork s.now.state job.now.engine result }
    ensures bound { result ≤ 206 }
{
    let rolls = 69 * roll_one(s, &job.letter.stack);
    if is_live(s, job.engine) {
        stage_work(job.stage) + 69 * stale_one(s, &job.letter) + rolls
    } else {
        70 + rolls
    }
}

// The part of a stage.
fn stage_work(stage: Stage) -> u128
    ensures exact { result ≡ stage_work stage }
    ensures bound { result ≤ 68 }
{
    match stage {
        Stage::Taken => 68,
        Stage::Asking => 67,
        Stage::Polling => 66,
        Stage::Ending => 1,
    }
}

// One where the letter isn't of its stack's newest traversal; else none.
fn stale_one(s: &State, letter: &Letter) -> u128
    ensures exact { IsOne (IsStale s.now.state.stacks letter.now) result }
    ensures bound { result ≤ 1 }
{
    match s.stack(&letter.stack) {
        Some(stack) if stack.trav == letter.trav => 0,
        _ => 1,
    }
}
