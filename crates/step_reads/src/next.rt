//! The work that an engine does next.
ghost use Rattle.std.specs.Prelude.{◌≡◌, ◌≤◌, IsNone, IfSome, Some, option_map, nat_le};
ghost use Rattle.mail_table.specs.Mails.{job_key};
ghost use Rattle.step_relation.specs.Nexts.{IsLowest, HasLeft};
ghost use Rattle.step_reads.specs.Tasks.{IsTask, HasNoLetter, IsLowestLeft, HasNoneLeft};
ghost use Rattle.step_reads.specs.Best.{first_by};

use crate::engines::is_live;
use core_state::{Job, Letter, State};
use heat_plan::EngineNo;

/// What an engine does next.
#[derive(Clone, Copy)]
pub enum Task<'a> {
    /// The step of its job.
    Work(&'a Job),
    /// The taking of the lowest letter.
    Take(&'a Letter),
    /// The take-over of the lowest stopped engine's job.
    TakeOver(&'a Job),
    /// Nothing.
    Idle,
    /// The engine isn't live.
    Lost,
}

/// The next work of an engine.
pub fn next_of<'a>(s: &'a State, e: EngineNo) -> Task<'a>
    ensures { IsTask s.now.state e result }
{
    if !is_live(s, e) {
        return Task::Lost;
    }
    if let Some(job) = s.job(&e) {
        return Task::Work(job);
    }
    if let Some(letter) = lowest(s) {
        return Task::Take(letter);
    }
    match left(s) {
        Some(job) => Task::TakeOver(job),
        None => Task::Idle,
    }
}

/// The letter with the lowest number; none where no letter waits.
pub fn lowest(s: &State) -> Option<&Letter>
    ensures some { IfSome result (λ l. IsLowest s.now.state.letters l.now) }
    ensures none { IsNone result → HasNoLetter s.now.state.letters }
{
    s.first_letter()
}

/// The lowest stopped engine's job; none where no stopped engine has one.
pub fn left(s: &State) -> Option<&Job>
    ensures some { IfSome result (λ j. IsLowestLeft s.now.state j.now) }
    ensures none { IsNone result → HasNoneLeft s.now.state }
{
    let mut best: Option<&Job> = None;
    for job in s.jobs() {
        if !is_live(s, job.engine) {
            best = Some(lower_job(best, job));
        }
    }
    best
}

/// The one with the lower engine, the first of two that have one engine.
pub(crate) fn lower_job<'a>(best: Option<&'a Job>, job: &'a Job) -> &'a Job
    ensures { result.now ≡ first_by nat_le job_key (option_map (λ x. x.now) best.entry) job.now }
{
    match best {
        Some(best) if best.engine <= job.engine => best,
        _ => job,
    }
}
