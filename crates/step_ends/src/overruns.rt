//! The release of a job that is overrun: at its begin, at its end, and of a stopped engine.
ghost use Rattle.std.specs.Prelude.{IfErr, IfOk};
ghost use Rattle.mail_table.specs.declared.mail.Stage.TheVariants.{Ending, Taken};
ghost use Rattle.step_relation.specs.Freshness.{IsOverrun};
ghost use Rattle.step_relation.specs.Given.{Nothing};
ghost use Rattle.step_relation.specs.Nexts.{TakesOver, Works};
ghost use Rattle.command_steps.specs.Turns.{IsTurn, IsTurnRefusal};
ghost use Rattle.step_ends.specs.Releases.{AreAgain, IsRelease, IsReleaseRefusal};

use crate::again::{letters_again, next_letter};
use command_steps::{made_within, may_all_rise, released_changes, released_entries};
use core_state::{Job, Letter, Made, State};
use heat_plan::{EngineNo, Refusal};
use std::alloc::Global;

/// An engine's job that was to begin.
pub fn begin_overrun(alloc: Global, s: &State, e: EngineNo, job: &Job) -> Result<Made, Refusal>
    requires works { Works s.now.state e job.now Taken }
    requires overrun { IsOverrun s.now.state job.now }
    ensures made { IfOk result (IsTurn s.now.state e Nothing) }
    ensures cause { IfErr result (IsTurnRefusal s.now.state e Nothing) }
{
    release(alloc, s, e, e, job)
}

/// An engine's job that was to end.
pub fn finish_overrun(alloc: Global, s: &State, e: EngineNo, job: &Job) -> Result<Made, Refusal>
    requires works { Works s.now.state e job.now Ending }
    requires overrun { IsOverrun s.now.state job.now }
    ensures made { IfOk result (IsTurn s.now.state e Nothing) }
    ensures cause { IfErr result (IsTurnRefusal s.now.state e Nothing) }
{
    release(alloc, s, e, e, job)
}

/// A stopped engine's job, by the engine that takes it over.
pub fn takeover_overrun(alloc: Global, s: &State, e: EngineNo, job: &Job) -> Result<Made, Refusal>
    requires takes { TakesOver s.now.state e job.now.engine job.now }
    requires overrun { IsOverrun s.now.state job.now }
    ensures made { IfOk result (IsTurn s.now.state e Nothing) }
    ensures cause { IfErr result (IsTurnRefusal s.now.state e Nothing) }
{
    release(alloc, s, e, job.engine, job)
}

// The engine `by` releases the job of the engine `of`.
fn release(alloc: Global, s: &State, by: EngineNo, of: EngineNo, job: &Job) -> Result<Made, Refusal>
    requires { IsOverrun s.now.state job.now }
    ensures made { IfOk result (IsRelease s.now.state by of job.now) }
    ensures cause { IfErr result (IsReleaseRefusal s.now.state of job.now) }
{
    let number = next_letter(s);
    let letters = letters_again(alloc, s, &job.letter.stack, job.row, number)?;
    released(alloc, s, by, of, job, letters.as_slice())
}

// The same with the letters that are sent again.
fn released(
    alloc: Global,
    s: &State,
    by: EngineNo,
    of: EngineNo,
    job: &Job,
    letters: &[Letter],
) -> Result<Made, Refusal>
    requires overrun { IsOverrun s.now.state job.now }
    requires again { AreAgain s.now.state job.now.letter.stack job.now.row letters.now }
    ensures made { IfOk result (IsRelease s.now.state by of job.now) }
    ensures cause { IfErr result (IsReleaseRefusal s.now.state of job.now) }
{
    let row = s.row(&job.row);
    if !may_all_rise(row) {
        return Err(Refusal::Worn);
    }
    let changes = released_changes(alloc, s, of, row, letters)?;
    let entries = released_entries(alloc, by, of, row, letters)?;
    made_within(alloc, changes, entries)
}
