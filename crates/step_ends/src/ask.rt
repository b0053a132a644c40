//! The answer to an ask: it was begun, or it fails.
ghost use Rattle.std.specs.Prelude.{◌≡◌, ◌∷◌, IfErr, IfOk, OnOk};
ghost use Rattle.heat_plan.specs.declared.calls.Answered.TheVariants as answers;
ghost use Rattle.heat_plan.specs.declared.phase.Act.TheVariants.{Create};
ghost use Rattle.mail_table.specs.declared.mail.Stage.TheVariants.{Asking, Polling};
ghost use Rattle.step_relation.specs.Asks.{Calls};
ghost use Rattle.step_relation.specs.Begins.{onward_changes, onward_entries};
ghost use Rattle.step_relation.specs.Given.{Answer};
ghost use Rattle.command_steps.specs.Turns.{IsTurn, IsTurnRefusal};
ghost use Rattle.step_ends.specs.Answers.{AnswersAsk, CallLasts, IsAsking, IsBegun, IsCall, IsCallRefusal, IsFailing};
ghost use Rattle.step_ends.specs.Falls.{IsFailureBy};

use crate::calls::{asked_for, reason_of};
use crate::falling::{Failure, fallen, fallen_twice};
use crate::sparing::has_spare;
use command_steps::{call_entry, job_at, onward_changes, onward_entries, row_at, with_first};
use core_state::{Job, Made, Row, Stage, State};
use heat_plan::{Answered, EngineNo, Refusal};
use std::alloc::{AllocError, Global};

/// What follows from the answer to the engine's ask; refuses `Worn` under every answer alike, so that
/// it can be told before anybody is asked.
pub fn asked(alloc: Global, s: &State, e: EngineNo, answer: &Answered) -> Result<Made, Refusal>
    requires calls { Calls s.now.state e Asking }
    requires answer { (k : Calls s.now.state e Asking) → AnswersAsk k.row.act answer.now }
    ensures made { IfOk result (IsTurn s.now.state e (Answer answer.now)) }
    ensures cause { IfErr result (IsTurnRefusal s.now.state e (Answer answer.now)) }
{
    let job = job_at(s, e);
    let row = row_at(s, job);
    answered(alloc, s, e, job, row, answer)
}

// The same of the job and its row.
fn answered(
    alloc: Global,
    s: &State,
    e: EngineNo,
    job: &Job,
    row: &Row,
    answer: &Answered,
) -> Result<Made, Refusal>
    requires call { IsCall s.now.state e Asking job.now row.now }
    requires answer { AnswersAsk row.now.act answer.now }
    ensures made { IfOk result (IsTurn s.now.state e (Answer answer.now)) }
    ensures cause { IfErr result (IsTurnRefusal s.now.state e (Answer answer.now)) }
{
    match answer {
        Answered::Begun => {
            lasting(alloc, s, e, job, row)?;
            Ok(begun(alloc, e, job, row)?)
        }
        Answered::Quota => refused(alloc, s, e, job, row, answer),
        Answered::Failed => refused(alloc, s, e, job, row, answer),
        Answered::NotYet | Answered::Ready(_) | Answered::Broken(_) | Answered::Gone => {
            unreachable!()
        }
    }
}

// Refuses where an answer would wear something out. That none does is told by how many numbers are left, and
// only where few are by what a failure would change.
fn lasting(alloc: Global, s: &State, e: EngineNo, job: &Job, row: &Row) -> Result<(), Refusal>
    requires call { IsCall s.now.state e Asking job.now row.now }
    requires answer { AnswersAsk row.now.act answers.Failed }
    ensures lasts { OnOk result (CallLasts s.now.state e) }
    ensures cause { IfErr result (IsCallRefusal s.now.state e) }
{
    if has_spare(s, row) {
        return Ok(());
    }
    refused(alloc, s, e, job, row, &Answered::Failed)?;
    Ok(())
}

/// What follows where a create's ask is past the quota, and where it fails: both, of one layout of the
/// rollback.
pub fn refused_creates(alloc: Global, s: &State, e: EngineNo) -> Result<(Made, Made), Refusal>
    requires calls { Calls s.now.state e Asking }
    requires creates { (k : Calls s.now.state e Asking) → k.row.act ≡ Create }
    ensures quota { IfOk result (λ both. IsTurn s.now.state e (Answer answers.Quota) both.0) }
    ensures failed { IfOk result (λ both. IsTurn s.now.state e (Answer answers.Failed) both.1) }
    ensures cause { IfErr result (IsTurnRefusal s.now.state e (Answer answers.Failed)) }
{
    let job = job_at(s, e);
    let row = row_at(s, job);
    refused_twice(alloc, s, e, job, row)
}

// The same of the job and its row.
fn refused_twice(
    alloc: Global,
    s: &State,
    e: EngineNo,
    job: &Job,
    row: &Row,
) -> Result<(Made, Made), Refusal>
    requires call { IsCall s.now.state e Asking job.now row.now }
    requires creates { row.now.act ≡ Create }
    ensures quota { IfOk result (λ both. IsTurn s.now.state e (Answer answers.Quota) both.0) }
    ensures failed { IfOk result (λ both. IsTurn s.now.state e (Answer answers.Failed) both.1) }
    ensures cause { IfErr result (IsCallRefusal s.now.state e) }
{
    let quota = failure_of(e, row, &Answered::Quota)?;
    let failed = failure_of(e, row, &Answered::Failed)?;
    fallen_twice(alloc, s, e, job, row, quota, failed)
}

// The failure that an answer tells.
fn failure_of(e: EngineNo, row: &Row, answer: &Answered) -> Result<Failure, AllocError>
    requires asks { IsAsking row.now.act }
    requires fails { IsFailing answer.now }
    ensures { IfOk result (IsFailureBy e row.now answer.now) }
{
    let call = call_entry(e, row, asked_for(row)?, answer)?;
    let reason = reason_of(row.act, answer)?;
    Ok(Failure { call, reason })
}

// What is asked fails.
fn refused(
    alloc: Global,
    s: &State,
    e: EngineNo,
    job: &Job,
    row: &Row,
    answer: &Answered,
) -> Result<Made, Refusal>
    requires call { IsCall s.now.state e Asking job.now row.now }
    requires answer { AnswersAsk row.now.act answer.now }
    requires fails { IsFailing answer.now }
    ensures made { IfOk result (IsTurn s.now.state e (Answer answer.now)) }
    ensures lasts { IfOk result (λ _. CallLasts s.now.state e) }
    ensures cause { IfErr result (IsCallRefusal s.now.state e) }
{
    let call = call_entry(e, row, asked_for(row)?, answer)?;
    let reason = reason_of(row.act, answer)?;
    fallen(alloc, s, e, job, row, Failure { call, reason })
}

// What is asked was begun, and its job polls next.
fn begun(alloc: Global, e: EngineNo, job: &Job, row: &Row) -> Result<Made, AllocError>
    requires { IsAsking row.now.act }
    ensures { IfOk result (IsBegun e job.now row.now) }
{
    let call = call_entry(e, row, asked_for(row)?, &Answered::Begun)?;
    let changes = onward_changes(alloc, job, Stage::Polling)?;
    let entries = onward_entries(alloc, e, job, Stage::Polling)?;
    Made::new(alloc, changes, with_first(alloc, call, entries)?)
}
