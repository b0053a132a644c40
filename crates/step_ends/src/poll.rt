//! The answer to a poll: not yet, ready, gone, or it fails.
ghost use Rattle.std.specs.Prelude.{◌≡◌, ◌∷◌, [], IfErr, IfOk, OnOk};
ghost use Rattle.mail_table.specs.declared.mail.Stage.TheVariants.{Ending, Polling};
ghost use Rattle.step_relation.specs.Asks.{Calls};
ghost use Rattle.step_relation.specs.Begins.{begun_changes, begun_entries};
ghost use Rattle.step_relation.specs.Cleanups.{purged_changes, purged_entries};
ghost use Rattle.step_relation.specs.Given.{Answer};
ghost use Rattle.step_relation.specs.Rows.{ready_row};
ghost use Rattle.command_steps.specs.Turns.{IsTurn, IsTurnRefusal};
ghost use Rattle.step_ends.specs.Answers.{AnswersPoll, CallLasts, IsCall, IsCallRefusal, IsFailing, IsTold};

use crate::calls::{polled_by, reason_of};
use crate::falling::{Failure, fallen};
use crate::sparing::has_spare;
use command_steps::{
    begun_changes, begun_entries, call_entry, job_at, one, purged_changes, purged_entries,
    ready_row, row_at, with_last,
};
use core_state::{Batch, Change, Entry, Job, Made, Row, Stage, State};
use heat_plan::{Answered, EngineNo, Facts, Refusal};
use std::alloc::{AllocError, Global};

/// What follows from the answer to the engine's poll; refuses `Worn` under every answer alike, so that it
/// can be told before anybody is asked.
pub fn polled(alloc: Global, s: &State, e: EngineNo, answer: &Answered) -> Result<Made, Refusal>
    requires calls { Calls s.now.state e Polling }
    requires answer { (k : Calls s.now.state e Polling) → AnswersPoll k.row.act answer.now }
    ensures made { IfOk result (IsTurn s.now.state e (Answer answer.now)) }
    ensures cause { IfErr result (IsTurnRefusal s.now.state e (Answer answer.now)) }
{
    let job = job_at(s, e);
    let row = row_at(s, job);
    answered(alloc, s, e, job, row, answer)
}

// The same of the job and its row.
fn answered(
    alloc: Global,
    s: &State,
    e: EngineNo,
    job: &Job,
    row: &Row,
    answer: &Answered,
) -> Result<Made, Refusal>
    requires call { IsCall s.now.state e Polling job.now row.now }
    requires answer { AnswersPoll row.now.act answer.now }
    ensures made { IfOk result (IsTurn s.now.state e (Answer answer.now)) }
    ensures cause { IfErr result (IsTurnRefusal s.now.state e (Answer answer.now)) }
{
    match answer {
        Answered::Failed | Answered::Broken(_) => refused(alloc, s, e, job, row, answer),
        Answered::NotYet | Answered::Ready(_) | Answered::Gone => {
            lasting(alloc, s, e, job, row)?;
            Ok(told(alloc, e, job, row, answer)?)
        }
        Answered::Begun | Answered::Quota => unreachable!(),
    }
}

// Refuses where an answer would wear something out. That none does is told by how many numbers are left, and
// only where few are by what a failure would change.
fn lasting(alloc: Global, s: &State, e: EngineNo, job: &Job, row: &Row) -> Result<(), Refusal>
    requires { IsCall s.now.state e Polling job.now row.now }
    ensures lasts { OnOk result (CallLasts s.now.state e) }
    ensures cause { IfErr result (IsCallRefusal s.now.state e) }
{
    if has_spare(s, row) {
        return Ok(());
    }
    refused(alloc, s, e, job, row, &Answered::Failed)?;
    Ok(())
}

// The poll fails.
fn refused(
    alloc: Global,
    s: &State,
    e: EngineNo,
    job: &Job,
    row: &Row,
    answer: &Answered,
) -> Result<Made, Refusal>
    requires call { IsCall s.now.state e Polling job.now row.now }
    requires answer { AnswersPoll row.now.act answer.now }
    requires fails { IsFailing answer.now }
    ensures made { IfOk result (IsTurn s.now.state e (Answer answer.now)) }
    ensures lasts { IfOk result (λ _. CallLasts s.now.state e) }
    ensures cause { IfErr result (IsCallRefusal s.now.state e) }
{
    let call = call_entry(e, row, polled_by(row), answer)?;
    let reason = reason_of(row.act, answer)?;
    fallen(alloc, s, e, job, row, Failure { call, reason })
}

// The poll tells how far the resource is.
fn told(
    alloc: Global,
    e: EngineNo,
    job: &Job,
    row: &Row,
    answer: &Answered,
) -> Result<Made, AllocError>
    requires answer { AnswersPoll row.now.act answer.now }
    requires fails { ¬ IsFailing answer.now }
    ensures { IfOk result (IsTold e job.now row.now answer.now) }
{
    let call = call_entry(e, row, polled_by(row), answer)?;
    match answer {
        Answered::NotYet => waiting(alloc, call),
        Answered::Ready(facts) => readied(alloc, e, job, row, facts, call),
        Answered::Gone => gone(alloc, e, job, row, call),
        Answered::Begun | Answered::Quota | Answered::Failed | Answered::Broken(_) => {
            unreachable!()
        }
    }
}

// Nothing changes.
fn waiting(alloc: Global, call: Entry) -> Result<Made, AllocError>
    ensures changes { IfOk result (λ m. m.changes ≡ []) }
    ensures entries { IfOk result (λ m. m.entries ≡ call ∷ []) }
{
    let entries = one(alloc, call)?;
    Made::new(alloc, Batch::new(alloc), entries)
}

// A ready resource's facts are stored, and its job ends next.
fn readied(
    alloc: Global,
    e: EngineNo,
    job: &Job,
    row: &Row,
    facts: &Facts,
    call: Entry,
) -> Result<Made, AllocError>
    ensures changes { IfOk result (λ m. m.changes ≡ begun_changes job.now Ending (ready_row row.now facts.now)) }
    ensures entries { IfOk result (λ m. m.entries ≡
        call ∷ begun_entries e job.now Ending (ready_row row.now facts.now)) }
{
    let entries = ready_entries(alloc, e, job, row, facts, call)?;
    let changes = ready_changes(alloc, job, row, facts)?;
    Made::new(alloc, changes, entries)
}

// The row and the job.
fn ready_changes(
    alloc: Global,
    job: &Job,
    row: &Row,
    facts: &Facts,
) -> Result<Batch<Change>, AllocError>
    ensures { IfOk result (λ changes. changes ≡ begun_changes job.now Ending (ready_row row.now facts.now)) }
{
    let row = ready_row(row, facts)?;
    begun_changes(alloc, job, Stage::Ending, row)
}

// The call, and what is told of them.
fn ready_entries(
    alloc: Global,
    e: EngineNo,
    job: &Job,
    row: &Row,
    facts: &Facts,
    call: Entry,
) -> Result<Batch<Entry>, AllocError>
    ensures { IfOk result (λ entries. entries ≡
        call ∷ begun_entries e job.now Ending (ready_row row.now facts.now)) }
{
    let told = one(alloc, call)?;
    let row = ready_row(row, facts)?;
    let rest = begun_entries(alloc, e, job, Stage::Ending, row)?;
    with_last(told, rest)
}

// A resource is gone: its row goes, and its job ends next.
fn gone(alloc: Global, e: EngineNo, job: &Job, row: &Row, call: Entry) -> Result<Made, AllocError>
    ensures changes { IfOk result (λ m. m.changes ≡ purged_changes job.now row.now) }
    ensures entries { IfOk result (λ m. m.entries ≡ call ∷ purged_entries e job.now row.now) }
{
    let entries = gone_entries(alloc, e, job, row, call)?;
    let changes = purged_changes(alloc, job, row)?;
    Made::new(alloc, changes, entries)
}

// The call, and what is told of them.
fn gone_entries(
    alloc: Global,
    e: EngineNo,
    job: &Job,
    row: &Row,
    call: Entry,
) -> Result<Batch<Entry>, AllocError>
    ensures { IfOk result (λ entries. entries ≡ call ∷ purged_entries e job.now row.now) }
{
    let told = one(alloc, call)?;
    let rest = purged_entries(alloc, e, job, row)?;
    with_last(told, rest)
}
