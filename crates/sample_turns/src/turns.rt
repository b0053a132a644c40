//! The next step of an engine, as the book chooses it: by its job, the lowest letter, or the job of a
//! stopped engine; and how a step is made.
ghost use Rattle.std.specs.Prelude.{◌≢◌, IfOk};
ghost use Rattle.mail_table.specs.declared.mail.Stage.TheVariants.{Asking, Polling, Taken};
ghost use Rattle.step_relation.specs.Nexts.{Works};
ghost use Rattle.check_steps.specs.AtUpdate.{AtUpdate};
ghost use Rattle.step_ends.specs.Answers.{AnswersPoll, IsCall};

use crate::replies::{Reply, ask_answer, poll_answer};
use check_steps::{Prepared, finish, prepare_now, take};
use core_state::{Job, Made, Row, Stage, State};
use heat_plan::{Answered, EngineNo, Refusal};
use heat_value::{Path, Text};
use std::alloc::{AllocError, Global};
use step_ends::{asked, begin_overrun, polled};
use step_reads::{Task, freshness, next_of, point_of};
use takeover_steps::takeover;
use traversal_graph::Node;
use type_catalog::Registry;

/// The engine's next step, where it has one to which the reply fits.
pub fn turn(alloc: Global, s: &State, e: EngineNo, reply: Reply) -> Result<Option<Made>, Refusal> {
    match next_of(s, e) {
        Task::Lost | Task::Idle => Ok(None),
        Task::Take(letter) => Ok(Some(take(alloc, s, e, letter)?)),
        Task::TakeOver(job) => Ok(Some(takeover(alloc, s, e, job)?)),
        Task::Work(job) => match job.stage {
            Stage::Taken => begin(alloc, s, e, job, reply),
            Stage::Asking => ask(alloc, s, e, job, reply),
            Stage::Polling => poll(alloc, s, e, job, reply),
            Stage::Ending => Ok(Some(finish(alloc, s, e, job)?)),
        },
    }
}

// The begin of a job, by its node.
fn begin(
    alloc: Global,
    s: &State,
    e: EngineNo,
    job: &Job,
    reply: Reply,
) -> Result<Option<Made>, Refusal>
    requires { Works s.now.state e job.now Taken }
{
    match freshness(s, job) {
        None => Ok(Some(begin_overrun(alloc, s, e, job)?)),
        Some(fresh) => match fresh.node {
            Node::C(_) => Ok(Some(cleanup_steps::begin(alloc, s, e, job)?)),
            Node::U(_, _) => match point_of(fresh.graph, job.letter.node) {
                Some(_) => begin_update(alloc, s, e, job, reply),
                None => Ok(None),
            },
        },
    }
}

// The begin at an update node.
fn begin_update(
    alloc: Global,
    s: &State,
    e: EngineNo,
    job: &Job,
    reply: Reply,
) -> Result<Option<Made>, Refusal>
    requires { AtUpdate s.now.state e job.now }
{
    let prepared = prepared(alloc, s, e, job, reply)?;
    Ok(Some(check_steps::begin(alloc, s, e, job, &prepared)?))
}

// What the begin is given: a fault where there is to be one, else what is prepared for it.
fn prepared(
    alloc: Global,
    s: &State,
    e: EngineNo,
    job: &Job,
    reply: Reply,
) -> Result<Prepared, AllocError>
    requires { AtUpdate s.now.state e job.now }
    ensures { IfOk result (λ p. p ≢ Prepared.Plain) }
{
    match reply {
        Reply::Faults => faulted(alloc),
        Reply::Works | Reply::Waits | Reply::Quota | Reply::Fails | Reply::Breaks => Ok(prepare_now(
            alloc,
            &Registry::empty(alloc),
            s,
            e,
            job,
        )),
    }
}

// A fault of the whole properties.
fn faulted(alloc: Global) -> Result<Prepared, AllocError>
    ensures { IfOk result (λ p. p ≢ Prepared.Plain) }
{
    let code = Text::from_str(alloc, "F01")?;
    Ok(Prepared::Fault(code, Path::root(alloc)))
}

// What follows from the answer to an ask.
fn ask(
    alloc: Global,
    s: &State,
    e: EngineNo,
    job: &Job,
    reply: Reply,
) -> Result<Option<Made>, Refusal>
    requires { Works s.now.state e job.now Asking }
{
    match s.row(&job.row) {
        Some(row) => ask_for(alloc, s, e, job, row, reply),
        None => Ok(None),
    }
}

// The same of the job's row.
fn ask_for(
    alloc: Global,
    s: &State,
    e: EngineNo,
    job: &Job,
    row: &Row,
    reply: Reply,
) -> Result<Option<Made>, Refusal>
    requires { IsCall s.now.state e Asking job.now row.now }
{
    match ask_answer(row.act, reply) {
        Some(answer) => Ok(Some(asked(alloc, s, e, &answer)?)),
        None => Ok(None),
    }
}

// What follows from the answer to a poll.
fn poll(
    alloc: Global,
    s: &State,
    e: EngineNo,
    job: &Job,
    reply: Reply,
) -> Result<Option<Made>, Refusal>
    requires { Works s.now.state e job.now Polling }
{
    match s.row(&job.row) {
        Some(row) => poll_for(alloc, s, e, job, row, reply),
        None => Ok(None),
    }
}

// The same of the job's row.
fn poll_for(
    alloc: Global,
    s: &State,
    e: EngineNo,
    job: &Job,
    row: &Row,
    reply: Reply,
) -> Result<Option<Made>, Refusal>
    requires { IsCall s.now.state e Polling job.now row.now }
{
    match poll_answer(alloc, row, reply)? {
        Some(answer) => Ok(Some(poll_with(alloc, s, e, job, row, &answer)?)),
        None => Ok(None),
    }
}

// The same with the answer.
fn poll_with(
    alloc: Global,
    s: &State,
    e: EngineNo,
    _job: &Job,
    _row: &Row,
    answer: &Answered,
) -> Result<Made, Refusal>
    requires call { IsCall s.now.state e Polling _job.now _row.now }
    requires answer { AnswersPoll _row.now.act answer.now }
{
    polled(alloc, s, e, answer)
}

/// Makes a step's changes.
pub fn apply(s: &mut State, made: Made) -> Result<(), AllocError> {
    let Made {
        changes,
        entries: _,
    } = made;
    s.reserve(changes.len())?;
    s.apply_all(changes);
    Ok(())
}
