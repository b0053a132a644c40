//! Finish: the job ends, its node is done, and the nodes behind it are told.
ghost use Rattle.std.specs.Prelude.{IfOk, IfErr};
ghost use Rattle.std.specs.Bool.{OnTrue, OnFalse};
ghost use Rattle.mail_table.specs.declared.mail.Stage.TheVariants.{Ending};
ghost use Rattle.step_relation.specs.Finishes.{Settles};
ghost use Rattle.step_relation.specs.Given.{Nothing};
ghost use Rattle.step_relation.specs.Nexts.{Works};
ghost use Rattle.step_parts.specs.Turns.{IsTurn, IsTurnRefusal};
ghost use Rattle.check_steps.specs.Passes.{IsAtWork, IsPassed, finish_of};

use crate::finish_found::Passed;
use crate::passing::pass_on;
use core_state::{Actor, Batch, Job, Made, SharedInput, State};
use heat_plan::{EngineNo, Refusal, Status};
use std::alloc::{AllocError, Global};
use step_ends::finish_overrun;
use step_parts::{complete_mark, mark_complete, one};
use step_reads::{Fresh, all_done, freshness, input_of, ready_then, succs_of};

/// The end of an engine's job; one that is overrun is released.
pub fn finish(alloc: Global, s: &State, e: EngineNo, job: &Job) -> Result<Made, Refusal>
    requires { Works s.now.state e job.now Ending }
    ensures made { IfOk result (IsTurn s.now.state e Nothing) }
    ensures cause { IfErr result (IsTurnRefusal s.now.state e Nothing) }
{
    match freshness(s, job) {
        Some(fresh) => {
            let passed = passed_by(alloc, job, fresh)?;
            finish_node(alloc, s, e, &passed)
        }
        None => finish_overrun(alloc, s, e, job),
    }
}

// What the end of a job finds.
fn passed_by<'a>(alloc: Global, job: &'a Job, fresh: Fresh<'a>) -> Result<Passed<'a>, AllocError>
    requires { (s : _) × IsAtWork s job.now fresh }
    ensures { (s : _) (e : _) → Works s e job.now Ending
        → IsAtWork s job.now fresh.entry
        → IfOk result (IsPassed s e) }
{
    let node = job.letter.node;
    let shared = SharedInput::new(alloc, input_of(node, fresh.node, job.row, fresh.row)?)?;
    let succs = succs_of(fresh.graph, node)?;
    let ready = ready_then(alloc, fresh.graph, node, shared.input(), succs.as_slice())?;
    Ok(Passed {
        job,
        fresh,
        input: shared,
        succs,
        ready,
    })
}

// The node is done, and where it is the last of a traversal without a mark, the stack is complete.
fn finish_node(alloc: Global, s: &State, e: EngineNo, passed: &Passed<'_>) -> Result<Made, Refusal>
    requires { IsPassed s.now.state e passed.now }
    ensures made { IfOk result (IsTurn s.now.state e Nothing) }
    ensures cause { IfErr result (IsTurnRefusal s.now.state e Nothing) }
{
    if !settles(passed) {
        return pass_on(alloc, s, e, passed, Batch::new(alloc), Batch::new(alloc));
    }
    let mark = mark_complete(alloc, passed.fresh.stack)?;
    let told = one(alloc, complete_mark(Actor::Engine(e), passed.fresh.stack)?)?;
    pass_on(alloc, s, e, passed, mark, told)
}

// Whether all nodes are done then, and the stack has no mark.
fn settles(passed: &Passed<'_>) -> bool
    ensures yes { (s : _) (e : _) (it : IsPassed s e passed.now)
        → OnTrue result (Settles s e (finish_of s e passed.now it)) }
    ensures no_ { (s : _) (e : _) (it : IsPassed s e passed.now)
        → OnFalse result (¬ Settles s e (finish_of s e passed.now it)) }
{
    if passed.fresh.stack.status != Status::InProgress {
        return false;
    }
    all_done(
        passed.fresh.graph,
        passed.job.letter.node,
        passed.input.input(),
        passed.succs.as_slice(),
    )
}
