//! The take-over of a stopped engine's job.
ghost use Rattle.std.specs.Prelude.{IfOk, IfErr};
ghost use Rattle.step_relation.specs.Given.{Nothing};
ghost use Rattle.step_relation.specs.Nexts.{TakesOver};
ghost use Rattle.step_parts.specs.Turns.{IsTurn, IsTurnRefusal};

use crate::relaying::relay;
use core_state::{Job, Made, State};
use heat_plan::{EngineNo, Refusal};
use std::alloc::Global;
use step_ends::takeover_overrun;
use step_reads::freshness;

/// The take-over of a stopped engine's job, by a live one: a job that is overrun is released;
/// another ends, and a letter for its node is sent again.
pub fn takeover(alloc: Global, s: &State, e: EngineNo, job: &Job) -> Result<Made, Refusal>
    requires { TakesOver s.now.state e job.now.engine job.now }
    ensures made { IfOk result (IsTurn s.now.state e Nothing) }
    ensures cause { IfErr result (IsTurnRefusal s.now.state e Nothing) }
{
    match freshness(s, job) {
        Some(fresh) => relay(alloc, s, e, job, fresh.stack, fresh.row),
        None => takeover_overrun(alloc, s, e, job),
    }
}
