//! Begin at an update node: which case of it holds.
ghost use Rattle.std.specs.Prelude.{◌≢◌, IfOk, IfErr};
ghost use Rattle.check_steps.specs.AtUpdate.{AtUpdate};
ghost use Rattle.check_steps.specs.Gives.{given_of};
ghost use Rattle.step_parts.specs.Turns.{IsTurn, IsTurnRefusal};

use crate::begin_finding::find;
use crate::faulting::fault;
use crate::prepared::Prepared;
use crate::with_props::begin_with;
use core_state::{Job, Made, State};
use heat_plan::{EngineNo, Refusal};
use std::alloc::Global;

/// The begin of an engine's job at an update node, with what was prepared for it.
pub fn begin(
    alloc: Global,
    s: &State,
    e: EngineNo,
    job: &Job,
    prepared: &Prepared,
) -> Result<Made, Refusal>
    requires at { AtUpdate s.now.state e job.now }
    requires given { prepared.now ≢ Prepared.Plain }
    ensures made { IfOk result (IsTurn s.now.state e (given_of prepared.now)) }
    ensures cause { IfErr result (IsTurnRefusal s.now.state e (given_of prepared.now)) }
{
    let found = find(alloc, s, job)?;
    match prepared {
        Prepared::Props(props, effect) => begin_with(alloc, s, e, &found, props, *effect),
        Prepared::Fault(code, path) => fault(alloc, s, e, &found, code, path),
        Prepared::Plain => unreachable!(),
        Prepared::Memory => Err(Refusal::Memory),
    }
}
