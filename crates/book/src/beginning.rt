//! The begin of an engine's job, by what its node is and whether it still has work.
ghost use Rattle.std.specs.Prelude.{IfErr, IfOk};
ghost use Rattle.mail_table.specs.declared.mail.Stage.TheVariants.{Taken};
ghost use Rattle.step_relation.specs.Nexts.{Works};
ghost use Rattle.check_steps.specs.AtUpdate.{AtUpdate};
ghost use Rattle.book.specs.Makings.{IsQuietTurn, IsQuietRefusal};
ghost use Rattle.book.specs.WorkableOver.{IsWorkable};

use core_state::{Job, Made, State};
use heat_plan::{EngineNo, Refusal};
use std::alloc::Global;
use step_reads::freshness;
use takeover_steps::begin_overrun;
use traversal_graph::Node;
use type_catalog::Registry;

/// The begin of an engine's job; one that is overrun is released.
pub(crate) fn begin_job(
    alloc: Global,
    registry: &Registry,
    s: &State,
    e: EngineNo,
    job: &Job,
) -> Result<Made, Refusal>
    requires works { Works s.now.state e job.now Taken }
    requires workable { IsWorkable s.now.state }
    ensures made { IfOk result (IsQuietTurn s.now.state e) }
    ensures cause { IfErr result (IsQuietRefusal s.now.state e) }
{
    match freshness(s, job) {
        None => begin_overrun(alloc, s, e, job),
        Some(fresh) => match fresh.node {
            Node::C(_) => cleanup_steps::begin(alloc, s, e, job),
            Node::U(_, _) => begin_update(alloc, registry, s, e, job),
        },
    }
}

// The begin at an update node.
fn begin_update(
    alloc: Global,
    registry: &Registry,
    s: &State,
    e: EngineNo,
    job: &Job,
) -> Result<Made, Refusal>
    requires { AtUpdate s.now.state e job.now }
    ensures made { IfOk result (IsQuietTurn s.now.state e) }
    ensures cause { IfErr result (IsQuietRefusal s.now.state e) }
{
    let prepared = check_steps::prepare_now(alloc, registry, s, e, job);
    check_steps::begin(alloc, s, e, job, &prepared)
}
