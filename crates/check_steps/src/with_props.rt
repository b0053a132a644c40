//! The begin of an update node whose item has its properties: the case by how far the row is.
ghost use Rattle.std.specs.Prelude.{◌≡◌, ◌≢◌, IfOk, IfErr};
ghost use Rattle.heat_plan.specs.declared.phase.Act.TheVariants.{Init};
ghost use Rattle.heat_plan.specs.declared.phase.Status.TheVariants.{Complete};
ghost use Rattle.step_relation.specs.Given.{Prepared};
ghost use Rattle.step_parts.specs.Turns.{IsTurn, IsTurnRefusal};
ghost use Rattle.check_steps.specs.Founds.{IsFound};

use crate::begin_found::Found;
use crate::leaving::leave;
use crate::onward_jobs::{go_on, keep, start, update};
use crate::replacing::replace;
use core_state::{Made, State};
use heat_plan::{Act, EngineNo, Properties, Refusal, Status};
use heat_value::Equals;
use std::alloc::Global;
use type_catalog::Effect;

/// The begin with these properties: of a row on which nothing was done, or of one that was begun
/// before.
pub(crate) fn begin_with(
    alloc: Global,
    s: &State,
    e: EngineNo,
    found: &Found<'_>,
    props: &Properties,
    effect: Effect,
) -> Result<Made, Refusal>
    requires { IsFound s.now.state e found.now }
    ensures made { IfOk result (IsTurn s.now.state e (Prepared props.now effect)) }
    ensures cause { IfErr result (IsTurnRefusal s.now.state e (Prepared props.now effect)) }
{
    match found.row.act {
        Act::Init => start(alloc, e, found, props),
        Act::Create | Act::Update | Act::Delete | Act::Rollback => {
            begin_again(alloc, s, e, found, props, effect)
        }
    }
}

// The row was begun before: by how far it is.
fn begin_again(
    alloc: Global,
    s: &State,
    e: EngineNo,
    found: &Found<'_>,
    props: &Properties,
    effect: Effect,
) -> Result<Made, Refusal>
    requires found { IsFound s.now.state e found.now }
    requires begun { found.now.row.now.act ≢ Init }
    ensures made { IfOk result (IsTurn s.now.state e (Prepared props.now effect)) }
    ensures cause { IfErr result (IsTurnRefusal s.now.state e (Prepared props.now effect)) }
{
    let is_ours = found.row.trav == found.stack.trav;
    match found.row.status {
        Status::Complete => begin_complete(alloc, s, e, found, props, effect),
        Status::InProgress if is_ours => go_on(alloc, e, found.job),
        Status::InProgress => replace(alloc, s, e, found, props),
        Status::Failed if is_ours => leave(alloc, e, found.row),
        Status::Failed => replace(alloc, s, e, found, props),
    }
}

// The row is complete: it stays, or changes in place, or goes.
fn begin_complete(
    alloc: Global,
    s: &State,
    e: EngineNo,
    found: &Found<'_>,
    props: &Properties,
    effect: Effect,
) -> Result<Made, Refusal>
    requires found { IsFound s.now.state e found.now }
    requires begun { found.now.row.now.act ≢ Init }
    requires complete { found.now.row.now.status ≡ Complete }
    ensures made { IfOk result (IsTurn s.now.state e (Prepared props.now effect)) }
    ensures cause { IfErr result (IsTurnRefusal s.now.state e (Prepared props.now effect)) }
{
    if !found.row.kind.name.equals(&found.item.kind.name) {
        return replace(alloc, s, e, found, props);
    }
    if found.row.props.equals(props) {
        return keep(alloc, e, found);
    }
    match effect {
        Effect::InPlace => update(alloc, e, found, props),
        Effect::Same => replace(alloc, s, e, found, props),
        Effect::Replace => replace(alloc, s, e, found, props),
    }
}
