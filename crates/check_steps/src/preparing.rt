//! What is prepared for a step: for a begin at an update node the properties of its item.
ghost use Rattle.std.specs.Prelude.{IfOk};
ghost use Rattle.check_steps.specs.AtUpdate.{AtUpdate};
ghost use Rattle.check_steps.specs.Prepares.{HasPrepared, IsGivenFor, IsPrepared};

use crate::begin_parts::parts_of;
use crate::looks::Work;
use crate::prepared::Prepared;
use core_state::{Job, SharedInput, State};
use heat_plan::{EngineNo, Item, Plan, Properties};
use hot_resolve::{Resolution, resolve};
use std::alloc::{AllocError, Global};
use step_reads::known;
use type_catalog::Registry;

/// What the step that was looked at is given; the registry's judge of the item's kind is asked of the
/// change. It reads no state.
pub fn prepare(alloc: Global, registry: &Registry, work: &Work) -> Prepared
    ensures { IsPrepared work.now result }
{
    match work {
        Work::Plain => Prepared::Plain,
        Work::Begin(begin) => prepared_for(
            alloc,
            registry,
            begin.plan.plan(),
            &begin.item,
            begin.inputs.as_slice(),
            &begin.props,
        ),
    }
}

/// What `look` and `prepare` give one behind the other for the begin of an engine's job at an update
/// node, without a copy of what it reads.
pub fn prepare_now(
    alloc: Global,
    registry: &Registry,
    s: &State,
    e: EngineNo,
    job: &Job,
) -> Prepared
    requires { AtUpdate s.now.state e job.now }
    ensures { HasPrepared s.now.state e result }
{
    let parts = parts_of(s, job);
    prepared_for(
        alloc,
        registry,
        parts.plan.plan(),
        parts.item,
        parts.point.inputs.as_slice(),
        &parts.row.props,
    )
}

// What the begin of an item with these inputs is given, at a row with these properties.
fn prepared_for(
    alloc: Global,
    registry: &Registry,
    plan: &Plan,
    item: &Item,
    inputs: &[SharedInput],
    props: &Properties,
) -> Prepared
    ensures { IsGivenFor plan.now item.now inputs.now props.now result }
{
    match given_to(alloc, registry, plan, item, inputs, props) {
        Ok(given) => given,
        Err(_) => Prepared::Memory,
    }
}

// The properties that the item has, with what the change to them asks for; or its fault.
fn given_to(
    alloc: Global,
    registry: &Registry,
    plan: &Plan,
    item: &Item,
    inputs: &[SharedInput],
    props: &Properties,
) -> Result<Prepared, AllocError>
    ensures { IfOk result (IsGivenFor plan.now item.now inputs.now props.now) }
{
    let known = known(alloc, inputs, item.needs.as_slice())?;
    match resolve(alloc, plan, item, known.as_slice())? {
        Resolution::Props(asked) => {
            let effect = registry.change(&item.kind, props, &asked);
            Ok(Prepared::Props(asked, effect))
        }
        Resolution::Fault(code, path) => Ok(Prepared::Fault(code, path)),
    }
}
