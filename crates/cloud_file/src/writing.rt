//! Writing a cloud file.
ghost use Rattle.std.specs.Prelude.{◌≡◌, ℤ, IfOk, OnOk, string_bytes};
ghost use Rattle.heat_value.specs.Compact.{compact};
ghost use Rattle.heat_value.specs.Data.{put as put_in};
ghost use Rattle.heat_value.specs.Meaning.{data_of};
ghost use Rattle.cloud_file.specs.Written.{file_of, resources_of, resource_of, broken_of, delays_of, quotas_of};

use heat_value::{Items, Props, Text, TryCopy, Value};
use sim_cloud::{Held, KindDelay, KindQuota, NameCode, SimCloud};
use std::alloc::{AllocError, Global};

/// The cloud as compact JSON: its resources, the codes of broken names, the delays and the quotas. Which of
/// its calls fail isn't written.
pub fn text(alloc: Global, cloud: &SimCloud) -> Result<Text, AllocError>
    ensures { IfOk result (λ t. t ≡ compact (file_of cloud.now)) }
{
    let held = cloud.inventory().held.all.as_slice();
    let conduct = cloud.conduct();
    let mut all = Props::new(alloc);
    put(alloc, &mut all, "alive", resources(alloc, held)?)?;
    put(
        alloc,
        &mut all,
        "broken",
        broken(alloc, conduct.broken.as_slice())?,
    )?;
    put(
        alloc,
        &mut all,
        "delays",
        delays(alloc, conduct.delays.as_slice())?,
    )?;
    put(
        alloc,
        &mut all,
        "quotas",
        quotas(alloc, cloud.inventory().quotas.as_slice())?,
    )?;
    Value::Fields(all).text(alloc)
}

// Puts a value under a key.
fn put(alloc: Global, all: &mut Props, key: &str, value: Value) -> Result<(), AllocError>
    ensures { OnOk result (all.new ≡ put_in key.now (data_of value) all.old) }
{
    all.put(Text::from_str(alloc, key)?, value)
}

// The list of the resources.
fn resources(alloc: Global, held: &[Held]) -> Result<Value, AllocError>
    ensures { IfOk result (λ v. data_of v ≡ resources_of held.now) }
{
    let mut all = Items::new(alloc);
    for one in held {
        all.push(resource(alloc, one)?)?;
    }
    Ok(Value::Items(all))
}

// A resource.
fn resource(alloc: Global, held: &Held) -> Result<Value, AllocError>
    ensures { IfOk result (λ v. data_of v ≡ resource_of held.now) }
{
    let what = &held.what;
    let mut all = Props::new(alloc);
    put(
        alloc,
        &mut all,
        "attrs",
        Value::Fields(what.facts.attrs.as_props().copy()?),
    )?;
    put(alloc, &mut all, "id", Value::Words(what.facts.id.copy()?))?;
    put(alloc, &mut all, "kind", Value::Words(what.kind.copy()?))?;
    put(alloc, &mut all, "leaving", Value::Flag(held.leaving))?;
    put(alloc, &mut all, "left", Value::Whole(i64::from(held.left)))?;
    put(
        alloc,
        &mut all,
        "props",
        Value::Fields(what.props.as_props().copy()?),
    )?;
    put(alloc, &mut all, "ready", Value::Flag(what.ready))?;
    put(
        alloc,
        &mut all,
        "token",
        Value::Words(what.token.text(alloc)?),
    )?;
    Ok(Value::Fields(all))
}

// The codes of broken names.
fn broken(alloc: Global, broken: &[NameCode]) -> Result<Value, AllocError>
    ensures { IfOk result (λ v. data_of v ≡ broken_of broken.now) }
{
    let mut all = Props::new(alloc);
    for at in (0..broken.len()).rev() {
        let one = &broken[at];
        all.put(one.name.copy()?, Value::Words(one.code.copy()?))?;
    }
    Ok(Value::Fields(all))
}

// The delays of kinds.
fn delays(alloc: Global, delays: &[KindDelay]) -> Result<Value, AllocError>
    ensures { IfOk result (λ v. data_of v ≡ delays_of delays.now) }
{
    let mut all = Props::new(alloc);
    for at in (0..delays.len()).rev() {
        let one = &delays[at];
        all.put(one.kind.copy()?, Value::Whole(i64::from(one.polls)))?;
    }
    Ok(Value::Fields(all))
}

// The quotas of kinds.
fn quotas(alloc: Global, quotas: &[KindQuota]) -> Result<Value, AllocError>
    ensures { IfOk result (λ v. data_of v ≡ quotas_of quotas.now) }
{
    let mut all = Props::new(alloc);
    for at in (0..quotas.len()).rev() {
        let one = &quotas[at];
        all.put(one.kind.copy()?, Value::Whole(i64::from(one.most)))?;
    }
    Ok(Value::Fields(all))
}
