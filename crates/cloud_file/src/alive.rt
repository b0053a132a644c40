//! Reading the resources of a cloud file.
ghost use Rattle.std.specs.Prelude.{◌≡◌, ◌≤◌, [], IfOk, None};
ghost use Rattle.serde_json.specs.View.{view, items_view, members_view};
ghost use Rattle.sim_cloud.specs.Holding.{IsHolding, place_of};
ghost use Rattle.cloud_file.specs.Lists.{ReadsItems};
ghost use Rattle.cloud_file.specs.Entries.{nothing, ReadsFields, ReadsResource, ReadsAlive};

use crate::draft::Draft;
use crate::paths::under_key;
use heat_value::{Path, Seq, Step};
use serde_json::{Map, Value as Json};
use sim_cloud::{Held, Holdings};
use std::alloc::{AllocError, Global};

/// The resources that a list holds, no token twice.
pub fn alive(alloc: Global, value: &Json) -> Result<Result<Seq<Held>, Path>, AllocError>
    ensures read { IfOk result (λ r. ReadsAlive (view value.now) r) }
    ensures fit { IfOk result (λ r. IfOk r IsHolding) }
{
    match value {
        Json::Array(items) => alive_in(alloc, items),
        Json::Null | Json::Bool(_) | Json::Number(_) => Ok(Err(Path::root(alloc))),
        Json::String(_) | Json::Object(_) => Ok(Err(Path::root(alloc))),
    }
}

// The resources of a list, or the path of the first fault.
fn alive_in(alloc: Global, items: &Vec<Json>) -> Result<Result<Seq<Held>, Path>, AllocError>
    ensures read { IfOk result (λ r. ReadsItems ReadsResource 0 [] (items_view items.now.items) r) }
    ensures fit { IfOk result (λ r. IfOk r IsHolding) }
{
    let mut held = Holdings::new(alloc);
    for i in 0..items.len() {
        match resource(alloc, &held, &items[i])? {
            Ok(one) => held.add(one)?,
            Err(path) => return Ok(Err(path.under(Step::Index(i))?)),
        }
    }
    Ok(Ok(held.all))
}

// A resource, behind those that are held.
fn resource(alloc: Global, held: &Holdings, value: &Json) -> Result<Result<Held, Path>, AllocError>
    ensures read { IfOk result (λ r. ReadsResource held.now.all (view value.now) r) }
    ensures absent { IfOk result (λ r. IfOk r (λ h. place_of held.now.all h.what.token ≡ None)) }
    ensures few { IfOk result (λ r. IfOk r (λ h. h.left ≤ 64)) }
{
    match value {
        Json::Object(members) => resource_in(alloc, held, members),
        Json::Null | Json::Bool(_) | Json::Number(_) => Ok(Err(Path::root(alloc))),
        Json::String(_) | Json::Array(_) => Ok(Err(Path::root(alloc))),
    }
}

// The resource that an object tells, or the path of its first fault.
fn resource_in(
    alloc: Global,
    held: &Holdings,
    members: &Map<String, Json>,
) -> Result<Result<Held, Path>, AllocError>
    ensures read { IfOk result (λ r.
        ReadsFields held.now.all nothing (members_view members.now.entries) r) }
    ensures absent { IfOk result (λ r. IfOk r (λ h. place_of held.now.all h.what.token ≡ None)) }
    ensures few { IfOk result (λ r. IfOk r (λ h. h.left ≤ 64)) }
{
    let mut draft = Draft::new();
    for (key, value) in members.iter() {
        if let Some(path) = draft.take(alloc, held, key.as_str(), value)? {
            return Ok(Err(under_key(alloc, key.as_str(), path)?));
        }
    }
    Ok(draft.finish(alloc))
}
