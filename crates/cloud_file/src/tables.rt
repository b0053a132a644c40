//! Reading quotas, delays, broken names and numbers of calls.
ghost use Rattle.std.specs.Prelude.{◌≡◌, ◌↔◌, ◌≤◌, ◌⊎◌, IfOk, IsTrue, All, []};
ghost use Rattle.serde_json.specs.View.{view, items_view, members_view};
ghost use Rattle.heat_plan.specs.Names.{IsNameByte, IsResName};
ghost use Rattle.sim_cloud.specs.declared.settings.KindDelay.{KindDelay as delay_type};
ghost use Rattle.cloud_file.specs.Lists.{ReadsItems, ReadsMembers};
ghost use Rattle.cloud_file.specs.Tables.{IsKindName, IsCode, IsCodeByte};
ghost use Rattle.cloud_file.specs.Tables.{ReadsQuota, ReadsDelay, ReadsBroken, ReadsCall};
ghost use Rattle.cloud_file.specs.Tables.{ReadsQuotas, ReadsDelays, ReadsCodes, ReadsCalls};

use crate::paths::under_key;
use crate::sorts::{number, text};
use heat_plan::ResName;
use heat_value::{Path, Seq, Step, Text};
use serde_json::{Map, Value as Json};
use sim_cloud::{KindDelay, KindQuota, NameCode};
use std::alloc::{AllocError, Global};

// The greatest number of a call.
const LAST_CALL: u64 = 9_223_372_036_854_775_807;

// The greatest quota.
const MOST_ALIVE: u64 = 1_000_000;

// The greatest delay.
const MOST_POLLS: u64 = 64;

/// The quotas that an object holds.
pub fn quotas(alloc: Global, value: &Json) -> Result<Result<Seq<KindQuota>, Path>, AllocError>
    ensures { IfOk result (λ r. ReadsQuotas (view value.now) r) }
{
    match value {
        Json::Object(members) => quotas_in(alloc, members),
        Json::Null | Json::Bool(_) | Json::Number(_) => Ok(Err(Path::root(alloc))),
        Json::String(_) | Json::Array(_) => Ok(Err(Path::root(alloc))),
    }
}

// The quotas of kinds, or the path of the first fault.
fn quotas_in(
    alloc: Global,
    members: &Map<String, Json>,
) -> Result<Result<Seq<KindQuota>, Path>, AllocError>
    ensures { IfOk result (λ r. ReadsMembers ReadsQuota [] (members_view members.now.entries) r) }
{
    let mut all = Seq::new(alloc);
    for (key, value) in members.iter() {
        match quota(alloc, key.as_str(), value)? {
            Ok(quota) => all.push(quota)?,
            Err(path) => return Ok(Err(under_key(alloc, key.as_str(), path)?)),
        }
    }
    Ok(Ok(all))
}

// How many of this kind may be alive, or the fault's path.
fn quota(alloc: Global, kind: &str, value: &Json) -> Result<Result<KindQuota, Path>, AllocError>
    ensures { IfOk result (λ r. ReadsQuota kind.now (view value.now) r) }
{
    if !is_kind_name(kind) {
        return Ok(Err(Path::root(alloc)));
    }
    match number(alloc, value, 0, MOST_ALIVE) {
        Ok(most) => Ok(Ok(KindQuota {
            kind: Text::from_str(alloc, kind)?,
            most: most as u32,
        })),
        Err(path) => Ok(Err(path)),
    }
}

/// The delays that an object holds.
pub fn delays(alloc: Global, value: &Json) -> Result<Result<Seq<KindDelay>, Path>, AllocError>
    ensures read { IfOk result (λ r. ReadsDelays (view value.now) r) }
    ensures few { IfOk result (λ r. IfOk r (λ all. All (λ (d : delay_type). d.polls ≤ 64) all)) }
{
    match value {
        Json::Object(members) => delays_in(alloc, members),
        Json::Null | Json::Bool(_) | Json::Number(_) => Ok(Err(Path::root(alloc))),
        Json::String(_) | Json::Array(_) => Ok(Err(Path::root(alloc))),
    }
}

// How long kinds take, or the path of the first fault.
#[tactic(auto, using(crate::proofs::Few::few_push))]
fn delays_in(
    alloc: Global,
    members: &Map<String, Json>,
) -> Result<Result<Seq<KindDelay>, Path>, AllocError>
    ensures read { IfOk result (λ r.
        ReadsMembers ReadsDelay [] (members_view members.now.entries) r) }
    ensures few { IfOk result (λ r. IfOk r (λ all. All (λ (d : delay_type). d.polls ≤ 64) all)) }
{
    let mut all = Seq::new(alloc);
    for (key, value) in members.iter() {
        match delay(alloc, key.as_str(), value)? {
            Ok(delay) => all.push(delay)?,
            Err(path) => return Ok(Err(under_key(alloc, key.as_str(), path)?)),
        }
    }
    Ok(Ok(all))
}

// How many polls this kind takes, or the fault's path.
fn delay(alloc: Global, kind: &str, value: &Json) -> Result<Result<KindDelay, Path>, AllocError>
    ensures read { IfOk result (λ r. ReadsDelay kind.now (view value.now) r) }
    ensures few { IfOk result (λ r. IfOk r (λ d. d.polls ≤ 64)) }
{
    if !is_kind_name(kind) {
        return Ok(Err(Path::root(alloc)));
    }
    match number(alloc, value, 0, MOST_POLLS) {
        Ok(polls) => Ok(Ok(KindDelay {
            kind: Text::from_str(alloc, kind)?,
            polls: polls as u8,
        })),
        Err(path) => Ok(Err(path)),
    }
}

/// The codes that an object holds.
pub fn codes(alloc: Global, value: &Json) -> Result<Result<Seq<NameCode>, Path>, AllocError>
    ensures { IfOk result (λ r. ReadsCodes (view value.now) r) }
{
    match value {
        Json::Object(members) => codes_in(alloc, members),
        Json::Null | Json::Bool(_) | Json::Number(_) => Ok(Err(Path::root(alloc))),
        Json::String(_) | Json::Array(_) => Ok(Err(Path::root(alloc))),
    }
}

// The names that break with their codes, or the path of the first fault.
fn codes_in(
    alloc: Global,
    members: &Map<String, Json>,
) -> Result<Result<Seq<NameCode>, Path>, AllocError>
    ensures { IfOk result (λ r. ReadsMembers ReadsBroken [] (members_view members.now.entries) r) }
{
    let mut all = Seq::new(alloc);
    for (key, value) in members.iter() {
        match code(alloc, key.as_str(), value)? {
            Ok(code) => all.push(code)?,
            Err(path) => return Ok(Err(under_key(alloc, key.as_str(), path)?)),
        }
    }
    Ok(Ok(all))
}

// The code with which this name breaks, or the fault's path.
fn code(alloc: Global, name: &str, value: &Json) -> Result<Result<NameCode, Path>, AllocError>
    ensures { IfOk result (λ r. ReadsBroken name.now (view value.now) r) }
{
    if is_resource_name(alloc, name)? {
        code_of(alloc, name, value)
    } else {
        Ok(Err(Path::root(alloc)))
    }
}

// Whether a resource may have this name.
fn is_resource_name(alloc: Global, text: &str) -> Result<bool, AllocError>
    ensures { IfOk result (λ b. IsTrue b ↔ IsResName text.now) }
{
    Ok(ResName::read(alloc, text.as_bytes())?.is_some())
}

// The code of this resource's name.
fn code_of(alloc: Global, name: &str, value: &Json) -> Result<Result<NameCode, Path>, AllocError>
    requires { IsResName name.now }
    ensures { IfOk result (λ r. ReadsBroken name.now (view value.now) r) }
{
    match text(alloc, value)? {
        Ok(code) => if is_code(code.as_str()) {
            Ok(Ok(NameCode {
                name: Text::from_str(alloc, name)?,
                code,
            }))
        } else {
            Ok(Err(Path::root(alloc)))
        },
        Err(path) => Ok(Err(path)),
    }
}

/// The numbers of calls that a list holds.
pub fn calls(alloc: Global, value: &Json) -> Result<Result<Seq<u64>, Path>, AllocError>
    ensures { IfOk result (λ r. ReadsCalls (view value.now) r) }
{
    match value {
        Json::Array(items) => calls_in(alloc, items),
        Json::Null | Json::Bool(_) | Json::Number(_) => Ok(Err(Path::root(alloc))),
        Json::String(_) | Json::Object(_) => Ok(Err(Path::root(alloc))),
    }
}

// The numbers of calls that are to fail, or the path of the first fault.
fn calls_in(alloc: Global, items: &Vec<Json>) -> Result<Result<Seq<u64>, Path>, AllocError>
    ensures { IfOk result (λ r. ReadsItems ReadsCall 0 [] (items_view items.now.items) r) }
{
    let mut all = Seq::new(alloc);
    for i in 0..items.len() {
        match number(alloc, &items[i], 1, LAST_CALL) {
            Ok(call) => all.push(call)?,
            Err(path) => return Ok(Err(path.under(Step::Index(i))?)),
        }
    }
    Ok(Ok(all))
}

// Whether a text is a kind's name.
fn is_kind_name(text: &str) -> bool
    ensures { IsTrue result ↔ IsKindName text.now }
{
    let name = text.as_bytes();
    !name.is_empty() && name.len() <= 255 && name.iter().all(|byte| is_kind_byte(*byte))
}

// A letter or digit, all ASCII, or one of `_`, `.`, `-` and `:`.
fn is_kind_byte(byte: u8) -> bool
    ensures { IsTrue result ↔ (IsNameByte byte ⊎ (byte ≡ 58)) }
{
    byte.is_ascii_alphanumeric() || byte == b'_' || byte == b'.' || byte == b'-' || byte == b':'
}

// Whether a text is a code.
fn is_code(text: &str) -> bool
    ensures { IsTrue result ↔ IsCode text.now }
{
    let code = text.as_bytes();
    !code.is_empty() && code.len() <= 32 && code.iter().all(|byte| is_code_byte(*byte))
}

// A small letter, a digit, or `_`.
fn is_code_byte(byte: u8) -> bool
    ensures { IsTrue result ↔ IsCodeByte byte }
{
    (b'a' <= byte && byte <= b'z') || (b'0' <= byte && byte <= b'9') || byte == b'_'
}
