//! Reading a cloud file.
ghost use Rattle.std.specs.Prelude.{◌≡◌, ◌⊎◌, IfOk, IfErr, Ok, None, Some};
ghost use Rattle.serde_json.specs.View.{view, members_view};
ghost use Rattle.heat_value.specs.Reading.{IsReading, HasNoReading};
ghost use Rattle.sim_cloud.specs.Settings.{IsFit};
ghost use Rattle.cloud_file.specs.Files.{TakesPart, TakesKey, unset, ReadsParts, ReadsBytes, IsFileOf, IsFaultOf};

use crate::CloudFileFault;
use crate::alive::alive;
use crate::keys::{Part, part_of};
use crate::paths::under_key;
use crate::tables::{calls, codes, delays, quotas};
use heat_value::{Path, Seq};
use serde_json::{Map, Value as Json};
use sim_cloud::{Settings, SimCloud};
use std::alloc::{AllocError, Global};

/// The cloud that the bytes of a cloud file say, or what is wrong with them: they are no JSON, or the first
/// place where their shape is wrong. Keys go in byte order, and a missing key comes behind them all.
pub fn read(alloc: Global, bytes: &[u8]) -> Result<SimCloud, CloudFileFault>
    ensures ok { IfOk result (λ c. IsFileOf bytes.now c) }
    ensures fault { IfErr result (λ e. IsFaultOf bytes.now e) }
{
    let settings = settings_of(alloc, bytes)?;
    Ok(SimCloud::new(settings)?)
}

// The settings that the bytes say.
fn settings_of(alloc: Global, bytes: &[u8]) -> Result<Settings, CloudFileFault>
    ensures ok { IfOk result (λ s. ReadsBytes bytes.now (Ok s)) }
    ensures fit { IfOk result IsFit }
    ensures fault { IfErr result (λ e. IsFaultOf bytes.now e) }
{
    match parsed(alloc, bytes)? {
        Json::Object(members) => match settings(alloc, &members)? {
            Ok(settings) => Ok(settings),
            Err(path) => Err(CloudFileFault::Shape(path)),
        },
        _ => Err(CloudFileFault::Shape(Path::root(alloc))),
    }
}

// What `serde_json` reads.
fn parsed(alloc: Global, bytes: &[u8]) -> Result<Json, CloudFileFault>
    ensures ok { IfOk result (λ v. IsReading bytes.now (view v)) }
    ensures err { IfErr result (λ e.
        (e ≡ CloudFileFault.Memory) ⊎ ((e ≡ CloudFileFault.NotJson) × HasNoReading bytes.now)) }
{
    match Json::from_slice(alloc, bytes) {
        Ok(json) => Ok(json),
        Err(error) => if error.is_memory() {
            Err(CloudFileFault::Memory)
        } else {
            Err(CloudFileFault::NotJson)
        },
    }
}

// The settings of the file's object.
fn settings(
    alloc: Global,
    members: &Map<String, Json>,
) -> Result<Result<Settings, Path>, AllocError>
    ensures read { IfOk result (λ r. ReadsParts unset (members_view members.now.entries) r) }
    ensures fit { IfOk result (λ r. IfOk r IsFit) }
{
    let mut all = Settings::empty(alloc);
    for (key, value) in members.iter() {
        if let Some(path) = take(&mut all, alloc, key.as_str(), value)? {
            return Ok(Err(under_key(alloc, key.as_str(), path)?));
        }
    }
    Ok(Ok(all))
}

// Takes a member of the file's object; else the path of its fault.
fn take(
    all: &mut Settings,
    alloc: Global,
    key: &str,
    value: &Json,
) -> Result<Option<Path>, AllocError>
    requires { IsFit all.old }
    ensures taken { IfOk result (λ fault.
        TakesKey key.now (view value.now) all.old all.new fault) }
    ensures fit { IsFit all.new }
{
    match part_of(key) {
        Some(part) => take_part(all, alloc, part, value),
        None => Ok(Some(Path::root(alloc))),
    }
}

// Takes a part.
fn take_part(
    all: &mut Settings,
    alloc: Global,
    part: Part,
    value: &Json,
) -> Result<Option<Path>, AllocError>
    requires { IsFit all.old }
    ensures taken { IfOk result (λ fault.
        TakesPart part (view value.now) all.old all.new fault) }
    ensures fit { IsFit all.new }
{
    match part {
        Part::Alive => Ok(put(&mut all.alive, alive(alloc, value)?)),
        Part::Broken => Ok(put(&mut all.broken, codes(alloc, value)?)),
        Part::Delays => Ok(put(&mut all.delays, delays(alloc, value)?)),
        Part::Faults => Ok(put(&mut all.faults, calls(alloc, value)?)),
        Part::Late => Ok(put(&mut all.late, calls(alloc, value)?)),
        Part::Quotas => Ok(put(&mut all.quotas, quotas(alloc, value)?)),
    }
}

// Puts what was read into its place; else the path of the fault.
fn put<T: Drop>(place: &mut Seq<T>, read: Result<Seq<T>, Path>) -> Option<Path>
    ensures ok { IfOk read (λ x. (place.new ≡ x) × (result ≡ None)) }
    ensures err { IfErr read (λ p. (place.new ≡ place.old) × (result ≡ Some p)) }
{
    match read {
        Ok(it) => {
            *place = it;
            None
        }
        Err(path) => Some(path),
    }
}
