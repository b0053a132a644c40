//! Reading a value from bytes: `serde_json` reads, and what it read is taken over where it nests at
//! most 64 deep and each number is a whole number of 64 bits with sign.
ghost use Rattle.std.specs.Prelude.{◌≡◌, ◌↔◌, ◌≤◌, IsTrue, IfOk, IfErr, Err, List, Option};
ghost use Rattle.serde_json.specs.View.{view};
ghost use Rattle.heat_value.specs.Data.{depth};
ghost use Rattle.heat_value.specs.Meaning.{data_of};
ghost use Rattle.heat_value.specs.Reading.{IsReading, HasNoReading, IsReadAs, IsTooDeep, HasBadNumber, IsOfText};
ghost use Rattle.heat_value.specs.declared.path.Step.{Step};

use super::conversion::converted;
use super::nesting::nests_within;
use crate::{Value, ValueFault};
use serde_json::Value as Json;
use std::alloc::Global;

/// How deep the lists and maps of a value that is read nest at most.
pub const MAX_DEPTH: u32 = 64;

impl Value {
    /// The value that bytes are read as, or the first of these faults: they are no JSON, they nest too
    /// deep, a number in them isn't whole. Of a key that stands twice the last value stays.
    pub fn read(alloc: Global, bytes: &[u8]) -> Result<Value, ValueFault>
        ensures ok { IfOk result (λ v. IsReadAs bytes.now (data_of v)) }
        ensures not_json { result ≡ Err ValueFault.NotJson → HasNoReading bytes.now }
        ensures too_deep { result ≡ Err ValueFault.TooDeep → IsTooDeep bytes.now }
        ensures bad_number { (p : List Step) →
            result ≡ Err (ValueFault.BadNumber p) → HasBadNumber bytes.now p }
    {
        let json = parsed(alloc, bytes)?;
        if !nests_within(&json, MAX_DEPTH) {
            return Err(ValueFault::TooDeep);
        }
        converted(alloc, &json)
    }
}

// What `serde_json` reads.
fn parsed(alloc: Global, bytes: &[u8]) -> Result<Json, ValueFault>
    ensures ok { IfOk result (λ v. IsReading bytes.now (view v)) }
    ensures err { IfErr result (λ e. IsOfText e bytes.now) }
{
    match Json::from_slice(alloc, bytes) {
        Ok(json) => Ok(json),
        Err(error) => if error.is_memory() {
            Err(ValueFault::Memory)
        } else {
            Err(ValueFault::NotJson)
        },
    }
}
