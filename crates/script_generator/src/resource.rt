//! A resource of a generated body, as compact JSON.
ghost use Rattle.std.specs.Prelude.{◌≡◌, ◌≤◌, IfOk, string_bytes, true};
ghost use Rattle.heat_value.specs.Compact.{compact, fields_text};
ghost use Rattle.heat_value.specs.Data.{fields};
ghost use Rattle.script_generator.specs.Resources.{properties_of, resource_of, size_of, zone_of};
ghost use Rattle.script_generator.specs.Texts.{need_text};

use crate::body::Body;
use crate::names::quoted_name;
use std::alloc::{AllocError, Global};

/// The resource i: what it depends on, its properties and its type.
pub(crate) fn resource_text(alloc: Global, body: Body, i: u32) -> Result<String, AllocError>
    requires { i ≤ 500 }
    ensures { IfOk result (λ s. string_bytes s ≡ compact (resource_of body i)) }
{
    let need = need_text(alloc, i)?;
    let properties = properties_text(alloc, body, i)?;
    format!(in alloc;
        "{{{}\"properties\":{},\"type\":\"Test::Box\"}}",
        need.as_str(),
        properties.as_str()
    )
}

// What the resource i depends on, where it depends on one.
fn need_text(alloc: Global, i: u32) -> Result<String, AllocError>
    ensures { IfOk result (λ s. string_bytes s ≡ need_text i) }
{
    if i < 2 {
        return Ok(String::new(alloc));
    }
    let name = quoted_name(alloc, i / 2)?;
    format!(in alloc; "\"depends_on\":{},", name.as_str())
}

// Its properties.
#[tactic(auto, unfolding(json::specs::Print::escape_byte))]
fn properties_text(alloc: Global, body: Body, i: u32) -> Result<String, AllocError>
    requires { i ≤ 500 }
    ensures { IfOk result (λ s. string_bytes s ≡ compact (fields (properties_of body i))) }
{
    format!(in alloc; "{{\"size\":{}{}", size(body, i), zone_rest(body, i))
}

// Its size, which the second body raises where 3 divides i.
fn size(body: Body, i: u32) -> u32
    requires { i ≤ 500 }
    ensures { result ≡ size_of body i }
{
    match body {
        Body::First => i,
        Body::Second if i % 3 == 0 => i + 1,
        Body::Second => i,
    }
}

// What stands behind its size: a zone, in the second body where 7 divides i.
#[tactic(auto, unfolding(json::specs::Print::escape_byte))]
fn zone_rest(body: Body, i: u32) -> &'static str
    ensures { result.now ≡ fields_text true (zone_of body i) }
{
    match body {
        Body::Second if i % 7 == 0 => ",\"zone\":\"z\"}",
        _ => "}",
    }
}
