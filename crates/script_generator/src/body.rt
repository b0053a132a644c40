//! The two bodies of a generated script, as compact JSON.
ghost use Rattle.std.specs.Prelude.{◌≡◌, ◌≤◌, IfOk, nat_lt, string_bytes};
ghost use Rattle.serde_json.specs.Written.{comma_if};
ghost use Rattle.heat_value.specs.Compact.{compact, fields_text};
ghost use Rattle.heat_value.specs.Data.{fields};
ghost use Rattle.script_generator.specs.Resources.{resources_from};
ghost use Rattle.script_generator.specs.Script.{body_of};
ghost use Rattle.script_generator.specs.Texts.{member_text};

use crate::names::quoted_name;
use crate::resource::resource_text;
use std::alloc::{AllocError, Global};

/// The body that the stack is created with, or the one that it is taken to.
#[derive(Clone, Copy, Debug)]
pub(crate) enum Body {
    First,
    Second,
}

/// A body with the resources 1 to n.
pub(crate) fn body_text(alloc: Global, body: Body, n: u32) -> Result<String, AllocError>
    requires { n ≤ 500 }
    ensures { IfOk result (λ s. string_bytes s ≡ compact (body_of body n)) }
{
    let resources = resources_text(alloc, body, n)?;
    format!(in alloc;
        "{{\"template\":{{\"heat_template_version\":\"2018-08-31\",\"resources\":{}}}}}",
        resources.as_str()
    )
}

// The object of the resources 1 to n.
fn resources_text(alloc: Global, body: Body, n: u32) -> Result<String, AllocError>
    requires { n ≤ 500 }
    ensures { IfOk result (λ s. string_bytes s ≡ compact (fields (resources_from body 1 n))) }
{
    let mut text = String::from_str(alloc, "{")?;
    for i in 1..n + 1 {
        text.push_str(&member_text(alloc, body, i)?)?;
    }
    text.push_str("}")?;
    Ok(text)
}

// The resource i behind its name, with a comma in front where another one stands there.
fn member_text(alloc: Global, body: Body, i: u32) -> Result<String, AllocError>
    requires { i ≤ 500 }
    ensures { IfOk result (λ s. string_bytes s ≡ member_text body i) }
{
    let name = quoted_name(alloc, i)?;
    let resource = resource_text(alloc, body, i)?;
    format!(in alloc; "{}{}:{}", comma(i), name.as_str(), resource.as_str())
}

// What stands in front of the resource i.
fn comma(i: u32) -> &'static str
    ensures { result.now ≡ comma_if (nat_lt 1 i) }
{
    if i > 1 { "," } else { "" }
}
