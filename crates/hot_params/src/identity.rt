//! The pseudo parameters, which say whose parameters they are.
ghost use Rattle.std.specs.Prelude.{◌≡◌, IfOk, OnOk};
ghost use Rattle.heat_value.specs.Data.{words, put};
ghost use Rattle.hot_params.specs.Identity.{stack_text as the_stack_text, stack_id as the_stack_id};
ghost use Rattle.hot_params.specs.Identity.{identity, with_pseudo as the_with_pseudo};

use crate::Ids;
use heat_value::{Props, Text, Value};
use std::alloc::{AllocError, Global};
use uuid::Uuid;

/// The values with the pseudo parameters among them.
pub fn with_pseudo(alloc: Global, ids: &Ids, values: Props) -> Result<Props, AllocError>
    ensures { IfOk result (λ p. p ≡ the_with_pseudo ids.now values) }
{
    let mut all = values;
    put_text(
        alloc,
        &mut all,
        "OS::project_id",
        Text::from_str(alloc, "demo")?,
    )?;
    put_text(alloc, &mut all, "OS::stack_id", stack_id(alloc, ids)?)?;
    let stack = Text::from_str(alloc, ids.stack.as_str())?;
    put_text(alloc, &mut all, "OS::stack_name", stack)?;
    Ok(all)
}

// Puts a text under a name.
fn put_text(alloc: Global, all: &mut Props, name: &str, text: Text) -> Result<(), AllocError>
    ensures { OnOk result (all.new ≡ put name.now (words text) all.old) }
{
    all.put(Text::from_str(alloc, name)?, Value::Words(text))
}

// The stack's identifier.
fn stack_id(alloc: Global, ids: &Ids) -> Result<Text, AllocError>
    ensures { IfOk result (λ t. t ≡ the_stack_id ids.now) }
{
    identified(alloc, stack_text(alloc, ids)?.as_str())
}

// What a stack's identifier is made of.
fn stack_text(alloc: Global, ids: &Ids) -> Result<Text, AllocError>
    ensures { IfOk result (λ t. t ≡ the_stack_text ids.now) }
{
    let text = format!(in alloc; "heat:{}:{}", ids.stack.as_str(), ids.no.get())?;
    Ok(Text::from_string(text))
}

// The version 5 UUID of a name, in the name space of URLs.
fn identified(alloc: Global, name: &str) -> Result<Text, AllocError>
    ensures { IfOk result (λ t. t ≡ identity name.now) }
{
    let id = Uuid::new_v5(&Uuid::NAMESPACE_URL, name.as_bytes());
    let mut buffer = Uuid::encode_buffer();
    let text = id.hyphenated().encode_lower(&mut buffer);
    Text::from_str(alloc, text)
}
