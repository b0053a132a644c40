//! What the properties of a plan's last resource come to.

use anyhow::{Result, bail};
use heat_plan::{KnownFacts, Plan};
use heat_value::{Props, Value};
use hot_resolve::{Resolution, resolve};
use std::alloc::Global;

/// How many parts the first property of the last resource has, with the facts that are known.
pub fn parts_of_last(alloc: Global, plan: &Plan, known: &[KnownFacts]) -> Result<usize> {
    let Some(item) = plan.items().last() else {
        bail!("no resource");
    };
    match resolve(alloc, plan, item, known)? {
        Resolution::Props(props) => Ok(parts_of_first(props.as_props())),
        Resolution::Fault(code, _) => bail!("{}", code.as_str()),
    }
}

fn parts_of_first(props: &Props) -> usize {
    match props.as_slice().first() {
        Some(member) => parts_of(&member.value),
        None => 0,
    }
}

// How many items, members or bytes a value has; a scalar is one part.
fn parts_of(value: &Value) -> usize {
    match value {
        Value::Items(items) => items.as_slice().len(),
        Value::Fields(fields) => fields.as_slice().len(),
        Value::Words(text) => text.as_str().len(),
        Value::Null | Value::Flag(_) | Value::Whole(_) => 1,
    }
}
