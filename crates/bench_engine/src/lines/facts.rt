//! What is known of the resources of a plan.

use anyhow::{Result, bail};
use heat_plan::{Facts, Item, KnownFacts, Plan, Properties};
use heat_value::{Props, Text, TryCopy, Value};
use std::alloc::Global;

/// The facts of each resource: an identity, and the attribute `b`.
pub fn known(alloc: Global, plan: &Plan) -> Result<Vec<KnownFacts>> {
    let mut known = Vec::new(alloc);
    for item in plan.items() {
        known.push(known_of(alloc, item)?)?;
    }
    Ok(known)
}

fn known_of(alloc: Global, item: &Item) -> Result<KnownFacts> {
    let name = item.name.copy()?;
    let id = Text::from_str(alloc, "sim-1")?;
    let attrs = attributes(alloc)?;
    Ok(KnownFacts {
        name,
        facts: Facts { id, attrs },
    })
}

fn attributes(alloc: Global) -> Result<Properties> {
    let mut attrs = Props::new(alloc);
    attrs.put(Text::from_str(alloc, "b")?, Value::Whole(1))?;
    match Properties::from_props(attrs) {
        Some(attrs) => Ok(attrs),
        None => bail!("attributes"),
    }
}
