//! How far a template is taken.
ghost use Rattle.std.specs.Prelude.{◌≡◌, ◌≤◌};
ghost use Rattle.heat_value.specs.Data.{members_depth};
ghost use Rattle.type_catalog.specs.Names.{is_listed};
ghost use Rattle.type_catalog.specs.Shipped.{flavor_test as the_flavor_test};

use crate::reading::{admitted, bound, read, taken};
use crate::templates::conditions::{push_chain, push_conditions, push_made_chain};
use crate::templates::parameters::{given, push_parameters};
use crate::templates::resources::{KINDS, push_resources};
use anyhow::{Result, bail};
use heat_value::{Seq, Text, Value};
use hot_tree::Template;
use std::alloc::Global;
use type_catalog::{Ask, Custom, Registry, flavor_test, is_flavor};

/// Each word but the last two does what the one before it does, and one thing more.
#[derive(Clone, Copy, Debug, PartialEq, Eq)]
pub enum Work {
    /// Makes the text.
    Text,
    /// Reads the text as a value.
    Value,
    /// Takes the value as a template.
    Template,
    /// Binds the template's parameters.
    Bind,
    /// Makes the template's plan.
    Admit,
    /// Makes the plan of a template of a chain of so many conditions, and no resource.
    Chain,
    /// The same, where a `repeat` makes each name that a condition reads.
    Made,
}

/// How many bytes, sections, resources, parameters, items or conditions came out.
pub fn count(alloc: Global, work: Work, size: u32) -> Result<usize> {
    let text = match work {
        Work::Chain | Work::Made => chain_of(alloc, work, size)?,
        _ => text_of(alloc, size)?,
    };
    if work == Work::Text {
        return Ok(text.len());
    }
    let value = read(alloc, text.as_str())?;
    let Value::Fields(sections) = &value else {
        bail!("an object");
    };
    if work == Work::Value {
        return Ok(sections.as_slice().len());
    }
    let template = taken(alloc, &value)?;
    if work == Work::Template {
        return Ok(template.parts().resources.len());
    }
    bound_on(alloc, work, &template)
}

// The template as text.
fn text_of(alloc: Global, size: u32) -> Result<String> {
    let mut text = String::new(alloc);
    text.push_str("{\"conditions\":{")?;
    push_conditions(alloc, &mut text)?;
    text.push_str("},\"heat_template_version\":\"2018-08-31\",\"parameters\":{")?;
    push_parameters(alloc, &mut text)?;
    text.push_str("},\"resources\":{")?;
    push_resources(alloc, &mut text, size)?;
    text.push_str("}}")?;
    Ok(text)
}

// A template of a chain of conditions and the hundred parameters as text.
fn chain_of(alloc: Global, work: Work, size: u32) -> Result<String> {
    let mut text = String::new(alloc);
    text.push_str("{\"conditions\":{")?;
    match work {
        Work::Made => push_made_chain(alloc, &mut text, size)?,
        _ => push_chain(alloc, &mut text, size)?,
    }
    text.push_str("},\"heat_template_version\":\"2018-08-31\",\"parameters\":{")?;
    push_parameters(alloc, &mut text)?;
    text.push_str("}}")?;
    Ok(text)
}

// How many parameters, items or conditions came out, where the test nova.flavor is registered, and no kind.
fn bound_on(alloc: Global, work: Work, template: &Template) -> Result<usize>
    requires { members_depth template.now ≤ 64 }
{
    let ask: Ask = Box::new(
        alloc,
        |text: &Text| -> bool
            ensures { result ≡ is_listed the_flavor_test.allowed text.now }
        { is_flavor(text) },
    )?;
    let mut customs = Seq::new(alloc);
    customs.push(Custom::new(flavor_test(alloc)?, ask))?;
    let Some(registry) = Registry::new(Seq::new(alloc), customs) else {
        bail!("no registry");
    };
    counted(alloc, work, template, &registry)
}

// The same, over a registry.
fn counted(alloc: Global, work: Work, template: &Template, registry: &Registry) -> Result<usize>
    requires { members_depth template.now ≤ 64 }
{
    let given = read(alloc, given(alloc)?.as_str())?;
    let Value::Fields(given) = &given else {
        bail!("an object");
    };
    let bound = bound(alloc, template, given, registry)?;
    if work == Work::Bind {
        return Ok(bound.params.as_props().as_slice().len());
    }
    let plan = admitted(alloc, template, &bound, KINDS, registry)?;
    if work == Work::Chain || work == Work::Made {
        return Ok(plan.conds().as_slice().len());
    }
    Ok(plan.items().len())
}
