//! A text as a value, as a template, and as a plan.
ghost use Rattle.std.specs.Prelude.{◌≤◌, IfOk};
ghost use Rattle.heat_value.specs.Data.{depth, members_depth};
ghost use Rattle.heat_value.specs.Meaning.{data_of};

use anyhow::{Result, bail};
use heat_plan::{Plan, StackName, StackNo};
use heat_value::{Props, Value};
use hot_admit::admit;
use hot_catalog::Catalog;
use hot_params::{Bound, Ids, bind};
use hot_tree::Template;
use std::alloc::Global;
use type_catalog::Registry;

// One kind, with a property of any value and two attributes.
const NET: &str = "{\"Net\":{\"attributes\":[\"a\",\"b\"],\"properties\":{\"p\":{}}}}";

/// The value that a text is read as.
pub fn read(alloc: Global, text: &str) -> Result<Value>
    ensures { IfOk result (λ v. depth (data_of v) ≤ 64) }
{
    match Value::read(alloc, text.as_bytes()) {
        Ok(value) => Ok(value),
        Err(_) => bail!("no value"),
    }
}

/// The template that a value is.
pub fn taken(alloc: Global, value: &Value) -> Result<Template>
    requires { depth (data_of value.now) ≤ 64 }
    ensures { IfOk result (λ t. members_depth t ≤ 64) }
{
    match Template::from_value(alloc, value) {
        Ok(template) => Ok(template),
        Err(fault) => bail!("{}", fault.code().unwrap_or("no memory")),
    }
}

/// What a template's parameters are bound to, by what is given for them.
pub fn bound(
    alloc: Global,
    template: &Template,
    given: &Props,
    registry: &Registry,
) -> Result<Bound>
    requires given { members_depth given.now ≤ 64 }
    requires template { members_depth template.now ≤ 64 }
{
    match bind(alloc, template, given, &ids(alloc)?, registry) {
        Ok(bound) => Ok(bound),
        Err(fault) => bail!("{}", fault.code().unwrap_or("no memory")),
    }
}

// The stack of which the pseudo parameters tell.
fn ids(alloc: Global) -> Result<Ids> {
    let Some(stack) = StackName::read(alloc, b"s")? else {
        bail!("a name");
    };
    let Some(no) = StackNo::new(1) else {
        bail!("a number");
    };
    Ok(Ids { stack, no })
}

/// The plan of a template by the kinds of a catalogue, where no file stands beside it.
pub fn admitted(
    alloc: Global,
    template: &Template,
    bound: &Bound,
    kinds: &str,
    registry: &Registry,
) -> Result<Plan>
    requires { members_depth template.now ≤ 64 }
{
    let catalog = catalog_of(alloc, kinds, registry)?;
    match admit(alloc, template, bound, &Props::new(alloc), &catalog) {
        Ok(plan) => Ok(plan),
        Err(fault) => bail!("{}", fault.code().unwrap_or("no memory")),
    }
}

// The catalogue of these kinds.
fn catalog_of(alloc: Global, kinds: &str, registry: &Registry) -> Result<Catalog> {
    let mut catalog = Catalog::new(alloc, registry)?;
    match catalog.read(alloc, &read(alloc, kinds)?) {
        Ok(()) => Ok(catalog),
        Err(_) => bail!("no catalogue"),
    }
}

/// The plan of a template's text, where nothing is registered or given, and `Net` is the one kind.
pub fn plan_of(alloc: Global, text: &str) -> Result<Plan> {
    let registry = Registry::empty(alloc);
    let template = taken(alloc, &read(alloc, text)?)?;
    let bound = bound(alloc, &template, &Props::new(alloc), &registry)?;
    admitted(alloc, &template, &bound, NET, &registry)
}
