//! What stands round a template, read from texts in single quotes: its parameters' values, kinds and files. A
//! text that isn't as it is to be counts as want of memory: its case isn't told, and its test fails.
ghost use Rattle.std.specs.Prelude.{◌≤◌, IfOk};
ghost use Rattle.heat_value.specs.Data.{depth, members_depth};
ghost use Rattle.heat_value.specs.Meaning.{data_of};

use heat_plan::{StackName, StackNo};
use heat_value::{Path, Props, Seq, TryCopy, Value};
use hot_catalog::Catalog;
use hot_params::{Bound, Ids, bind};
use hot_tree::Template;
use std::alloc::{AllocError, Global};
use type_catalog::Registry;

/// A text in single quotes, read.
pub(crate) fn value_of(alloc: Global, text: &str) -> Result<Value, AllocError>
    ensures { IfOk result (λ v. depth (data_of v) ≤ 64) }
{
    let text = text.replace(alloc, "'", "\"")?;
    match Value::read(alloc, text.as_bytes()) {
        Ok(value) => Ok(value),
        Err(_) => Err(AllocError),
    }
}

/// The same, a map.
pub(crate) fn props_of(alloc: Global, text: &str) -> Result<Props, AllocError>
    ensures { IfOk result (λ p. members_depth p ≤ 64) }
{
    match &value_of(alloc, text)? {
        Value::Fields(fields) => fields.copy(),
        _ => Err(AllocError),
    }
}

/// The template of these sections.
pub(crate) fn template_of(alloc: Global, sections: &str) -> Result<Template, AllocError>
    ensures { IfOk result (λ t. members_depth t ≤ 64) }
{
    let text = format!(in alloc; "{{'heat_template_version':'rocky',{}}}", sections)?;
    let value = value_of(alloc, text.as_str())?;
    match Template::from_value(alloc, &value) {
        Ok(template) => Ok(template),
        Err(_) => Err(AllocError),
    }
}

/// The stack s with the number 1.
pub(crate) fn ids_of(alloc: Global) -> Result<Ids, AllocError> {
    let no = StackNo::new(1).ok_or(AllocError)?;
    let stack = StackName::read(alloc, b"s")?.ok_or(AllocError)?;
    Ok(Ids { stack, no })
}

/// A registry of nothing.
pub(crate) fn registry_of(alloc: Global) -> Result<Registry, AllocError> {
    Registry::new(Seq::new(alloc), Seq::new(alloc)).ok_or(AllocError)
}

/// The kinds that a text lists, and no other.
pub(crate) fn catalog_of(
    alloc: Global,
    registry: &Registry,
    kinds: &str,
) -> Result<Catalog, AllocError> {
    let mut catalog = Catalog::new(alloc, registry)?;
    take_kinds(alloc, &mut catalog, kinds)?;
    Ok(catalog)
}

fn take_kinds(alloc: Global, catalog: &mut Catalog, kinds: &str) -> Result<(), AllocError> {
    let kinds = value_of(alloc, kinds)?;
    match catalog.read(alloc, &kinds) {
        Ok(()) => Ok(()),
        Err(_) => Err(AllocError),
    }
}

/// What the parameters of a template are bound to by what is given.
pub(crate) fn bound_of(alloc: Global, template: &Template, given: &str) -> Result<Bound, AllocError>
    requires { members_depth template.now ≤ 64 }
{
    let given = props_of(alloc, given)?;
    bound_to(alloc, template, &given)
}

fn bound_to(alloc: Global, template: &Template, given: &Props) -> Result<Bound, AllocError>
    requires template { members_depth template.now ≤ 64 }
    requires given { members_depth given.now ≤ 64 }
{
    let ids = ids_of(alloc)?;
    let registry = registry_of(alloc)?;
    match bind(alloc, template, given, &ids, &registry) {
        Ok(bound) => Ok(bound),
        Err(_) => Err(AllocError),
    }
}

/// A fault's code and path, in single quotes; want of memory has none.
pub(crate) fn fault_words(
    alloc: Global,
    code: Option<&'static str>,
    path: Option<&Path>,
) -> Result<String, AllocError> {
    let (Some(code), Some(path)) = (code, path) else {
        return Err(AllocError);
    };
    let path = path.text(alloc)?;
    format!(in alloc; "{code} {}", path.as_str())?.replace(alloc, "\"", "'")
}
