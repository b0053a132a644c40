//! A whole template: H01 to H24, in the stated order.
ghost use Rattle.std.specs.Prelude.{◌≡◌, IfOk};
ghost use Rattle.heat_value.specs.Meaning.{data_of};
ghost use Rattle.hot_tree.specs.Whole.{entries_flaw as the_entries_flaw};
ghost use Rattle.hot_tree.specs.Whole.{functions_flaw_among as the_functions_flaw_among};
ghost use Rattle.hot_tree.specs.Whole.{functions_flaw as the_functions_flaw, object_flaw as the_object_flaw};
ghost use Rattle.hot_tree.specs.Whole.{template_flaw as the_template_flaw};

use crate::pass::{Pass, entries, pass_flaw};
use heat_value::{Props, Value};
use hot_forms::{Flaw, HotCode, sections_flaw};
use std::alloc::{AllocError, Global};

/// The first of H01 to H24 in a template, in the stated order, with its path; nothing where it is right.
pub fn template_flaw(alloc: Global, template: &Value) -> Result<Option<Flaw>, AllocError>
    ensures { IfOk result (λ o. o ≡ the_template_flaw (data_of template.now)) }
{
    match template {
        Value::Fields(fields) => object_flaw(alloc, fields),
        Value::Null | Value::Flag(_) | Value::Whole(_) | Value::Words(_) | Value::Items(_) => {
            Ok(Some(Flaw::at_root(alloc, HotCode::H01)))
        }
    }
}

// H02 to H24.
fn object_flaw(alloc: Global, template: &Props) -> Result<Option<Flaw>, AllocError>
    ensures { IfOk result (λ o. o ≡ the_object_flaw template.now) }
{
    if let Some(flaw) = sections_flaw(alloc, template)? {
        return Ok(Some(flaw));
    }
    if let Some(flaw) = entries_flaw(alloc, template)? {
        return Ok(Some(flaw));
    }
    functions_flaw(alloc, template)
}

// H07 to H21 and H23: each parameter, each condition, each resource, each output.
fn entries_flaw(alloc: Global, template: &Props) -> Result<Option<Flaw>, AllocError>
    ensures { IfOk result (λ o. o ≡ the_entries_flaw template.now) }
{
    let none = Props::new(alloc);
    if let Some(flaw) = pass_flaw(alloc, Pass::Parameters, &none, &none, template)? {
        return Ok(Some(flaw));
    }
    if let Some(flaw) = pass_flaw(alloc, Pass::Conditions, &none, &none, template)? {
        return Ok(Some(flaw));
    }
    if let Some(flaw) = pass_flaw(alloc, Pass::Resources, &none, &none, template)? {
        return Ok(Some(flaw));
    }
    pass_flaw(alloc, Pass::Outputs, &none, &none, template)
}

// H22 and H24.
fn functions_flaw(alloc: Global, template: &Props) -> Result<Option<Flaw>, AllocError>
    ensures { IfOk result (λ o. o ≡ the_functions_flaw template.now) }
{
    let none = Props::new(alloc);
    let params = entries(alloc, "parameters", template, &none)?;
    let conds = entries(alloc, "conditions", template, &none)?;
    functions_flaw_among(alloc, params, conds, template)
}

// H22 and H24 among these parameters and conditions.
fn functions_flaw_among(
    alloc: Global,
    params: &Props,
    conds: &Props,
    template: &Props,
) -> Result<Option<Flaw>, AllocError>
    ensures { IfOk result (λ o. o
        ≡ the_functions_flaw_among params.now conds.now template.now) }
{
    if let Some(flaw) = pass_flaw(alloc, Pass::ConditionFunctions, params, conds, template)? {
        return Ok(Some(flaw));
    }
    if let Some(flaw) = pass_flaw(alloc, Pass::ResourceFunctions, params, conds, template)? {
        return Ok(Some(flaw));
    }
    pass_flaw(alloc, Pass::OutputFunctions, params, conds, template)
}
