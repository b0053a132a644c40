//! A template that is admitted, as a plan; or its first fault.
ghost use Rattle.std.specs.Prelude.{◌≡◌, ◌≤◌, [], false, All, IfOk, IfErr, Some, length, if◌then◌else◌};
ghost use Rattle.heat_plan.specs.Names.{IsResName};
ghost use Rattle.heat_plan.specs.Plans.{IsPlan};
ghost use Rattle.heat_value.specs.Data.{depth, members_depth, null};
ghost use Rattle.heat_value.specs.Meaning.{data_of};
ghost use Rattle.hot_admit.specs.Items.{names_marked};
ghost use Rattle.hot_admit.specs.Plans.{AreShallow, outputs_marked, files_of as the_files_of};
ghost use Rattle.hot_admit.specs.Resources.{resources_data, outputs_data, names_of};
ghost use Rattle.hot_tree.specs.Readings.{text_or};
ghost use Rattle.hot_admit.specs.Admission.{IsAdmitted};
ghost use Rattle.hot_admit.specs.Faults.{IsAdmitFaultOf};
ghost use Rattle.hot_catalog.specs.Catalogs.{standing};

use crate::condition_values::conditions;
use crate::cycle::needs_cycle;
use crate::entries::entries_flaw;
use crate::items::{items_of, names_where};
use crate::{AdmitCode, AdmitFault, Basis, Conds, Wanted};
use heat_plan::{ByName, Expression, File, Item, Output, Plan};
use heat_value::{Props, Seq, Text, TryCopy, Value};
use hot_catalog::Catalog;
use hot_params::Bound;
use hot_tree::{Out, Parts, Template};
use std::alloc::{AllocError, Global};

/// The plan of a template with its bound parameters, the files beside it, each of which is a text, and
/// the kinds that stand; or the first of C01, C02, A07, then of each resource A01, A08, A05, A06, A02 and
/// A03, then of each output A08, A02 and A03, then A04.
pub fn admit(
    alloc: Global,
    template: &Template,
    bound: &Bound,
    files: &Props,
    catalog: &Catalog,
) -> Result<Plan, AdmitFault>
    requires template { members_depth template.now ≤ 64 }
    ensures ok { IfOk result (λ p. IsAdmitted template.now
        (record { params = bound.now.params; files = files.now; kinds = standing catalog.now }) p) }
    ensures fault { IfErr result (λ e. IsAdmitFaultOf template.now
        (record { params = bound.now.params; files = files.now; kinds = standing catalog.now }) e) }
{
    let conds = match conditions(alloc, template, bound) {
        Ok(conds) => conds,
        Err(fault) => return Err(AdmitFault::of_conditions(fault)),
    };
    let parts = template.parts();
    let basis = Basis {
        resources: parts.resources.as_slice(),
        files,
        catalog,
    };
    if let Some(flaw) = entries_flaw(alloc, &basis, parts.outputs.as_slice())? {
        return Err(AdmitFault::Wrong(flaw));
    }
    let items = items_of(alloc, &basis, conds.resources.as_slice())?;
    if let Some(path) = needs_cycle(alloc, items.as_slice())? {
        return Err(AdmitFault::at(AdmitCode::A04, path));
    }
    Ok(plan_of(alloc, parts, bound, files, conds, items)?)
}

// The plan of these items.
fn plan_of(
    alloc: Global,
    parts: &Parts,
    bound: &Bound,
    files: &Props,
    conds: Conds,
    items: Seq<Item>,
) -> Result<Plan, AllocError>
    requires resources { length conds.resources ≡ length parts.now.resources }
    requires outputs { length conds.outputs ≡ length parts.now.outputs }
    requires names { All IsResName (names_of (resources_data parts.now.resources)) }
    requires depth { AreShallow (outputs_data parts.now.outputs) }
    requires plan { IsPlan items (names_marked false (resources_data parts.now.resources) conds.resources) }
    ensures { IfOk result (λ p. p ≡ record {
      items = items;
      outputs = outputs_marked (outputs_data parts.now.outputs) conds.outputs;
      params = bound.now.params;
      conds = conds.conds;
      files = the_files_of files.now;
      absent = names_marked false (resources_data parts.now.resources) conds.resources;
    }) }
{
    let Conds {
        conds,
        resources,
        outputs,
    } = conds;
    let absent = names_where(
        alloc,
        false,
        parts.resources.as_slice(),
        resources.as_slice(),
    )?;
    let outputs = outputs_of(alloc, parts.outputs.as_slice(), outputs.as_slice())?;
    let params = bound.params.copy()?;
    let files = files_of(alloc, files)?;
    Ok(Plan::new(items, outputs, params, conds, files, absent))
}

// The outputs, null where they aren't wanted.
fn outputs_of(alloc: Global, outputs: &[Out], wanted: &[Wanted]) -> Result<Seq<Output>, AllocError>
    requires size { length wanted.now ≡ length outputs.now }
    requires depth { AreShallow (outputs_data outputs.now) }
    ensures { IfOk result (λ os. os ≡ outputs_marked (outputs_data outputs.now) wanted.now) }
{
    let mut all = Seq::with_capacity(alloc, outputs.len())?;
    for (place, out) in outputs.iter().enumerate() {
        all.push(Output {
            name: out.name.copy()?,
            value: value_where(wanted[place].wanted, &out.value)?,
        })?;
    }
    Ok(all)
}

// An output's value where the output is wanted; else null.
fn value_where(wanted: bool, value: &Value) -> Result<Expression, AllocError>
    requires { depth (data_of value.now) ≤ 64 }
    ensures { IfOk result (λ e. e ≡ (if wanted then data_of value.now else null)) }
{
    if wanted {
        return expression_of(value.copy()?);
    }
    expression_of(Value::Null)
}

// A value that nests at most 64 deep.
fn expression_of(value: Value) -> Result<Expression, AllocError>
    requires { depth (data_of value) ≤ 64 }
    ensures { IfOk result (λ e. e ≡ data_of value) }
{
    match Expression::from_value(value) {
        Some(value) => Ok(value),
        None => unreachable!(),
    }
}

// Files and their texts.
fn files_of(alloc: Global, files: &Props) -> Result<ByName<File>, AllocError>
    ensures { IfOk result (λ fs. fs ≡ the_files_of files.now) }
{
    let members = files.as_slice();
    let mut all = Seq::with_capacity(alloc, members.len())?;
    for member in members {
        all.push(File {
            name: member.key.copy()?,
            content: content_of(alloc, &member.value)?,
        })?;
    }
    Ok(ByName::from_list(all))
}

// A file's text.
fn content_of(alloc: Global, value: &Value) -> Result<Text, AllocError>
    ensures { IfOk result (λ t. t ≡ text_or [] (Some (data_of value.now))) }
{
    match value {
        Value::Words(text) => text.copy(),
        Value::Null | Value::Flag(_) | Value::Whole(_) | Value::Items(_) | Value::Fields(_) => {
            Text::from_str(alloc, "")
        }
    }
}
