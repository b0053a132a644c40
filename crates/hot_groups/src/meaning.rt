//! The plain template that a template with groups means.
ghost use Rattle.std.specs.Prelude.{◌≡◌, IfOk, OnOk, bytes_eq, codes, if◌then◌else◌};
ghost use Rattle.heat_value.specs.Meaning.{data_of, nodes_of};
ghost use Rattle.hot_env.specs.Applied.{each_value, within, under_key};
ghost use Rattle.hot_groups.specs.Plain.{plain as the_plain, section_meant as the_section_meant};
ghost use Rattle.hot_groups.specs.Plain.{resources_meant as the_resources_meant};
ghost use Rattle.hot_groups.specs.Plain.{resource_rewritten as the_resource_rewritten};
ghost use Rattle.hot_groups.specs.Plain.{part_rewritten as the_part_rewritten};
ghost use Rattle.hot_groups.specs.Plain.{output_rewritten as the_output_rewritten};
ghost use Rattle.hot_groups.specs.References.{rewritten as the_rewritten, all_named as the_all_named};
ghost use Rattle.hot_groups.specs.References.{members_rewritten as the_members_rewritten};
ghost use Rattle.hot_groups.specs.References.{depends_rewritten as the_depends_rewritten};
ghost use Rattle.hot_groups.specs.References.{named_by, nodes_before};

use crate::expanding::{all_meant, groups_among};
use crate::listing::{copied, push_all};
use crate::reading::entries;
use crate::reference::roster;
use crate::rewriting::{members_rewritten, rewritten};
use heat_value::{Items, Member, Props, TryCopy, Value};
use std::alloc::{AllocError, Global};

/// The plain template: members in place of groups, and what references to groups mean in place of these.
pub fn plain(alloc: Global, bound: &Props, template: &Props) -> Result<Props, AllocError>
    ensures { IfOk result (λ p. p ≡ the_plain bound.now template.now) }
{
    let none = Props::new(alloc);
    let resources = entries(alloc, "resources", template, &none)?;
    let groups = groups_among(alloc, bound, resources)?;
    sections_meant(alloc, bound, &groups, template)
}

// Each section, made over.
fn sections_meant(
    alloc: Global,
    bound: &Props,
    groups: &Props,
    template: &Props,
) -> Result<Props, AllocError>
    ensures { IfOk result (λ p. p
        ≡ each_value (the_section_meant bound.now groups.now) template.now) }
{
    let mut all = Props::new(alloc);
    for member in template.as_slice() {
        all.put(
            member.key.copy()?,
            section_meant(alloc, bound, groups, member)?,
        )?;
    }
    Ok(all)
}

// A section: resources and outputs made over, any other as it is.
fn section_meant(
    alloc: Global,
    bound: &Props,
    groups: &Props,
    section: &Member,
) -> Result<Value, AllocError>
    ensures { IfOk result (λ v. data_of v
        ≡ the_section_meant bound.now groups.now section.now.key (data_of section.now.value)) }
{
    match section.key.as_str() {
        "resources" => resources_section(alloc, bound, groups, &section.value),
        "outputs" => outputs_section(alloc, groups, &section.value),
        _ => section.value.copy(),
    }
}

// ---- resources

// The section of resources.
fn resources_section(
    alloc: Global,
    bound: &Props,
    groups: &Props,
    value: &Value,
) -> Result<Value, AllocError>
    ensures { IfOk result (λ v. data_of v
        ≡ within (the_resources_meant bound.now groups.now) (data_of value.now)) }
{
    match value {
        Value::Fields(resources) => {
            let all = all_meant(alloc, bound, resources)?;
            Ok(Value::Fields(each_rewritten(alloc, groups, &all)?))
        }
        Value::Null | Value::Flag(_) | Value::Whole(_) | Value::Words(_) | Value::Items(_) => {
            value.copy()
        }
    }
}

// Each resource with its references to groups rewritten.
fn each_rewritten(alloc: Global, groups: &Props, resources: &Props) -> Result<Props, AllocError>
    ensures { IfOk result (λ p. p
        ≡ each_value (λ k d. the_resource_rewritten groups.now d) resources.now) }
{
    let mut all = Props::new(alloc);
    for member in resources.as_slice() {
        all.put(
            member.key.copy()?,
            resource_rewritten(alloc, groups, &member.value)?,
        )?;
    }
    Ok(all)
}

// A resource with its references rewritten.
fn resource_rewritten(alloc: Global, groups: &Props, value: &Value) -> Result<Value, AllocError>
    ensures { IfOk result (λ v. data_of v ≡ the_resource_rewritten groups.now (data_of value.now)) }
{
    match value {
        Value::Fields(parts) => Ok(Value::Fields(parts_rewritten(alloc, groups, parts)?)),
        Value::Null | Value::Flag(_) | Value::Whole(_) | Value::Words(_) | Value::Items(_) => {
            value.copy()
        }
    }
}

// Its parts.
fn parts_rewritten(alloc: Global, groups: &Props, parts: &Props) -> Result<Props, AllocError>
    ensures { IfOk result (λ p. p ≡ each_value (the_part_rewritten groups.now) parts.now) }
{
    let mut all = Props::new(alloc);
    for member in parts.as_slice() {
        all.put(member.key.copy()?, part_rewritten(alloc, groups, member)?)?;
    }
    Ok(all)
}

// One part: in the properties, whose map is itself no function, and in `depends_on`.
fn part_rewritten(alloc: Global, groups: &Props, part: &Member) -> Result<Value, AllocError>
    ensures { IfOk result (λ v. data_of v
        ≡ the_part_rewritten groups.now part.now.key (data_of part.now.value)) }
{
    match part.key.as_str() {
        "properties" => props_rewritten(alloc, groups, &part.value),
        "depends_on" => depends_rewritten(alloc, groups, &part.value),
        _ => part.value.copy(),
    }
}

// The properties.
fn props_rewritten(alloc: Global, groups: &Props, value: &Value) -> Result<Value, AllocError>
    ensures { IfOk result (λ v. data_of v
        ≡ within (the_members_rewritten groups.now) (data_of value.now)) }
{
    match value {
        Value::Fields(props) => Ok(Value::Fields(members_rewritten(
            alloc,
            groups,
            props.as_slice(),
        )?)),
        Value::Null | Value::Flag(_) | Value::Whole(_) | Value::Words(_) | Value::Items(_) => {
            value.copy()
        }
    }
}

// ---- depends_on

// A name or a list of names, with all members in place of a group's.
fn depends_rewritten(alloc: Global, groups: &Props, value: &Value) -> Result<Value, AllocError>
    ensures { IfOk result (λ v. data_of v ≡ the_depends_rewritten groups.now (data_of value.now)) }
{
    match value {
        Value::Words(name) => match roster(groups, name) {
            Some(names) => Ok(Value::Items(copied(alloc, names)?)),
            None => value.copy(),
        },
        Value::Items(names) => Ok(Value::Items(all_named(alloc, groups, names.as_slice())?)),
        Value::Null | Value::Flag(_) | Value::Whole(_) | Value::Fields(_) => value.copy(),
    }
}

// The names that a list's stand for.
fn all_named(alloc: Global, groups: &Props, names: &[Value]) -> Result<Items, AllocError>
    ensures { IfOk result (λ a. a ≡ the_all_named groups.now (nodes_of names.now)) }
{
    let mut all = Items::new(alloc);
    for name in names {
        push_named(groups, name, &mut all)?;
    }
    Ok(all)
}

// Puts the names that one stands for behind the last.
#[tactic(auto, using(crate::proofs::Listed::for_putting))]
fn push_named(groups: &Props, name: &Value, all: &mut Items) -> Result<(), AllocError>
    ensures { OnOk result (all.new ≡ nodes_before all.old (named_by groups.now (data_of name.now))) }
{
    match name {
        Value::Words(words) => match roster(groups, words) {
            Some(names) => push_all(all, names),
            None => all.push(name.copy()?),
        },
        Value::Null | Value::Flag(_) | Value::Whole(_) => all.push(name.copy()?),
        Value::Items(_) | Value::Fields(_) => all.push(name.copy()?),
    }
}

// ---- outputs

// The section of outputs.
fn outputs_section(alloc: Global, groups: &Props, value: &Value) -> Result<Value, AllocError>
    ensures { IfOk result (λ v. data_of v
        ≡ within (each_value (λ name o. the_output_rewritten groups.now o)) (data_of value.now)) }
{
    match value {
        Value::Fields(outputs) => Ok(Value::Fields(each_output(alloc, groups, outputs)?)),
        Value::Null | Value::Flag(_) | Value::Whole(_) | Value::Words(_) | Value::Items(_) => {
            value.copy()
        }
    }
}

// Each output with the references in its value rewritten.
fn each_output(alloc: Global, groups: &Props, outputs: &Props) -> Result<Props, AllocError>
    ensures { IfOk result (λ p. p
        ≡ each_value (λ name o. the_output_rewritten groups.now o) outputs.now) }
{
    let mut all = Props::new(alloc);
    for member in outputs.as_slice() {
        all.put(
            member.key.copy()?,
            output_rewritten(alloc, groups, &member.value)?,
        )?;
    }
    Ok(all)
}

// One output.
fn output_rewritten(alloc: Global, groups: &Props, value: &Value) -> Result<Value, AllocError>
    ensures { IfOk result (λ v. data_of v ≡ the_output_rewritten groups.now (data_of value.now)) }
{
    match value {
        Value::Fields(parts) => Ok(Value::Fields(value_rewritten(alloc, groups, parts)?)),
        Value::Null | Value::Flag(_) | Value::Whole(_) | Value::Words(_) | Value::Items(_) => {
            value.copy()
        }
    }
}

// What stands under `value`, rewritten.
fn value_rewritten(alloc: Global, groups: &Props, parts: &Props) -> Result<Props, AllocError>
    ensures { IfOk result (λ p. p
        ≡ under_key (codes "value") (the_rewritten groups.now) parts.now) }
{
    let mut all = Props::new(alloc);
    for member in parts.as_slice() {
        all.put(member.key.copy()?, out_part(alloc, groups, member)?)?;
    }
    Ok(all)
}

// A part of an output.
fn out_part(alloc: Global, groups: &Props, part: &Member) -> Result<Value, AllocError>
    ensures { IfOk result (λ v. data_of v ≡ (if bytes_eq part.now.key (codes "value")
        then the_rewritten groups.now (data_of part.now.value) else data_of part.now.value)) }
{
    if part.key.as_str() == "value" {
        return rewritten(alloc, groups, &part.value);
    }
    part.value.copy()
}
