//! G01 of all groups of a template, then G02 of all.
ghost use Rattle.std.specs.Prelude.{◌≡◌, ◌^◌, ◌-◌, ◌*◌, ◌+◌, ℕ, IfOk, Some, min, option_map, ◌&&◌};
ghost use Rattle.heat_value.specs.Meaning.{data_of};
ghost use Rattle.hot_groups.specs.Checks.{cost_of as the_cost_of, at_count as the_at_count, too_much as the_too_much};
ghost use Rattle.hot_groups.specs.Checks.{keys_flaw as the_keys_flaw, meeting_from as the_meeting_from};
ghost use Rattle.hot_groups.specs.Checks.{group_flaw as the_group_flaw, unfit_group as the_unfit_group};
ghost use Rattle.hot_groups.specs.Checks.{is_barred as the_is_barred, some_barred as the_some_barred};
ghost use Rattle.hot_groups.specs.Checks.{misnamed_group as the_misnamed_group};
ghost use Rattle.hot_groups.specs.Checks.{resources_flaw as the_resources_flaw};
ghost use Rattle.hot_groups.specs.Groups.{count_of as the_count_of, props_of as the_props_of};
ghost use Rattle.hot_groups.specs.Groups.{is_group as the_is_group};
ghost use Rattle.hot_tree.specs.Readings.{or_null};
ghost use Rattle.eval_words.specs.Outcomes.{size as the_size};

use crate::counting::count_of;
use crate::flaw::{under, under_name};
use crate::forms::form_flaw;
use crate::numbering::{Numbering, member_name};
use crate::numbers::object_meeting;
use crate::reading::{index_var_of, is_group, object_at, props_of};
use crate::{GroupCode, GroupFlaw};
use heat_value::{Member, Props, Text, Value};
use hot_forms::{found, is_name};
use hot_strings::value_size;
use std::alloc::{AllocError, Global};

/// How much all members of a template's groups may come to.
const MOST: usize = 16_777_216;

/// The first flaw of a template's resources by themselves: G01 of all groups in byte order, then G02 of all.
pub fn resources_flaw(
    alloc: Global,
    bound: &Props,
    resources: &Props,
) -> Result<Option<GroupFlaw>, AllocError>
    ensures { IfOk result (λ o. o ≡ the_resources_flaw bound.now resources.now) }
{
    let unfit = unfit_group(alloc, bound, resources)?;
    if unfit.is_some() {
        return under_name(alloc, "resources", unfit);
    }
    under_name(alloc, "resources", misnamed_group(alloc, bound, resources)?)
}

// ---- G01

// G01 of the first group that has it.
fn unfit_group(
    alloc: Global,
    bound: &Props,
    resources: &Props,
) -> Result<Option<GroupFlaw>, AllocError>
    ensures { IfOk result (λ o. o ≡ the_unfit_group bound.now 0 resources.now) }
{
    let mut total = 0usize;
    for member in resources.as_slice() {
        if is_group(alloc, &member.value)? {
            total = total.saturating_add(cost_of(alloc, bound, &member.value)?);
            let found = under(&member.key, group_flaw(alloc, bound, total, &member.value)?)?;
            if found.is_some() {
                return Ok(found);
            }
        }
    }
    Ok(None)
}

// What a group's members come to, as far as a `usize` counts.
fn cost_of(alloc: Global, bound: &Props, group: &Value) -> Result<usize, AllocError>
    ensures { IfOk result (λ n. n
        ≡ min (the_cost_of bound.now (the_props_of (data_of group.now))) (2 ^ 64 - 1)) }
{
    let none = Props::new(alloc);
    let props = props_of(alloc, group, &none)?;
    let count = count_of(alloc, bound, props)?;
    let size = size_at(found(alloc, props, "resource_def")?);
    Ok(count.saturating_mul(size.saturating_add(256)))
}

// How many bytes what stands there takes as compact JSON; nothing takes those of null.
fn size_at(value: Option<&Value>) -> usize
    ensures { result ≡ min (the_size (or_null (option_map (λ v. data_of v.now) value.entry))) (2 ^ 64 - 1) }
{
    match value {
        Some(value) => value_size(value),
        None => value_size(&Value::Null),
    }
}

// G01 of a group, with what it and the groups before it come to.
fn group_flaw(
    alloc: Global,
    bound: &Props,
    total: usize,
    group: &Value,
) -> Result<Option<GroupFlaw>, AllocError>
    ensures { (t : ℕ) → total ≡ min t (2 ^ 64 - 1) → IfOk result (λ o. o
        ≡ the_group_flaw bound.now t (the_props_of (data_of group.now))) }
{
    let none = Props::new(alloc);
    let props = props_of(alloc, group, &none)?;
    let unfit = form_flaw(alloc, bound, props)?;
    if unfit.is_some() {
        return under_name(alloc, "properties", unfit);
    }
    let too_much = too_much(alloc, total, props)?;
    if too_much.is_some() {
        return under_name(alloc, "properties", too_much);
    }
    under_name(alloc, "properties", keys_flaw(alloc, bound, props)?)
}

// The groups so far come to too much.
fn too_much(alloc: Global, total: usize, props: &Props) -> Result<Option<GroupFlaw>, AllocError>
    ensures { (t : ℕ) → total ≡ min t (2 ^ 64 - 1) → IfOk result (λ o. o
        ≡ the_too_much t props.now) }
{
    if total <= MOST {
        return Ok(None);
    }
    at_count(alloc, props)
}

// G01 at the count, or at the properties where none is written.
fn at_count(alloc: Global, props: &Props) -> Result<Option<GroupFlaw>, AllocError>
    ensures { IfOk result (λ o. o ≡ Some (the_at_count props.now)) }
{
    let flaw = Some(GroupFlaw::here(alloc, GroupCode::G01));
    if found(alloc, props, "count")?.is_some() {
        return under_name(alloc, "count", flaw);
    }
    Ok(flaw)
}

// Two keys of the definition's properties become one in a member.
fn keys_flaw(alloc: Global, bound: &Props, props: &Props) -> Result<Option<GroupFlaw>, AllocError>
    ensures { IfOk result (λ o. o ≡ the_keys_flaw bound.now props.now) }
{
    let none = Props::new(alloc);
    let parts = object_at(alloc, props, "resource_def", &none)?;
    let inner = object_at(alloc, parts, "properties", &none)?;
    let index_var = index_var_of(alloc, props)?;
    let count = count_of(alloc, bound, props)?;
    let found = first_meeting(alloc, &index_var, inner, count)?;
    under_name(
        alloc,
        "resource_def",
        under_name(alloc, "properties", found)?,
    )
}

// The first member in which they do.
fn first_meeting(
    alloc: Global,
    index_var: &Text,
    props: &Props,
    count: usize,
) -> Result<Option<GroupFlaw>, AllocError>
    ensures { IfOk result (λ o. o ≡ the_meeting_from index_var.now props.now 0 count) }
{
    for i in 0..count {
        let numbering = Numbering::new(alloc, index_var, i)?;
        let found = object_meeting(alloc, &numbering, props)?;
        if found.is_some() {
            return Ok(found);
        }
    }
    Ok(None)
}

// ---- G02

// G02 of the first group that has it.
fn misnamed_group(
    alloc: Global,
    bound: &Props,
    resources: &Props,
) -> Result<Option<GroupFlaw>, AllocError>
    ensures { IfOk result (λ o. o
        ≡ the_misnamed_group bound.now resources.now resources.now) }
{
    for member in resources.as_slice() {
        if is_misnamed(alloc, bound, resources, member)? {
            let flaw = GroupFlaw::here(alloc, GroupCode::G02);
            return under(&member.key, Some(flaw));
        }
    }
    Ok(None)
}

// Whether a resource is a group with a member whose name it may not have.
fn is_misnamed(
    alloc: Global,
    bound: &Props,
    resources: &Props,
    member: &Member,
) -> Result<bool, AllocError>
    ensures { IfOk result (λ b. b ≡ (the_is_group (data_of member.now.value)
        && the_some_barred resources.now member.now.key 0
        (the_count_of bound.now (the_props_of (data_of member.now.value))))) }
{
    if !is_group(alloc, &member.value)? {
        return Ok(false);
    }
    let none = Props::new(alloc);
    let props = props_of(alloc, &member.value, &none)?;
    some_barred(
        alloc,
        resources,
        &member.key,
        count_of(alloc, bound, props)?,
    )
}

// Whether a member of the group has such a name.
fn some_barred(
    alloc: Global,
    resources: &Props,
    group: &Text,
    count: usize,
) -> Result<bool, AllocError>
    ensures { IfOk result (λ b. b ≡ the_some_barred resources.now group.now 0 count) }
{
    for i in 0..count {
        let name = member_name(alloc, group, i)?;
        if is_barred(resources, &name) {
            return Ok(true);
        }
    }
    Ok(false)
}

// Whether another resource has the name, or it is off the grammar of names.
fn is_barred(resources: &Props, name: &Text) -> bool
    ensures { result ≡ the_is_barred resources.now name.now }
{
    resources.get(name).is_some() || !is_name(name.as_str())
}
