//! The resources that a template's resources stand for: themselves, and of each group its members.
ghost use Rattle.std.specs.Prelude.{◌≡◌, IfOk, OnOk, bytes_eq, codes, if◌then◌else◌};
ghost use Rattle.heat_value.specs.Meaning.{data_of};
ghost use Rattle.hot_forms.specs.Checks.{is_among as the_is_among};
ghost use Rattle.hot_env.specs.Environments.{over};
ghost use Rattle.hot_strings.specs.Answers.{with_values};
ghost use Rattle.hot_groups.specs.Groups.{groups_among as the_groups_among, names_of as the_names_of, names_from};
ghost use Rattle.hot_groups.specs.Numbers.{map_from, retold as the_retold};
ghost use Rattle.hot_groups.specs.Plain.{only, of_group, of_definition, made as the_made, made_from, meant};
ghost use Rattle.hot_groups.specs.Plain.{all_meant as the_all_meant};

use crate::counting::count_of;
use crate::numbering::{Numbering, member_name};
use crate::numbers::retold;
use crate::reading::{index_var_of, is_group, members_in, object_at, props_of};
use heat_value::{Items, Member, Props, Text, TryCopy, Value};
use hot_forms::is_among;
use std::alloc::{AllocError, Global};

/// The groups among resources by their names, each with the names of its members.
pub(crate) fn groups_among(
    alloc: Global,
    bound: &Props,
    resources: &Props,
) -> Result<Props, AllocError>
    ensures { IfOk result (λ p. p ≡ the_groups_among bound.now resources.now) }
{
    let mut groups = Props::new(alloc);
    for member in resources.as_slice() {
        if is_group(alloc, &member.value)? {
            let names = names_of(alloc, bound, member)?;
            groups.put(member.key.copy()?, Value::Items(names))?;
        }
    }
    Ok(groups)
}

// The names of a group's members, in order.
fn names_of(alloc: Global, bound: &Props, group: &Member) -> Result<Items, AllocError>
    ensures { IfOk result (λ a. a
        ≡ the_names_of bound.now group.now.key (data_of group.now.value)) }
{
    let none = Props::new(alloc);
    let props = props_of(alloc, &group.value, &none)?;
    names_for(alloc, &group.key, count_of(alloc, bound, props)?)
}

// So many names.
fn names_for(alloc: Global, group: &Text, count: usize) -> Result<Items, AllocError>
    ensures { IfOk result (λ a. a ≡ names_from group.now 0 count) }
{
    let mut names = Items::new(alloc);
    for i in 0..count {
        names.push(Value::Words(member_name(alloc, group, i)?))?;
    }
    Ok(names)
}

/// All that the resources stand for, by their names.
pub(crate) fn all_meant(
    alloc: Global,
    bound: &Props,
    resources: &Props,
) -> Result<Props, AllocError>
    ensures { IfOk result (λ p. p ≡ map_from (the_all_meant bound.now resources.now)) }
{
    let mut all = Props::new(alloc);
    for member in resources.as_slice() {
        put_meant(alloc, bound, member, &mut all)?;
    }
    Ok(all)
}

// Puts what a resource stands for.
fn put_meant(
    alloc: Global,
    bound: &Props,
    member: &Member,
    all: &mut Props,
) -> Result<(), AllocError>
    ensures { OnOk result (all.new
        ≡ over all.old (meant bound.now member.now.key (data_of member.now.value))) }
{
    if !is_group(alloc, &member.value)? {
        return all.put(member.key.copy()?, member.value.copy()?);
    }
    let none = Props::new(alloc);
    let props = props_of(alloc, &member.value, &none)?;
    put_members(alloc, member, count_of(alloc, bound, props)?, all)
}

// Puts so many members of a group.
fn put_members(
    alloc: Global,
    group: &Member,
    count: usize,
    all: &mut Props,
) -> Result<(), AllocError>
    ensures { OnOk result (all.new
        ≡ over all.old (made_from group.now.key (data_of group.now.value) 0 count)) }
{
    for i in 0..count {
        let name = member_name(alloc, &group.key, i)?;
        all.put(name, Value::Fields(made(alloc, &group.value, i)?))?;
    }
    Ok(())
}

// ---- one member

// The member of a group with this number.
fn made(alloc: Global, group: &Value, number: usize) -> Result<Props, AllocError>
    ensures { IfOk result (λ p. p ≡ the_made (data_of group.now) number) }
{
    let none = Props::new(alloc);
    let props = props_of(alloc, group, &none)?;
    let numbering = Numbering::new(alloc, &index_var_of(alloc, props)?, number)?;
    let mut member = kept(alloc, members_in(group, &none))?;
    put_definition(
        &numbering,
        object_at(alloc, props, "resource_def", &none)?,
        &mut member,
        alloc,
    )?;
    Ok(member)
}

// What a member has of its group.
fn kept(alloc: Global, group: &Props) -> Result<Props, AllocError>
    ensures { IfOk result (λ p. p ≡ map_from (only of_group group.now)) }
{
    let mut kept = Props::new(alloc);
    for part in group.as_slice() {
        if is_kept(part.key.as_str()) {
            kept.put(part.key.copy()?, part.value.copy()?)?;
        }
    }
    Ok(kept)
}

// Whether it has what stands under this key.
fn is_kept(key: &str) -> bool
    ensures { result ≡ the_is_among of_group key.now }
{
    is_among(
        &[
            "condition",
            "deletion_policy",
            "depends_on",
            "external_id",
            "update_policy",
        ],
        key,
    )
}

// Puts what it has of the definition.
fn put_definition(
    numbering: &Numbering,
    definition: &Props,
    member: &mut Props,
    alloc: Global,
) -> Result<(), AllocError>
    ensures { OnOk result (member.new
        ≡ over member.old (of_definition (with_values numbering.now) definition.now)) }
{
    for part in definition.as_slice() {
        if is_among(&["properties", "type"], part.key.as_str()) {
            member.put(part.key.copy()?, part_made(alloc, numbering, part)?)?;
        }
    }
    Ok(())
}

// The properties with the number in them, the type as it is.
fn part_made(alloc: Global, numbering: &Numbering, part: &Member) -> Result<Value, AllocError>
    ensures { IfOk result (λ v. data_of v ≡ (if bytes_eq part.now.key (codes "properties")
        then the_retold (with_values numbering.now) (data_of part.now.value) else data_of part.now.value)) }
{
    if part.key.as_str() == "properties" {
        return retold(alloc, numbering, &part.value);
    }
    part.value.copy()
}
