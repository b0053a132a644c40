//! G01 by the form of a group's properties.
ghost use Rattle.std.specs.Prelude.{◌≡◌, IfOk};
ghost use Rattle.heat_value.specs.Meaning.{data_of};
ghost use Rattle.hot_groups.specs.Codes.{first_entry};
ghost use Rattle.hot_groups.specs.Forms.{form_flaw as the_form_flaw, unfit as the_unfit};
ghost use Rattle.hot_groups.specs.Forms.{unfit_def as the_unfit_def, unfit_parts as the_unfit_parts};
ghost use Rattle.hot_groups.specs.Forms.{unfit_part as the_unfit_part};
ghost use Rattle.hot_groups.specs.Forms.{is_index_var as the_is_index_var, is_inner_type as the_is_inner_type};
ghost use Rattle.hot_forms.specs.Shapes.{is_null as the_is_null};

use crate::counting::counted;
use crate::flaw::{under, unless};
use crate::reading::is_group_kind;
use crate::{GroupCode, GroupFlaw};
use heat_value::{Member, Props, Value};
use hot_forms::{found, is_among, is_object, is_text};
use std::alloc::{AllocError, Global};

/// The first key of a group's properties that is off its form, else that there is no definition: G01, by the path from the
/// properties.
pub(crate) fn form_flaw(
    alloc: Global,
    bound: &Props,
    props: &Props,
) -> Result<Option<GroupFlaw>, AllocError>
    ensures { IfOk result (λ o. o ≡ the_form_flaw bound.now props.now) }
{
    let unfit = first_unfit(alloc, bound, props)?;
    if unfit.is_some() {
        return Ok(unfit);
    }
    let stands = found(alloc, props, "resource_def")?.is_some();
    Ok(unless(alloc, stands, GroupCode::G01))
}

// The first key that is off its form.
fn first_unfit(alloc: Global, bound: &Props, props: &Props) -> Result<Option<GroupFlaw>, AllocError>
    ensures { IfOk result (λ o. o ≡ first_entry (the_unfit bound.now) props.now) }
{
    for member in props.as_slice() {
        let found = under(&member.key, unfit(alloc, bound, member)?)?;
        if found.is_some() {
            return Ok(found);
        }
    }
    Ok(None)
}

// Whether this key is off its form.
fn unfit(alloc: Global, bound: &Props, member: &Member) -> Result<Option<GroupFlaw>, AllocError>
    ensures { IfOk result (λ o. o
        ≡ the_unfit bound.now member.now.key (data_of member.now.value)) }
{
    let value = &member.value;
    match member.key.as_str() {
        "count" => {
            let counts = counted(alloc, bound, value)?.is_some();
            Ok(unless(alloc, counts, GroupCode::G01))
        }
        "index_var" => Ok(unless(alloc, is_index_var(value), GroupCode::G01)),
        "resource_def" => unfit_def(alloc, value),
        _ => Ok(Some(GroupFlaw::here(alloc, GroupCode::G01))),
    }
}

// Whether a value is a text that isn't empty.
fn is_index_var(value: &Value) -> bool
    ensures { result ≡ the_is_index_var (data_of value.now) }
{
    match value {
        Value::Words(words) => !words.as_str().is_empty(),
        Value::Null | Value::Flag(_) | Value::Whole(_) | Value::Items(_) | Value::Fields(_) => {
            false
        }
    }
}

// ---- the definition

// Whether a definition is off its form.
fn unfit_def(alloc: Global, value: &Value) -> Result<Option<GroupFlaw>, AllocError>
    ensures { IfOk result (λ o. o ≡ the_unfit_def (data_of value.now)) }
{
    match value {
        Value::Fields(parts) => unfit_parts(alloc, parts),
        Value::Null | Value::Flag(_) | Value::Whole(_) | Value::Words(_) | Value::Items(_) => {
            Ok(Some(GroupFlaw::here(alloc, GroupCode::G01)))
        }
    }
}

// Its first key that is off its form, else that it has no type.
fn unfit_parts(alloc: Global, parts: &Props) -> Result<Option<GroupFlaw>, AllocError>
    ensures { IfOk result (λ o. o ≡ the_unfit_parts parts.now) }
{
    let unfit = first_unfit_part(alloc, parts)?;
    if unfit.is_some() {
        return Ok(unfit);
    }
    let stands = found(alloc, parts, "type")?.is_some();
    Ok(unless(alloc, stands, GroupCode::G01))
}

// Its first key that is off its form.
fn first_unfit_part(alloc: Global, parts: &Props) -> Result<Option<GroupFlaw>, AllocError>
    ensures { IfOk result (λ o. o ≡ first_entry the_unfit_part parts.now) }
{
    for member in parts.as_slice() {
        let found = under(&member.key, unfit_part(alloc, member))?;
        if found.is_some() {
            return Ok(found);
        }
    }
    Ok(None)
}

// Whether this key is off its form.
fn unfit_part(alloc: Global, member: &Member) -> Option<GroupFlaw>
    ensures { result ≡ the_unfit_part member.now.key (data_of member.now.value) }
{
    let key = member.key.as_str();
    let value = &member.value;
    if key == "type" {
        return unless(alloc, is_inner_type(value), GroupCode::G01);
    }
    let fits = is_among(&["metadata", "properties"], key) && (is_object(value) || is_null(value));
    unless(alloc, fits, GroupCode::G01)
}

// Whether members may have the type: any text but the type of groups.
fn is_inner_type(value: &Value) -> bool
    ensures { result ≡ the_is_inner_type (data_of value.now) }
{
    is_text(value) && !is_group_kind(Some(value))
}

// Whether a value is null.
fn is_null(value: &Value) -> bool
    ensures { result ≡ the_is_null (data_of value.now) }
{
    matches!(value, Value::Null)
}
