//! A template's sections, by themselves.
ghost use Rattle.std.specs.Prelude.{◌≡◌, IfOk, option_map, codes};
ghost use Rattle.heat_value.specs.Meaning.{data_of};
ghost use Rattle.hot_forms.specs.Sections.{section as the_section, unless_null as the_unless_null};
ghost use Rattle.hot_forms.specs.Sections.{foreign_key as the_foreign_key};
ghost use Rattle.hot_forms.specs.Sections.{of_another_language as the_of_another_language};
ghost use Rattle.hot_forms.specs.Sections.{without_version as the_without_version, is_version as the_is_version};
ghost use Rattle.hot_forms.specs.Sections.{unlisted as the_unlisted, of_unknown_version as the_of_unknown_version};
ghost use Rattle.hot_forms.specs.Sections.{with_unknown_section as the_with_unknown_section};
ghost use Rattle.hot_forms.specs.Sections.{misshapen_section as the_misshapen_section};
ghost use Rattle.hot_forms.specs.Sections.{with_misshapen_section as the_with_misshapen_section};
ghost use Rattle.hot_forms.specs.Sections.{sections_flaw as the_sections_flaw};

use crate::check::{is_among, under_name, unknown_key, unless};
use crate::shape::{found, unshaped};
use crate::{Flaw, HotCode, Shape};
use heat_value::{Props, Value};
use std::alloc::{AllocError, Global};

// The sections, in byte order of their names.
const SECTIONS: [&str; 7] = [
    "conditions",
    "description",
    "heat_template_version",
    "outputs",
    "parameter_groups",
    "parameters",
    "resources",
];

// The versions, by their dates and names.
const VERSIONS: [&str; 15] = [
    "2013-05-23",
    "2014-10-16",
    "2015-04-30",
    "2015-10-15",
    "2016-04-08",
    "2016-10-14",
    "newton",
    "2017-02-24",
    "ocata",
    "2017-09-01",
    "pike",
    "2018-03-02",
    "queens",
    "2018-08-31",
    "rocky",
];

/// The first of H03, H02, H04, H05 and H06 that is there, in this order.
pub fn sections_flaw(alloc: Global, template: &Props) -> Result<Option<Flaw>, AllocError>
    ensures { IfOk result (λ o. o ≡ the_sections_flaw template.now) }
{
    if let Some(flaw) = of_another_language(alloc, template)? {
        return Ok(Some(flaw));
    }
    if let Some(flaw) = without_version(alloc, template)? {
        return Ok(Some(flaw));
    }
    if let Some(flaw) = of_unknown_version(alloc, template)? {
        return Ok(Some(flaw));
    }
    if let Some(flaw) = with_unknown_section(alloc, template)? {
        return Ok(Some(flaw));
    }
    with_misshapen_section(alloc, template)
}

// H03, the first of the two keys.
fn of_another_language(alloc: Global, template: &Props) -> Result<Option<Flaw>, AllocError>
    ensures { IfOk result (λ o. o ≡ the_of_another_language template.now) }
{
    if let Some(flaw) = foreign_key(alloc, "AWSTemplateFormatVersion", template)? {
        return Ok(Some(flaw));
    }
    foreign_key(alloc, "HeatTemplateFormatVersion", template)
}

// H03 where this key stands.
fn foreign_key(alloc: Global, key: &str, template: &Props) -> Result<Option<Flaw>, AllocError>
    ensures { IfOk result (λ o. o ≡ the_foreign_key key.now template.now) }
{
    let stands = found(alloc, template, key)?.is_some();
    under_name(alloc, key, unless(alloc, !stands, HotCode::H03))
}

// H02.
fn without_version(alloc: Global, template: &Props) -> Result<Option<Flaw>, AllocError>
    ensures { IfOk result (λ o. o ≡ the_without_version template.now) }
{
    let stands = section(alloc, template, "heat_template_version")?.is_some();
    Ok(unless(alloc, stands, HotCode::H02))
}

// H04.
fn of_unknown_version(alloc: Global, template: &Props) -> Result<Option<Flaw>, AllocError>
    ensures { IfOk result (λ o. o ≡ the_of_unknown_version template.now) }
{
    let version = section(alloc, template, "heat_template_version")?;
    under_name(alloc, "heat_template_version", unlisted(alloc, version))
}

// A version that stands there and is none of the list.
fn unlisted(alloc: Global, version: Option<&Value>) -> Option<Flaw>
    ensures { result ≡ the_unlisted (option_map (λ v. data_of v.now) version.entry) }
{
    match version {
        Some(version) => unless(alloc, is_version(version), HotCode::H04),
        None => None,
    }
}

// Whether a value is the text of a version.
fn is_version(value: &Value) -> bool
    ensures { result ≡ the_is_version (data_of value.now) }
{
    match value {
        Value::Words(words) => is_among(&VERSIONS, words.as_str()),
        Value::Null | Value::Flag(_) | Value::Whole(_) | Value::Items(_) | Value::Fields(_) => {
            false
        }
    }
}

// H05.
fn with_unknown_section(alloc: Global, template: &Props) -> Result<Option<Flaw>, AllocError>
    ensures { IfOk result (λ o. o ≡ the_with_unknown_section template.now) }
{
    unknown_key(alloc, HotCode::H05, &SECTIONS, template)
}

// H06, in the order of the language.
fn with_misshapen_section(alloc: Global, template: &Props) -> Result<Option<Flaw>, AllocError>
    ensures { IfOk result (λ o. o ≡ the_with_misshapen_section template.now) }
{
    if let Some(flaw) = misshapen_section(alloc, "description", Shape::Text, template)? {
        return Ok(Some(flaw));
    }
    if let Some(flaw) = misshapen_section(alloc, "parameter_groups", Shape::List, template)? {
        return Ok(Some(flaw));
    }
    if let Some(flaw) = misshapen_section(alloc, "parameters", Shape::Object, template)? {
        return Ok(Some(flaw));
    }
    if let Some(flaw) = misshapen_section(alloc, "conditions", Shape::Object, template)? {
        return Ok(Some(flaw));
    }
    if let Some(flaw) = misshapen_section(alloc, "resources", Shape::Object, template)? {
        return Ok(Some(flaw));
    }
    misshapen_section(alloc, "outputs", Shape::Object, template)
}

// H06 where this section is there in another shape.
fn misshapen_section(
    alloc: Global,
    key: &str,
    shape: Shape,
    template: &Props,
) -> Result<Option<Flaw>, AllocError>
    ensures { IfOk result (λ o. o ≡ the_misshapen_section key.now shape template.now) }
{
    let held = section(alloc, template, key)?;
    under_name(alloc, key, unshaped(alloc, HotCode::H06, shape, held))
}

/// What a section holds; one whose value is null counts as absent.
pub fn section<'a>(
    alloc: Global,
    template: &'a Props,
    key: &str,
) -> Result<Option<&'a Value>, AllocError>
    ensures { IfOk result (λ o. option_map (λ v. data_of v.now) o
        ≡ the_section key.now template.now) }
{
    Ok(unless_null(found(alloc, template, key)?))
}

// The value, unless it is null.
fn unless_null(value: Option<&Value>) -> Option<&Value>
    ensures { option_map (λ v. data_of v.now) result
        ≡ the_unless_null (option_map (λ v. data_of v.now) value.entry) }
{
    match value {
        Some(Value::Null) | None => None,
        Some(value) => Some(value),
    }
}
