//! What is wrong with a catalogue, and where.
ghost use Rattle.std.specs.Prelude.{◌≡◌, IfOk, is_some};
ghost use Rattle.std.specs.List.{list_all};
ghost use Rattle.heat_value.specs.Meaning.{data_of};
ghost use Rattle.hot_catalog.specs.Flaws.{is_kind_byte as the_is_kind_byte, is_kind_name as the_is_kind_name};
ghost use Rattle.hot_catalog.specs.Flaws.{definition_shape as the_definition_shape};
ghost use Rattle.hot_catalog.specs.Flaws.{with_many_attributes as the_with_many_attributes};
ghost use Rattle.hot_catalog.specs.Flaws.{kind_flaw as the_kind_flaw, kinds_flaw as the_kinds_flaw};
ghost use Rattle.hot_catalog.specs.Flaws.{catalogue_flaw as the_catalogue_flaw};
ghost use Rattle.type_catalog.specs.Registries.{kind_named};

use crate::attributes::are_few_attributes;
use crate::check::{behind_key, behind_name, here_unless};
use crate::shape::definition_shape;
use heat_value::{Path, Props, Text, Value};
use std::alloc::{AllocError, Global};
use type_catalog::{KindDef, named};

/// Where a value is no catalogue beside these kinds of the registry.
pub fn catalogue_flaw(
    alloc: Global,
    registered: &[KindDef],
    value: &Value,
) -> Result<Option<Path>, AllocError>
    ensures { IfOk result (λ o. o ≡ the_catalogue_flaw registered.now (data_of value.now)) }
{
    match value {
        Value::Fields(kinds) => kinds_flaw(alloc, registered, kinds),
        Value::Null | Value::Flag(_) | Value::Whole(_) | Value::Words(_) | Value::Items(_) => {
            Ok(Some(Path::root(alloc)))
        }
    }
}

// The first kind, in byte order of names, with a flaw.
fn kinds_flaw(
    alloc: Global,
    registered: &[KindDef],
    kinds: &Props,
) -> Result<Option<Path>, AllocError>
    ensures { IfOk result (λ o. o ≡ the_kinds_flaw registered.now kinds.now) }
{
    for kind in kinds.as_slice() {
        let found = kind_flaw(alloc, registered, &kind.key, &kind.value)?;
        let found = behind_key(&kind.key, found)?;
        if found.is_some() {
            return Ok(found);
        }
    }
    Ok(None)
}

// A bad name or shape, too many attributes, a kind of the registry.
fn kind_flaw(
    alloc: Global,
    registered: &[KindDef],
    name: &Text,
    definition: &Value,
) -> Result<Option<Path>, AllocError>
    ensures { IfOk result (λ o. o
        ≡ the_kind_flaw registered.now name.now (data_of definition.now)) }
{
    if let Some(path) = here_unless(alloc, is_kind_name(name.as_str())) {
        return Ok(Some(path));
    }
    if let Some(path) = definition_shape(alloc, definition)? {
        return Ok(Some(path));
    }
    if let Some(path) = with_many_attributes(alloc, definition)? {
        return Ok(Some(path));
    }
    Ok(here_unless(alloc, !is_registered(registered, name)))
}

// More than 64 attributes, each counted once.
fn with_many_attributes(alloc: Global, definition: &Value) -> Result<Option<Path>, AllocError>
    ensures { IfOk result (λ o. o ≡ the_with_many_attributes (data_of definition.now)) }
{
    let are_few = are_few_attributes(alloc, definition)?;
    behind_name(alloc, "attributes", here_unless(alloc, are_few))
}

// Whether the program has registered a kind of this name.
fn is_registered(registered: &[KindDef], name: &Text) -> bool
    ensures { result ≡ is_some (kind_named name.now registered.now) }
{
    named(registered, name).is_some()
}

// Whether a text is 1 to 255 ASCII letters, digits, `_`, `.`, `:`, `-`.
fn is_kind_name(name: &str) -> bool
    ensures { result ≡ the_is_kind_name name.now }
{
    let bytes = name.as_bytes();
    1 <= bytes.len() && bytes.len() <= 255 && are_kind_bytes(bytes)
}

// Whether the bytes are all such as a kind's name has.
fn are_kind_bytes(bytes: &[u8]) -> bool
    ensures { result ≡ list_all the_is_kind_byte bytes.now }
{
    bytes.iter().all(|byte| is_kind_byte(*byte))
}

// A letter or digit, all ASCII, or one of `_`, `.`, `:` and `-`.
fn is_kind_byte(byte: u8) -> bool
    ensures { result ≡ the_is_kind_byte byte }
{
    byte.is_ascii_alphanumeric() || byte == b'_' || byte == b'.' || byte == b':' || byte == b'-'
}
