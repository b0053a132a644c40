//! The properties that a definition has.
ghost use Rattle.std.specs.Prelude.{◌≡◌, IfOk, option_map};
ghost use Rattle.heat_value.specs.Data.{lookup};
ghost use Rattle.heat_value.specs.Meaning.{data_of};
ghost use Rattle.hot_catalog.specs.Definitions.{is_set as the_is_set, property_of as the_property_of};
ghost use Rattle.hot_catalog.specs.Definitions.{property_with as the_property_with};
ghost use Rattle.hot_catalog.specs.Definitions.{properties_among as the_properties_among};
ghost use Rattle.hot_catalog.specs.Definitions.{properties_in as the_properties_in};

use crate::check::{members_in, members_there};
use heat_value::{Member, Props, Seq, Text, TryCopy, Value};
use hot_forms::found;
use std::alloc::{AllocError, Global};
use type_catalog::PropDef;

/// The properties, in byte order.
pub fn properties_in(alloc: Global, definition: &Value) -> Result<Seq<PropDef>, AllocError>
    ensures { IfOk result (λ s. s ≡ the_properties_in (data_of definition.now)) }
{
    let none = Props::new(alloc);
    let held = found(alloc, members_in(definition, &none), "properties")?;
    properties_among(alloc, members_there(held, &none))
}

// The properties that an object defines, in the order of its keys.
fn properties_among(alloc: Global, members: &Props) -> Result<Seq<PropDef>, AllocError>
    ensures { IfOk result (λ s. s ≡ the_properties_among members.now) }
{
    let mut props = Seq::new(alloc);
    for member in members.as_slice() {
        props.push(property_of(alloc, member)?)?;
    }
    Ok(props)
}

// The property that one member defines.
fn property_of(alloc: Global, member: &Member) -> Result<PropDef, AllocError>
    ensures { IfOk result (λ p. p ≡ the_property_of member.now.key (data_of member.now.value)) }
{
    let none = Props::new(alloc);
    property_with(alloc, &member.key, members_in(&member.value, &none))
}

// A property of this name, with the flags that are on.
fn property_with(alloc: Global, name: &Text, flags: &Props) -> Result<PropDef, AllocError>
    ensures { IfOk result (λ p. p ≡ the_property_with name.now flags.now) }
{
    Ok(PropDef {
        name: name.copy()?,
        required: flag_in(alloc, flags, "required")?,
        soft: flag_in(alloc, flags, "update_allowed")?,
    })
}

// Whether the flag under a key is set.
fn flag_in(alloc: Global, flags: &Props, key: &str) -> Result<bool, AllocError>
    ensures { IfOk result (λ b. b ≡ the_is_set (lookup key.now flags.now)) }
{
    Ok(is_set(found(alloc, flags, key)?))
}

// Whether a flag that stands there is set.
fn is_set(value: Option<&Value>) -> bool
    ensures { result ≡ the_is_set (option_map (λ v. data_of v.now) value.entry) }
{
    match value {
        Some(Value::Flag(flag)) => *flag,
        Some(Value::Null | Value::Whole(_) | Value::Words(_)) => false,
        Some(Value::Items(_) | Value::Fields(_)) | None => false,
    }
}
