//! The value of one parameter.
ghost use Rattle.std.specs.Prelude.{◌≡◌, IfOk, IfErr, map, option_map};
ghost use Rattle.heat_value.specs.Data.{no_members};
ghost use Rattle.heat_value.specs.Meaning.{data_of};
ghost use Rattle.hot_forms.specs.Shapes.{members_in};
ghost use Rattle.hot_params.specs.Bindings.{chosen as the_chosen, constraints_of, IsOutcome};
ghost use Rattle.hot_params.specs.Bindings.{IsValueOf, IsOwnFault, IsFault};
ghost use Rattle.hot_params.specs.Codes.{at_parameter, at_constraint};

use crate::constraint::entry_code;
use crate::conversion::converted;
use crate::{ParamCode, ParamFault, ParamFlaw};
use heat_value::{Items, Member, Props, Text, Value};
use hot_forms::{Sort, found, section, sort_in};
use std::alloc::{AllocError, Global};
use type_catalog::Registry;

/// A constraint's place with the code that it gives.
#[derive(Clone, Copy, Debug, PartialEq, Eq)]
pub struct Unmet {
    pub place: usize,
    pub code: ParamCode,
}

/// The value of an entry of `parameters` that is given this, or what is wrong with it.
pub fn entry_value(
    alloc: Global,
    registry: &Registry,
    param: &Member,
    given: Option<&Value>,
) -> Result<Value, ParamFault>
    ensures ok { IfOk result (λ v. IsValueOf (map (λ t. t.test) registry.now.customs)
        (option_map (λ g. data_of g.now) given.entry) (members_in (data_of param.now.value)) (data_of v)) }
    ensures err { IfErr result (λ e. IsOwnFault (map (λ t. t.test) registry.now.customs) param.now.key
        (option_map (λ g. data_of g.now) given.entry) (members_in (data_of param.now.value)) e) }
{
    let none = Props::new(alloc);
    value_of(
        alloc,
        registry,
        &param.key,
        given,
        members_of(&param.value, &none),
    )
}

// The members of an object; any other value has none, as `none` has.
fn members_of<'a>(value: &'a Value, none: &'a Props) -> &'a Props
    requires { none.now ≡ no_members }
    ensures { result.now ≡ members_in (data_of value.now) }
{
    match value {
        Value::Fields(fields) => fields,
        Value::Null | Value::Flag(_) | Value::Whole(_) | Value::Words(_) | Value::Items(_) => none,
    }
}

// The same of its members under its name.
fn value_of(
    alloc: Global,
    registry: &Registry,
    name: &Text,
    given: Option<&Value>,
    fields: &Props,
) -> Result<Value, ParamFault>
    ensures ok { IfOk result (λ v. IsValueOf (map (λ t. t.test) registry.now.customs)
        (option_map (λ g. data_of g.now) given.entry) fields.now (data_of v)) }
    ensures err { IfErr result (λ e. IsOwnFault (map (λ t. t.test) registry.now.customs) name.now
        (option_map (λ g. data_of g.now) given.entry) fields.now e) }
{
    let Some(value) = chosen(alloc, given, fields)? else {
        return Err(fault_at(alloc, name, ParamCode::P01));
    };
    let sort = sort_in(found(alloc, fields, "type")?);
    let Some(value) = converted(alloc, sort, value)? else {
        return Err(fault_at(alloc, name, ParamCode::P03));
    };
    match first_unmet(alloc, registry, sort, fields, &value)? {
        Some(unmet) => Err(fault_of(alloc, name, unmet)),
        None => Ok(value),
    }
}

/// A code at the parameter of this name, or want of memory.
pub fn fault_at(alloc: Global, name: &Text, code: ParamCode) -> ParamFault
    ensures { IsFault (at_parameter name.now code) result }
{
    match ParamFlaw::at_parameter(alloc, name, code) {
        Ok(flaw) => ParamFault::Wrong(flaw),
        Err(_) => ParamFault::Memory,
    }
}

// The code of a constraint, at its place.
fn fault_of(alloc: Global, name: &Text, unmet: Unmet) -> ParamFault
    ensures { IsFault (at_constraint name.now unmet.place unmet.code) result }
{
    match ParamFlaw::at_constraint(alloc, name, unmet.place, unmet.code) {
        Ok(flaw) => ParamFault::Wrong(flaw),
        Err(_) => ParamFault::Memory,
    }
}

// What is given, else the default that isn't null.
fn chosen<'a>(
    alloc: Global,
    given: Option<&'a Value>,
    fields: &'a Props,
) -> Result<Option<&'a Value>, AllocError>
    ensures { IfOk result (λ o. option_map (λ v. data_of v.now) o
        ≡ the_chosen (option_map (λ g. data_of g.now) given.entry) fields.now) }
{
    match given {
        Some(value) => Ok(Some(value)),
        None => section(alloc, fields, "default"),
    }
}

// The first constraint that isn't met.
fn first_unmet(
    alloc: Global,
    registry: &Registry,
    sort: Option<Sort>,
    fields: &Props,
    value: &Value,
) -> Result<Option<Unmet>, AllocError>
    ensures { IfOk result (λ o. IsOutcome (map (λ t. t.test) registry.now.customs) sort
        (data_of value.now) (constraints_of fields.now) o) }
{
    match found(alloc, fields, "constraints")? {
        Some(Value::Items(entries)) => first_of(alloc, registry, sort, entries, value),
        Some(Value::Null | Value::Flag(_) | Value::Whole(_)) => Ok(None),
        Some(Value::Words(_) | Value::Fields(_)) | None => Ok(None),
    }
}

// The first constraint that the value doesn't meet.
fn first_of(
    alloc: Global,
    registry: &Registry,
    sort: Option<Sort>,
    entries: &Items,
    value: &Value,
) -> Result<Option<Unmet>, AllocError>
    ensures { IfOk result (λ o. IsOutcome (map (λ t. t.test) registry.now.customs) sort
        (data_of value.now) entries.now o) }
{
    for (place, entry) in entries.as_slice().iter().enumerate() {
        if let Some(code) = entry_code(alloc, registry, sort, entry, value)? {
            return Ok(Some(Unmet { place, code }));
        }
    }
    Ok(None)
}
