//! All parameters of a template.
ghost use Rattle.std.specs.Prelude.{◌≡◌, ◌≤◌, Option, IfOk, IfErr, map, option_map};
ghost use Rattle.heat_value.specs.Data.{Data, no_members, members_depth};
ghost use Rattle.heat_value.specs.Meaning.{data_of};
ghost use Rattle.hot_forms.specs.declared.sort.Sort.{Sort as sort_type};
ghost use Rattle.hot_forms.specs.Shapes.{members_in};
ghost use Rattle.hot_tree.specs.PartEntries.{IsParam};
ghost use Rattle.hot_tree.specs.declared.param.Param.{Param as param_type};
ghost use Rattle.hot_tree.specs.Functions.{members_there as the_members_there};
ghost use Rattle.hot_params.specs.Bindings.{AreBound, IsFirstFault};
ghost use Rattle.hot_params.specs.Bound.{IsBoundTo, IsFaultOf, params_of as the_params_of};
ghost use Rattle.hot_params.specs.Bound.{unknown_name as the_unknown_name};
ghost use Rattle.hot_params.specs.Conversions.{ConvertsTo};
ghost use Rattle.hot_params.specs.Typed.{SaysTheSame};

use crate::identity::with_pseudo;
use crate::parameter::{entry_value, fault_at};
use crate::{Bound, Ids, ParamCode, ParamFault};
use heat_plan::Parameters;
use heat_value::{Props, Text, TryCopy, Value};
use hot_forms::section;
use hot_tree::Template;
use std::alloc::{AllocError, Global};
use type_catalog::Registry;

/// The values of a template's parameters, with the pseudo parameters among them, or the first fault:
/// P02 of the first given name that is no parameter's; else of the first parameter, in byte order, P01,
/// P03, or the code of its first constraint that isn't met.
pub fn bind(
    alloc: Global,
    template: &Template,
    given: &Props,
    ids: &Ids,
    registry: &Registry,
) -> Result<Bound, ParamFault>
    requires given { members_depth given.now ≤ 64 }
    requires template { members_depth template.now ≤ 64 }
    ensures ok { IfOk result (λ b. IsBoundTo (map (λ t. t.test) registry.now.customs) ids.now
        template.now given.now b.params) }
    ensures fault { IfErr result (λ e. IsFaultOf (map (λ t. t.test) registry.now.customs)
        template.now given.now e) }

    // Each bound value nests at most 64 deep, as what is given and the template do.
    ensures depth { IfOk result (λ b. members_depth b.params ≤ 64) }

    // A value converts to one value alone, so what a parameter is bound to is one value.
    ensures one { (s : Option sort_type) (d v w : Data) → ConvertsTo s d v → ConvertsTo s d w → v ≡ w }

    // A template's parameters by type say the same as those of its object, which are bound.
    ensures typed { (name : _) (d : Data) (p : param_type) → IsParam name d p → SaysTheSame (members_in d) p }
{
    bound_to(alloc, template, given, ids, registry)
}

// All parameters with their values, or the first fault, where nothing given is too deep.
fn bound_to(
    alloc: Global,
    template: &Template,
    given: &Props,
    ids: &Ids,
    registry: &Registry,
) -> Result<Bound, ParamFault>
    requires given { members_depth given.now ≤ 64 }
    requires template { members_depth template.now ≤ 64 }
    ensures ok { IfOk result (λ b. IsBoundTo (map (λ t. t.test) registry.now.customs) ids.now
        template.now given.now b.params) }
    ensures fault { IfErr result (λ e. IsFaultOf (map (λ t. t.test) registry.now.customs)
        template.now given.now e) }
{
    let none = Props::new(alloc);
    let params = params_of(alloc, template, &none)?;
    if let Some(name) = unknown_name(params, given) {
        return Err(fault_at(alloc, name, ParamCode::P02));
    }
    match values_of(alloc, registry, params, given) {
        Ok(values) => Ok(bound_of(with_pseudo(alloc, ids, values)?)),
        Err(fault) => Err(fault),
    }
}

// Values that nest at most 64 deep, as bound parameters.
fn bound_of(values: Props) -> Bound
    requires { members_depth values ≤ 64 }
    ensures { result.params ≡ values }
{
    match Parameters::from_props(values) {
        Some(params) => Bound { params },
        None => unreachable!(),
    }
}

// The parameters of a template; none where it has no such section, as `none` has.
fn params_of<'a>(
    alloc: Global,
    template: &'a Template,
    none: &'a Props,
) -> Result<&'a Props, AllocError>
    requires { none.now ≡ no_members }
    ensures { IfOk result (λ p. p.now ≡ the_params_of template.now) }
{
    Ok(members_there(section(alloc, template.fields(), "parameters")?, none))
}

// The members of an object that stands there.
fn members_there<'a>(value: Option<&'a Value>, none: &'a Props) -> &'a Props
    requires { none.now ≡ no_members }
    ensures { result.now ≡ the_members_there (option_map (λ v. data_of v.now) value.entry) }
{
    match value {
        Some(Value::Fields(fields)) => fields,
        Some(Value::Null | Value::Flag(_) | Value::Whole(_)) => none,
        Some(Value::Words(_) | Value::Items(_)) | None => none,
    }
}

// The first given name, in byte order, that isn't a parameter's.
fn unknown_name<'a>(params: &Props, given: &'a Props) -> Option<&'a Text>
    ensures { option_map (λ t. t.now) result ≡ the_unknown_name params.now given.now }
{
    for member in given.as_slice() {
        if params.get(&member.key).is_none() {
            return Some(&member.key);
        }
    }
    None
}

// The value of each parameter, or the first fault.
fn values_of(
    alloc: Global,
    registry: &Registry,
    params: &Props,
    given: &Props,
) -> Result<Props, ParamFault>
    ensures ok { IfOk result (λ vs. AreBound (map (λ t. t.test) registry.now.customs) given.now
        params.now vs) }
    ensures err { IfErr result (λ e. IsFirstFault (map (λ t. t.test) registry.now.customs) given.now
        params.now e) }
{
    let mut values = Props::new(alloc);
    for param in params.as_slice() {
        match entry_value(alloc, registry, param, given.get(&param.key)) {
            Ok(value) => values.put(param.key.copy()?, value)?,
            Err(fault) => return Err(fault),
        }
    }
    Ok(values)
}
