//! The passes through a template's sections: each looks at the entries in byte order of their names.
ghost use Rattle.std.specs.Prelude.{◌≡◌, IfOk, option_map};
ghost use Rattle.heat_value.specs.Data.{no_members};
ghost use Rattle.heat_value.specs.Meaning.{data_of};
ghost use Rattle.hot_forms.specs.Checks.{first_entry as the_first_entry};
ghost use Rattle.hot_tree.specs.Functions.{members_there as the_members_there};
ghost use Rattle.hot_tree.specs.Passes.{check_of, section_of as the_section_of};
ghost use Rattle.hot_tree.specs.Whole.{entries as the_entries, in_section};

use crate::condition::condition_flaw;
use crate::functions::{output_functions, resource_functions};
use crate::output::output_flaw;
use crate::resource::resource_flaw;
use heat_value::{Member, Props, Value};
use hot_forms::{Flaw, parameter_flaw, section, under_key, under_name};
use hot_functions::{Place, value_flaw};
use std::alloc::{AllocError, Global};

/// A pass, by the section that it goes through and what it looks for.
#[derive(Clone, Copy, Debug, PartialEq, Eq)]
pub enum Pass {
    /// H07 to H12.
    Parameters,
    /// H07 and H23.
    Conditions,
    /// H07, H13 to H20 and H23.
    Resources,
    /// H07, H21 and H23.
    Outputs,
    /// H22 and H24.
    ConditionFunctions,
    /// H22 and H24.
    ResourceFunctions,
    /// H22 and H24.
    OutputFunctions,
}

/// The first flaw of a pass, among these parameters and conditions.
pub fn pass_flaw(
    alloc: Global,
    pass: Pass,
    params: &Props,
    conds: &Props,
    template: &Props,
) -> Result<Option<Flaw>, AllocError>
    ensures { IfOk result (λ o. o
        ≡ in_section (the_section_of pass) (check_of pass params.now conds.now) template.now) }
{
    let none = Props::new(alloc);
    let members = entries(alloc, section_of(pass), template, &none)?;
    let found = first_entry(alloc, pass, params, conds, members)?;
    under_name(alloc, section_of(pass), found)
}

// The section whose entries the pass looks at.
fn section_of(pass: Pass) -> &'static str
    ensures { result.now ≡ the_section_of pass }
{
    match pass {
        Pass::Parameters => "parameters",
        Pass::Conditions | Pass::ConditionFunctions => "conditions",
        Pass::Resources | Pass::ResourceFunctions => "resources",
        Pass::Outputs | Pass::OutputFunctions => "outputs",
    }
}

/// The entries of a section; an absent one has none, as `none` has.
pub fn entries<'a>(
    alloc: Global,
    key: &str,
    template: &'a Props,
    none: &'a Props,
) -> Result<&'a Props, AllocError>
    requires { none.now ≡ no_members }
    ensures { IfOk result (λ p. p.now ≡ the_entries key.now template.now) }
{
    Ok(members_there(section(alloc, template, key)?, none))
}

// The members of an object that stands there.
fn members_there<'a>(value: Option<&'a Value>, none: &'a Props) -> &'a Props
    requires { none.now ≡ no_members }
    ensures { result.now ≡ the_members_there (option_map (λ v. data_of v.now) value.entry) }
{
    match value {
        Some(Value::Fields(fields)) => fields,
        Some(Value::Null | Value::Flag(_) | Value::Whole(_)) => none,
        Some(Value::Words(_) | Value::Items(_)) | None => none,
    }
}

// The first entry that a pass refuses.
fn first_entry(
    alloc: Global,
    pass: Pass,
    params: &Props,
    conds: &Props,
    entries: &Props,
) -> Result<Option<Flaw>, AllocError>
    ensures { IfOk result (λ o. o
        ≡ the_first_entry (check_of pass params.now conds.now) entries.now) }
{
    for entry in entries.as_slice() {
        let found = entry_flaw(alloc, pass, params, conds, entry)?;
        let found = under_key(&entry.key, found)?;
        if found.is_some() {
            return Ok(found);
        }
    }
    Ok(None)
}

// What a pass finds in an entry.
fn entry_flaw(
    alloc: Global,
    pass: Pass,
    params: &Props,
    conds: &Props,
    entry: &Member,
) -> Result<Option<Flaw>, AllocError>
    ensures { IfOk result (λ o. o
        ≡ check_of pass params.now conds.now entry.now.key (data_of entry.now.value)) }
{
    let (name, value) = (&entry.key, &entry.value);
    match pass {
        Pass::Parameters => parameter_flaw(alloc, name, value),
        Pass::Conditions => condition_flaw(alloc, name, value),
        Pass::Resources => resource_flaw(alloc, name, value),
        Pass::Outputs => output_flaw(alloc, name, value),
        Pass::ConditionFunctions => value_flaw(alloc, params, conds, Place::Condition, value),
        Pass::ResourceFunctions => resource_functions(alloc, params, conds, value),
        Pass::OutputFunctions => output_functions(alloc, params, conds, value),
    }
}
