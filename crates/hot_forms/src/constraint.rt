//! The constraints of a parameter.
ghost use Rattle.std.specs.Prelude.{◌≡◌, ◌||◌, ◌&&◌, IfOk, is_some, bytes_eq, codes, length};
ghost use Rattle.heat_value.specs.Meaning.{data_of};
ghost use Rattle.hot_forms.specs.Constraints.{rule_of as the_rule_of, count_rules as the_count_rules};
ghost use Rattle.hot_forms.specs.Constraints.{has_no_more as the_has_no_more, is_constraint as the_is_constraint};
ghost use Rattle.hot_forms.specs.Constraints.{are_constraints as the_are_constraints};
ghost use Rattle.hot_forms.specs.Constraints.{is_constraint_list as the_is_constraint_list};
ghost use Rattle.hot_forms.specs.Constraints.{rule_flaw as the_rule_flaw, constraint_flaw as the_constraint_flaw};
ghost use Rattle.hot_forms.specs.Constraints.{constraints_flaw as the_constraints_flaw};
ghost use Rattle.hot_forms.specs.Shapes.{members_in, is_text as the_is_text};

use crate::argument::is_argument;
use crate::check::{under_key, under_place, unless};
use crate::rule::{rule_of, suits};
use crate::shape::is_text;
use crate::{Flaw, HotCode, Rule, Sort};
use heat_value::{Items, Member, Props, Value};
use std::alloc::{AllocError, Global};

/// Whether a value is a list of constraints.
pub fn is_constraint_list(value: &Value) -> bool
    ensures { result ≡ the_is_constraint_list (data_of value.now) }
{
    match value {
        Value::Items(items) => are_constraints(items),
        Value::Null | Value::Flag(_) | Value::Whole(_) | Value::Words(_) | Value::Fields(_) => {
            false
        }
    }
}

// Whether every item has the form of a constraint.
fn are_constraints(items: &Items) -> bool
    ensures { result ≡ the_are_constraints items.now }
{
    for value in items.as_slice() {
        if !is_constraint(value) {
            return false;
        }
    }
    true
}

// Whether a value is an object with one constraint key and at most `description`, a text, beside it.
fn is_constraint(value: &Value) -> bool
    ensures { result ≡ the_is_constraint (data_of value.now) }
{
    match value {
        Value::Fields(fields) => count_rules(fields) == 1 && has_no_more(fields),
        Value::Null | Value::Flag(_) | Value::Whole(_) | Value::Words(_) | Value::Items(_) => false,
    }
}

// How many keys name a constraint.
fn count_rules(fields: &Props) -> usize
    ensures { result ≡ the_count_rules fields.now }
{
    let mut count = 0;
    for member in fields.as_slice() {
        if rule_of(member.key.as_str()).is_some() {
            count += 1;
        }
    }
    count
}

// Whether each key names a constraint, or is `description` with a text.
fn has_no_more(fields: &Props) -> bool
    ensures { result ≡ the_has_no_more fields.now }
{
    for member in fields.as_slice() {
        if !is_part(member) {
            return false;
        }
    }
    true
}

// Whether a constraint may have this member: a rule, or a description.
fn is_part(member: &Member) -> bool
    ensures { result ≡ (is_some (the_rule_of member.now.key)
        || (bytes_eq member.now.key (codes "description") && the_is_text (data_of member.now.value))) }
{
    rule_of(member.key.as_str()).is_some()
        || member.key.as_str() == "description" && is_text(&member.value)
}

/// The first flaw of a list of constraints of a parameter of this type.
pub fn constraints_flaw(
    alloc: Global,
    sort: Sort,
    items: &Items,
) -> Result<Option<Flaw>, AllocError>
    ensures { IfOk result (λ o. o ≡ the_constraints_flaw sort 0 items.now) }
{
    for (i, value) in items.as_slice().iter().enumerate() {
        let found = under_place(i, constraint_flaw(alloc, sort, value)?)?;
        if found.is_some() {
            return Ok(found);
        }
    }
    Ok(None)
}

// The flaw of a constraint, at its argument.
fn constraint_flaw(alloc: Global, sort: Sort, value: &Value) -> Result<Option<Flaw>, AllocError>
    ensures { IfOk result (λ o. o ≡ the_constraint_flaw sort (members_in (data_of value.now))) }
{
    match value {
        Value::Fields(fields) => argument_flaw(alloc, sort, fields),
        Value::Null | Value::Flag(_) | Value::Whole(_) | Value::Words(_) | Value::Items(_) => {
            Ok(None)
        }
    }
}

// What is wrong with the first argument that doesn't suit the type.
fn argument_flaw(alloc: Global, sort: Sort, fields: &Props) -> Result<Option<Flaw>, AllocError>
    ensures { IfOk result (λ o. o ≡ the_constraint_flaw sort fields.now) }
{
    for member in fields.as_slice() {
        let rule = rule_of(member.key.as_str());
        let found = under_key(&member.key, rule_flaw(alloc, sort, rule, &member.value))?;
        if found.is_some() {
            return Ok(found);
        }
    }
    Ok(None)
}

// A wrong argument of this constraint, or one that doesn't suit the type.
fn rule_flaw(alloc: Global, sort: Sort, rule: Option<Rule>, value: &Value) -> Option<Flaw>
    ensures { result ≡ the_rule_flaw sort rule (data_of value.now) }
{
    match rule {
        Some(rule) => {
            let right = is_argument(rule, value) && suits(rule, sort);
            unless(alloc, right, HotCode::H12)
        }
        None => None,
    }
}
