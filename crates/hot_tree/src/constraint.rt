//! The constraints of a parameter.
ghost use Rattle.std.specs.Prelude.{◌≡◌, IfOk, option_map};
ghost use Rattle.heat_value.specs.Meaning.{data_of};
ghost use Rattle.hot_forms.specs.Parameters.{nodes_in};
ghost use Rattle.hot_forms.specs.Shapes.{members_in};
ghost use Rattle.hot_tree.specs.Constraints.{asked_of, asked_by, asked_among, asked_in as the_asked_in};

use heat_value::{Items, Props, Seq, TryCopy, Value};
use hot_forms::{Rule, rule_of};
use std::alloc::{AllocError, Global};

/// What is asked of a parameter's value, with the argument as written.
#[derive(Debug)]
pub struct Constraint {
    pub rule: Rule,
    pub argument: Value,
}

impl Drop for Constraint {
    fn drop(self) {
        let Constraint {
            rule: _,
            argument: _,
        } = self;
    }
}

/// The constraints of a list, in order. An entry that asks nothing is left out; no right template has one.
pub(crate) fn constraints_of(
    alloc: Global,
    value: Option<&Value>,
) -> Result<Seq<Constraint>, AllocError>
    ensures { IfOk result (λ cs. asked_by cs
        ≡ asked_among (nodes_in (option_map (λ v. data_of v.now) value.entry))) }
{
    match value {
        Some(Value::Items(entries)) => constraints_among(alloc, entries),
        Some(Value::Null | Value::Flag(_) | Value::Whole(_)) => Ok(Seq::new(alloc)),
        Some(Value::Words(_) | Value::Fields(_)) | None => Ok(Seq::new(alloc)),
    }
}

// What the entries of a list ask for; one that asks for nothing is passed over.
fn constraints_among(alloc: Global, entries: &Items) -> Result<Seq<Constraint>, AllocError>
    ensures { IfOk result (λ cs. asked_by cs ≡ asked_among entries.now) }
{
    let mut constraints = Seq::new(alloc);
    for entry in entries.as_slice() {
        if let Some(constraint) = asked_in(entry)? {
            constraints.push(constraint)?;
        }
    }
    Ok(constraints)
}

// What an entry asks.
fn asked_in(entry: &Value) -> Result<Option<Constraint>, AllocError>
    ensures { IfOk result (λ o. option_map (λ c. asked_of c) o
        ≡ the_asked_in (members_in (data_of entry.now))) }
{
    match entry {
        Value::Fields(fields) => first_asked(fields),
        Value::Null | Value::Flag(_) | Value::Whole(_) | Value::Words(_) | Value::Items(_) => {
            Ok(None)
        }
    }
}

// What the first key that names a rule asks.
fn first_asked(fields: &Props) -> Result<Option<Constraint>, AllocError>
    ensures { IfOk result (λ o. option_map (λ c. asked_of c) o ≡ the_asked_in fields.now) }
{
    for member in fields.as_slice() {
        if let Some(rule) = rule_of(member.key.as_str()) {
            let argument = member.value.copy()?;
            return Ok(Some(Constraint { rule, argument }));
        }
    }
    Ok(None)
}
