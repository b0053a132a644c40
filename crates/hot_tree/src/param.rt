//! The parameters of a template.
ghost use Rattle.std.specs.Prelude.{◌≡◌, IfOk};
ghost use Rattle.heat_value.specs.Meaning.{data_of};
ghost use Rattle.hot_tree.specs.Readings.{AreEach};
ghost use Rattle.hot_tree.specs.PartEntries.{IsParam, sort_of as the_sort_of};

use crate::Constraint;
use crate::constraint::constraints_of;
use crate::reading::{copied, members_in};
use heat_value::{Member, Props, Seq, Text, TryCopy, Value};
use hot_forms::{Sort, found, section, sort_in};
use std::alloc::{AllocError, Global};

/// A parameter: its type, its default that isn't null, and its constraints in the order as written.
#[derive(Debug)]
pub struct Param {
    pub name: Text,
    pub sort: Sort,
    pub default: Option<Value>,
    pub constraints: Seq<Constraint>,
}

impl Drop for Param {
    fn drop(self) {
        let Param {
            name: _,
            sort: _,
            default: _,
            constraints: _,
        } = self;
    }
}

/// The parameters of the entries, in their order.
pub(crate) fn params_of(alloc: Global, entries: &Props) -> Result<Seq<Param>, AllocError>
    ensures { IfOk result (λ ps. AreEach IsParam entries.now ps) }
{
    let members = entries.as_slice();
    let mut params = Seq::with_capacity(alloc, members.len())?;
    for member in members {
        params.push(param_of(alloc, member)?)?;
    }
    Ok(params)
}

// A parameter, by its entry in the template.
fn param_of(alloc: Global, entry: &Member) -> Result<Param, AllocError>
    ensures { IfOk result (λ p. IsParam entry.now.key (data_of entry.now.value) p) }
{
    let none = Props::new(alloc);
    let fields = members_in(&entry.value, &none);
    Ok(Param {
        name: entry.key.copy()?,
        sort: sort_of(sort_in(found(alloc, fields, "type")?)),
        default: copied(section(alloc, fields, "default")?)?,
        constraints: constraints_of(alloc, found(alloc, fields, "constraints")?)?,
    })
}

// The type that stands there; a right parameter always has one.
fn sort_of(sort: Option<Sort>) -> Sort
    ensures { result ≡ the_sort_of sort }
{
    match sort {
        Some(sort) => sort,
        None => Sort::Words,
    }
}
