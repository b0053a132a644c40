//! The resources of a template.
ghost use Rattle.std.specs.Prelude.{◌≡◌, IfOk, codes};
ghost use Rattle.heat_value.specs.Data.{lookup, Rises, fields as fields_data};
ghost use Rattle.heat_value.specs.Meaning.{data_of};
ghost use Rattle.hot_tree.specs.Readings.{AreEach, text_or, object_in, or_null as the_or_null};
ghost use Rattle.hot_tree.specs.PartEntries.{IsRes};

use crate::reading::{members_in, object_at, or_null, text_at, value_at};
use heat_value::{Member, Props, Seq, Text, TryCopy, Value};
use std::alloc::{AllocError, Global};

/// A resource. Absent and null objects are empty; `depends_on` is the value as written, null where
/// absent; `policy` is the text as written, `Delete` where absent.
#[derive(Debug)]
pub struct Res {
    pub name: Text,
    pub kind: Text,
    pub props: Props,
    pub metadata: Value,
    pub depends_on: Value,
    pub policy: Text,
    pub update_policy: Props,
    pub external_id: Option<Value>,
    pub cond: Option<Value>,
}

impl Drop for Res {
    fn drop(self) {
        let Res {
            name: _,
            kind: _,
            props: _,
            metadata: _,
            depends_on: _,
            policy: _,
            update_policy: _,
            external_id: _,
            cond: _,
        } = self;
    }
}

/// The resources of the entries, in their order, which is that of their names.
pub(crate) fn resources_of(alloc: Global, entries: &Props) -> Result<Seq<Res>, AllocError>
    ensures exact { IfOk result (λ rs. AreEach IsRes entries.now rs) }
    ensures rising { Rises entries.now }
{
    let members = entries.as_slice();
    let mut resources = Seq::with_capacity(alloc, members.len())?;
    for member in members {
        resources.push(res_of(alloc, member)?)?;
    }
    Ok(resources)
}

// A resource, by its entry in the template.
fn res_of(alloc: Global, entry: &Member) -> Result<Res, AllocError>
    ensures { IfOk result (λ r. IsRes entry.now.key (data_of entry.now.value) r) }
{
    let none = Props::new(alloc);
    let fields = members_in(&entry.value, &none);
    let Wants {
        kind,
        props,
        metadata,
    } = wants_of(alloc, fields)?;
    let Rules {
        depends_on,
        policy,
        update_policy,
    } = rules_of(alloc, fields)?;
    Ok(Res {
        name: entry.key.copy()?,
        kind,
        props,
        metadata,
        depends_on,
        policy,
        update_policy,
        external_id: value_at(alloc, fields, "external_id")?,
        cond: value_at(alloc, fields, "condition")?,
    })
}

// What is wanted of a resource.
#[derive(Debug, Drop)]
struct Wants {
    kind: Text,
    props: Props,
    metadata: Value,
}

// What is wanted: a type, properties and metadata.
fn wants_of(alloc: Global, fields: &Props) -> Result<Wants, AllocError>
    ensures kind { IfOk result (λ w. w.kind ≡ text_or (codes "") (lookup (codes "type") fields.now)) }
    ensures props { IfOk result (λ w. w.props ≡ object_in (lookup (codes "properties") fields.now)) }
    ensures metadata { IfOk result (λ w. data_of w.metadata
        ≡ fields_data (object_in (lookup (codes "metadata") fields.now))) }
{
    Ok(Wants {
        kind: text_at(alloc, fields, "type", "")?,
        props: object_at(alloc, fields, "properties")?,
        metadata: Value::Fields(object_at(alloc, fields, "metadata")?),
    })
}

// What rules when a resource is made, changed and deleted.
#[derive(Debug, Drop)]
struct Rules {
    depends_on: Value,
    policy: Text,
    update_policy: Props,
}

// What is to be kept to: what has to be there before, and both policies.
fn rules_of(alloc: Global, fields: &Props) -> Result<Rules, AllocError>
    ensures depends_on { IfOk result (λ r. data_of r.depends_on
        ≡ the_or_null (lookup (codes "depends_on") fields.now)) }
    ensures policy { IfOk result (λ r. r.policy
        ≡ text_or (codes "Delete") (lookup (codes "deletion_policy") fields.now)) }
    ensures update_policy { IfOk result (λ r. r.update_policy
        ≡ object_in (lookup (codes "update_policy") fields.now)) }
{
    Ok(Rules {
        depends_on: or_null(value_at(alloc, fields, "depends_on")?),
        policy: text_at(alloc, fields, "deletion_policy", "Delete")?,
        update_policy: object_at(alloc, fields, "update_policy")?,
    })
}
