//! The outputs of a template.
ghost use Rattle.std.specs.Prelude.{◌≡◌, IfOk};
ghost use Rattle.heat_value.specs.Meaning.{data_of};
ghost use Rattle.hot_tree.specs.Readings.{AreEach};
ghost use Rattle.hot_tree.specs.PartEntries.{IsOut};

use crate::reading::{members_in, or_null, value_at};
use heat_value::{Member, Props, Seq, Text, TryCopy, Value};
use std::alloc::{AllocError, Global};

/// An output: its value as written, and its condition where it has one.
#[derive(Debug)]
pub struct Out {
    pub name: Text,
    pub value: Value,
    pub cond: Option<Value>,
}

impl Drop for Out {
    fn drop(self) {
        let Out {
            name: _,
            value: _,
            cond: _,
        } = self;
    }
}

/// The outputs of the entries, in their order.
pub(crate) fn outputs_of(alloc: Global, entries: &Props) -> Result<Seq<Out>, AllocError>
    ensures { IfOk result (λ os. AreEach IsOut entries.now os) }
{
    let members = entries.as_slice();
    let mut outputs = Seq::with_capacity(alloc, members.len())?;
    for member in members {
        outputs.push(out_of(alloc, member)?)?;
    }
    Ok(outputs)
}

// An output, by its entry in the template.
fn out_of(alloc: Global, entry: &Member) -> Result<Out, AllocError>
    ensures { IfOk result (λ o. IsOut entry.now.key (data_of entry.now.value) o) }
{
    let none = Props::new(alloc);
    let fields = members_in(&entry.value, &none);
    Ok(Out {
        name: entry.key.copy()?,
        value: or_null(value_at(alloc, fields, "value")?),
        cond: value_at(alloc, fields, "condition")?,
    })
}
