//! The kinds that definitions say.
ghost use Rattle.std.specs.Prelude.{◌≡◌, IfOk};
ghost use Rattle.heat_value.specs.Meaning.{data_of};
ghost use Rattle.hot_catalog.specs.Definitions.{definition_of as the_definition_of};
ghost use Rattle.hot_catalog.specs.Definitions.{definitions_of as the_definitions_of};

use crate::attributes::attributes_in;
use crate::properties::properties_in;
use heat_value::{Member, Props, TryCopy};
use std::alloc::{AllocError, Global};
use type_catalog::KindDef;

/// The kinds of a line's members, in their order.
pub fn definitions_of(alloc: Global, line: &Props) -> Result<Vec<KindDef>, AllocError>
    ensures { IfOk result (λ ks. ks.items ≡ the_definitions_of line.now) }
{
    let mut kinds = Vec::new(alloc);
    for member in line.as_slice() {
        kinds.push(definition_of(alloc, member)?)?;
    }
    Ok(kinds)
}

// The kind of a catalogue's member.
fn definition_of(alloc: Global, member: &Member) -> Result<KindDef, AllocError>
    ensures { IfOk result (λ k. k ≡ the_definition_of member.now.key (data_of member.now.value)) }
{
    Ok(KindDef {
        name: member.key.copy()?,
        props: properties_in(alloc, &member.value)?,
        attrs: attributes_in(alloc, &member.value)?,
    })
}
