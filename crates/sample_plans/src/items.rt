//! The kind of boxes, and items that need nothing.
ghost use Rattle.std.specs.Prelude.{◌≡◌, [], IfOk, map};
ghost use Rattle.heat_value.specs.Data.{no_members};
ghost use Rattle.sample_plans.specs.Parts.{box_with, item_with};

use heat_plan::{Item, Kind, Needs, Policy, Properties, ResName};
use heat_value::{Seq, Text};
use std::alloc::{AllocError, Global};

/// The kind `Test::Box` with these attributes, of which these properties change in place.
pub fn boxes(alloc: Global, attrs: &[&str], soft: &[&str]) -> Result<Kind, AllocError>
    ensures { IfOk result (λ k.
        k ≡ box_with (map (λ t. t.now) attrs.now) (map (λ t. t.now) soft.now)) }
{
    Ok(Kind {
        name: Text::from_str(alloc, "Test::Box")?,
        attrs: texts(alloc, attrs)?,
        soft: texts(alloc, soft)?,
    })
}

// The texts as a list.
fn texts(alloc: Global, all: &[&str]) -> Result<Seq<Text>, AllocError>
    ensures { IfOk result (λ s. s ≡ map (λ t. t.now) all.now) }
{
    let mut texts = Seq::with_capacity(alloc, all.len())?;
    for text in all {
        texts.push(Text::from_str(alloc, text)?)?;
    }
    Ok(texts)
}

/// The item of this name, kind and properties that needs nothing and isn't retained.
pub fn item_of(alloc: Global, name: ResName, kind: Kind, props: Properties) -> Item
    ensures { result ≡ item_with name kind props }
{
    Item {
        name,
        kind,
        props,
        needs: Needs::new(alloc),
        policy: Policy::Delete,
    }
}

/// The box of this name, with no properties.
pub fn bare_item(alloc: Global, name: ResName) -> Result<Item, AllocError>
    ensures { IfOk result (λ i. i ≡ item_with name (box_with [] []) no_members) }
{
    let kind = boxes(alloc, &[], &[])?;
    Ok(item_of(alloc, name, kind, Properties::new(alloc)))
}
