//! What the program registers itself. The closures are the program's: no call hands one out that it made.
ghost use Rattle.std.specs.Prelude.{◌≡◌, ◌∷◌, [], Bool, IfOk, map};
ghost use Rattle.type_catalog.specs.Changes.{ChangeOf};
ghost use Rattle.type_catalog.specs.declared.effect.Effect.{Effect as effect_type};
ghost use Rattle.type_catalog.specs.Kinds.{softs_of};
ghost use Rattle.type_catalog.specs.Names.{is_listed};
ghost use Rattle.type_catalog.specs.Shipped.{optional as the_optional, box_kind as the_box_kind};
ghost use Rattle.type_catalog.specs.Shipped.{flavor_test as the_flavor_test};

use crate::{Ask, Change, Custom, Judge, KindDef, NamedTest, PropDef, Registry};
use heat_value::{Seq, Text};
use std::alloc::{AllocError, Global};

/// The registry that the program ships: the judge of `Test::Box`, who asks this closure of changes, and the
/// test `nova.flavor`, which asks this one of texts. `change_of` and `is_flavor` answer as they have to.
pub fn shipped_registry(alloc: Global, change: Change, ask: Ask) -> Result<Registry, AllocError>
    requires changes { Change.IsAlwaysCallable change }
    requires judged { (old new : _) (effect : effect_type) → Change.post change old new effect
        → ∥ ChangeOf (softs_of the_box_kind.props) old.now new.now effect ∥₁ }
    requires asks { Ask.IsAlwaysCallable ask }
    requires told { (t : _) (b : Bool) → Ask.post ask t b → b ≡ is_listed the_flavor_test.allowed t.now }
    ensures judges { IfOk result (λ r. map (λ j. j.kind) r.judges ≡ the_box_kind ∷ []) }
    ensures customs { IfOk result (λ r. map (λ c. c.test) r.customs ≡ the_flavor_test ∷ []) }
{
    let mut judges = Seq::new(alloc);
    judges.push(Judge::new(box_kind(alloc)?, change))?;
    let mut customs = Seq::new(alloc);
    customs.push(Custom::new(flavor_test(alloc)?, ask))?;
    match Registry::new(judges, customs) {
        Some(registry) => Ok(registry),
        None => unreachable!(),
    }
}

/// The kind `Test::Box`: `link` and `size` change in place, `zone` replaces, none is required; the
/// attributes are `addr`, `link`, `size`.
pub fn box_kind(alloc: Global) -> Result<KindDef, AllocError>
    ensures { IfOk result (λ k. k ≡ the_box_kind) }
{
    let mut props = Seq::new(alloc);
    props.push(optional(alloc, "link", true)?)?;
    props.push(optional(alloc, "size", true)?)?;
    props.push(optional(alloc, "zone", false)?)?;
    Ok(KindDef {
        name: Text::from_str(alloc, "Test::Box")?,
        props,
        attrs: texts(alloc, &["addr", "link", "size"])?,
    })
}

// A property that no resource has to have.
fn optional(alloc: Global, name: &str, soft: bool) -> Result<PropDef, AllocError>
    ensures { IfOk result (λ p. p ≡ the_optional name.now soft) }
{
    Ok(PropDef {
        name: Text::from_str(alloc, name)?,
        required: false,
        soft,
    })
}

/// The test `nova.flavor`, which is true of `m1.tiny`, `m1.small`, `m1.medium` and `m1.large`.
pub fn flavor_test(alloc: Global) -> Result<NamedTest, AllocError>
    ensures { IfOk result (λ t. t ≡ the_flavor_test) }
{
    Ok(NamedTest {
        name: Text::from_str(alloc, "nova.flavor")?,
        allowed: texts(alloc, &["m1.tiny", "m1.small", "m1.medium", "m1.large"])?,
    })
}

// The texts as a list.
fn texts(alloc: Global, all: &[&str]) -> Result<Seq<Text>, AllocError>
    ensures { IfOk result (λ s. s ≡ map (λ t. t.now) all.now) }
{
    let mut texts = Seq::with_capacity(alloc, all.len())?;
    for text in all {
        texts.push(Text::from_str(alloc, text)?)?;
    }
    Ok(texts)
}

/// Whether a text is a flavor.
pub fn is_flavor(text: &Text) -> bool
    ensures { result ≡ is_listed the_flavor_test.allowed text.now }
{
    matches!(
        text.as_str(),
        "m1.tiny" | "m1.small" | "m1.medium" | "m1.large"
    )
}
