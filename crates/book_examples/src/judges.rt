//! The registry of a judge.
ghost use Rattle.type_catalog.specs.Changes.{ChangeOf};

use crate::orders::KIND;
use heat_plan::Properties;
use heat_value::{Seq, Text};
use std::alloc::{AllocError, Global};
use type_catalog::{Change, Effect, Judge, KindDef, PropDef, Registry, change_of};

/// The registry of the judge for which this property changes in place, or of none; none where there is no
/// memory.
pub(crate) fn registry(alloc: Global, judged: Option<&str>) -> Option<Registry> {
    match judged {
        None => Some(Registry::empty(alloc)),
        Some(soft) => match judging(alloc, soft) {
            Ok(registry) => registry,
            Err(_) => None,
        },
    }
}

// The same of a judge.
fn judging(alloc: Global, soft: &str) -> Result<Option<Registry>, AllocError> {
    let mut judges = Seq::new(alloc);
    judges.push(judge(alloc, soft)?)?;
    Ok(Registry::new(judges, Seq::new(alloc)))
}

// The judge of boxes of which this one property changes in place.
fn judge(alloc: Global, soft: &str) -> Result<Judge, AllocError> {
    let kind = kind_of(alloc, soft)?;
    let softs = kind.softs()?;
    let change: Change = Box::new(
        alloc,
        move |old: &Properties, new: &Properties| -> Effect
            ensures { ∥ ChangeOf softs old.now new.now result ∥₁ }
        { change_of(softs.as_slice(), old, new) },
    )?;
    Ok(Judge::new(kind, change))
}

// The kind with this one property.
fn kind_of(alloc: Global, soft: &str) -> Result<KindDef, AllocError> {
    let mut props = Seq::new(alloc);
    props.push(PropDef {
        name: Text::from_str(alloc, soft)?,
        required: false,
        soft: true,
    })?;
    Ok(KindDef {
        name: Text::from_str(alloc, KIND)?,
        props,
        attrs: Seq::new(alloc),
    })
}
