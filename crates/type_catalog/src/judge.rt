//! A kind whose changes the program judges itself.
ghost use Rattle.std.specs.Prelude.{◌≡◌};
ghost use Rattle.type_catalog.specs.Changes.{ChangeOf};
ghost use Rattle.type_catalog.specs.declared.effect.Effect.{Effect as effect_type};
ghost use Rattle.type_catalog.specs.Kinds.{softs_of};

use crate::{Effect, KindDef};
use heat_plan::Properties;

/// Tells what a change from the first properties to the second asks for.
pub type Change = Box<dyn Fn(&Properties, &Properties) -> Effect + Send + Sync>;

/// A kind with a judge of its changes, which answers as the kind's properties have it.
#[derive(Drop)]
pub struct Judge {
    pub kind: KindDef,
    change: Change,
    ghost callable: { Change.IsAlwaysCallable change },
    ghost exact: { (old new : _) (effect : effect_type) → Change.post change old new effect
        → ∥ ChangeOf (softs_of kind.props) old.now new.now effect ∥₁ },
}

impl Judge {
    /// A kind with its judge.
    pub fn new(kind: KindDef, change: Change) -> Judge
        requires callable { Change.IsAlwaysCallable change }
        requires exact { (old new : _) (effect : effect_type) → Change.post change old new effect
            → ∥ ChangeOf (softs_of kind.props) old.now new.now effect ∥₁ }
        ensures { result.kind ≡ kind }
    {
        Judge { kind, change }
    }

    /// What a change asks for, by the properties that change in place.
    pub fn change(&self, old: &Properties, new: &Properties) -> Effect
        ensures { ChangeOf (softs_of self.now.kind.props) old.now new.now result }
    {
        self.told(old, new)
    }

    // The closure's answer, as the fact beside it tells it.
    fn told(&self, old: &Properties, new: &Properties) -> Effect
        ensures { ∥ ChangeOf (softs_of self.now.kind.props) old.now new.now result ∥₁ }
    {
        (self.change)(old, new)
    }
}
