//! The resolution of an item's properties.
ghost use Rattle.std.specs.Prelude.{◌≡◌, IfOk};
ghost use Rattle.eval_words.specs.Resolve.{resolve};
ghost use Rattle.hot_resolve.specs.Resolutions.{resolved_of};

use heat_plan::{Item, KnownFacts, Plan, Properties};
use heat_value::{Path, Text};
use hot_eval::EvalFault;
use std::alloc::{AllocError, Global};

/// An item's properties; or the code of a fault, and where in the template it stands.
#[derive(Debug, Drop)]
pub enum Resolution {
    Props(Properties),
    Fault(Text, Path),
}

/// What the item resolves to, with the facts of what it needs.
#[tactic(auto, unfolding(eval_words::specs::Resolve::resolve))]
pub fn resolve(
    alloc: Global,
    plan: &Plan,
    item: &Item,
    known: &[KnownFacts],
) -> Result<Resolution, AllocError>
    ensures { IfOk result (λ r. resolved_of r ≡ resolve plan.now item.now known.now) }
{
    match hot_eval::resolve(alloc, plan, item, known) {
        Ok(props) => Ok(Resolution::Props(props)),
        Err(EvalFault::Wrong(code, path)) => {
            let code = Text::from_str(alloc, code.text())?;
            Ok(Resolution::Fault(code, path))
        }
        Err(EvalFault::Memory) => Err(AllocError),
    }
}
