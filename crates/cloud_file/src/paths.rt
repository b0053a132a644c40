//! Paths, seen from one step above.
ghost use Rattle.std.specs.Prelude.{◌≡◌, ◌∷◌, IfOk};

use heat_value::{Path, Step, Text};
use std::alloc::{AllocError, Global};

/// The path of what stands under this key.
pub fn under_key(alloc: Global, key: &str, path: Path) -> Result<Path, AllocError>
    ensures { IfOk result (λ p. p ≡ Step.Key key.now ∷ path) }
{
    path.under(Step::Key(Text::from_str(alloc, key)?))
}
