//! What is wrong, and where.
ghost use Rattle.std.specs.Prelude.{◌≡◌, IfOk};

use crate::HotCode;
use heat_value::{Path, Step};
use std::alloc::{AllocError, Global};

/// A code with the path of what it speaks of.
#[derive(Debug, Drop)]
pub struct Flaw {
    pub code: HotCode,
    pub path: Path,
}

impl Flaw {
    ghost use Rattle.hot_forms.specs.Checks.{wrong, deeper};

    /// The flaw of the root itself.
    pub fn at_root(alloc: Global, code: HotCode) -> Flaw
        ensures { result ≡ wrong code }
    {
        Flaw {
            code,
            path: Path::root(alloc),
        }
    }

    /// The same flaw, seen from one step above.
    pub fn under(self, step: Step) -> Result<Flaw, AllocError>
        ensures { IfOk result (λ f. f ≡ deeper step self) }
    {
        Ok(Flaw {
            code: self.code,
            path: self.path.under(step)?,
        })
    }
}
