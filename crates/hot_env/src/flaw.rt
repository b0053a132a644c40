//! What is wrong with an environment, and where.
ghost use Rattle.std.specs.Prelude.{◌≡◌, IfOk};
ghost use Rattle.heat_value.specs.declared.path.Step.{Step as step_type};
ghost use Rattle.hot_env.specs.Codes.{wrong, under as the_under, unless as the_unless};

use crate::EnvCode;
use heat_value::{Path, Step, Text, TryCopy};
use std::alloc::{AllocError, Global};

/// A code with the path of what it speaks of, from the body's root on.
#[derive(Debug, Drop)]
pub struct EnvFlaw {
    pub code: EnvCode,
    pub path: Path,
}

impl EnvFlaw {
    /// The code at the value that is looked at.
    pub(crate) fn here(alloc: Global, code: EnvCode) -> EnvFlaw
        ensures { result ≡ wrong code }
    {
        EnvFlaw {
            code,
            path: Path::root(alloc),
        }
    }
}

/// The code, unless this holds.
pub(crate) fn unless(alloc: Global, holds: bool, code: EnvCode) -> Option<EnvFlaw>
    ensures { result ≡ the_unless holds code }
{
    if holds {
        return None;
    }
    Some(EnvFlaw::here(alloc, code))
}

/// What is wrong behind a key.
pub(crate) fn under(key: &Text, found: Option<EnvFlaw>) -> Result<Option<EnvFlaw>, AllocError>
    ensures { IfOk result (λ o. o ≡ the_under (step_type.Key key.now) found) }
{
    match found {
        Some(flaw) => Ok(Some(EnvFlaw {
            code: flaw.code,
            path: flaw.path.under(Step::Key(key.copy()?))?,
        })),
        None => Ok(None),
    }
}
