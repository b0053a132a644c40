//! Copies of what a mark says of a failure.
ghost use Rattle.std.specs.Prelude.{◌≡◌, IfOk};

use core_state::{Cause, Why};
use heat_value::TryCopy;
use std::alloc::AllocError;

/// The same cause again.
pub(crate) fn copy_cause(cause: &Cause) -> Result<Cause, AllocError>
    ensures { IfOk result (λ c. c ≡ cause.now) }
{
    Ok(Cause {
        name: cause.name.copy()?,
        row: cause.row,
        why: copy_why(&cause.why)?,
    })
}

// A copy of the reason of a failure.
fn copy_why(why: &Why) -> Result<Why, AllocError>
    ensures { IfOk result (λ w. w ≡ why.now) }
{
    Ok(match why {
        Why::Quota => Why::Quota,
        Why::Failed(act) => Why::Failed(*act),
        Why::Broken(act, code) => Why::Broken(*act, code.copy()?),
        Why::Resolve(code, path) => Why::Resolve(code.copy()?, path.copy()?),
    })
}
