//! Whether a state is tied up in itself, as an image has to be.
ghost use Rattle.std.specs.Prelude.{◌↔◌, IfOk, IsTrue};
ghost use Rattle.step_relation.specs.Images.{IsMade, IsTied};

use crate::currents::is_current_newest;
use crate::owners::{are_apart, is_owned};
use crate::records::are_tied;
use core_state::State;
use std::alloc::{AllocError, Global};

/// Whether all that is asked of an image alone holds of the state: numbers that were drawn, chains of
/// replacement, locks and owners, targets, and released tokens that are no row's.
pub fn is_tied(alloc: Global, s: &State) -> Result<bool, AllocError>
    requires { IsMade s.now.state }
    ensures { IfOk result (λ b. IsTrue b ↔ IsTied s.now.state) }
{
    if !are_tied(s) {
        return Ok(false);
    }
    if !are_apart(alloc, s)? {
        return Ok(false);
    }
    if !is_owned(alloc, s)? {
        return Ok(false);
    }
    is_current_newest(alloc, s)
}
