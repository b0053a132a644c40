//! Whether parts make a plan.
ghost use Rattle.std.specs.Prelude.{◌↔◌, IsTrue, IfOk};
ghost use Rattle.heat_plan.specs.Plans.{IsPlan};

use crate::names::{are_apart, are_met};
use crate::needs::have_no_cycle;
use heat_plan::{Item, ResName, are_in_order};
use std::alloc::{AllocError, Global};

/// Whether these items and absent names are those of a plan. 2^32 items count as more than there is memory for.
pub fn is_plan(alloc: Global, items: &[Item], absent: &[ResName]) -> Result<bool, AllocError>
    ensures { IfOk result (λ b. IsTrue b ↔ IsPlan items.now absent.now) }
{
    if !are_in_order(items) {
        return Ok(false);
    }
    if !are_met(items) {
        return Ok(false);
    }
    if !are_apart(items, absent) {
        return Ok(false);
    }
    have_no_cycle(alloc, items)
}
