//! What a stack could go back to.

use crate::shared_plan::SharedPlan;
use heat_plan::StackName;
use heat_value::{Equals, TryCopy, copy_option};
use keyed_table::Keyed;
use std::alloc::AllocError;

/// Whether a failure of the stack's newest traversal is rolled back, and the plan that a rollback goes
/// back to: none is the empty plan. A stack without a past has no rollback and no such plan.
#[derive(Debug)]
pub struct Past {
    pub stack: StackName,
    pub rollback: bool,
    pub back: Option<SharedPlan>,
}

impl Drop for Past {
    fn drop(self) {
        let Past {
            stack: _,
            rollback: _,
            back: _,
        } = self;
    }
}

impl Keyed for Past {
    type Key = StackName;

    ghost use Rattle.std.specs.Str.{bytes_eq};
    ghost use Rattle.keyed_table.specs.Sortings.{text_below};
    ghost use Rattle.keyed_table.proofs.Sortings.{text_sorting};

    ghost key_of = { λ p. p.stack };

    ghost same = { bytes_eq };

    ghost below = { text_below };

    fn key(&self) -> &StackName {
        &self.stack
    }

    fn has_key(&self, key: &StackName) -> bool {
        self.stack == *key
    }

    fn is_below(&self, key: &StackName) -> bool {
        self.stack.cmp(key).is_lt()
    }

    ghost sorts = { text_sorting };
}

impl TryCopy for Past {
    fn copy(&self) -> Result<Past, AllocError> {
        Ok(Past {
            stack: self.stack.copy()?,
            rollback: self.rollback,
            back: copy_option(&self.back)?,
        })
    }
}

impl Equals for Past {
    fn equals(&self, other: &Past) -> bool {
        self.stack.equals(&other.stack)
            && self.rollback == other.rollback
            && self.back.equals(&other.back)
    }
}
