//! An input with several holders, so that a copy of a point doesn't copy what its inputs tell.
ghost use Rattle.std.specs.Prelude.{◌≡◌, IfOk};

use crate::Input;
use heat_plan::{Equals, TryCopy};
use std::alloc::{AllocError, Global};
use std::marker::Model;
use std::sync::Arc;

/// An input that is dropped with its last holder, in whatever thread. A copy is one holder more and copies
/// nothing; past 2^63 - 1 holders it answers as for want of memory.
#[derive(Debug, Drop)]
pub struct SharedInput {
    input: Arc<Input, Global>,
}

impl Model for SharedInput {
    ghost use Rattle.std.specs.Coded.{codes};
    ghost use Rattle.heat_plan.specs.Code.{data_code, members_code};
    ghost use Rattle.sync_points.specs.declared.point.Input.{Input};

    ghost Value = { Input };

    ghost coded = { Prim.hlevel (codes, data_code, members_code) };

    ghost view = { λ x. x.input.value };
}

impl SharedInput {
    /// The input with one holder.
    pub fn new(alloc: Global, input: Input) -> Result<SharedInput, AllocError>
        ensures { IfOk result (λ x. x ≡ input) }
    {
        match Arc::new(alloc, input) {
            Ok(input) => Ok(SharedInput { input }),
            Err(_) => Err(AllocError),
        }
    }

    /// The input itself.
    pub fn input(&self) -> &Input
        ensures { result.now ≡ self.now }
    {
        &self.input
    }
}

impl TryCopy for SharedInput {
    fn copy(&self) -> Result<SharedInput, AllocError> {
        Ok(SharedInput {
            input: Arc::try_clone(&self.input)?,
        })
    }
}

impl Equals for SharedInput {
    fn equals(&self, other: &SharedInput) -> bool {
        self.input().equals(other.input())
    }
}
