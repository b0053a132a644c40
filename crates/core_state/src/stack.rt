//! A stack and its newest traversal.

use crate::shared_plan::SharedPlan;
use heat_plan::{Act, StackName, StackNo, Status, TravNo};
use heat_value::{Equals, TryCopy, copy_option};
use keyed_table::Keyed;
use std::alloc::AllocError;

/// A stack: the number of its newest traversal, what that does and how far it is, and its plan. A plan
/// of None means a delete.
#[derive(Debug)]
pub struct Stack {
    pub name: StackName,
    pub no: StackNo,
    pub trav: TravNo,
    pub act: Act,
    pub status: Status,
    pub plan: Option<SharedPlan>,
}

impl Drop for Stack {
    fn drop(self) {
        let Stack {
            name: _,
            no: _,
            trav: _,
            act: _,
            status: _,
            plan: _,
        } = self;
    }
}

impl Keyed for Stack {
    type Key = StackName;

    ghost use Rattle.std.specs.Str.{bytes_eq};
    ghost use Rattle.keyed_table.specs.Sortings.{text_below};
    ghost use Rattle.keyed_table.proofs.Sortings.{text_sorting};

    ghost key_of = { λ s. s.name };

    ghost same = { bytes_eq };

    ghost below = { text_below };

    fn key(&self) -> &StackName {
        &self.name
    }

    fn has_key(&self, key: &StackName) -> bool {
        self.name == *key
    }

    fn is_below(&self, key: &StackName) -> bool {
        self.name.cmp(key).is_lt()
    }

    ghost sorts = { text_sorting };
}

impl TryCopy for Stack {
    fn copy(&self) -> Result<Stack, AllocError> {
        Ok(Stack {
            name: self.name.copy()?,
            no: self.no,
            trav: self.trav,
            act: self.act,
            status: self.status,
            plan: copy_option(&self.plan)?,
        })
    }
}

impl Equals for Stack {
    fn equals(&self, other: &Stack) -> bool {
        self.name.equals(&other.name)
            && self.no == other.no
            && self.trav == other.trav
            && self.act == other.act
            && self.status == other.status
            && self.plan.equals(&other.plan)
    }
}
