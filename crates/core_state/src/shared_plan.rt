//! A plan with several holders, so that a copy of a stack's record doesn't copy its plan.
ghost use Rattle.std.specs.Prelude.{◌≡◌, IfOk};

use heat_plan::Plan;
use heat_value::{Equals, TryCopy};
use std::alloc::{AllocError, Global};
use std::marker::Model;
use std::sync::Arc;

/// A plan that is dropped with its last holder, in whatever thread. A copy is one holder more and copies
/// nothing; past 2^63 - 1 holders it answers as for want of memory.
#[derive(Debug, Drop)]
pub struct SharedPlan {
    plan: Arc<Plan, Global>,
}

impl Model for SharedPlan {
    ghost use Rattle.std.specs.Coded.{codes};
    ghost use Rattle.heat_value.specs.Code.{data_code, members_code};
    ghost use Rattle.heat_plan.specs.Plans.{PlanData};

    ghost Value = { PlanData };

    ghost coded = { Prim.hlevel (codes, data_code, members_code) };

    ghost view = { λ p. p.plan.value };
}

impl SharedPlan {
    /// The plan with one holder.
    pub fn new(alloc: Global, plan: Plan) -> Result<SharedPlan, AllocError>
        ensures { IfOk result (λ p. p ≡ plan) }
    {
        match Arc::new(alloc, plan) {
            Ok(plan) => Ok(SharedPlan { plan }),
            Err(_) => Err(AllocError),
        }
    }

    /// The plan itself.
    pub fn plan(&self) -> &Plan
        ensures { result.now ≡ self.now }
    {
        &self.plan
    }
}

impl TryCopy for SharedPlan {
    fn copy(&self) -> Result<SharedPlan, AllocError> {
        Ok(SharedPlan {
            plan: Arc::try_clone(&self.plan)?,
        })
    }
}

impl Equals for SharedPlan {
    fn equals(&self, other: &SharedPlan) -> bool {
        self.plan().equals(other.plan())
    }
}
