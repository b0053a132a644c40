//! Plans that have several holders.
ghost use Rattle.std.specs.Prelude.{◌≡◌};
ghost use Rattle.plan_codec.specs.Parts.{spelled_option, IsIfSome};
ghost use Rattle.plan_codec.specs.Plans.{spelled_plan, IsProperPlan};
ghost use Rattle.plan_codec.specs.Sheets.{behind};

use crate::of::Of;
use core_state::SharedPlan;
use plan_codec::{Plan, Readable, Sheet, Unread, Writable};
use std::alloc::Global;

impl Readable for Of<SharedPlan> {
    ghost use Rattle.plan_codec.specs.Plans.{spelled_plan, IsProperPlan};
    ghost use Rattle.plan_codec.specs.PlanLaws.{plan_unique};

    ghost spelled = { spelled_plan };

    ghost proper = { IsProperPlan };

    fn read<'a>(alloc: Global, bytes: &'a [u8]) -> Result<(Of<SharedPlan>, &'a [u8]), Unread> {
        let (plan, rest) = Plan::read(alloc, bytes)?;
        let plan = SharedPlan::new(alloc, plan)?;
        Ok((Of { thing: plan }, rest))
    }

    ghost unique = { plan_unique };
}

/// The plan that was read, if there is one.
pub(crate) fn plan_of(plan: Option<Of<SharedPlan>>) -> Option<SharedPlan>
    ensures { result ≡ plan }
{
    match plan {
        Some(of) => Some(of.thing),
        None => None,
    }
}

/// Puts a plan, if there is one.
#[tactic(auto, using(crate::proofs::Puts::puts))]
pub(crate) fn put_plan(plan: &Option<SharedPlan>, sheet: &mut Sheet)
    ensures bytes { sheet.new ≡ behind sheet.old (spelled_option spelled_plan plan.now) }
    ensures proper { IsIfSome IsProperPlan plan.now }
{
    match plan {
        Some(plan) => {
            sheet.put(1);
            plan.plan().put(sheet);
        }
        None => sheet.put(0),
    }
}
