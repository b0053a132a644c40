//! The plan of one item, and that of nothing.
ghost use Rattle.std.specs.Prelude.{◌≡◌, [], ◌∷◌, IfOk};
ghost use Rattle.heat_plan.specs.Plans.{IsPlan};
ghost use Rattle.sample_plans.specs.Parts.{plan_with};

use heat_plan::{ByName, Item, Parameters, Plan};
use heat_value::Seq;
use std::alloc::{AllocError, Global};

/// The plan of one item, with nothing beside it.
pub fn plan_of(alloc: Global, item: Item) -> Result<Plan, AllocError>
    requires { item.needs ≡ [] }
    ensures { IfOk result (λ p. p ≡ plan_with (item ∷ [])) }
{
    let mut items = Seq::new(alloc);
    items.push(item)?;
    Ok(plan_with(alloc, items))
}

/// The plan of nothing.
pub fn no_plan(alloc: Global) -> Plan
    ensures { result ≡ plan_with [] }
{
    plan_with(alloc, Seq::new(alloc))
}

// The plan of these items, with nothing beside them.
fn plan_with(alloc: Global, items: Seq<Item>) -> Plan
    requires { IsPlan items [] }
    ensures { result ≡ plan_with items }
{
    Plan::new(
        items,
        Seq::new(alloc),
        Parameters::new(alloc),
        ByName::new(alloc),
        ByName::new(alloc),
        Seq::new(alloc),
    )
}
