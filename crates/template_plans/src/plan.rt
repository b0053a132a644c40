//! The plan of a body, or its first fault.
ghost use Rattle.std.specs.Prelude.{◌≢◌, IfOk, IfErr, map};
ghost use Rattle.template_plans.specs.Plans.{beside, IsPlanOf, IsNoPlan};

use crate::PlanFault;
use heat_plan::Plan;
use hot_admit::admit;
use hot_catalog::Catalog;
use hot_params::{Ids, bind};
use hot_tree::Template;
use script_lines::Body;
use std::alloc::Global;
use type_catalog::Registry;

/// The plan of a body for this stack, where these kinds stand and the registry's tests are asked; or the
/// first fault: of the template by itself, else of its parameters, else of what it says.
pub fn plan_of(
    alloc: Global,
    body: &Body,
    catalog: &Catalog,
    ids: &Ids,
    registry: &Registry,
) -> Result<Plan, PlanFault>
    ensures ok { IfOk result (λ p. IsPlanOf body.now
        (beside ids.now (map (λ t. t.test) registry.now.customs) catalog.now) p) }
    ensures fault { IfErr result (λ e. e ≢ PlanFault.Memory → IsNoPlan body.now
        (beside ids.now (map (λ t. t.test) registry.now.customs) catalog.now) e) }
{
    let template = Template::from_value(alloc, body.template())?;
    let bound = bind(alloc, &template, body.params(), ids, registry)?;
    Ok(admit(alloc, &template, &bound, body.files(), catalog)?)
}
