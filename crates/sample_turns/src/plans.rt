//! The plans of bodies, where boxes alone stand.

use heat_plan::{Plan, StackName, StackNo};
use heat_value::{TryCopy, Value};
use hot_catalog::Catalog;
use hot_params::Ids;
use script_lines::Body;
use std::alloc::{AllocError, Global};
use template_plans::{PlanFault, plan_of};
use type_catalog::Registry;

// A box, of which `link` and `size` change in place.
const KINDS: &[u8] = b"{\"Test::Box\":{\"attributes\":[\"addr\",\"link\",\"size\"],\"properties\":{\
    \"link\":{\"update_allowed\":true},\"size\":{\"update_allowed\":true},\"zone\":{}}}}";

/// The plan of a body for the stack of this name.
pub fn plan_for(alloc: Global, name: &StackName, body: &Body) -> Result<Plan, PlanFault> {
    let registry = Registry::empty(alloc);
    let catalog = boxes(alloc, &registry)?;
    let ids = ids_of(name)?;
    plan_of(alloc, body, &catalog, &ids, &registry)
}

// The catalogue of boxes.
fn boxes(alloc: Global, registry: &Registry) -> Result<Catalog, AllocError> {
    let mut catalog = Catalog::new(alloc, registry)?;
    take_boxes(alloc, &mut catalog)?;
    Ok(catalog)
}

// Takes the boxes, whose definition has no fault but want of memory.
fn take_boxes(alloc: Global, catalog: &mut Catalog) -> Result<(), AllocError> {
    let Ok(kinds) = Value::read(alloc, KINDS) else {
        return Err(AllocError);
    };
    match catalog.read(alloc, &kinds) {
        Ok(()) => Ok(()),
        Err(_) => Err(AllocError),
    }
}

// The name with the number 1.
fn ids_of(name: &StackName) -> Result<Ids, AllocError> {
    let no = StackNo::new(1).ok_or(AllocError)?;
    Ok(Ids {
        stack: name.copy()?,
        no,
    })
}
