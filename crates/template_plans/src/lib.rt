//! The plan of a body, or its first fault: the body's template is read, its parameters are bound, and it is
//! admitted. What each of these takes stands with hot_tree, hot_params and hot_admit; here they are put in
//! their order. It answers to `specs/Plans.antt`. Nothing here knows of a state: whose plan it is and which
//! kinds stand is given.
#![tactic(auto)]

mod fault;
mod plan;

pub use fault::PlanFault;
pub use plan::plan_of;
