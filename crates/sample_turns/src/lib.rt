//! The turns of one engine, with the cloud's replies given, and plans of bodies, for tests and figures alone:
//! no program stands on this crate. Each turn is the next step that the book would make; which step that is
//! stands in the crates of the steps. It has no book and asks no cloud, and boxes alone stand.
#![tactic(auto)]

mod plans;
mod replies;
mod turns;

pub use plans::plan_for;
pub use replies::Reply;
pub use turns::{apply, turn};
