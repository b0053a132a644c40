//! Kinds, items and plans that no template asks for, put together part by part, for tests and figures alone:
//! no program stands on this crate. Boxes are the only kind here, and no item needs another. What each call
//! makes stands in `specs/Parts.antt`.
#![tactic(auto)]

mod items;
mod plans;

pub use items::{bare_item, boxes, item_of};
pub use plans::{no_plan, plan_of};
