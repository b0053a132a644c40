//! Whether parts make a plan: items in byte order whose needs are items and have no cycle, and absent names
//! that are no item's. It tells that alone, and not what is wrong. It answers to `IsPlan` of heat_plan.
#![tactic(auto)]

mod names;
mod needs;
mod plan;

pub use plan::is_plan;
