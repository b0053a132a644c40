//! An engine's step at a clean-up node: its row is kept, purged, given up, or to be deleted. Each
//! function answers the changes and entries of one case of `Move` in `step_relation`. None of them
//! changes the state, asks a provider or writes.
#![tactic(auto)]

mod beginning;
mod cases;
mod keeping;

pub use beginning::begin;
